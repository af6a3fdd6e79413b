//! The variables that are in scope at a place of a text. They lie on the stack and take no memory.

ghost use Rattle.std.specs.Prelude.{◌≡◌, ◌≤◌, ◌<◌, length, IfSome};
ghost use Rattle.bl_syntax.specs.declared.limits.TheConstants.{MOST_FORMULA_NODES};
ghost use Rattle.bl_text.specs.Scope.{variables, place_of, sort_of_place, term_sort, is_same_sort, is_of_wanted_sort};

use bl_syntax::{Short, Sort, Term};

/// The variables in scope, the innermost first.
#[derive(Clone, Copy)]
pub enum Scope<'a> {
    Outermost,
    Inside(Short<32>, Sort, &'a Scope<'a>),
}

impl Scope<'_> {
    /// How many binders stand inside that of the nearest variable of the name; none where it has no binder.
    pub fn place_of(&self, name: &Short<32>) -> Option<u32>
        requires { length (variables self.now) ≤ MOST_FORMULA_NODES }
        ensures value { result ≡ place_of (variables self.now) name.now }
        ensures inside { IfSome result (λ n. n < length (variables self.now)) }
    {
        match self {
            Scope::Outermost => None,
            Scope::Inside(variable, _, others) => {
                if variable == name {
                    Some(0)
                } else {
                    match others.place_of(name) {
                        Some(inner) => Some(inner + 1),
                        None => None,
                    }
                }
            }
        }
    }

    /// The sort of the variable with that many binders inside its own.
    fn sort_of_place(&self, inner: u32) -> Option<Sort>
        ensures { result ≡ sort_of_place (variables self.now) inner }
    {
        match self {
            Scope::Outermost => None,
            Scope::Inside(_, sort, others) => {
                if inner == 0 {
                    Some(*sort)
                } else {
                    others.sort_of_place(inner - 1)
                }
            }
        }
    }

    /// The sort of a term; none for a parameter, which may have any.
    fn term_sort(&self, term: &Term) -> Option<Sort>
        ensures { result ≡ term_sort (variables self.now) term.now }
    {
        match term {
            Term::Prin(_) => Some(Sort::Principal),
            Term::File(_) => Some(Sort::File),
            Term::Perm(_) => Some(Sort::Perm),
            Term::Time(_) | Term::Ctime => Some(Sort::Time),
            Term::Text(_) => Some(Sort::Text),
            Term::Param(_) => None,
            Term::Bound(inner) => self.sort_of_place(*inner),
        }
    }

    /// Whether the term may stand where that sort is wanted.
    pub fn is_of_wanted_sort(&self, wanted: Sort, term: &Term) -> bool
        ensures { result ≡ is_of_wanted_sort (variables self.now) wanted term.now }
    {
        match self.term_sort(term) {
            None => true,
            Some(sort) => is_same_sort(wanted, sort),
        }
    }
}

fn is_same_sort(wanted: Sort, found: Sort) -> bool
    ensures { result ≡ is_same_sort wanted found }
{
    match (wanted, found) {
        (Sort::Principal, Sort::Principal) => true,
        (Sort::File, Sort::File) => true,
        (Sort::Perm, Sort::Perm) => true,
        (Sort::Time, Sort::Time) => true,
        (Sort::Text, Sort::Text) => true,
        _ => false,
    }
}
