//! What is said of a file.

ghost use Rattle.std.specs.Prelude.{◌≡◌, ◌∷◌, [], IfOk};
ghost use Rattle.bl_syntax.specs.Formula.{formula_view, atom};
ghost use Rattle.bl_syntax.specs.declared.terms.Term.TheVariants as terms;
ghost use Rattle.bl_syntax.specs.WellSorted.{may};
ghost use Rattle.mode_policy.specs.Modes.{class_name};
ghost use Rattle.mode_policy.specs.Statements.{class_predicate, class_said, rule_said};

use crate::modes::Class;
use bl_syntax::boxes::{atom_of, both_of, every_of, implies_of, state_of};
use bl_syntax::{
    Formula, NoMemory, NodeId, Perm, Principal, Sort, StatePred, Term, Terms, Text, Word,
};
use std::alloc::Global;

// The name of the class.
fn class_text(class: Class) -> Text
    ensures { result ≡ class_name class }
{
    match class {
        Class::Owner => Text::new(b"owner").unwrap(),
        Class::Group => Text::new(b"group").unwrap(),
        Class::Other => Text::new(b"other").unwrap(),
    }
}

// That the term is of the class for the file.
fn class_atom(
    alloc: Global,
    node: NodeId,
    who: &Term,
    class: Class,
) -> Result<Box<Formula>, NoMemory>
    ensures { IfOk result (λ f. formula_view f.value ≡ atom class_predicate (terms.File node ∷ who.now ∷ terms.Text (class_name class) ∷ [])) }
{
    let mut terms = Terms::new(alloc);
    terms.extend(&[Term::File(node), *who, Term::Text(class_text(class))])?;
    atom_of(alloc, &Word::new(b"class").unwrap(), terms)
}

// That the principal of the variable may have the permission on the file.
fn may_atom(alloc: Global, node: NodeId, perm: Perm) -> Result<Box<Formula>, NoMemory>
    ensures { IfOk result (λ f. formula_view f.value ≡ atom may (terms.Bound 0 ∷ terms.File node ∷ terms.Perm perm ∷ [])) }
{
    let mut terms = Terms::new(alloc);
    terms.extend(&[Term::Bound(0), Term::File(node), Term::Perm(perm)])?;
    atom_of(alloc, &Word::new(b"may").unwrap(), terms)
}

/// That the principal is of the class for the file.
pub fn class_formula(
    alloc: Global,
    node: NodeId,
    who: Principal,
    class: Class,
) -> Result<Formula, NoMemory>
    ensures { IfOk result (λ f. formula_view f ≡ class_said node who class) }
{
    Ok(Box::into_inner(class_atom(alloc, node, &Term::Prin(who), class)?))
}

/// That each principal of the class may have the permission on the file while the file is its owner's.
pub fn rule_formula(
    alloc: Global,
    node: NodeId,
    owner: Principal,
    class: Class,
    perm: Perm,
) -> Result<Formula, NoMemory>
    ensures { IfOk result (λ f. formula_view f ≡ rule_said node owner class perm) }
{
    let is_of_class = class_atom(alloc, node, &Term::Bound(0), class)?;
    let owned = StatePred::Owner(Term::File(node), Term::Prin(owner));
    let is_owned = state_of(alloc, &owned)?;
    let condition = both_of(alloc, is_of_class, is_owned)?;
    let may = may_atom(alloc, node, perm)?;
    let rule = implies_of(alloc, condition, may)?;
    Ok(Box::into_inner(every_of(alloc, Sort::Principal, rule)?))
}
