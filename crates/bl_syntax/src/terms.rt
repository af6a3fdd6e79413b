//! Terms, their sorts, points in time, predicates on the server's state, and constraints between times.

ghost use Rattle.std.specs.Prelude.{◌≡◌, ◌↔◌, IsTrue, codes};
ghost use Rattle.bl_syntax.specs.Terms.{IsAtLeastAsStrong};

use crate::lists::Sequence;
use crate::names::{Principal, Text};

/// The principal that is as strong as any.
const LOC: &[u8] = b"loc";

/// A node of the file tree, by its number.
#[derive(Clone, Copy, Debug, PartialEq, Eq)]
pub struct NodeId(pub u64);

/// A permission on a file.
#[derive(Clone, Copy, Debug, PartialEq, Eq)]
pub enum Perm {
    Read,
    Write,
    Execute,
    Identity,
    Govern,
}

/// A point in time: whole seconds from 1970-01-01T00:00:00Z, or before or after all of them.
#[derive(Clone, Copy, Debug, PartialEq, Eq)]
pub enum TimePoint {
    NegInf,
    At(i64),
    PosInf,
}

/// The sort of a term.
#[derive(Clone, Copy, Debug, PartialEq, Eq)]
pub enum Sort {
    Principal,
    File,
    Perm,
    Time,
    Text,
}

/// A term: a constant, the current time, a parameter of a proof, or a variable by the number of
/// binders between it and its own (0 is the innermost).
#[derive(Clone, Copy, Debug, PartialEq, Eq)]
pub enum Term {
    Prin(Principal),
    File(NodeId),
    Perm(Perm),
    Time(TimePoint),
    Text(Text),
    Ctime,
    Param(u32),
    Bound(u32),
}

impl Term {
    /// Whether it is the same term.
    pub fn is_same(&self, other: &Term) -> bool
        ensures { IsTrue result ↔ (self.now ≡ other.now) }
    {
        self == other
    }
}

/// Whether the first principal is at least as strong as the second: they are equal, or the first is `loc`.
pub fn stronger(k: &Term, k0: &Term) -> bool
    ensures { IsTrue result ↔ IsAtLeastAsStrong k.now k0.now }
{
    k.is_same(k0) || is_loc(k)
}

fn is_loc(k: &Term) -> bool
    ensures { IsTrue result ↔ (k.now ≡ Term.Prin (codes "loc")) }
{
    match k {
        Term::Prin(name) => name.bytes() == LOC,
        _ => false,
    }
}

/// Whether they are the same terms in the same order.
pub fn are_same(terms: &[Term], others: &[Term]) -> bool
    ensures { IsTrue result ↔ (terms.now ≡ others.now) }
{
    terms == others
}

/// A predicate on the server's state.
#[derive(Clone, Copy, Debug, PartialEq, Eq)]
pub enum StatePred {
    /// The file, and the principal that owns it.
    Owner(Term, Term),
    /// The file, the attribute's name, and its value.
    HasXattr(Term, Term, Term),
    /// The file, and the directory that holds it.
    InDir(Term, Term),
}

impl StatePred {
    /// Whether it is the same predicate of the same terms.
    pub fn is_same(&self, other: &StatePred) -> bool
        ensures { IsTrue result ↔ (self.now ≡ other.now) }
    {
        self == other
    }
}

/// One time is not after another.
#[derive(Clone, Copy, Debug, PartialEq, Eq)]
pub struct Constraint {
    pub low: Term,
    pub high: Term,
}

impl Constraint {
    /// Whether it is between the same terms.
    pub fn is_same(&self, other: &Constraint) -> bool
        ensures { IsTrue result ↔ (self.now ≡ other.now) }
    {
        self == other
    }
}

/// Terms in order.
pub type Terms = Sequence<Term>;

/// Constraints in order.
pub type Constraints = Sequence<Constraint>;

/// Predicates on the server's state in order.
pub type StatePreds = Sequence<StatePred>;
