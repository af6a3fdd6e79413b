//! Terms, formulas, statements and facts, each by its number in a list.

/// The number of nothing.
pub const NOTHING: usize = usize::MAX;

/// The sort of a term.
#[derive(Clone, Copy, PartialEq, Eq)]
pub enum Sort {
    Principal,
    File,
    Perm,
    Time,
    Text,
}

/// A term: a constant by its number, the current time, a variable of a binder by the number of binders between, a
/// variable of the search, or a parameter of the proof.
#[derive(Clone, Copy, PartialEq, Eq)]
pub enum Term {
    Constant(usize),
    Ctime,
    Bound(usize),
    Variable(usize),
    Parameter(usize),
}

/// A formula, with its parts by their numbers. An atom has its predicate, its first argument and how many there are; so
/// has a predicate on the state.
#[derive(Clone, Copy, PartialEq, Eq)]
pub enum Shape {
    Atom(usize, usize, usize),
    State(usize, usize, usize),
    Order(Term, Term),
    And(usize, usize),
    Or(usize, usize),
    Imp(usize, usize),
    True,
    False,
    Forall(Sort, usize),
    Exists(Sort, usize),
    Says(Term, usize),
    On(usize, Term, Term),
}

/// A formula, the one that it is a part of, and whether there is an implication in it.
#[derive(Clone, Copy)]
pub struct Node {
    pub shape: Shape,
    pub parent: usize,
    pub implies: bool,
}

/// A constant. Of a time `second` has the place in the order of times.
#[derive(Clone, Copy)]
pub struct Constant {
    pub sort: Sort,
    pub second: i64,
}

/// A statement.
#[derive(Clone, Copy)]
pub struct Stated {
    pub who: Term,
    pub body: usize,
    pub from: Term,
    pub to: Term,
}

/// An atom that a statement can give, and what stands on the way to it: `says`, or `exists` or `|`.
#[derive(Clone, Copy)]
pub struct Entry {
    pub statement: usize,
    pub node: usize,
    pub says: bool,
    pub cases: bool,
    pub next: usize,
}

/// A fact of the state.
#[derive(Clone, Copy)]
pub struct Fact {
    pub predicate: usize,
    pub first: usize,
    pub count: usize,
}
