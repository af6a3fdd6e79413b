//! What an unfinished proof is made of, each by its number in a list.

use crate::formulas::{NOTHING, Sort, Term};

/// A formula with the terms for its variables.
#[derive(Clone, Copy)]
pub struct Instance {
    pub node: usize,
    pub cell: usize,
}

/// A term for the variable of a binder, and the terms for those outside it.
#[derive(Clone, Copy)]
pub struct Binding {
    pub term: Term,
    pub outer: usize,
}

/// A variable of the search. `hint` is the value to be tried first.
#[derive(Clone, Copy)]
pub struct Variable {
    pub value: Option<Term>,
    pub sort: Sort,
    pub place: usize,
    pub hint: Option<Term>,
}

/// A parameter, and the place where it is brought in.
#[derive(Clone, Copy)]
pub struct Parameter {
    pub sort: Sort,
    pub place: usize,
}

/// A place of the unfinished proof: its goal, what is inserted before it, from `first` to `last`, and the rule that
/// proves it. Of what stands at its parent it sees all, or what stood there when it was made.
#[derive(Clone, Copy)]
pub struct Place {
    pub parent: usize,
    pub height: usize,
    pub frame: usize,
    pub goal: Instance,
    pub from: Term,
    pub to: Term,
    pub depth: usize,
    pub first: usize,
    pub last: usize,
    pub top: usize,
    pub known: usize,
    pub bounds: usize,
    pub sees_all: bool,
    pub seen: usize,
    pub local: bool,
    pub bounded: bool,
}

/// A view: who is heard, on which interval, and the place whose goal says so.
#[derive(Clone, Copy)]
pub struct Frame {
    pub outer: usize,
    pub who: Term,
    pub begins: Term,
    pub ends: Term,
    pub opened: usize,
}

/// A hypothesis: a truth, or a claim of somebody.
#[derive(Clone, Copy)]
pub struct Hypothesis {
    pub claim: bool,
    pub who: Term,
    pub body: Instance,
    pub from: Term,
    pub to: Term,
    pub place: usize,
}

/// A number, and the ones before it.
#[derive(Clone, Copy)]
pub struct Link {
    pub item: usize,
    pub next: usize,
}

/// That one time is not after another, and those known before.
#[derive(Clone, Copy)]
pub struct Bound {
    pub low: Term,
    pub high: Term,
    pub next: usize,
}

/// A condition on times that waits for a variable.
#[derive(Clone, Copy)]
pub struct Waiting {
    pub place: usize,
    pub low: Term,
    pub high: Term,
}

/// That one time is not after another.
#[derive(Clone, Copy, PartialEq, Eq)]
pub struct Order {
    pub low: Term,
    pub high: Term,
}

/// A predicate on the state, with the terms for its variables.
#[derive(Clone, Copy)]
pub struct Predicate {
    pub predicate: usize,
    pub first: usize,
    pub count: usize,
    pub cell: usize,
}

/// A rule of the logic.
#[derive(Clone, Copy, PartialEq, Eq)]
pub enum Rule {
    Init,
    ConsR,
    InterR,
    AndR,
    OrR1,
    OrR2,
    TrueR,
    ImpR,
    ForallR,
    ExistsR,
    SaysR,
    AtR,
    ConsL,
    InterL,
    AndL,
    OrL,
    FalseL,
    ImpL,
    ForallL,
    ExistsL,
    SaysL,
    Claim,
    AtL,
}

/// What stands in a premise: a use of a rule; a place with what is inserted before it; or what follows these insertions.
#[derive(Clone, Copy)]
pub enum Part {
    Nothing,
    Use(usize),
    Whole(usize),
    Rest(usize),
}

/// A use of a rule. `main` tells whether the proof goes on in the second premise. It brings the hypotheses `brings` and
/// `also`; parameters that it brings are its terms.
#[derive(Clone, Copy)]
pub struct Use {
    pub rule: Rule,
    pub hypothesis: usize,
    pub one: Term,
    pub two: Term,
    pub left: Part,
    pub right: Part,
    pub main: bool,
    pub brings: usize,
    pub also: usize,
}

impl Use {
    /// A use of a rule, without premises yet.
    pub fn new(rule: Rule, hypothesis: usize) -> Use {
        Use {
            rule,
            hypothesis,
            one: Term::Ctime,
            two: Term::Ctime,
            left: Part::Nothing,
            right: Part::Nothing,
            main: false,
            brings: NOTHING,
            also: NOTHING,
        }
    }
}

/// A hypothesis that stands for a statement that is missing, the statement that says the same on another interval, if one does,
/// and whether nothing else could give what it says.
#[derive(Clone, Copy)]
pub struct Missing {
    pub hypothesis: usize,
    pub stated: usize,
    pub is_only: bool,
}

/// What was changed, and how it was before.
#[derive(Clone, Copy)]
pub enum Undo {
    Value(usize),
    Reach(usize, usize),
    Chain(usize, usize, usize),
    Top(usize, usize),
    Known(usize, usize),
    Next(usize, Part),
}

/// How long the lists were.
#[derive(Clone, Copy)]
pub struct Lengths {
    pub bindings: usize,
    pub variables: usize,
    pub parameters: usize,
    pub places: usize,
    pub frames: usize,
    pub hypotheses: usize,
    pub links: usize,
    pub bounds: usize,
    pub waiting: usize,
    pub uses: usize,
    pub trail: usize,
    pub assumed: usize,
    pub left: usize,
    pub left_states: usize,
}
