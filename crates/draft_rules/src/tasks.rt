//! What is still to be done, and the ways to go on.

use proof_draft::Term;

/// What is still to be done.
#[derive(Clone, Copy)]
pub enum Task {
    /// A place is to be proved.
    Prove(usize),
    /// The choices above this number are given up.
    Cut(usize),
    /// The goal of this choice was proved once.
    Won(usize),
    /// These times are to be found.
    Settle(Term, Term),
}

/// A way to go on.
#[derive(Clone, Copy)]
pub enum Way {
    /// By a hypothesis, to this atom in it, with what has to be inserted so many places further out.
    Apply(usize, usize, usize),
    /// By the state, as a fact or a condition.
    Leave,
    /// By the state, as a condition on the principal or file that is asked for.
    Guess,
    /// By this fact.
    Known(usize),
    /// The order of times holds, or is left over.
    Hold,
    /// The first part of a disjunction.
    Left,
    /// The second part.
    Right,
    /// This value for the variable.
    Value(usize, Term),
    /// By a statement that is missing.
    Assume,
}
