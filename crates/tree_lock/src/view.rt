//! What a seat at the lock's table knows. No value of these types is made.
use std::collections::LinkedList;

/// How far a pass is with its turn. A ticket is a number without a bound.
pub enum Stage {
    Idle,
    /// It waits for this ticket's turn.
    Waiting(u64),
    /// It is this ticket's turn, and the pass has the value.
    Holding(u64),
}

/// What a pass or the doorman knows. The doorman has the number 0.
pub struct Knowledge<E> {
    /// It has not been retired.
    pub out: bool,
    pub number: u64,
    pub stage: Stage,
    /// A beginning of the history.
    pub seen: LinkedList<(u64, E)>,
    /// The entries under its number. The doorman's are the opening ones.
    pub own: LinkedList<(u64, E)>,
    /// What the pass retired last had seen; of the doorman alone.
    pub told: LinkedList<(u64, E)>,
    /// How many numbers were made; of the doorman alone.
    pub made: u64,
    /// Each retired pass's number and own entries; of the doorman alone.
    pub retired: LinkedList<(u64, LinkedList<(u64, E)>)>,
}
