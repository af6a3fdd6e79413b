//! What a talk has to say to its next item.

/// What a talk has to say to its next item.
#[derive(Clone, Copy, Debug, PartialEq, Eq)]
pub enum Heard {
    /// The item was answered, and the bytes of the reply are there.
    Answered,
    /// The item was answered, and there was no memory for the bytes of the reply.
    Unsent,
    /// There is none, or less than one.
    Open,
    /// What comes is no item.
    Bad,
}
