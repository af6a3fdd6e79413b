//! What is wrong with what an area holds.

use thiserror::Error;

/// Why an area holds no lawful history: what is wrong with one of its records, or with its header and image.
#[derive(Clone, Copy, Debug, PartialEq, Eq, Error)]
pub enum Damage {
    /// The header is wrong, or the image is cut or too long.
    #[error("the header is wrong, or the image is cut or too long")]
    Header,
    /// The bytes are no image or event, or they are cut or too long; a moment lies outside the range, or the image's count
    /// or the event's number would; or no statement stands that is withdrawn.
    #[error("the bytes are no image or event, or a moment or number lies outside its range")]
    Shape,
    /// A signature is not accepted.
    #[error("a signature is not accepted")]
    Unsigned,
    /// A proof does not grant what was issued by it, or the numbers that it cites are not 1 to 64 numbers of statements,
    /// strictly rising; or a statement that an event cites does not stand.
    #[error("a proof does not grant what was issued, or its statements cannot be cited")]
    Unproved,
    /// An operation is denied or refused, or it does not bring one procap for each slot, or it brings too many bytes.
    #[error("an operation is denied or refused, or does not bring what it has to")]
    NotAdmitted,
    /// The moment of an operation is before the last one.
    #[error("the moment of an operation is before the last one")]
    MomentFalls,
    /// An equal statement is there, or there are more statements than may be kept.
    #[error("an equal statement is there, or there are too many")]
    Duplicate,
}

/// Why an event was not kept, or no history begins with a state.
#[derive(Clone, Copy, Debug, PartialEq, Eq, Error)]
pub enum AdmitFault {
    /// It may not come next, or the state is no lawful base.
    #[error("damaged: {0}")]
    Damaged(Damage),
    /// A growth was refused.
    #[error("out of memory")]
    NoMemory,
}
