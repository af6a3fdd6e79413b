//! Why canonical bytes could not be read.

ghost use Rattle.std.specs.Prelude.{◌≡◌};
ghost use Rattle.bl_syntax.specs.declared.codec_fault.CodecFault.TheVariants as faults;

use crate::lists::NoMemory;
use std::alloc::{AllocError, AllocFailed};
use thiserror::Error;

/// The first fault of a reading from the left. A place is a number of bytes of the input before it.
#[derive(Clone, Copy, Debug, PartialEq, Eq, Error)]
pub enum CodecFault {
    /// The input ends before the value does.
    #[error("the bytes end before the value does")]
    Short,
    /// The byte at this place is no tag, or stands for no member of its table.
    #[error("the byte at {0} is no tag, or stands for no member of its table")]
    BadTag(usize),
    /// The name, text or point in time that begins at this place is outside its grammar or range.
    #[error("the name, text or point in time at {0} is outside its grammar or range")]
    NotCanonical(usize),
    /// The node at this place passes the limit of nodes, or the count the limit of arguments.
    #[error("the node at {0} is one too many, or the count there is too large")]
    TooLarge(usize),
    /// There was no memory for the value.
    #[error("out of memory")]
    NoMemory,
}

impl From<NoMemory> for CodecFault {
    ghost from_gives = { λ _ e. e ≡ faults.NoMemory };

    fn from(_refused: NoMemory) -> CodecFault {
        CodecFault::NoMemory
    }
}

impl From<AllocError> for CodecFault {
    ghost from_gives = { λ _ e. e ≡ faults.NoMemory };

    fn from(_refused: AllocError) -> CodecFault {
        CodecFault::NoMemory
    }
}

impl<T: Drop> From<AllocFailed<T>> for CodecFault {
    ghost from_gives = { λ _ e. e ≡ faults.NoMemory };

    fn from(_refused: AllocFailed<T>) -> CodecFault {
        CodecFault::NoMemory
    }
}
