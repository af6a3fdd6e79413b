//! Why words are not read.

ghost use Rattle.std.specs.Prelude.{◌≡◌};
ghost use Rattle.line_words.specs.declared.fault.WordFault.TheVariants.{NoMemory as OutOfMemory};

use bl_syntax::NoMemory;
use thiserror::Error;

/// Why words are not read.
#[derive(Clone, Copy, Debug, PartialEq, Eq, Error)]
pub enum WordFault {
    /// The first word that is not of its kind, by the place of its first byte in the line; or words are missing at the
    /// end of the line.
    #[error("the word at byte {0} is missing, or not of its kind")]
    Bad(usize),
    /// A growth was refused.
    #[error("out of memory")]
    NoMemory,
}

impl From<NoMemory> for WordFault {
    ghost from_gives = { λ _ fault. fault ≡ OutOfMemory };

    fn from(_refused: NoMemory) -> WordFault {
        WordFault::NoMemory
    }
}
