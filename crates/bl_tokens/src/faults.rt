//! The first fault of a text.

use bl_syntax::NoMemory;
use std::alloc::AllocFailed;
use thiserror::Error;

/// Why a text writes no value, and at which byte, from 0.
#[derive(Clone, Copy, Debug, PartialEq, Eq, Error)]
pub enum TextFault {
    /// No case of the grammar is left for the token at this byte, or for the end of the text.
    #[error("at byte {0}, no case of the grammar is left")]
    Unexpected(usize),
    /// A variable without a binder, an unknown sort or an unknown rule.
    #[error("at byte {0}, a variable has no binder, or there is no such sort or rule")]
    UnknownName(usize),
    /// A date or a time of day that does not exist, or a second outside the years 1 to 9999.
    #[error("at byte {0}, there is no such date or time of day, or the second lies outside the years 1 to 9999")]
    BadDate(usize),
    /// A predicate whose arguments have the wrong sort or number, or a term of the wrong sort.
    #[error("at byte {0}, the arguments have another sort or number, or a term has another sort")]
    Sort(usize),
    /// The first token that passes a limit.
    #[error("at byte {0}, the text passes a limit")]
    TooLarge(usize),
    /// A growth was refused.
    #[error("out of memory")]
    NoMemory,
}

impl From<NoMemory> for TextFault {
    ghost use Rattle.std.specs.Prelude.{◌≡◌};
    ghost use Rattle.bl_tokens.specs.declared.faults.TextFault.{TextFault};

    ghost from_gives = { λ _ e. e ≡ TextFault.NoMemory };

    fn from(_refused: NoMemory) -> TextFault {
        TextFault::NoMemory
    }
}

impl<T: Drop> From<AllocFailed<T>> for TextFault {
    ghost use Rattle.std.specs.Prelude.{◌≡◌};
    ghost use Rattle.bl_tokens.specs.declared.faults.TextFault.{TextFault};

    ghost from_gives = { λ _ e. e ≡ TextFault.NoMemory };

    fn from(_refused: AllocFailed<T>) -> TextFault {
        TextFault::NoMemory
    }
}
