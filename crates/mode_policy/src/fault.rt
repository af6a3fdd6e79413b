//! Why a text is no table, or a table has no statements.

ghost use Rattle.std.specs.Prelude.{◌≡◌};
ghost use Rattle.mode_policy.specs.declared.fault.ModeFault.TheVariants as faults;

use bl_syntax::NoMemory;
use bl_syntax::limits::MOST_STATEMENTS;
use thiserror::Error;

/// Why a text was not read as a table, or why its statements were not made.
#[derive(Clone, Copy, Debug, PartialEq, Eq, Error)]
pub enum ModeFault {
    /// The line of this number, from 1, is outside the grammar, or its member or owner stands in no `who` line before.
    #[error("line {0} is outside the grammar, or speaks of a principal that no line before it names")]
    BadLine(usize),
    /// The line of this number, from 1, repeats a principal, a membership or a file.
    #[error("line {0} repeats a principal, a membership or a file")]
    Twice(usize),
    /// The statements would be more than 4,096.
    #[error("the statements would be more than {most}", most = MOST_STATEMENTS)]
    TooMany,
    /// A growth was refused.
    #[error("out of memory")]
    NoMemory,
}

impl From<NoMemory> for ModeFault {
    ghost from_gives = { λ _ fault. fault ≡ faults.NoMemory };

    fn from(_refused: NoMemory) -> ModeFault {
        ModeFault::NoMemory
    }
}

/// Why a line was not added to a table.
#[derive(Clone, Copy, Debug, PartialEq, Eq, Error)]
pub enum LineFault {
    /// It is outside the grammar, or speaks of a principal that the table does not have.
    #[error("the line is outside the grammar, or speaks of a principal that the table does not have")]
    Bad,
    /// It repeats a principal, a membership or a file.
    #[error("the line repeats a principal, a membership or a file")]
    Twice,
    /// A growth was refused.
    #[error("out of memory")]
    NoMemory,
}

impl From<NoMemory> for LineFault {
    ghost use Rattle.mode_policy.specs.declared.fault.LineFault.TheVariants as line_faults;

    ghost from_gives = { λ _ fault. fault ≡ line_faults.NoMemory };

    fn from(_refused: NoMemory) -> LineFault {
        LineFault::NoMemory
    }
}
