//! Why a text is no secrets file.

ghost use Rattle.std.specs.Prelude.{◌≡◌};
ghost use Rattle.pcfs_secrets.specs.declared.fault.SecretFault.TheVariants as faults;

use bl_syntax::NoMemory;
use thiserror::Error;

/// Why a text was not read as a secrets file.
#[derive(Clone, Copy, Debug, PartialEq, Eq, Error)]
pub enum SecretFault {
    /// The line of this number, from 1, is the first bad one.
    #[error("line {0} is bad")]
    BadLine(usize),
    /// A growth was refused.
    #[error("out of memory")]
    NoMemory,
}

impl From<NoMemory> for SecretFault {
    ghost from_gives = { λ _ e. e ≡ faults.NoMemory };

    fn from(_refused: NoMemory) -> SecretFault {
        SecretFault::NoMemory
    }
}
