//! Why a store was not opened.

use op_gate::Damage;
use thiserror::Error;

/// Why a store was not opened.
#[derive(Clone, Copy, Debug, PartialEq, Eq, Error)]
pub enum OpenFault {
    /// Neither area is open.
    #[error("neither area is open")]
    NoStore,
    /// The newest area stands for no lawful history: the first of its records that is damaged, 0 for header and image, and
    /// its first damage.
    #[error("record {0}: {1}")]
    Damaged(u64, Damage),
    /// A disk failed.
    #[error("a disk failed")]
    Disk,
    /// A growth was refused.
    #[error("out of memory")]
    NoMemory,
}
