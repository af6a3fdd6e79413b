//! What a disk in memory remembers of its calls.

use bl_syntax::Bytes;

/// A call of a disk that was done.
#[derive(Debug, Drop)]
pub enum DiskCall {
    /// This piece was written at this place.
    Wrote(u64, Bytes),
    /// What was written before was made durable.
    Synced,
}
