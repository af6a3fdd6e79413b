//! What the history of a shared store is made of. No value of this type is made.

use journal_records::Event;
use pcfs_ports::Disk;
use pcfs_store::Store;

/// An entry of the history that a lock keeps.
pub enum LockEntry<D: Disk> {
    /// The store as it was opened; of the first entry alone.
    Opened(Store<D>),
    /// An event was kept.
    Happened(Event),
    /// A checkpoint was made in a turn of this pass.
    Checkpointed(u64),
    /// A disk failed in a turn of this pass, which was keeping this event if it was a step.
    Stopped(u64, Option<Event>),
}
