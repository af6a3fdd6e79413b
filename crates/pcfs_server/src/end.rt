//! How serving ends.

/// How serving ended, with the number of connections that were attended.
#[derive(Clone, Copy, Debug, PartialEq, Eq)]
pub enum ServeEnd {
    /// As many connections were attended as were to be, or the listener is over.
    Done(u64),
    /// The listener failed, or the service's door did.
    NetFault(u64),
    /// A growth was refused.
    NoMemory(u64),
}
