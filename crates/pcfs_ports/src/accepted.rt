//! What asking a listener for a connection gives.

/// What asking a listener for a connection gives.
#[derive(Debug, Drop)]
pub enum Accepted<I, O> {
    /// A connection: where its bytes come from, and where its bytes go.
    Conn(I, O),
    /// No connection comes any more.
    Closed,
    /// The listener failed.
    Failed,
    /// A growth was refused.
    NoMemory,
}
