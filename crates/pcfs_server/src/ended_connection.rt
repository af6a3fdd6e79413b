//! A connection that has ended.

ghost use Rattle.std.specs.Prelude.{◌≡◌};

/// The input and the output of a connection that has ended, as they were left.
///
/// Nothing can be read of them or written to them any more: they can only be dropped.
#[derive(Drop)]
pub struct EndedConnection<I, O> {
    input: I,
    output: O,
}

impl<I, O> EndedConnection<I, O> {
    /// Ends the connection with this input and this output.
    pub fn new(input: I, output: O) -> EndedConnection<I, O>
        ensures input { result.input ≡ input }
        ensures output { result.output ≡ output }
    {
        EndedConnection { input, output }
    }
}
