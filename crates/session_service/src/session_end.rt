//! How a session ends.

/// How a session ends.
#[derive(Clone, Copy, Debug, PartialEq, Eq)]
pub enum SessionEnd {
    /// The input was read to its end, and each line was answered.
    Done,
    /// A line was longer than a line may be. The lines before it were answered, and no piece was read after the one with which
    /// it was too long.
    LineTooLong,
    /// The input failed.
    ReadFault,
    /// The output failed, and may lack some of the last reply, or of the greeting.
    WriteFault,
    /// Memory ran out, after the greeting.
    NoMemory,
    /// 1,073,741,824 bytes were taken, and the input had not ended.
    InputTooLong,
}
