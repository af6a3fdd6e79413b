//! How a connection ends.

/// How a connection ends.
#[derive(Clone, Copy, Debug, PartialEq, Eq)]
pub enum NineEnd {
    /// The input, of fewer than 1,073,741,824 bytes, was read to its end, and each message was answered.
    Done,
    /// What came is no message, or the input ended within one. The messages before it were answered, and of what came after
    /// them no more was taken than a message and a piece of the input.
    BadMessage,
    /// The input failed.
    ReadFault,
    /// The output failed, and may lack any of its end.
    WriteFault,
    /// Memory ran out.
    NoMemory,
    /// 1,073,741,824 bytes were taken, and the input had not ended.
    InputTooLong,
}
