//! How a talk ends.

ghost use Rattle.std.specs.Prelude.{◌≡◌};
ghost use Rattle.session_loop.specs.Ends.{unsent_end};

/// How a talk ends.
#[derive(Clone, Copy, Debug, PartialEq, Eq)]
pub enum TalkEnd {
    /// The input was read to its end, and each item was answered.
    Done,
    /// What came is no item. The items before it were answered, and nothing was read after it.
    Bad,
    /// The input failed.
    ReadFault,
    /// The output failed, and may lack any of its end.
    WriteFault,
    /// Memory ran out.
    NoMemory,
    /// 1,073,741,824 bytes were taken, and the input had not ended.
    InputTooLong,
}

/// Why bytes were not sent.
#[derive(Clone, Copy, Debug, PartialEq, Eq)]
pub enum Unsent {
    /// The output failed.
    Write,
    /// There was no memory for them.
    NoMemory,
}

/// How a talk ends of which bytes were not sent.
pub(crate) fn unsent_end(fault: Unsent) -> TalkEnd
    ensures { result ≡ unsent_end fault }
{
    match fault {
        Unsent::Write => TalkEnd::WriteFault,
        Unsent::NoMemory => TalkEnd::NoMemory,
    }
}
