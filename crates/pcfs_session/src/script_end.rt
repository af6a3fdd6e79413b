//! How a script ends, and why no further line of it is answered.

ghost use Rattle.std.specs.Prelude.{◌≡◌};
ghost use Rattle.pcfs_session.specs.Ends.{unsent_end, halted_end};

use crate::outbox::SendFault;

/// How a script ends.
#[derive(Clone, Copy, Debug, PartialEq, Eq)]
pub enum ScriptEnd {
    /// The input was read to its end, and each line was answered.
    Done,
    /// A line was longer than a line may be. The lines before it were answered, and no piece was read after the one with which
    /// it was too long.
    LineTooLong,
    /// The input failed.
    ReadFault,
    /// The output failed, and may lack the last reply and what was buffered before it.
    WriteFault,
    /// Memory ran out. The last reply may be missing.
    NoMemory,
    /// 1,073,741,824 bytes were taken, and the input had not ended.
    InputTooLong,
    /// A disk failed. The last reply says so.
    Stopped,
}

/// Why no further line is answered.
#[derive(Clone, Copy, Debug, PartialEq, Eq)]
pub enum Halt {
    /// The last reply was not sent.
    Unsent(SendFault),
    /// A disk failed. The last reply says so.
    Stopped,
}

/// How a script ends of which a reply was not sent.
pub fn unsent_end(fault: SendFault) -> ScriptEnd
    ensures { result ≡ unsent_end fault }
{
    match fault {
        SendFault::Write => ScriptEnd::WriteFault,
        SendFault::NoMemory => ScriptEnd::NoMemory,
    }
}

/// How a script ends that was halted.
pub fn halted_end(halt: Halt) -> ScriptEnd
    ensures { result ≡ halted_end halt }
{
    match halt {
        Halt::Unsent(fault) => unsent_end(fault),
        Halt::Stopped => ScriptEnd::Stopped,
    }
}
