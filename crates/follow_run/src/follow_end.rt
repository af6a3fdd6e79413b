//! How a run ends, and its last line.

ghost use Rattle.std.specs.Prelude.{◌≡◌, IfOk};
ghost use Rattle.follow_run.specs.FollowRun.{frame_line};
ghost use Rattle.follow_run.specs.Followed.{TellsEnd};

use bl_syntax::decimal::put_counted;
use bl_syntax::{Bytes, NoMemory};
use pcfs_ports::Sink;
use pcfs_tools::answering::{DISK_FAULT, DONE, OUT_OF_MEMORY, WRITE_FAULT, write_last_line};
use std::alloc::Global;

/// The input failed.
const READ_FAULT: u8 = 6;

/// The input was too long.
const TOO_LONG: u8 = 13;

/// At a message's place stands none.
const BAD_FRAME: u8 = 16;

/// How a run ends.
#[derive(Clone, Copy, Debug, PartialEq, Eq)]
pub enum FollowEnd {
    /// The input was read to its end, and each message was taken.
    Done,
    /// At this place no message stands, or the input ends within it. Those before it were taken.
    BadFrame(u64),
    /// The input failed.
    ReadFault,
    /// 1,073,741,824 bytes were taken, and the input had not ended.
    InputTooLong,
    /// A disk failed.
    Stopped,
    /// The output failed, and may lack any of its end.
    WriteFault,
    /// Memory ran out.
    NoMemory,
}

// The line for a place at which no message stands.
fn new_frame_line(alloc: Global, place: u64) -> Result<Bytes, NoMemory>
    ensures { IfOk result (λ line. line ≡ frame_line place) }
{
    let mut line = Bytes::new(alloc);
    put_counted(&mut line, "frame ", place)?;
    line.push(b'\n')?;
    Ok(line)
}

/// Writes the last line of a run that ended so, if it has one, and returns the status to end with.
pub fn write_end<O: Sink>(alloc: Global, output: &mut O, end: FollowEnd) -> u8
    ensures tells { TellsEnd end (O.held output.old) (O.faults output.old) result (O.held output.new) (O.faults output.new) (O.broken output.new) }
    ensures untouched { end ≡ FollowEnd.WriteFault → O.broken output.new ≡ O.broken output.old }
{
    match end {
        FollowEnd::Done => DONE,
        FollowEnd::BadFrame(place) => match new_frame_line(alloc, place) {
            Ok(line) => write_last_line(output, line.as_slice(), BAD_FRAME),
            Err(_) => OUT_OF_MEMORY,
        },
        FollowEnd::ReadFault => write_last_line(output, b"readfault\n", READ_FAULT),
        FollowEnd::InputTooLong => write_last_line(output, b"toolong\n", TOO_LONG),
        FollowEnd::Stopped => write_last_line(output, b"stopped\n", DISK_FAULT),
        FollowEnd::WriteFault => WRITE_FAULT,
        FollowEnd::NoMemory => OUT_OF_MEMORY,
    }
}
