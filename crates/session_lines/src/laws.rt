//! Laws of lines over a shared store. The functions do nothing: each contract is a law.

ghost use Rattle.session_lines.specs.Laws.{LinesFindWhatWasTold, LaterLinesFindWhatWasTold};

use pcfs_ports::Disk;
use session_history::TurnClock;

/// The reply to a line that takes turns is placed after all entries that a pass had seen when something was told under it, if
/// the pass that is given the line had seen as much before.
pub fn lines_find_what_was_told<D: Disk, C: TurnClock>(clock: &C)
    ensures { LinesFindWhatWasTold D (C.gives clock.now) }
{
    let _ = clock;
}

/// The reply to a line that takes turns, of a pass that was made after another had left, is placed after all entries that the
/// other had seen when something was told under it.
pub fn later_lines_find_what_was_told<D: Disk, C: TurnClock>(clock: &C)
    ensures { LaterLinesFindWhatWasTold D (C.gives clock.now) }
{
    let _ = clock;
}
