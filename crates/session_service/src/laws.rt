//! Laws of sessions. The functions do nothing: each contract is a law.

ghost use Rattle.session_service.specs.Laws.{TurnsAskWhatCommandsComeTo, ProofsAskWhatCommandsComeTo, FaultsAreWhatCommandsComeTo, AbsencesAreWhatCommandsComeTo, CheckpointsAreWhatCommandsComeTo, SessionsArePlaced, LaterSessionsArePlacedAfter, EachEntryHasALine, DoneAnswersAll, OutputsHoldTheirOwn, SessionsHaveTwoNonces};
ghost use Rattle.std.specs.Prelude.{ℕ, List, Option};
ghost use Rattle.session_service.specs.Sessions.{sources_of};
ghost use Rattle.session_service.specs.Conversation.{tells_of};

use pcfs_ports::{Disk, Listener};
use session_history::TurnClock;

/// What a line of a session asks, in one turn or by a proof, is what the definition of answers makes of its command for
/// somebody who calls in their own name and may see what is granted to them; and so is what it is told if a proof has a fault,
/// or a statement that it cites is not there. A checkpoint is asked by `admin` alone.
pub fn lines_ask_what_commands_come_to()
    ensures turns { TurnsAskWhatCommandsComeTo }
    ensures proofs { ProofsAskWhatCommandsComeTo }
    ensures faults { FaultsAreWhatCommandsComeTo }
    ensures absences { AbsencesAreWhatCommandsComeTo }
    ensures checkpoints { CheckpointsAreWhatCommandsComeTo }
{}

/// What a session's pass has seen at the end is a history, if it was one at first, and the session's replies are placed in it.
pub fn sessions_are_placed<D: Disk, C: TurnClock>(clock: &C)
    ensures { SessionsArePlaced D D.faults (C.gives clock.now) }
{
    let _ = clock;
}

/// The replies of a session whose pass was made after another had left are placed after all that the other had seen.
pub fn later_sessions_are_placed_after<D: Disk, C: TurnClock>(clock: &C)
    ensures { LaterSessionsArePlacedAfter D D.faults (C.gives clock.now) }
{
    let _ = clock;
}

/// A session has no more entries than lines: each line adds one at most, and nothing else adds any.
pub fn each_entry_has_a_line<L: Listener, C: TurnClock>(net: &L, clock: &C)
    ensures { (queue : Option (List (L.In × L.Out))) (nonces : Option (List ℕ)) →
        EachEntryHasALine (sources_of (C.gives clock.now)
        (tells_of L.In.left L.In.faults L.In.broken L.Out.held L.Out.faults L.Out.broken) queue nonces) }
{
    let _ = net;
    let _ = clock;
}

/// A session that ended as its input did answered all lines of that, if the input told its bytes, and its output holds what it
/// held, the greeting and all replies.
pub fn done_answers_all_lines<L: Listener, C: TurnClock>(net: &L, clock: &C)
    ensures { (queue : Option (List (L.In × L.Out))) (nonces : Option (List ℕ)) →
        DoneAnswersAll (C.gives clock.now)
        (tells_of L.In.left L.In.faults L.In.broken L.Out.held L.Out.faults L.Out.broken) queue nonces }
{
    let _ = net;
    let _ = clock;
}

/// At the end of a session its output holds what it held, the greeting and all replies to its lines, and after a line that is
/// too long that it is, unless the output failed or memory ran out; then all of these but some end of the last, or, if the
/// output failed at it, of the greeting.
pub fn outputs_hold_their_own<L: Listener, C: TurnClock>(net: &L, clock: &C)
    ensures { (queue : Option (List (L.In × L.Out))) (nonces : Option (List ℕ)) →
        OutputsHoldTheirOwn (C.gives clock.now)
        (tells_of L.In.left L.In.faults L.In.broken L.Out.held L.Out.faults L.Out.broken)
        queue nonces }
{
    let _ = net;
    let _ = clock;
}

/// Two sessions of one run have two nonces, if what the source tells for their numbers differs.
pub fn two_sessions_have_two_nonces()
    ensures { SessionsHaveTwoNonces }
{}
