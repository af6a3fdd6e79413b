//! Laws of the definitions. The functions do nothing: each contract is a law. Where the moments of a clock occur, it holds
//! of each clock.

ghost use Rattle.session_history.specs.Laws.{TurnsStayPlaced, LinesStayPlaced, SessionsStayPlaced, GivenAreOfPass, PlacesGoOn, StopsAreTold, CheckpointsAreTold, StoppedAfterStop, CallersAreAccepted, EntriesAreAskedFor, AdmittedAreDone, LinesAreAnswered, LinesHaveATask, LinesHaveOneTask, TasksAreFormed, TurnsHaveAnEnd, LinesHaveAnEnd, NothingAfterStop, TurnsHaveOneEnd};

use crate::clock::TurnClock;

/// A turn, a line and the lines of a session stay in their places when the history grows at its end.
pub fn what_is_placed_stays_placed<C: TurnClock>(clock: &C)
    ensures turns { TurnsStayPlaced (C.gives clock.now) }
    ensures lines { LinesStayPlaced (C.gives clock.now) }
    ensures sessions { SessionsStayPlaced (C.gives clock.now) }
{
    let _ = clock;
}

/// The entries that a session is given are of its own pass. If there are any, one of its lines asks that somebody be logged
/// in over its nonce, by a signature that the ring accepts; each operation among them is by somebody of whom such a line says
/// so, and each checkpoint by `admin`, of whom one does. Each is one that a line asks for, and so is the event that was being
/// kept when a disk failed in a turn of the session.
pub fn given_entries_are_of_the_session<C: TurnClock>(clock: &C)
    ensures pass { GivenAreOfPass (C.gives clock.now) }
    ensures callers { CallersAreAccepted (C.gives clock.now) }
    ensures asked { EntriesAreAskedFor (C.gives clock.now) }
{
    let _ = clock;
}

/// The places of a session's lines do not go back, and stay within the history; each line has a reply.
pub fn places_go_on<C: TurnClock>(clock: &C)
    ensures places { PlacesGoOn (C.gives clock.now) }
    ensures answered { LinesAreAnswered (C.gives clock.now) }
{
    let _ = clock;
}

/// A turn is told that the store is stopped if it adds a mark, and only if there is one; it keeps no event and makes
/// no checkpoint then. So a line is told so only after a mark, and after one no turn decides anything.
pub fn a_stop_is_the_end<C: TurnClock>(clock: &C)
    ensures turns { StopsAreTold (C.gives clock.now) }
    ensures told { StoppedAfterStop (C.gives clock.now) }
    ensures nothing { NothingAfterStop (C.gives clock.now) }
{
    let _ = clock;
}

/// A turn is told that a checkpoint was made exactly if it adds one. It asked for one then, and adds nothing else.
pub fn checkpoints_are_told<C: TurnClock>(clock: &C)
    ensures { CheckpointsAreTold (C.gives clock.now) }
{
    let _ = clock;
}

/// Each line of a session has exactly one task, and what it asks may be asked.
pub fn lines_have_one_task()
    ensures some { LinesHaveATask }
    ensures one { LinesHaveOneTask }
    ensures formed { TasksAreFormed }
{}

/// At a store that is not stopped a turn of what may be asked has an end that is not disturbed, whatever it finds, if the
/// clock gives some moment over that; and so has a line of nobody or of a principal's name, after a lawful history.
pub fn turns_and_lines_have_an_end<C: TurnClock>(clock: &C)
    ensures turns { TurnsHaveAnEnd (C.gives clock.now) }
    ensures lines { LinesHaveAnEnd (C.gives clock.now) }
{
    let _ = clock;
}

/// Over a lawful history a turn has one end at a moment, if memory does not run out and no disk fails.
pub fn turns_have_one_end()
    ensures { TurnsHaveOneEnd }
{}

/// An operation whose procaps match and hold, and to which the world has an effect, gets its reply and is kept, unless the
/// store is stopped or stops, the event does not fit or has no number, or memory runs out.
pub fn admitted_operations_are_done()
    ensures { AdmittedAreDone }
{}
