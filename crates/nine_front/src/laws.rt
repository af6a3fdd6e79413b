//! Laws of the definitions. The functions do nothing: each contract is a law. It holds of each clock.

ghost use Rattle.nine_front.specs.Asked.{EntriesAreAskedFor, LoginsAreAccepted, CallersAreAccepted};
ghost use Rattle.nine_front.specs.Laws.{MessagesStayPlaced, GivenAreOfPass, PlacesGoOn, MessagesAreAnswered, EntriesAreFew, ConnectionsArePlaced, TurnsArePlaced, LaterConnectionsArePlacedAfter, StrangersAreToldAlike, LimitsAreKept, StoppedAfterStop, RequestsAskOneThing, StepsAreOneTurn, RepliesAreToldInOneWay, MessagesHaveOneEnd, MessagesHaveAnEnd};

use pcfs_ports::Disk;
use session_history::TurnClock;

/// The messages of a connection stay in their places when the history grows at its end.
pub fn what_is_placed_stays_placed<C: TurnClock>(clock: &C)
    ensures { MessagesStayPlaced (C.gives clock.now) }
{
    let _ = clock;
}

/// The entries that a connection is given are of its own pass.
pub fn given_entries_are_of_the_pass<C: TurnClock>(clock: &C)
    ensures { GivenAreOfPass (C.gives clock.now) }
{
    let _ = clock;
}

/// The places of a connection's messages do not go back, and stay within the history; each message has a reply.
pub fn places_go_on<C: TurnClock>(clock: &C)
    ensures places { PlacesGoOn (C.gives clock.now) }
    ensures answered { MessagesAreAnswered (C.gives clock.now) }
{
    let _ = clock;
}

/// Each turn adds one entry at most. A message has at most one turn, or one for each name of a walk.
pub fn entries_are_few<C: TurnClock>(clock: &C)
    ensures { EntriesAreFew (C.gives clock.now) }
{
    let _ = clock;
}

/// Each entry that a connection is given is one that a message of it asks for, where it stands.
pub fn entries_are_asked_for<C: TurnClock>(clock: &C)
    ensures { EntriesAreAskedFor (C.gives clock.now) }
{
    let _ = clock;
}

/// Somebody is logged in only by a message with a signature over the connection's nonce that the ring accepts; and each entry
/// is an operation by somebody who was, or the mark of a disk that failed under one.
pub fn callers_are_accepted<C: TurnClock>(clock: &C)
    ensures logins { LoginsAreAccepted (C.gives clock.now) }
    ensures callers { CallersAreAccepted (C.gives clock.now) }
{
    let _ = clock;
}

/// What a connection's pass has seen at the end is a history, if it was one at first or a turn was taken, and the connection's
/// replies are placed in it.
pub fn connections_are_placed<D: Disk, C: TurnClock>(clock: &C)
    ensures placed { ConnectionsArePlaced D D.faults (C.gives clock.now) }
    ensures known { TurnsArePlaced D D.faults (C.gives clock.now) }
{
    let _ = clock;
}

/// The replies of a connection whose pass was made after another had left are placed after all that the other had seen.
pub fn later_connections_are_placed_after<D: Disk, C: TurnClock>(clock: &C)
    ensures { LaterConnectionsArePlacedAfter D D.faults (C.gives clock.now) }
{
    let _ = clock;
}

/// Somebody who is not logged in is told what a session would be told.
pub fn strangers_are_told_alike()
    ensures { StrangersAreToldAlike }
{}

/// A connection stays within its limits, whatever its messages.
pub fn limits_are_kept<C: TurnClock>(clock: &C)
    ensures { LimitsAreKept (C.gives clock.now) }
{
    let _ = clock;
}

/// A message is told that the store is stopped only after a mark.
pub fn a_stop_is_told_after_it<C: TurnClock>(clock: &C)
    ensures { StoppedAfterStop (C.gives clock.now) }
{
    let _ = clock;
}

/// A request asks one thing, a step that is done in one turn is one, and what the turn replies is told in one way.
pub fn requests_ask_one_thing()
    ensures asked { RequestsAskOneThing }
    ensures turn { StepsAreOneTurn }
    ensures told { RepliesAreToldInOneWay }
{}

/// At given turns a message has one end, if memory does not run out before one of them.
pub fn messages_have_one_end<C: TurnClock>(clock: &C)
    ensures { MessagesHaveOneEnd (C.gives clock.now) }
{
    let _ = clock;
}

/// At a store that is not stopped each request that writes no more bytes than fit a message has an end that is not disturbed, if
/// the clock gives some moment after whatever entries, and whoever is logged in has a principal's name.
pub fn messages_have_an_end<C: TurnClock>(clock: &C)
    ensures { MessagesHaveAnEnd (C.gives clock.now) }
{
    let _ = clock;
}
