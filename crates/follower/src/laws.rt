//! Laws of a follower and its leader. The functions do nothing: each contract is a law, over disks of any kinds.

ghost use Rattle.follower.specs.Laws.{AnswersAreDetermined, ExportedEventsStay, FollowersHavePrefixes, NextEventsAreTaken};

use pcfs_ports::Disk;

/// After any list of steps of the leader, deliveries of its events, and stops of the follower, the follower's history is
/// lawful, and a prefix of the leader's.
pub fn followers_have_prefixes<D: Disk, E: Disk>()
    ensures { FollowersHavePrefixes D E D.faults E.faults }
{}

/// The leader's event of the next number is never damaged.
pub fn next_events_are_taken<D: Disk, E: Disk>()
    ensures { NextEventsAreTaken D E D.faults E.faults }
{}

/// What was exported stays so, whatever the leader does.
pub fn exported_events_stay<D: Disk>()
    ensures { ExportedEventsStay D D.faults }
{}

/// No two answers fit one delivery, but for faults of disks and lack of memory.
pub fn answers_are_determined<E: Disk>()
    ensures { AnswersAreDetermined E E.faults }
{}
