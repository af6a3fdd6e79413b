//! Messages that are taken by a store, with the lines for them.

ghost use Rattle.std.specs.Prelude.{◌≡◌, ◌≢◌, ◌≤◌, ◌<◌, ◌+◌, ◌^◌, ◌∷◌, [], None, true, OnOk, IfErr, IsErrOf, length};
ghost use Rattle.pcfs_ports.specs.Faults.{HasRisen, raise};
ghost use Rattle.bl_syntax.specs.Codec.{AreBytes};
ghost use Rattle.pcfs_ports.specs.Observable.{with_back};
ghost use Rattle.follow_run.specs.AnswerText.{answer_line};
ghost use Rattle.follow_run.specs.Followed.{AreAnswered, HaltsBy, IsMetAt, IsOutAt, TakesAll, StopsWithin};

use crate::answers::answer_line;
use crate::follow_end::FollowEnd;
use event_messages::MessageReader;
use follower::{Taken, take};
use pcfs_ports::{Disk, Sink, write_all};
use pcfs_store::Store;
use std::alloc::Global;

// Writes the line for a message of that number.
fn write_answer<O: Sink>(
    alloc: Global,
    number: u64,
    taken: Taken,
    output: &mut O,
) -> Result<(), FollowEnd>
    ensures ok { OnOk result (O.held output.new ≡ with_back (O.held output.old) (answer_line number taken)) }
    ensures out { IfErr result (λ how. IsOutAt how (O.held output.old) (O.held output.new) (answer_line number taken)) }
    ensures met { IfErr result (λ how. IsMetAt how None) }
    ensures risen { IsErrOf result FollowEnd.WriteFault →
        HasRisen (O.faults output.old) (O.faults output.new) }
    ensures never_falls { O.faults output.old ≤ O.faults output.new }
    ensures steady { result ≢ Err FollowEnd.WriteFault → O.faults output.new ≡ O.faults output.old }
    ensures by_one { IsErrOf result FollowEnd.WriteFault →
        O.faults output.new ≡ raise (O.faults output.old) }
    ensures broken { IsErrOf result FollowEnd.WriteFault → O.broken output.new ≡ true }
{
    let line = match answer_line(alloc, number, taken) {
        Ok(line) => line,
        Err(_) => return Err(FollowEnd::NoMemory),
    };
    match write_all(output, line.as_slice()) {
        Ok(()) => Ok(()),
        Err(_) => Err(FollowEnd::WriteFault),
    }
}

/// Takes a message, and writes the line for it; or returns how the run ends, and then no further one is to be taken.
pub fn take_message<D: Disk, O: Sink>(
    alloc: Global,
    store: &mut Store<D>,
    number: u64,
    payload: &[u8],
    output: &mut O,
) -> Result<(), FollowEnd>
    requires { store.old.stop ≡ None }
    ensures ok { OnOk result (AreAnswered D.clock D.left_since D.image D.faults (record { number = number; payload = payload.now } ∷ [])
        store.old store.new (O.held output.old) (O.held output.new)) }
    ensures halts { IfErr result (λ how. HaltsBy D.clock D.left_since D.image D.faults (record { number = number; payload = payload.now })
        store.old store.new (O.held output.old) how (O.held output.new)) }
    ensures risen { IsErrOf result FollowEnd.WriteFault →
        HasRisen (O.faults output.old) (O.faults output.new) }
    ensures never_falls { O.faults output.old ≤ O.faults output.new }
    ensures steady { result ≢ Err FollowEnd.WriteFault → O.faults output.new ≡ O.faults output.old }
    ensures by_one { IsErrOf result FollowEnd.WriteFault →
        O.faults output.new ≡ raise (O.faults output.old) }
    ensures broken { IsErrOf result FollowEnd.WriteFault → O.broken output.new ≡ true }
{
    let taken = take(alloc, store, number, payload);
    match taken {
        Taken::Stopped => Err(FollowEnd::Stopped),
        Taken::NoMemory => Err(FollowEnd::NoMemory),
        _ => write_answer(alloc, number, taken, output),
    }
}

/// Takes the messages that a reader has whole, as `take_message` does each; or returns how the run ends.
pub fn take_messages<D: Disk, O: Sink>(
    alloc: Global,
    store: &mut Store<D>,
    reader: &mut MessageReader,
    output: &mut O,
) -> Result<(), FollowEnd>
    requires running { store.old.stop ≡ None }
    requires bytes { AreBytes reader.old.left }
    requires counted { reader.old.place + length reader.old.left < 2 ^ 63 }
    ensures ok { OnOk result (TakesAll D.clock D.left_since D.image D.faults reader.old.left reader.new.left store.old store.new
        (O.held output.old) (O.held output.new)) }
    ensures bytes_stay { OnOk result (AreBytes reader.new.left) }
    ensures as_many { OnOk result (reader.new.place + length reader.new.left ≡ reader.old.place + length reader.old.left) }
    ensures stops { IfErr result (StopsWithin D.clock D.left_since D.image D.faults reader.old.left reader.old.place store.old store.new
        (O.held output.old) (O.held output.new)) }
    ensures risen { IsErrOf result FollowEnd.WriteFault →
        HasRisen (O.faults output.old) (O.faults output.new) }
    ensures never_falls { O.faults output.old ≤ O.faults output.new }
    ensures steady { result ≢ Err FollowEnd.WriteFault → O.faults output.new ≡ O.faults output.old }
    ensures by_one { IsErrOf result FollowEnd.WriteFault →
        O.faults output.new ≡ raise (O.faults output.old) }
    ensures broken { IsErrOf result FollowEnd.WriteFault → O.broken output.new ≡ true }
{
    'messages: loop {
        let (number, payload) = match reader.next() {
            Ok(Some(message)) => message,
            Ok(None) => return Ok(()),
            Err(_) => return Err(FollowEnd::BadFrame(reader.place())),
        };
        match take_message(alloc, store, number, payload, output) {
            Ok(()) => {}
            Err(end) => return Err(end),
        }
        reader.take_next();
    }
}
