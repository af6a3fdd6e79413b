//! The run: the input is taken in pieces, and its messages are taken as they come.

ghost use Rattle.std.specs.Prelude.{◌≡◌, ◌≢◌, ◌<◌, ◌≤◌, ◌+◌, ◌^◌, ◌++◌, [], None, true, OnOk, IfErr, IsErrOf, length};
ghost use Rattle.pcfs_ports.specs.Faults.{HasRisen, raise};
ghost use Rattle.bl_syntax.specs.Codec.{AreBytes};
ghost use Rattle.pcfs_session.specs.ScriptContext.{first_asker};
ghost use Rattle.pcfs_session.specs.InterpreterView.{standing_over};
ghost use Rattle.pcfs_session.specs.ScriptRun.{IsLawfulStanding, script_pass};
ghost use Rattle.pcfs_session.specs.Streams.{streams_of};
ghost use Rattle.pcfs_tools.specs.Broken.{broken_of};
ghost use Rattle.follow_run.specs.FollowRun.{FollowsInput};
ghost use Rattle.follow_run.specs.Followed.{TakesAll, StopsWithin, EndsFollowing, standing_at};

use crate::follow_end::{FollowEnd, write_end};
use crate::taking::take_messages;
use event_messages::MessageReader;
use pcfs_ports::{Disk, INPUT_LIMIT, Sink, Source, new_piece, read_piece};
use pcfs_store::Store;
use std::alloc::Global;

// Takes the messages that are whole with a piece; or returns how the run ends.
fn take_piece<D: Disk, O: Sink>(
    alloc: Global,
    store: &mut Store<D>,
    reader: &mut MessageReader,
    piece: &[u8],
    output: &mut O,
) -> Result<(), FollowEnd>
    requires running { store.old.stop ≡ None }
    requires bytes { AreBytes reader.old.left }
    requires counted { reader.old.place + length reader.old.left + length piece.now < 2 ^ 63 }
    ensures ok { OnOk result (TakesAll D.clock D.left_since D.image D.faults (reader.old.left ++ piece.now) reader.new.left store.old store.new
        (O.held output.old) (O.held output.new)) }
    ensures bytes_stay { OnOk result (AreBytes reader.new.left) }
    ensures as_many { OnOk result (reader.new.place + length reader.new.left ≡ reader.old.place + length (reader.old.left ++ piece.now)) }
    ensures stops { IfErr result (StopsWithin D.clock D.left_since D.image D.faults (reader.old.left ++ piece.now) reader.old.place store.old store.new
        (O.held output.old) (O.held output.new)) }
    ensures risen { IsErrOf result FollowEnd.WriteFault →
        HasRisen (O.faults output.old) (O.faults output.new) }
    ensures never_falls { O.faults output.old ≤ O.faults output.new }
    ensures steady { result ≢ Err FollowEnd.WriteFault → O.faults output.new ≡ O.faults output.old }
    ensures by_one { IsErrOf result FollowEnd.WriteFault →
        O.faults output.new ≡ raise (O.faults output.old) }
    ensures broken { IsErrOf result FollowEnd.WriteFault → O.broken output.new ≡ true }
{
    match reader.feed(piece) {
        Ok(()) => take_messages(alloc, store, reader, output),
        Err(_) => Err(FollowEnd::NoMemory),
    }
}

// How the run ends at the end of the input.
fn end_of_input(reader: &MessageReader) -> FollowEnd
    ensures none { reader.now.left ≡ [] → result ≡ FollowEnd.Done }
    ensures some { (reader.now.left ≡ [] → ⊥) → result ≡ FollowEnd.BadFrame reader.now.place }
{
    if reader.is_empty() {
        return FollowEnd::Done;
    }
    FollowEnd::BadFrame(reader.place())
}

// Takes the input in pieces and its messages in order, and returns how the run ends.
fn read_pieces<D: Disk, I: Source, O: Sink>(
    alloc: Global,
    store: &mut Store<D>,
    input: &mut I,
    output: &mut O,
) -> FollowEnd
    requires lawful { IsLawfulStanding (standing_at store.old None) }
    requires running { store.old.stop ≡ None }
    ensures ends { EndsFollowing D.clock D.left_since D.image D.faults store.old
        (streams_of I.left I.faults O.held O.faults input.old output.old) result store.new
        (streams_of I.left I.faults O.held O.faults input.new output.new)
        (broken_of I.broken O.broken input.new output.new) }
    ensures never_falls { O.faults output.old ≤ O.faults output.new }
{
    let mut piece = match new_piece(alloc) {
        Ok(piece) => piece,
        Err(_) => return FollowEnd::NoMemory,
    };
    let mut reader = MessageReader::new(alloc);
    let mut taken: usize = 0;
    while taken < INPUT_LIMIT {
        let count = match read_piece(input, &mut piece, INPUT_LIMIT - taken) {
            Ok(count) => count,
            Err(_) => return FollowEnd::ReadFault,
        };
        if count == 0 {
            return end_of_input(&reader);
        }
        match take_piece(alloc, store, &mut reader, &piece[..count], output) {
            Ok(()) => {}
            Err(end) => return end,
        }
        taken += count;
    }
    FollowEnd::InputTooLong
}

/// Takes the messages in the input by the store, in order, and writes a line for each, by the order of the code before the
/// next one is taken. The input is taken in pieces, and by that order no more of it is kept than a message and a piece.
///
/// It goes on after each message that the store answers. It ends at the end of the input, or at the first place at which no
/// message stands, or if a port or a disk fails or memory runs out: nothing is read after a read that failed, nothing written
/// after a write that failed, and, if the output tells what it holds, no message taken after one whose line was not written
/// whole. Returns the status to end with, and the store.
pub fn follow_over<D: Disk, I: Source, O: Sink>(
    alloc: Global,
    store: Store<D>,
    input: &mut I,
    output: &mut O,
) -> (u8, Store<D>)
    requires lawful { IsLawfulStanding (standing_over store None (first_asker script_pass)) }
    requires running { store.stop ≡ None }
    ensures { FollowsInput D.clock D.left_since D.image D.faults (record { store = store; asker = first_asker script_pass })
        (streams_of I.left I.faults O.held O.faults input.old output.old) result.0
        (record { store = result.1; asker = first_asker script_pass })
        (streams_of I.left I.faults O.held O.faults input.new output.new)
        (broken_of I.broken O.broken input.new output.new) }
{
    let mut store = store;
    let end = read_pieces(alloc, &mut store, input, output);
    (write_end(alloc, output, end), store)
}
