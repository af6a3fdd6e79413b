//! A talk from its beginning to its end.

ghost use Rattle.std.specs.Prelude.{◌≡◌, ◌<◌, ◌≤◌, [], true};
ghost use Rattle.pcfs_ports.specs.Faults.{raise};
ghost use Rattle.session_loop.specs.Ends.{ports_of, NothingFailedBefore};
ghost use Rattle.session_loop.specs.TalkEnds.{TalkEnds};

use crate::answering::{answer_last, answer_piece};
use crate::talk::Talk;
use crate::talk_end::TalkEnd;
use bl_syntax::Bytes;
use pcfs_ports::{INPUT_LIMIT, Sink, Source, new_piece, read_piece};
use std::alloc::Global;
use std::sync::Wait;

/// Talks over an input and an output, from the beginning of a talk to its end.
///
/// By the order of the code, and no clause, each reply is out before more of the input is taken. At `Done` the input was read
/// to its end and each of its items was answered. No call of the input failed, unless the talk ends by that, and then the last
/// one did and no other; and so it is with the output.
pub fn converse<R: Wait, I: Source, O: Sink, L, P, C, T: Talk<L, P, C>>(
    rt: &R,
    alloc: Global,
    lock: &L,
    pass: &mut P,
    input: &mut I,
    output: &mut O,
    clock: &C,
    talk: &mut T,
) -> TalkEnd
    requires { T.fits lock.now pass.old }
    ensures ends { (start : (T.talking clock.now).State) →
        T.stands clock.now talk.old start (T.talking clock.now).cutting.first [] →
        TalkEnds (T.talking clock.now) start pass.old pass.new
        (ports_of I.left I.faults O.held O.faults input.old output.old)
        (ports_of I.left I.faults O.held O.faults input.new output.new) result }
    ensures steady { NothingFailedBefore
        (ports_of I.left I.faults O.held O.faults input.old output.old) result
        (ports_of I.left I.faults O.held O.faults input.new output.new) }
    ensures read_failed { result ≡ TalkEnd.ReadFault →
        (I.faults input.new ≡ raise (I.faults input.old)) × (I.broken input.new ≡ true) }
    ensures write_failed { result ≡ TalkEnd.WriteFault →
        (O.faults output.new ≡ raise (O.faults output.old)) × (O.broken output.new ≡ true) }
    ensures fits { T.fits lock.now pass.new }
{
    let mut piece = match new_piece(alloc) {
        Ok(piece) => piece,
        Err(_) => return TalkEnd::NoMemory,
    };
    let mut out = Bytes::new(alloc);
    let mut taken: usize = 0;
    while taken < INPUT_LIMIT {
        let count = match read_piece(input, &mut piece, INPUT_LIMIT - taken) {
            Ok(count) => count,
            Err(_) => return TalkEnd::ReadFault,
        };
        if count == 0 {
            return answer_last(rt, alloc, lock, pass, clock, talk, output);
        }
        match answer_piece(
            rt,
            alloc,
            lock,
            pass,
            clock,
            talk,
            &piece[..count],
            &mut out,
            output,
        ) {
            Ok(()) => {}
            Err(end) => return end,
        }
        taken += count;
    }
    TalkEnd::InputTooLong
}
