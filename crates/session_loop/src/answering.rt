//! Items that are answered, each with its reply written before the next.

ghost use Rattle.std.specs.Prelude.{◌≡◌, ◌≢◌, ◌<◌, ◌≤◌, ◌++◌, ℕ, List, IfOk, OnOk, OnErr, IfErr, IsErrOf, true};
ghost use Rattle.pcfs_ports.specs.Faults.{HasRisen, raise};
ghost use Rattle.pcfs_ports.specs.Observable.{with_back, HoldsSome};
ghost use Rattle.session_loop.specs.Ends.{OutputStandsStill};
ghost use Rattle.session_loop.specs.Spoken.{Steps, IsCutWithin, SpeaksHeld, SpeaksAll, TellsBad, EndsAtPiece, EndsAtLast};

use crate::heard::Heard;
use crate::talk::Talk;
use crate::talk_end::{TalkEnd, Unsent, unsent_end};
use bl_syntax::Bytes;
use pcfs_ports::{Sink, write_all};
use std::alloc::Global;
use std::sync::Wait;

/// What came of the next item.
#[derive(Clone, Copy, Debug, PartialEq, Eq)]
pub(crate) enum Step {
    /// It was answered, and its reply is written.
    Answered,
    /// There is none, or less than one.
    Open,
    /// What comes is no item.
    Bad,
}

// Writes these bytes.
fn send<O: Sink>(bytes: &Bytes, output: &mut O) -> Result<(), Unsent>
    ensures ok { OnOk result (O.held output.new ≡ with_back (O.held output.old) bytes.now) }
    ensures err { OnErr result (HoldsSome (O.held output.old) (O.held output.new) bytes.now) }
    ensures is_write { IfErr result (λ fault. fault ≡ Unsent.Write) }
    ensures steady { OnOk result (O.faults output.new ≡ O.faults output.old) }
    ensures risen { OnErr result (HasRisen (O.faults output.old) (O.faults output.new)) }
    ensures by_one { OnErr result (O.faults output.new ≡ raise (O.faults output.old)) }
    ensures broken { OnErr result (O.broken output.new ≡ true) }
    ensures never_falls { O.faults output.old ≤ O.faults output.new }
{
    match write_all(output, bytes.as_slice()) {
        Ok(()) => Ok(()),
        Err(_) => Err(Unsent::Write),
    }
}

// Answers the next item, if it is whole, and writes its reply. The room for the reply is used again.
fn answer_one<R: Wait, L, P, C, T: Talk<L, P, C>, O: Sink>(
    rt: &R,
    alloc: Global,
    lock: &L,
    pass: &mut P,
    clock: &C,
    talk: &mut T,
    out: &mut Bytes,
    output: &mut O,
) -> Result<Step, Unsent>
    requires { T.fits lock.now pass.old }
    ensures ok { (state : (T.talking clock.now).State)
        (mark : (T.talking clock.now).cutting.Mark) (left : List ℕ) →
        T.stands clock.now talk.old state mark left →
        IfOk result (Steps (T.talking clock.now) state mark left pass.old pass.new
        (O.held output.old) (O.held output.new) (T.stands clock.now talk.new)) }
    ensures cut { (state : (T.talking clock.now).State)
        (mark : (T.talking clock.now).cutting.Mark) (left : List ℕ) →
        T.stands clock.now talk.old state mark left →
        OnErr result (IsCutWithin (T.talking clock.now) state mark left pass.old pass.new
        (O.held output.old) (O.held output.new)) }
    ensures fewer { IfOk result (λ step. step ≡ Step.Answered → T.size talk.new < T.size talk.old) }
    ensures risen { IsErrOf result Unsent.Write →
        HasRisen (O.faults output.old) (O.faults output.new) }
    ensures by_one { IsErrOf result Unsent.Write →
        O.faults output.new ≡ raise (O.faults output.old) }
    ensures broken { IsErrOf result Unsent.Write → O.broken output.new ≡ true }
    ensures steady { OnOk result (O.faults output.new ≡ O.faults output.old) }
    ensures steady_unsent { IsErrOf result Unsent.NoMemory →
        (O.faults output.new ≡ O.faults output.old) }
    ensures never_falls { O.faults output.old ≤ O.faults output.new }
    ensures fits { T.fits lock.now pass.new }
{
    out.clear();
    match talk.answer_next(rt, alloc, lock, pass, clock, out) {
        Heard::Answered => match send(out, output) {
            Ok(()) => Ok(Step::Answered),
            Err(fault) => Err(fault),
        },
        Heard::Unsent => Err(Unsent::NoMemory),
        Heard::Open => Ok(Step::Open),
        Heard::Bad => Ok(Step::Bad),
    }
}

// Answers all items that are whole, and says whether what comes after them is none.
fn answer_held<R: Wait, L, P, C, T: Talk<L, P, C>, O: Sink>(
    rt: &R,
    alloc: Global,
    lock: &L,
    pass: &mut P,
    clock: &C,
    talk: &mut T,
    out: &mut Bytes,
    output: &mut O,
) -> Result<bool, Unsent>
    requires { T.fits lock.now pass.old }
    ensures ok { (state : (T.talking clock.now).State)
        (mark : (T.talking clock.now).cutting.Mark) (left : List ℕ) →
        T.stands clock.now talk.old state mark left →
        IfOk result (SpeaksHeld (T.talking clock.now) state mark left pass.old pass.new
        (O.held output.old) (O.held output.new) (T.stands clock.now talk.new)) }
    ensures cut { (state : (T.talking clock.now).State)
        (mark : (T.talking clock.now).cutting.Mark) (left : List ℕ) →
        T.stands clock.now talk.old state mark left →
        OnErr result (IsCutWithin (T.talking clock.now) state mark left pass.old pass.new
        (O.held output.old) (O.held output.new)) }
    ensures risen { IsErrOf result Unsent.Write →
        HasRisen (O.faults output.old) (O.faults output.new) }
    ensures by_one { IsErrOf result Unsent.Write →
        O.faults output.new ≡ raise (O.faults output.old) }
    ensures broken { IsErrOf result Unsent.Write → O.broken output.new ≡ true }
    ensures steady { OnOk result (O.faults output.new ≡ O.faults output.old) }
    ensures steady_unsent { IsErrOf result Unsent.NoMemory →
        (O.faults output.new ≡ O.faults output.old) }
    ensures never_falls { O.faults output.old ≤ O.faults output.new }
    ensures fits { T.fits lock.now pass.new }
{
    loop {
        match answer_one(rt, alloc, lock, pass, clock, talk, out, output) {
            Ok(Step::Answered) => {}
            Ok(Step::Open) => return Ok(false),
            Ok(Step::Bad) => return Ok(true),
            Err(fault) => return Err(fault),
        }
    }
}

// Tells that what comes is no item, and returns how the talk ends.
fn end_at_bad<L, P, C, T: Talk<L, P, C>, O: Sink>(
    alloc: Global,
    clock: &C,
    talk: &T,
    output: &mut O,
) -> TalkEnd
    ensures tells { TellsBad (T.talking clock.now) (O.held output.old) (O.held output.new) result }
    ensures risen { (result ≡ TalkEnd.WriteFault) →
        HasRisen (O.faults output.old) (O.faults output.new) }
    ensures by_one { (result ≡ TalkEnd.WriteFault) →
        O.faults output.new ≡ raise (O.faults output.old) }
    ensures broken { (result ≡ TalkEnd.WriteFault) → O.broken output.new ≡ true }
    ensures steady { OutputStandsStill result (O.faults output.old) (O.faults output.new) }
    ensures never_falls { O.faults output.old ≤ O.faults output.new }
    ensures no_read { result ≢ TalkEnd.ReadFault }
{
    let mut out = Bytes::new(alloc);
    match talk.spell_bad(alloc, clock, &mut out) {
        Ok(()) => {}
        Err(_) => return TalkEnd::NoMemory,
    }
    match send(&out, output) {
        Ok(()) => TalkEnd::Bad,
        Err(fault) => unsent_end(fault),
    }
}

/// Answers the items that are whole with a piece, or returns how the talk ends. Each reply is spelled in the same room.
pub(crate) fn answer_piece<R: Wait, L, P, C, T: Talk<L, P, C>, O: Sink>(
    rt: &R,
    alloc: Global,
    lock: &L,
    pass: &mut P,
    clock: &C,
    talk: &mut T,
    piece: &[u8],
    out: &mut Bytes,
    output: &mut O,
) -> Result<(), TalkEnd>
    requires { T.fits lock.now pass.old }
    ensures ok { (state : (T.talking clock.now).State)
        (mark : (T.talking clock.now).cutting.Mark) (left : List ℕ) →
        T.stands clock.now talk.old state mark left →
        (T.talking clock.now).cutting.IsOpen mark left →
        OnOk result (SpeaksAll (T.talking clock.now) state mark (left ++ piece.now) pass.old pass.new
        (O.held output.old) (O.held output.new) (T.stands clock.now talk.new)) }
    ensures ends { (state : (T.talking clock.now).State)
        (mark : (T.talking clock.now).cutting.Mark) (left : List ℕ) →
        T.stands clock.now talk.old state mark left →
        (T.talking clock.now).cutting.IsOpen mark left →
        IfErr result (EndsAtPiece (T.talking clock.now) state mark (left ++ piece.now) pass.old pass.new
        (O.held output.old) (O.held output.new)) }
    ensures risen { IsErrOf result TalkEnd.WriteFault →
        HasRisen (O.faults output.old) (O.faults output.new) }
    ensures by_one { IsErrOf result TalkEnd.WriteFault →
        O.faults output.new ≡ raise (O.faults output.old) }
    ensures broken { IsErrOf result TalkEnd.WriteFault → O.broken output.new ≡ true }
    ensures steady { OnOk result (O.faults output.new ≡ O.faults output.old) }
    ensures steady_end { IfErr result (λ end. OutputStandsStill end (O.faults output.old) (O.faults output.new)) }
    ensures never_falls { O.faults output.old ≤ O.faults output.new }
    ensures no_read { IfErr result (λ end. end ≢ TalkEnd.ReadFault) }
    ensures fits { T.fits lock.now pass.new }
{
    match talk.feed(piece) {
        Ok(()) => {}
        Err(_) => return Err(TalkEnd::NoMemory),
    }
    match answer_held(rt, alloc, lock, pass, clock, talk, out, output) {
        Ok(is_bad) => {
            if is_bad {
                Err(end_at_bad(alloc, clock, talk, output))
            } else {
                Ok(())
            }
        }
        Err(fault) => Err(unsent_end(fault)),
    }
}

/// At the end of the input, answers the last item, if what is left is one, and returns how the talk ends.
pub(crate) fn answer_last<R: Wait, L, P, C, T: Talk<L, P, C>, O: Sink>(
    rt: &R,
    alloc: Global,
    lock: &L,
    pass: &mut P,
    clock: &C,
    talk: &mut T,
    output: &mut O,
) -> TalkEnd
    requires { T.fits lock.now pass.old }
    ensures ends { (state : (T.talking clock.now).State)
        (mark : (T.talking clock.now).cutting.Mark) (left : List ℕ) →
        T.stands clock.now talk.old state mark left →
        (T.talking clock.now).cutting.IsOpen mark left →
        EndsAtLast (T.talking clock.now) state mark left pass.old pass.new
        (O.held output.old) (O.held output.new) result }
    ensures risen { (result ≡ TalkEnd.WriteFault) →
        HasRisen (O.faults output.old) (O.faults output.new) }
    ensures by_one { (result ≡ TalkEnd.WriteFault) →
        O.faults output.new ≡ raise (O.faults output.old) }
    ensures broken { (result ≡ TalkEnd.WriteFault) → O.broken output.new ≡ true }
    ensures steady { OutputStandsStill result (O.faults output.old) (O.faults output.new) }
    ensures never_falls { O.faults output.old ≤ O.faults output.new }
    ensures no_read { result ≢ TalkEnd.ReadFault }
    ensures fits { T.fits lock.now pass.new }
{
    let mut out = Bytes::new(alloc);
    match talk.answer_last(rt, alloc, lock, pass, clock, &mut out) {
        Heard::Answered => match send(&out, output) {
            Ok(()) => TalkEnd::Done,
            Err(fault) => unsent_end(fault),
        },
        Heard::Unsent => TalkEnd::NoMemory,
        Heard::Open => TalkEnd::Done,
        Heard::Bad => end_at_bad(alloc, clock, talk, output),
    }
}
