//! Talks.

ghost use Rattle.std.specs.Prelude.{◌≡◌, ◌<◌, ℕ, List, [], ◌++◌, OnOk};
ghost use Rattle.session_loop.specs.Talking.{Talking, TalkingLaws};
ghost use Rattle.session_loop.specs.Heard.{HasHeard, HasHeardLast};

use crate::heard::Heard;
use bl_syntax::{Bytes, NoMemory};
use std::alloc::Global;
use std::sync::Wait;

/// How the input of a talk becomes items, how each is answered, and how a reply becomes bytes.
///
/// A talk keeps what came and is not answered. It answers over what is locked by `L`, under a pass `P`, by a clock `C`.
pub trait Talk<L, P, C> {
    // What is said, by this clock.
    ghost talking: { C → Talking P };

    // So far the talk has come to this state and this mark, and these bytes are left, by this clock.
    ghost stands: { (clock : C) → Self → (talking clock).State → (talking clock).cutting.Mark →
        List ℕ → Type 0 };

    // How much it keeps.
    ghost size: { Self → ℕ };

    // The pass is one of the lock.
    ghost fits: { L → P → Type 0 };

    /// Keeps a piece that comes after less than an item.
    fn feed(&mut self, piece: &[u8]) -> Result<(), NoMemory>
        ensures { OnOk result ((clock : C) (state : (talking clock).State)
            (mark : (talking clock).cutting.Mark) (left : List ℕ) →
            stands clock self.old state mark left →
            (talking clock).cutting.IsOpen mark left →
            stands clock self.new state mark (left ++ piece.now)) };

    /// Answers the next item, if it is whole, and spells the reply.
    fn answer_next<R: Wait>(
        &mut self,
        rt: &R,
        alloc: Global,
        lock: &L,
        pass: &mut P,
        clock: &C,
        out: &mut Bytes,
    ) -> Heard
        requires fits { fits lock.now pass.old }
        requires empty { out.old ≡ [] }
        ensures heard { (state : (talking clock.now).State)
            (mark : (talking clock.now).cutting.Mark) (left : List ℕ) →
            stands clock.now self.old state mark left →
            HasHeard (talking clock.now) (stands clock.now self.new) state mark left
            pass.old pass.new out.new result }
        ensures fewer { result ≡ Heard.Answered → size self.new < size self.old }
        ensures fits { fits lock.now pass.new };

    /// At the end of the input, answers the last item, if what is left is one, and spells the reply.
    fn answer_last<R: Wait>(
        &mut self,
        rt: &R,
        alloc: Global,
        lock: &L,
        pass: &mut P,
        clock: &C,
        out: &mut Bytes,
    ) -> Heard
        requires fits { fits lock.now pass.old }
        requires empty { out.old ≡ [] }
        ensures heard { (state : (talking clock.now).State)
            (mark : (talking clock.now).cutting.Mark) (left : List ℕ) →
            stands clock.now self.old state mark left →
            (talking clock.now).cutting.IsOpen mark left →
            HasHeardLast (talking clock.now) state mark left pass.old pass.new out.new result }
        ensures fits { fits lock.now pass.new };

    /// Spells that what comes is no item.
    fn spell_bad(&self, alloc: Global, clock: &C, out: &mut Bytes) -> Result<(), NoMemory>
        requires empty { out.old ≡ [] }
        ensures { OnOk result (out.new ≡ (talking clock.now).bad_text) };

    // What it says keeps the laws of talks.
    ghost laws: { (clock : C) → TalkingLaws (talking clock) };
}
