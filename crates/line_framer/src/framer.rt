//! The framer, which keeps what was fed and not taken.

ghost use Rattle.std.specs.Prelude.{◌≡◌, ◌≤◌, [], ℕ, List, true, false, length, IsSome, IfSome, MatchOption, MatchResult, OnOk, OnErr};
ghost use Rattle.bl_syntax.specs.declared.limits.TheConstants.{LONGEST_LINE};
ghost use Rattle.line_text.specs.Words.{HasNo};
ghost use Rattle.line_framer.specs.Framing.{IsFirst, cut_off};
ghost use Rattle.line_framer.specs.Feeding.{IsFed, IsNotFed};

use crate::queue::Queue;
use crate::scanning::{Scanned, end_of_line, scan};
use bl_syntax::NoMemory;
use bl_syntax::limits::LONGEST_LINE;
use std::alloc::Global;
use std::marker::Model;
use thiserror::Error;

/// Why a piece is not taken.
#[derive(Clone, Copy, Debug, PartialEq, Eq, Error)]
pub enum FeedFault {
    /// A line is longer than 262,144 bytes: with this piece, or since an earlier one.
    #[error("a line has more than {most} bytes", most = LONGEST_LINE)]
    TooLong,
    /// A growth was refused, and nothing changed.
    #[error("out of memory")]
    NoMemory,
}

impl From<NoMemory> for FeedFault {
    ghost use Rattle.std.specs.Prelude.{◌≡◌};
    ghost use Rattle.line_framer.specs.declared.framer.FeedFault.TheVariants.{NoMemory as OutOfMemory};

    ghost from_gives = { λ _ fault. fault ≡ OutOfMemory };

    fn from(_refused: NoMemory) -> FeedFault {
        FeedFault::NoMemory
    }
}

/// The bytes that were fed and belong to no line that was taken. After a line that is too long it keeps the lines before
/// that, and takes no piece more.
#[derive(Debug, Drop)]
pub struct Framer {
    queue: Queue,
    last_len: usize,
    is_long: bool,
}

impl Model for Framer {
    ghost use Rattle.line_framer.specs.Framing.{FramerState, IsOpen};

    ghost Value = { FramerState };

    ghost view = { λ f. record { left = f.queue; is_long = f.is_long } };

    ghost invariant = { λ f. IsOpen f.queue f.last_len };
}

// Keeps the whole lines, and after them these bytes of a piece if there are some, which then complete the last line.
fn cut(queue: &mut Queue, last_len: usize, whole: &[u8]) -> Result<(), NoMemory>
    requires { last_len ≤ length queue.old }
    ensures ok { OnOk result (queue.new ≡ cut_off queue.old last_len whole.now) }
    ensures err { OnErr result (queue.new ≡ queue.old) }
{
    if whole.is_empty() {
        let kept = queue.len() - last_len;
        queue.truncate(kept);
        Ok(())
    } else {
        queue.extend(whole)
    }
}

impl Framer {
    /// A framer that was fed nothing. It takes no memory.
    pub fn new(alloc: Global) -> Framer
        ensures { result ≡ record { left = []; is_long = false } }
    {
        Framer {
            queue: Queue::new(alloc),
            last_len: 0,
            is_long: false,
        }
    }

    /// Takes a piece: bytes that come after those before. `TooLong` comes exactly if there is a line of more than
    /// 262,144 bytes, whether its end has come or not: the whole lines before it can still be taken, the bytes from it on
    /// are dropped, and each later call returns the same. After `NoMemory` all is as before.
    pub fn feed(&mut self, piece: &[u8]) -> Result<(), FeedFault>
        ensures { MatchResult result (λ _. IsFed self.old piece.now self.new) (λ fault. IsNotFed self.old piece.now fault self.new) }
    {
        if self.is_long {
            return Err(FeedFault::TooLong);
        }
        match scan(self.last_len, piece) {
            Scanned::Short(last_len) => {
                self.queue.extend(piece)?;
                self.last_len = last_len;
                Ok(())
            }
            Scanned::Long(whole) => {
                cut(&mut self.queue, self.last_len, &piece[..whole])?;
                self.last_len = 0;
                self.is_long = true;
                Err(FeedFault::TooLong)
            }
        }
    }

    /// The next line that has its end, without it; none exactly if there is none.
    pub fn next_line(&self) -> Option<&[u8]>
        ensures line { MatchOption result (HasNo 10 self.now.left) (λ line. (rest : List ℕ) × IsFirst self.now.left line.now rest) }
        ensures few { IfSome result (λ line. length line.now ≤ LONGEST_LINE) }
    {
        if self.queue.len() == self.last_len {
            return None;
        }
        let left = self.queue.as_slice();
        let end = end_of_line(left)?;
        Some(&left[..end])
    }

    /// Takes the next line that has its end, and does nothing if there is none.
    pub fn take_line(&mut self)
        ensures taken { (line rest : List ℕ) → IsFirst self.old.left line rest →
            self.new ≡ record self.old { left = rest } }
        ensures none { HasNo 10 self.old.left → self.new ≡ self.old }
    {
        if let Some(end) = end_of_line(self.queue.as_slice()) {
            self.queue.skip(end + 1);
        }
    }

    /// The last line, which has no end, if it is not empty and no line is before it.
    pub fn last_line(&self) -> Option<&[u8]>
        ensures some { IfSome result (λ line. (line.now ≡ self.now.left) × HasNo 10 line.now × (1 ≤ length line.now)) }
        ensures few { IfSome result (λ line. length line.now ≤ LONGEST_LINE) }
        ensures none { HasNo 10 self.now.left → 1 ≤ length self.now.left → IsSome result }
    {
        if self.queue.len() != self.last_len {
            return None;
        }
        let left = self.queue.as_slice();
        if left.is_empty() {
            return None;
        }
        Some(left)
    }
}
