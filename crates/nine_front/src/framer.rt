//! The messages of bytes that come in pieces.

ghost use Rattle.std.specs.Prelude.{◌≡◌, ◌≤◌, ◌++◌, drop, length, OnOk, OnErr};
ghost use Rattle.nine_messages.specs.declared.framing.TheConstants.{MOST_SIZE};
ghost use Rattle.nine_messages.specs.Framing.{IsCutAt};
ghost use Rattle.nine_front.specs.Framing.{fresh_framer};

use bl_syntax::NoMemory;
use line_framer::Queue;
use nine_messages::{MOST_SIZE, Next, next_message};
use std::alloc::Global;
use std::marker::Model;

/// What came and belongs to no message that was taken, and how large a message may be.
#[derive(Debug, Drop)]
pub(crate) struct MessageFramer {
    left: Queue,
    agreed: u32,
}

impl Model for MessageFramer {
    ghost use Rattle.std.specs.Prelude.{◌≤◌};
    ghost use Rattle.nine_front.specs.Framing.{FramerState};
    ghost use Rattle.nine_messages.specs.declared.framing.TheConstants.{MOST_SIZE};

    ghost Value = { FramerState };

    ghost view = { λ f. record { left = f.left; agreed = f.agreed } };

    ghost invariant = { λ f. f.agreed ≤ MOST_SIZE };
}

impl MessageFramer {
    /// Nothing came. It takes no memory.
    pub(crate) fn new(alloc: Global) -> MessageFramer
        ensures { result ≡ fresh_framer }
    {
        MessageFramer {
            left: Queue::new(alloc),
            agreed: MOST_SIZE,
        }
    }

    /// Adds a piece, or nothing.
    pub(crate) fn feed(&mut self, piece: &[u8]) -> Result<(), NoMemory>
        ensures ok { OnOk result (self.new ≡ record self.old { left = self.old.left ++ piece.now }) }
        ensures err { OnErr result (self.new ≡ self.old) }
    {
        self.left.extend(piece)
    }

    /// What comes next. A message has at most 65,536 bytes.
    pub(crate) fn next(&self) -> Next<'_>
        ensures { IsCutAt self.now.agreed self.now.left result }
    {
        next_message(self.agreed, self.left.as_slice())
    }

    /// How large a message may be.
    pub(crate) fn agreed(&self) -> u32
        ensures agreed { result ≡ self.now.agreed }
        ensures few { result ≤ MOST_SIZE }
    {
        self.agreed
    }

    /// How many bytes there are.
    pub(crate) fn len(&self) -> usize
        ensures { result ≡ length self.now.left }
    {
        self.left.len()
    }

    /// Takes this many bytes, after which a message may be so large.
    pub(crate) fn take(&mut self, count: usize, agreed: u32)
        requires within { count ≤ length self.old.left }
        requires few { agreed ≤ MOST_SIZE }
        ensures { self.new ≡ record { left = drop count self.old.left; agreed = agreed } }
    {
        self.left.skip(count);
        self.agreed = agreed;
    }
}
