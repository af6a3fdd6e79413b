//! The reader of messages, which keeps what was fed and not taken.

ghost use Rattle.std.specs.Prelude.{◌≡◌, ◌≤◌, ◌+◌, ◌-◌, ◌^◌, ◌++◌, [], ℕ, List, drop, length, min, IfOk, IfErr, IsErr, IsTrue, ◌↔◌, MatchOption, OnOk, OnErr, Ok};
ghost use Rattle.event_messages.specs.Messages.{Message, message_at};
ghost use Rattle.event_messages.specs.Reader.{BeginsMessage, BeginsNoMessage, MayGoOn, after_message};

use crate::reading::message_at;
use bl_syntax::{CodecFault, NoMemory};
use std::alloc::Global;
use std::marker::Model;

/// At a message's place stands no message: another first byte, or a length over the limit.
#[derive(Clone, Copy, Debug, PartialEq, Eq)]
pub struct BadFrame;

/// The bytes that were fed and belong to no message that was taken.
#[derive(Debug, Drop)]
pub struct MessageReader {
    bytes: Vec<u8>,
    start: usize,
    place: u64,
}

impl Model for MessageReader {
    ghost use Rattle.std.specs.Prelude.{◌≤◌, drop, length};
    ghost use Rattle.event_messages.specs.Reader.{ReaderState};

    ghost Value = { ReaderState };

    ghost view = { λ r. record { left = drop r.start r.bytes.items; place = r.place } };

    ghost invariant = { λ r. r.start ≤ length r.bytes.items };
}

// Moves what stands from the start on to the front.
fn drop_front(bytes: &mut Vec<u8>, start: usize)
    requires { start ≤ length bytes.old.items }
    ensures { bytes.new.items ≡ drop start bytes.old.items }
{
    let len = bytes.len() - start;
    bytes.copy_within(start.., 0);
    bytes.truncate(len);
}

// The place after so many bytes more.
fn place_after(place: u64, count: usize) -> u64
    ensures { result ≡ min (place + count) (2 ^ 64 - 1) }
{
    place.saturating_add(count as u64)
}

impl MessageReader {
    /// A reader that was fed nothing. It takes no memory.
    pub fn new(alloc: Global) -> MessageReader
        ensures { result ≡ record { left = []; place = 0 } }
    {
        MessageReader {
            bytes: Vec::new(alloc),
            start: 0,
            place: 0,
        }
    }

    // Moves the bytes to the front, if no more of them are moved than were taken since they were moved last.
    fn settle(&mut self)
        ensures { self.new ≡ self.old }
    {
        if self.bytes.len() - self.start <= self.start {
            drop_front(&mut self.bytes, self.start);
            self.start = 0;
        }
    }

    // The bytes that are left.
    fn left(&self) -> &[u8]
        ensures { result.now ≡ self.now.left }
    {
        &self.bytes[self.start..]
    }

    /// Takes a piece: bytes that come after those before, all or none.
    pub fn feed(&mut self, piece: &[u8]) -> Result<(), NoMemory>
        ensures ok { OnOk result (self.new ≡ record self.old { left = self.old.left ++ piece.now }) }
        ensures err { OnErr result (self.new ≡ self.old) }
    {
        self.settle();
        self.bytes.extend_from_slice(piece)?;
        Ok(())
    }

    /// How many bytes of all that was fed stand before those that are left. It counts no further than 2^64 - 1.
    pub fn place(&self) -> u64
        ensures { result ≡ self.now.place }
    {
        self.place
    }

    /// Whether no byte is left.
    pub fn is_empty(&self) -> bool
        ensures { IsTrue result ↔ (self.now.left ≡ []) }
    {
        self.bytes.len() == self.start
    }

    /// The number and the payload of the message that is next, if it is there whole; none exactly if more bytes may complete
    /// it. `BadFrame` comes exactly if no message begins so, whatever comes.
    pub fn next(&self) -> Result<Option<(u64, &[u8])>, BadFrame>
        ensures ok { IfOk result (λ found. MatchOption found (MayGoOn self.now.left)
            (λ m. BeginsMessage self.now.left (record { number = m.0; payload = m.1.now }))) }
        ensures err { IfErr result (λ _. BeginsNoMessage self.now.left) }
    {
        match message_at(self.left()) {
            Ok((number, payload, _)) => Ok(Some((number, payload))),
            Err(CodecFault::Short) => Ok(None),
            Err(_) => Err(BadFrame),
        }
    }

    /// Takes the message that is next, and does nothing if it is not there whole.
    pub fn take_next(&mut self)
        ensures taken { (m : Message) (rest : List ℕ) → message_at self.old.left ≡ Ok (m, rest) →
            self.new ≡ after_message self.old m rest }
        ensures none { IsErr (message_at self.old.left) → self.new ≡ self.old }
    {
        let total = self.bytes.len();
        if let Ok((_, _, rest)) = message_at(self.left()) {
            let start = total - rest.len();
            self.place = place_after(self.place, start - self.start);
            self.start = start;
        }
    }
}
