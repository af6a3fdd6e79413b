//! Connections of a meeting.

ghost use Rattle.std.specs.Prelude.{◌≡◌, ◌≤◌, false, None, length};

use crate::meeting::Meeting;
use pcfs_ports::{Accepted, Failed, Listener, Sink, Source};
use std::alloc::Global;
use std::str;

/// What a connection says: it logs in, and says the rest once the meeting is at this stage.
#[derive(Clone, Copy)]
pub struct Speech<'b> {
    pub login: &'b [u8],
    pub awaits: usize,
    pub rest: &'b [u8],
}

/// What two connections say.
#[derive(Clone, Copy)]
pub struct Speeches<'b> {
    pub first: Speech<'b>,
    pub second: Speech<'b>,
}

// Puts the first of the bytes into the buffer, and returns how many.
fn give(bytes: &[u8], buf: &mut [u8]) -> usize
    ensures { result ≤ length buf.new }
{
    let count = bytes.len().min(buf.len());
    buf[..count].copy_from_slice(&bytes[..count]);
    count
}

/// Gives a speech. It does not tell what it has.
#[derive(Drop)]
pub struct Speaker<'b> {
    meeting: &'b Meeting,
    speech: Speech<'b>,
    reads: u32,
}

impl<'b> Speaker<'b> {
    /// Nothing was given.
    pub fn new(meeting: &'b Meeting, speech: Speech<'b>) -> Speaker<'b> {
        Speaker {
            meeting,
            speech,
            reads: 0,
        }
    }
}

impl<'b> Source for Speaker<'b> {
    ghost left = { λ _. None };

    ghost faults = { λ _. 0 };

    ghost broken = { λ _. false };

    fn read(&mut self, buf: &mut [u8]) -> Result<usize, Failed> {
        let reads = self.reads;
        self.reads = reads.saturating_add(1);
        match reads {
            0 => Ok(give(self.speech.login, buf)),
            1 => {
                self.meeting.advance();
                self.meeting.wait_for(self.speech.awaits);
                self.meeting.advance();
                Ok(give(self.speech.rest, buf))
            }
            _ => Ok(0),
        }
    }
}

/// Notes what a connection is told. It does not tell what it holds.
#[derive(Drop)]
pub struct Hearer<'b> {
    meeting: &'b Meeting,
}

impl<'b> Hearer<'b> {
    pub fn new(meeting: &'b Meeting) -> Hearer<'b> {
        Hearer { meeting }
    }
}

impl<'b> Sink for Hearer<'b> {
    ghost held = { λ _. None };

    ghost faults = { λ _. 0 };

    ghost broken = { λ _. false };

    fn write(&mut self, piece: &[u8]) -> Result<usize, Failed> {
        if let Ok(reply) = str::from_utf8(piece) {
            self.meeting.note_reply(reply);
        }
        Ok(piece.len())
    }
}

/// Two connections.
#[derive(Drop)]
pub struct TwoConnections<'b> {
    meeting: &'b Meeting,
    speeches: Speeches<'b>,
    accepted: u32,
}

impl<'b> TwoConnections<'b> {
    /// None was accepted.
    pub fn new(meeting: &'b Meeting, speeches: Speeches<'b>) -> TwoConnections<'b> {
        TwoConnections {
            meeting,
            speeches,
            accepted: 0,
        }
    }
}

impl<'b> Listener for TwoConnections<'b> {
    type In = Speaker<'b>;

    type Out = Hearer<'b>;

    ghost queue = { λ _. None };

    ghost waiting = { λ _. None };

    ghost over = { λ _. Unit {0} };

    ghost faults = { λ _. 0 };

    ghost broken = { λ _. false };

    ghost waiting_is_length = { λ _. tt };

    fn listen(&mut self, _port: u16) -> Result<(), Failed> {
        Ok(())
    }

    fn accept(&mut self, _alloc: Global) -> Accepted<Speaker<'b>, Hearer<'b>> {
        let accepted = self.accepted;
        self.accepted = accepted.saturating_add(1);
        let speech = match accepted {
            0 => self.speeches.first,
            1 => self.speeches.second,
            _ => return Accepted::Closed,
        };
        Accepted::Conn(
            Speaker::new(self.meeting, speech),
            Hearer::new(self.meeting),
        )
    }
}
