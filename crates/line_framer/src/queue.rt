//! Bytes that are added at the end and taken from the front.

ghost use Rattle.std.specs.Prelude.{◌≡◌, ◌≤◌, ◌++◌, [], drop, length, take, OnOk, OnErr};

use bl_syntax::NoMemory;
use std::alloc::Global;
use std::marker::Model;

/// Bytes in order. Those that were taken stand before the start until more are added.
#[derive(Debug, Drop)]
pub struct Queue {
    bytes: Vec<u8>,
    start: usize,
}

impl Model for Queue {
    ghost use Rattle.std.specs.Prelude.{ℕ, List, ◌≤◌, drop, length};

    ghost Value = { List ℕ };

    ghost view = { λ q. drop q.start q.bytes.items };

    ghost invariant = { λ q. q.start ≤ length q.bytes.items };
}

// Moves what stands from the start on to the front.
fn drop_front(bytes: &mut Vec<u8>, start: usize)
    requires { start ≤ length bytes.old.items }
    ensures { bytes.new.items ≡ drop start bytes.old.items }
{
    let len = bytes.len() - start;
    bytes.copy_within(start.., 0);
    bytes.truncate(len);
}

impl Queue {
    /// No bytes. It takes no memory.
    pub fn new(alloc: Global) -> Queue
        ensures { result ≡ [] }
    {
        Queue {
            bytes: Vec::new(alloc),
            start: 0,
        }
    }

    /// How many bytes there are.
    pub fn len(&self) -> usize
        ensures { result ≡ length self.now }
    {
        self.bytes.len() - self.start
    }

    /// The bytes in order.
    pub fn as_slice(&self) -> &[u8]
        ensures { result.now ≡ self.now }
    {
        &self.bytes[self.start..]
    }

    // Moves the bytes to the front, if no more of them are moved than were taken since they were moved last.
    fn settle(&mut self)
        ensures { self.new ≡ self.old }
    {
        if self.bytes.len() - self.start <= self.start {
            drop_front(&mut self.bytes, self.start);
            self.start = 0;
        }
    }

    /// Adds bytes at the end, all or none.
    pub fn extend(&mut self, piece: &[u8]) -> Result<(), NoMemory>
        ensures ok { OnOk result (self.new ≡ self.old ++ piece.now) }
        ensures err { OnErr result (self.new ≡ self.old) }
    {
        self.settle();
        self.bytes.extend_from_slice(piece)?;
        Ok(())
    }

    /// Takes this many bytes from the front.
    pub fn skip(&mut self, count: usize)
        requires { count ≤ length self.old }
        ensures { self.new ≡ drop count self.old }
    {
        self.start += count;
    }

    /// Keeps this many bytes at the front, and drops those after them.
    pub fn truncate(&mut self, len: usize)
        requires { len ≤ length self.old }
        ensures { self.new ≡ take len self.old }
    {
        self.bytes.truncate(self.start + len);
    }
}
