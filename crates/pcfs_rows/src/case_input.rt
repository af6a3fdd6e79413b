//! The input of a case: its bytes, some number of times, in pieces.

ghost use Rattle.std.specs.Prelude.{◌≡◌, None};

use bl_syntax::{Bytes, Numbers};
use pcfs_ports::{Failed, Source};
use std::alloc::Global;

/// An input that gives its bytes as often as it is to, no more of them at once than a piece has, and fails at some calls.
#[derive(Debug, Drop)]
pub struct CaseInput {
    /// The bytes that it gives each time.
    pub bytes: Bytes,
    /// How often.
    pub times: u32,
    /// How many of them a read gives, at most; with 0 it is one.
    pub piece: u32,
    /// The numbers, from 0, of the reads that fail.
    pub failing: Numbers,
    at: usize,
    reads: u32,
    faults: u64,
    // Whether the last read failed.
    broken: bool,
}

impl CaseInput {
    /// An input without bytes, of which no read fails.
    pub fn new(alloc: Global) -> CaseInput {
        CaseInput {
            bytes: Bytes::new(alloc),
            times: 1,
            piece: u32::MAX,
            failing: Numbers::new(alloc),
            at: 0,
            reads: 0,
            faults: 0,
            broken: false,
        }
    }

    // Whether the next read fails. It is counted.
    fn is_to_fail(&mut self) -> bool
        ensures { self.new.faults ≡ self.old.faults }
    {
        let fails = self.failing.as_slice().contains(&self.reads);
        self.reads = self.reads.saturating_add(1);
        fails
    }

    // Begins anew, if all bytes were given and are to be given again.
    fn begin_again(&mut self)
        ensures same { self.new.faults ≡ self.old.faults }
        ensures broken { self.new.broken ≡ self.old.broken }
    {
        if self.bytes.len() <= self.at && 1 < self.times {
            self.times -= 1;
            self.at = 0;
        }
    }
}

impl Source for CaseInput {
    ghost left = { λ _. None };

    ghost faults = { λ s. s.faults };

    ghost broken = { λ s. s.broken };

    fn read(&mut self, buf: &mut [u8]) -> Result<usize, Failed> {
        if self.is_to_fail() {
            self.faults = self.faults.saturating_add(1);
            self.broken = true;
            return Err(Failed);
        }
        self.broken = false;
        self.begin_again();
        let at = self.at.min(self.bytes.len());
        let left = &self.bytes.as_slice()[at..];
        let count = buf.len().min(left.len()).min((self.piece as usize).max(1));
        buf[..count].copy_from_slice(&left[..count]);
        self.at = at + count;
        Ok(count)
    }
}
