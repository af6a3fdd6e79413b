//! Sources: where bytes come from.

ghost use Rattle.std.specs.Prelude.{◌≡◌, ℕ, ◌<◌, ◌≤◌, ◌↔◌, false, List, Option, None, Some, Bool, IfOk, IsErr, OnOk, OnErr, length, take, min, is_ok, is_err, if◌then◌else◌};
ghost use Rattle.std.specs.Io.KnownBytes.{ReadConsumes};
ghost use Rattle.pcfs_ports.specs.Faults.{HasRisen, raise};
ghost use Rattle.pcfs_ports.specs.Observable.{with_front, IsAtEnd};
ghost use Rattle.pcfs_ports.specs.Calls.{no_calls, FailsNext};
ghost use Rattle.pcfs_ports.specs.MemorySource.{after_read, after_failed_read};

use super::faults::{CallPlan, Failed};
use bl_syntax::{Bytes, Numbers};
use std::alloc::Global;
use std::io::Read;
use std::marker::Model;

/// Where bytes come from, in order.
///
/// Its meaning is the bytes that are still to come, which it tells or does not tell, and a count of
/// faults that never falls, and counts as risen if it stands at `u64::MAX`; and whether its last call
/// failed. Whether it tells its bytes is the same after each call as before.
pub trait Source {
    // The bytes that are still to come, if it tells them.
    ghost left: { Self → Option (List ℕ) };

    // How many faults it has had.
    ghost faults: { Self → ℕ };

    // Whether its last call failed.
    ghost broken: { Self → Bool };

    /// Takes the next bytes into the front of `buf`, and returns how many.
    ///
    /// No byte for a `buf` that is not empty is the end of the input. `Failed` comes only if the
    /// count of faults rose, by one, and takes nothing; at each other answer it stands still. What stands in
    /// `buf` after the bytes that were taken, or at `Failed`, is left open.
    fn read(&mut self, buf: &mut [u8]) -> Result<usize, Failed>
        ensures bound { IfOk result (λ count. count ≤ length buf.new) }
        ensures ok { IfOk result (λ count.
            left self.old ≡ with_front (take count buf.new) (left self.new)) }
        ensures end { IfOk result (λ count.
            count ≡ 0 → 0 < length buf.new → IsAtEnd (left self.new)) }
        ensures err { OnErr result (left self.new ≡ left self.old) }
        ensures steady { OnOk result (faults self.new ≡ faults self.old) }
        ensures risen { OnErr result (HasRisen (faults self.old) (faults self.new)) }
        ensures never_falls { faults self.old ≤ faults self.new }
        ensures by_one { OnErr result (faults self.new ≡ raise (faults self.old)) }
        ensures broken { broken self.new ≡ is_err result };
}

/// A source over bytes in memory. It fails exactly at the calls that are to fail.
#[derive(Debug, Drop)]
pub struct MemorySource {
    bytes: Bytes,
    at: usize,
    plan: CallPlan,
}

impl Model for MemorySource {
    ghost use Rattle.std.specs.Prelude.{◌≤◌, drop, length};
    ghost use Rattle.pcfs_ports.specs.MemorySource.{MemorySourceView};

    ghost Value = { MemorySourceView };

    ghost view = { λ s. record { left = drop s.at s.bytes; calls = s.plan } };

    ghost invariant = { λ s. s.at ≤ length s.bytes };
}

impl MemorySource {
    /// A source with these bytes. `failing` lists the numbers, from 0, of the calls that fail.
    /// It takes no memory.
    pub fn new(_alloc: Global, bytes: Bytes, failing: Numbers) -> Self
        ensures { result ≡ record { left = bytes; calls = no_calls failing } }
    {
        MemorySource {
            bytes,
            at: 0,
            plan: CallPlan::new(failing),
        }
    }
}

impl Source for MemorySource {
    ghost left = { λ s. Some s.left };

    ghost faults = { λ s. s.calls.faults };

    ghost broken = { λ s. s.calls.broken };

    fn read(&mut self, buf: &mut [u8]) -> Result<usize, Failed>
        // It fails exactly if it is to, and else gives as many bytes as there are and fit.
        ensures planned { IsErr result ↔ FailsNext self.old.calls }
        ensures failed { OnErr result (self.new ≡ after_failed_read self.old) }
        ensures count { IfOk result (λ count. count ≡ min (length buf.new) (length self.old.left)) }
        ensures bytes { IfOk result (λ count. take count buf.new ≡ take count self.old.left) }
        ensures taken { IfOk result (λ count. self.new ≡ after_read self.old count) }
        ensures never_falls { self.old.calls.faults ≤ self.new.calls.faults }
    {
        if self.plan.is_next_to_fail() {
            self.plan.count_failed();
            return Err(Failed);
        }
        self.plan.count();
        let left = &self.bytes.as_slice()[self.at..];
        let count = buf.len().min(left.len());
        buf[..count].copy_from_slice(&left[..count]);
        self.at += count;
        Ok(count)
    }
}

/// A source over a reader of std. As a source it tells nothing of the bytes. Each error of the reader
/// is a fault.
#[derive(Debug, Drop)]
pub struct StdSource<R> {
    reader: R,
    faults: u64,
    // Whether the last call failed.
    broken: bool,
}

impl<R> Model for StdSource<R> {
    ghost use Rattle.std.specs.Prelude.{ℕ, Bool};

    // the reader, the count of faults, and whether the last call failed
    ghost Value = { R × ℕ × Bool };

    ghost view = { λ s. (s.reader, s.faults, s.broken) };
}

impl<R: Read> StdSource<R> {
    /// A source over this reader, without a fault.
    pub fn new(reader: R) -> Self
        ensures { result ≡ (reader, 0, false) }
    {
        StdSource {
            reader,
            faults: 0,
            broken: false,
        }
    }
}

impl<R: Read> Source for StdSource<R> {
    ghost left = { λ _. None };

    ghost faults = { λ s. s.1 };

    ghost broken = { λ s. s.2 };

    fn read(&mut self, buf: &mut [u8]) -> Result<usize, Failed>
        ensures bound { IfOk result (λ count. count ≤ length buf.new) }

        // What the reader itself tells of its bytes holds here too.
        ensures bytes { ReadConsumes (R.remaining self.old.0) (R.remaining self.new.0) result buf.new }
        ensures faults { self.new.1 ≡ (if is_ok result then self.old.1 else raise self.old.1) }
        ensures never_falls { self.old.1 ≤ self.new.1 }
        ensures broken { self.new.2 ≡ is_err result }
    {
        match self.reader.read(buf) {
            Ok(count) => {
                self.broken = false;
                Ok(count)
            }
            Err(_) => {
                self.faults = self.faults.saturating_add(1);
                self.broken = true;
                Err(Failed)
            }
        }
    }
}
