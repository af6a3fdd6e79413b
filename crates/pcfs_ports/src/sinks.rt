//! Sinks: where bytes go.

ghost use Rattle.std.specs.Prelude.{◌≡◌, ℕ, ◌<◌, ◌≤◌, ◌⊎◌, false, List, [], Option, None, Some, Bool, IfOk, IsErr, OnOk, OnErr, length, take, is_ok, is_err, if◌then◌else◌};
ghost use Rattle.std.specs.Io.KnownBytes.{WriteAppends};
ghost use Rattle.pcfs_ports.specs.Faults.{HasRisen, raise};
ghost use Rattle.pcfs_ports.specs.Observable.{with_back};
ghost use Rattle.pcfs_ports.specs.Calls.{no_calls, FailsNext};
ghost use Rattle.pcfs_ports.specs.MemorySink.{after_write, after_failed_write, after_refused_write};

use super::faults::{CallPlan, Failed};
use bl_syntax::{Bytes, NoMemory, Numbers};
use std::alloc::Global;
use std::io::Write;
use std::marker::Model;

/// Where bytes go, in order.
///
/// Its meaning is the bytes that it holds, which it tells or does not tell, and a count of faults that
/// never falls, and counts as risen if it stands at `u64::MAX`; and whether its last call failed. Whether
/// it tells its bytes is the same after each call as before.
pub trait Sink {
    // The bytes that it holds, if it tells them.
    ghost held: { Self → Option (List ℕ) };

    // How many faults it has had.
    ghost faults: { Self → ℕ };

    // Whether its last call failed.
    ghost broken: { Self → Bool };

    /// Adds the first bytes of `piece` after those that are held, and returns how many: at least one
    /// of a piece that is not empty.
    ///
    /// `Failed` comes only if the count of faults rose, by one, and adds nothing; at each other answer it stands still.
    fn write(&mut self, piece: &[u8]) -> Result<usize, Failed>
        ensures bound { IfOk result (λ count. count ≤ length piece.now) }
        ensures progress { IfOk result (λ count. 0 < length piece.now → 0 < count) }
        ensures ok { IfOk result (λ count.
            held self.new ≡ with_back (held self.old) (take count piece.now)) }
        ensures err { OnErr result (held self.new ≡ held self.old) }
        ensures steady { OnOk result (faults self.new ≡ faults self.old) }
        ensures risen { OnErr result (HasRisen (faults self.old) (faults self.new)) }
        ensures never_falls { faults self.old ≤ faults self.new }
        ensures by_one { OnErr result (faults self.new ≡ raise (faults self.old)) }
        ensures broken { broken self.new ≡ is_err result };
}

/// A sink that holds its bytes in memory. It fails at the calls that are to fail, and if a growth
/// is refused.
#[derive(Debug, Drop)]
pub struct MemorySink {
    bytes: Bytes,
    plan: CallPlan,
    refused: u64,
}

impl Model for MemorySink {
    ghost use Rattle.pcfs_ports.specs.MemorySink.{MemorySinkView};

    ghost Value = { MemorySinkView };

    ghost view = { λ s. record { held = s.bytes; calls = s.plan; refused = s.refused } };
}

impl MemorySink {
    /// A sink that holds nothing. `failing` lists the numbers, from 0, of the calls that fail.
    /// It takes no memory.
    pub fn new(alloc: Global, failing: Numbers) -> Self
        ensures { result ≡ record { held = []; calls = no_calls failing; refused = 0 } }
    {
        MemorySink {
            bytes: Bytes::new(alloc),
            plan: CallPlan::new(failing),
            refused: 0,
        }
    }

    /// The bytes that were written.
    pub fn held(&self) -> &[u8]
        ensures { result.now ≡ self.now.held }
    {
        self.bytes.as_slice()
    }

    /// How many growths were refused. At `u64::MAX` it counts as risen.
    pub fn refused(&self) -> u64
        ensures { result ≡ self.now.refused }
    {
        self.refused
    }
}

impl Sink for MemorySink {
    ghost held = { λ s. Some s.held };

    ghost faults = { λ s. s.calls.faults };

    ghost broken = { λ s. s.calls.broken };

    fn write(&mut self, piece: &[u8]) -> Result<usize, Failed>
        // It fails if it is to, and else only if a growth is refused.
        ensures planned { FailsNext self.old.calls →
            IsErr result × (self.new ≡ after_failed_write self.old) }
        ensures refused { OnErr result (
            FailsNext self.old.calls ⊎ (self.new ≡ after_refused_write self.old)) }

        // Else it takes the whole piece.
        ensures count { IfOk result (λ count. count ≡ length piece.now) }
        ensures written { OnOk result (self.new ≡ after_write self.old piece.now) }

        ensures never_falls { self.old.calls.faults ≤ self.new.calls.faults }
    {
        if self.plan.is_next_to_fail() {
            self.plan.count_failed();
            return Err(Failed);
        }
        match self.bytes.extend(piece) {
            Ok(()) => {
                self.plan.count();
                Ok(piece.len())
            }
            Err(NoMemory) => {
                self.plan.count_failed();
                self.refused = self.refused.saturating_add(1);
                Err(Failed)
            }
        }
    }
}

/// A sink over a writer of std. As a sink it tells nothing of the bytes, and it never flushes. Each
/// error of the writer is a fault, and so is a write that takes nothing of a piece that is not empty.
#[derive(Debug, Drop)]
pub struct StdSink<W> {
    writer: W,
    faults: u64,
    // Whether the last call failed.
    broken: bool,
}

impl<W> Model for StdSink<W> {
    ghost use Rattle.std.specs.Prelude.{ℕ, Bool};

    // the writer, the count of faults, and whether the last call failed
    ghost Value = { W × ℕ × Bool };

    ghost view = { λ s. (s.writer, s.faults, s.broken) };
}

impl<W: Write> StdSink<W> {
    /// A sink over this writer, without a fault.
    pub fn new(writer: W) -> Self
        ensures { result ≡ (writer, 0, false) }
    {
        StdSink {
            writer,
            faults: 0,
            broken: false,
        }
    }
}

impl<W: Write> Sink for StdSink<W> {
    ghost held = { λ _. None };

    ghost faults = { λ s. s.1 };

    ghost broken = { λ s. s.2 };

    fn write(&mut self, piece: &[u8]) -> Result<usize, Failed>
        ensures bound { IfOk result (λ count. count ≤ length piece.now) }
        ensures progress { IfOk result (λ count. 0 < length piece.now → 0 < count) }

        // What the writer itself tells of its bytes holds here too.
        ensures bytes { WriteAppends (W.contents self.old.0) (W.contents self.new.0) result piece.now }
        ensures faults { self.new.1 ≡ (if is_ok result then self.old.1 else raise self.old.1) }
        ensures never_falls { self.old.1 ≤ self.new.1 }
        ensures broken { self.new.2 ≡ is_err result }
    {
        match self.writer.write(piece) {
            Ok(count) if count > 0 || piece.is_empty() => {
                self.broken = false;
                Ok(count)
            }
            _ => {
                self.faults = self.faults.saturating_add(1);
                self.broken = true;
                Err(Failed)
            }
        }
    }
}
