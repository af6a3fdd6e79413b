//! Nonces: sixteen bytes at a time that a client has to sign.

ghost use Rattle.std.specs.Prelude.{◌≡◌, ℕ, ◌<◌, ◌≤◌, ◌↔◌, ◌⊎◌, false, List, Option, Some, None, Bool, IfOk, IsErr, OnOk, OnErr, length, take, is_ok, is_err, if◌then◌else◌};
ghost use Rattle.pcfs_ports.specs.Faults.{HasRisen, raise};
ghost use Rattle.pcfs_ports.specs.Calls.{no_calls, FailsNext};
ghost use Rattle.pcfs_ports.specs.MemorySource.{after_read, after_failed_read};
ghost use Rattle.pcfs_ports.specs.Telling.{AreTakenOff, IsNextNonce, bytes_taken};

use super::faults::{CallPlan, Failed};
use bl_syntax::{Bytes, Numbers};
use std::alloc::Global;
use std::io::{Eprint, Read};
use std::marker::Model;
use std::rt::Files;
use std::{fs, io};

/// How many bytes a nonce has.
pub const NONCE_LEN: usize = 16;

/// Where nonces come from.
///
/// Its meaning is of which bytes they are made, sixteen at a time, which it tells or does not tell, after each call as
/// before; a count of faults that never falls, and counts as risen if it stands at `u64::MAX`; and whether its last call
/// failed. Asking takes no memory.
pub trait Nonces {
    // The bytes that are still to be given, if it tells them.
    ghost coming: { Self → Option (List ℕ) };

    // How many faults it has had.
    ghost faults: { Self → ℕ };

    // Whether its last call failed.
    ghost broken: { Self → Bool };

    /// The next nonce: the first sixteen of the bytes that are told. `Failed` comes only if the count of faults rose, by one;
    /// at each other answer it stands still.
    fn next(&mut self) -> Result<[u8; 16], Failed>
        ensures sixteen { IfOk result (λ nonce. length nonce ≡ NONCE_LEN) }
        ensures first { IfOk result (λ nonce. IsNextNonce (coming self.old) nonce) }
        ensures coming { AreTakenOff (bytes_taken (is_ok result)) (coming self.old) (coming self.new) }
        ensures risen { OnErr result (HasRisen (faults self.old) (faults self.new)) }
        ensures never_falls { faults self.old ≤ faults self.new }
        ensures steady { OnOk result (faults self.new ≡ faults self.old) }
        ensures by_one { OnErr result (faults self.new ≡ raise (faults self.old)) }
        ensures broken { broken self.new ≡ is_err result };
}

/// Nonces from a list of bytes, sixteen at a time. It fails at the calls that are to fail, which take no byte, and if
/// fewer than sixteen bytes are left.
#[derive(Debug, Drop)]
pub struct ListNonces {
    bytes: Bytes,
    at: usize,
    plan: CallPlan,
}

impl Model for ListNonces {
    ghost use Rattle.std.specs.Prelude.{◌≤◌, drop, length};
    ghost use Rattle.pcfs_ports.specs.MemorySource.{MemorySourceView};

    // the bytes that are left, and the calls
    ghost Value = { MemorySourceView };

    ghost view = { λ s. record { left = drop s.at s.bytes; calls = s.plan } };

    ghost invariant = { λ s. s.at ≤ length s.bytes };
}

impl ListNonces {
    /// Nonces from these bytes. `failing` lists the numbers, from 0, of the calls that fail. It takes no memory.
    pub fn new(_alloc: Global, list: Bytes, failing: Numbers) -> Self
        ensures { result ≡ record { left = list; calls = no_calls failing } }
    {
        ListNonces {
            bytes: list,
            at: 0,
            plan: CallPlan::new(failing),
        }
    }
}

impl Nonces for ListNonces {
    ghost coming = { λ s. Some s.left };

    ghost faults = { λ s. s.calls.faults };

    ghost broken = { λ s. s.calls.broken };

    fn next(&mut self) -> Result<[u8; 16], Failed>
        ensures cause { IsErr result ↔ (FailsNext self.old.calls ⊎ (length self.old.left < NONCE_LEN)) }
        ensures failed { OnErr result (self.new ≡ after_failed_read self.old) }

        // Else it takes the next sixteen bytes.
        ensures nonce { IfOk result (λ nonce. nonce ≡ take NONCE_LEN self.old.left) }
        ensures taken { OnOk result (self.new ≡ after_read self.old NONCE_LEN) }

        ensures never_falls { self.old.calls.faults ≤ self.new.calls.faults }
    {
        let left = &self.bytes.as_slice()[self.at..];
        if self.plan.is_next_to_fail() || left.len() < NONCE_LEN {
            self.plan.count_failed();
            return Err(Failed);
        }
        self.plan.count();
        let mut nonce = [0u8; NONCE_LEN];
        nonce.copy_from_slice(&left[..NONCE_LEN]);
        self.at += NONCE_LEN;
        Ok(nonce)
    }
}

/// Where the system has its random bytes.
const RANDOM_FILE: &str = "/dev/urandom";

/// The system's random bytes, from `/dev/urandom`. It opens that file at its first call, and again after a call that
/// failed. Each error, and an end of the file, is a fault, and is said on the standard error.
#[derive(Drop)]
pub struct UrandomNonces<'a, R: Files> {
    rt: &'a R,
    file: Option<R::File>,
    faults: u64,
    // Whether the last call failed.
    broken: bool,
}

impl<'a, R: Files> Model for UrandomNonces<'a, R> {
    ghost use Rattle.std.specs.Prelude.{ℕ, Bool};

    // the count of faults, and whether the last call failed
    ghost Value = { ℕ × Bool };

    ghost view = { λ s. (s.faults, s.broken) };
}

impl<'a, R: Files> UrandomNonces<'a, R> {
    /// Nonces of this runtime's system, without a fault. It opens no file yet.
    pub fn new(rt: &'a R) -> Self
        ensures { result ≡ (0, false) }
    {
        UrandomNonces {
            rt,
            file: None,
            faults: 0,
            broken: false,
        }
    }
}

// The next bytes of the file, which is opened first if it is not open. After an error it is closed.
fn read_nonce<R: Files>(rt: &R, file: &mut Option<R::File>) -> io::Result<[u8; 16]> {
    let mut reader = match file.take() {
        Some(reader) => reader,
        None => fs::open(rt, RANDOM_FILE)?,
    };
    let mut nonce = [0u8; NONCE_LEN];
    reader.read_exact(&mut nonce)?;
    *file = Some(reader);
    Ok(nonce)
}

impl<'a, R: Files + Eprint> Nonces for UrandomNonces<'a, R> {
    ghost coming = { λ _. None };

    ghost faults = { λ s. s.0 };

    ghost broken = { λ s. s.1 };

    fn next(&mut self) -> Result<[u8; 16], Failed>
        ensures sixteen { IfOk result (λ nonce. length nonce ≡ NONCE_LEN) }
        ensures first { IfOk result (λ nonce. IsNextNonce None nonce) }
        ensures faults { self.new.0 ≡ (if is_ok result then self.old.0 else raise self.old.0) }
        ensures risen { OnErr result (HasRisen self.old.0 self.new.0) }
        ensures never_falls { self.old.0 ≤ self.new.0 }
        ensures steady { OnOk result (self.new.0 ≡ self.old.0) }
        ensures by_one { OnErr result (self.new.0 ≡ raise self.old.0) }
        ensures broken { self.new.1 ≡ is_err result }
    {
        match read_nonce(self.rt, &mut self.file) {
            Ok(nonce) => {
                self.broken = false;
                Ok(nonce)
            }
            Err(error) => {
                let _ = eprintln!(self.rt; "{RANDOM_FILE}: {error}");
                self.faults = self.faults.saturating_add(1);
                self.broken = true;
                Err(Failed)
            }
        }
    }
}
