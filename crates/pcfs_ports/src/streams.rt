//! Whole streams: a source read to its end, and all of some bytes written.

ghost use Rattle.std.specs.Prelude.{◌≡◌, ◌≢◌, ◌+◌, ◌<◌, ◌≤◌, true, IfOk, OnOk, OnErr, IsErrOf, length};
ghost use Rattle.pcfs_ports.specs.Faults.{HasRisen, raise};
ghost use Rattle.pcfs_ports.specs.Observable.{with_front, with_back, IsAtEnd, ReadsToEnd, TakesFirst, TakesSome, HoldsSome};
ghost use Rattle.pcfs_ports.specs.declared.streams.TakeFault.TheVariants.{NoMemory as OutOfMemory, Failed as SourceFailed};

use super::faults::Failed;
use super::pieces::{new_piece, read_piece};
use super::sinks::Sink;
use super::sources::Source;
use bl_syntax::{Bytes, NoMemory};
use std::alloc::{AllocError, Global};
use thiserror::Error;

/// An input is shorter than this many bytes, 1 GiB.
pub const INPUT_LIMIT: usize = 1_073_741_824;

/// Why an input was not read to its end.
#[derive(Clone, Copy, Debug, PartialEq, Eq, Error)]
pub enum TakeFault {
    /// The source failed.
    #[error("the source failed")]
    Failed,
    /// `INPUT_LIMIT` bytes were taken, and the end was not met before.
    #[error("the input has {most} bytes or more", most = INPUT_LIMIT)]
    TooLong,
    /// A growth was refused.
    #[error("out of memory")]
    NoMemory,
}

impl From<NoMemory> for TakeFault {
    ghost from_gives = { λ _ e. e ≡ OutOfMemory };

    fn from(_refused: NoMemory) -> TakeFault {
        TakeFault::NoMemory
    }
}

impl From<AllocError> for TakeFault {
    ghost from_gives = { λ _ e. e ≡ OutOfMemory };

    fn from(_refused: AllocError) -> TakeFault {
        TakeFault::NoMemory
    }
}

impl From<Failed> for TakeFault {
    ghost from_gives = { λ _ e. e ≡ SourceFailed };

    fn from(_failed: Failed) -> TakeFault {
        TakeFault::Failed
    }
}

/// Writes all of the bytes, in as many calls as the sink takes for it.
///
/// `Failed` comes only if the sink's count of faults rose, by one, in the last call of the sink. Some first
/// part may have been written then. If all were written, the count stands still.
pub fn write_all<O: Sink>(output: &mut O, bytes: &[u8]) -> Result<(), Failed>
    ensures ok { OnOk result (O.held output.new ≡ with_back (O.held output.old) bytes.now) }
    ensures err { OnErr result (HoldsSome (O.held output.old) (O.held output.new) bytes.now) }
    ensures steady { OnOk result (O.faults output.new ≡ O.faults output.old) }
    ensures risen { OnErr result (HasRisen (O.faults output.old) (O.faults output.new)) }
    ensures never_falls { O.faults output.old ≤ O.faults output.new }
    ensures by_one { OnErr result (O.faults output.new ≡ raise (O.faults output.old)) }
    ensures broken { OnErr result (O.broken output.new ≡ true) }
{
    let mut at: usize = 0;
    while at < bytes.len() {
        at += output.write(&bytes[at..])?;
    }
    Ok(())
}

// Moves bytes from the input after those that were taken, by one read, and returns how many: none
// at the end.
fn take_piece<I: Source>(
    input: &mut I,
    piece: &mut [u8],
    bytes: &mut Bytes,
) -> Result<usize, TakeFault>
    requires room { 0 < length piece.old }
    requires short { length bytes.old < INPUT_LIMIT }
    ensures moved { OnOk result (
        with_front bytes.old (I.left input.old) ≡ with_front bytes.new (I.left input.new)) }
    ensures count { IfOk result (λ count. length bytes.new ≡ length bytes.old + count) }
    ensures limit { OnOk result (length bytes.new ≤ INPUT_LIMIT) }
    ensures end { IfOk result (λ count. count ≡ 0 → IsAtEnd (I.left input.new)) }
    ensures err { OnErr result (TakesSome (I.left input.old) (I.left input.new)) }
    ensures not_too_long { result ≢ Err TakeFault.TooLong }
    ensures risen { IsErrOf result TakeFault.Failed →
        HasRisen (I.faults input.old) (I.faults input.new) }
    ensures never_falls { I.faults input.old ≤ I.faults input.new }
    ensures steady { result ≢ Err TakeFault.Failed → I.faults input.new ≡ I.faults input.old }
    ensures by_one { IsErrOf result TakeFault.Failed → I.faults input.new ≡ raise (I.faults input.old) }
    ensures broken { IsErrOf result TakeFault.Failed → I.broken input.new ≡ true }
{
    let count = read_piece(input, piece, INPUT_LIMIT - bytes.len())?;
    bytes.extend(&piece[..count])?;
    Ok(count)
}

/// Reads a source to its end.
///
/// `TooLong` comes if `INPUT_LIMIT` bytes were taken and the end was not met before; it is not
/// asked whether more follow. `Failed` comes only if the source's count of faults rose, by one, in the
/// last call of the source; at each other answer it stands still. `NoMemory` may come at any time. After
/// a fault the bytes that were taken are lost.
pub fn read_to_end<I: Source>(alloc: Global, input: &mut I) -> Result<Bytes, TakeFault>
    ensures ok { IfOk result (λ bytes. ReadsToEnd (I.left input.old) (I.left input.new) bytes) }
    ensures short { IfOk result (λ bytes. length bytes < INPUT_LIMIT) }
    ensures err { OnErr result (TakesSome (I.left input.old) (I.left input.new)) }
    ensures too_long { IsErrOf result TakeFault.TooLong →
        TakesFirst INPUT_LIMIT (I.left input.old) (I.left input.new) }
    ensures risen { IsErrOf result TakeFault.Failed →
        HasRisen (I.faults input.old) (I.faults input.new) }
    ensures never_falls { I.faults input.old ≤ I.faults input.new }
    ensures steady { result ≢ Err TakeFault.Failed → I.faults input.new ≡ I.faults input.old }
    ensures by_one { IsErrOf result TakeFault.Failed → I.faults input.new ≡ raise (I.faults input.old) }
    ensures broken { IsErrOf result TakeFault.Failed → I.broken input.new ≡ true }
{
    let mut piece = new_piece(alloc)?;
    let mut bytes = Bytes::new(alloc);
    while bytes.len() < INPUT_LIMIT {
        if take_piece(input, &mut piece, &mut bytes)? == 0 {
            return Ok(bytes);
        }
    }
    Err(TakeFault::TooLong)
}
