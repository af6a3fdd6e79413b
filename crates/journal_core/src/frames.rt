//! Frames: what is written of a record after its gate.

ghost use Rattle.std.specs.Prelude.{◌≡◌, ◌+◌, ◌<◌, ◌≤◌, ◌^◌, ◌++◌, IfOk, length, drop};
ghost use Rattle.std.specs.Int.{w32, to_be_bytes};
ghost use Rattle.journal_core.specs.Frame.{frame_bytes};

use bl_syntax::fields::u32_bytes;
use bl_syntax::{Bytes, NoMemory};
use std::alloc::Global;
use std::marker::Model;

/// A payload, ready to be appended: with its length in front and the next record's closed gate after
/// it. Contracts see the payload.
#[derive(Debug, Drop)]
pub struct Framed {
    bytes: Bytes,
}

impl Model for Framed {
    ghost use Rattle.std.specs.Prelude.{◌≡◌, ℕ, List};
    ghost use Rattle.journal_core.specs.Frame.{frame_bytes, payload_of};

    ghost Value = { List ℕ };

    ghost view = { λ s. payload_of s.bytes };

    ghost invariant = { λ s. s.bytes ≡ frame_bytes (payload_of s.bytes) };
}

impl Framed {
    /// The length, the payload and the closed gate.
    pub fn bytes(&self) -> &[u8]
        ensures { result.now ≡ frame_bytes self.now }
    {
        self.bytes.as_slice()
    }
}

// The bytes of a frame.
fn framed_bytes(alloc: Global, payload: &[u8]) -> Result<Bytes, NoMemory>
    requires { length payload.now < 2 ^ 32 }
    ensures { IfOk result (λ bytes. bytes ≡ frame_bytes payload.now) }
{
    let mut bytes = Vec::with_capacity(alloc, payload.len() + 5)?;
    bytes.extend_from_slice(&u32_bytes(payload.len() as u32))?;
    bytes.extend_from_slice(payload)?;
    bytes.push(0)?;
    Ok(Bytes::from_vec(bytes))
}

/// Frames a payload.
pub fn frame(alloc: Global, payload: &[u8]) -> Result<Framed, NoMemory>
    requires { length payload.now < 2 ^ 32 }
    ensures { IfOk result (λ framed. framed ≡ payload.now) }
{
    let bytes = framed_bytes(alloc, payload)?;
    Ok(Framed { bytes })
}

// Writes the length of what stands after four bytes into these.
fn put_length(bytes: &mut Vec<u8>)
    requires room { 4 ≤ length bytes.old.items }
    requires short { length bytes.old.items < 2 ^ 32 }
    ensures { bytes.new.items ≡ to_be_bytes w32 (length (drop 4 bytes.old.items)) ++ drop 4 bytes.old.items }
{
    let len = u32_bytes((bytes.len() - 4) as u32);
    bytes[0] = len[0];
    bytes[1] = len[1];
    bytes[2] = len[2];
    bytes[3] = len[3];
}

/// Frames the payload that stands in `bytes` after four bytes, whatever these are. The payload is not copied, unless the
/// vector has no room for one byte more.
pub fn frame_after_four(bytes: Bytes) -> Result<Framed, NoMemory>
    requires room { 4 ≤ length bytes }
    requires short { length bytes < 2 ^ 32 }
    ensures { IfOk result (λ framed. framed ≡ drop 4 bytes) }
{
    let mut held = bytes.into_vec();
    put_length(&mut held);
    held.push(0)?;
    let bytes = Bytes::from_vec(held);
    Ok(Framed { bytes })
}
