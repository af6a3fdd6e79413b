//! What a scan finds: the bytes of an area, and where its image and its payloads lie in them.

ghost use Rattle.std.specs.Prelude.{◌≡◌, ◌<◌, [], length, get_or};
ghost use Rattle.journal_core.specs.ScanView.{bytes_at};

use bl_syntax::{Bytes, Sequence};
use std::marker::Model;

/// A place in the bytes of an area.
#[derive(Clone, Copy, Debug, PartialEq, Eq)]
pub struct Span {
    pub from: u32,
    pub to: u32,
}

/// What an area holds. Its memory is the area's length, and eight bytes for each payload.
#[derive(Debug, Drop)]
pub struct Scan {
    pub(crate) bytes: Bytes,
    pub(crate) generation: u64,
    pub(crate) image: Span,
    pub(crate) payloads: Sequence<Span>,
}

impl Model for Scan {
    ghost use Rattle.journal_core.specs.ScanView.{ScanView, bytes_at, all_bytes_at};

    ghost Value = { ScanView };

    ghost view = { λ s. record { generation = s.generation; image = bytes_at s.bytes s.image; payloads = all_bytes_at s.bytes s.payloads } };
}

// The bytes at a place.
fn at_place(bytes: &[u8], place: Span) -> &[u8]
    ensures { result.now ≡ bytes_at bytes.now place }
{
    let to = (place.to as usize).min(bytes.len());
    let from = (place.from as usize).min(to);
    &bytes[from..to]
}

impl Scan {
    /// The generation of the area.
    pub fn generation(&self) -> u64
        ensures { result ≡ self.now.generation }
    {
        self.generation
    }

    /// The image of the area.
    pub fn image(&self) -> &[u8]
        ensures { result.now ≡ self.now.image }
    {
        at_place(self.bytes.as_slice(), self.image)
    }

    /// How many payloads there are.
    pub fn count(&self) -> usize
        ensures { result ≡ length self.now.payloads }
    {
        self.payloads.len()
    }

    /// The payload with this number, from 0.
    pub fn payload(&self, number: usize) -> &[u8]
        requires { number < length self.now.payloads }
        ensures { result.now ≡ get_or self.now.payloads number [] }
    {
        at_place(self.bytes.as_slice(), self.payloads.as_slice()[number])
    }
}
