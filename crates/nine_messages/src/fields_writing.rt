//! Adding fields of messages at the end of bytes.

ghost use Rattle.std.specs.Prelude.{◌≡◌, ◌<◌, ◌≤◌, ◌+◌, ◌-◌, ◌^◌, ◌∷◌, ◌++◌, [], OnOk, OnErr, length, take, drop};
ghost use Rattle.std.specs.Int.{w16, w32, w64, to_le_bytes};
ghost use Rattle.bl_syntax.specs.BeginsWith.{BeginsWith};
ghost use Rattle.nine_messages.specs.Fields.{counted, text};

use bl_syntax::{Bytes, NoMemory};

pub(crate) fn put_u16(number: u16, out: &mut Bytes) -> Result<(), NoMemory>
    ensures ok { OnOk result (out.new ≡ out.old ++ to_le_bytes w16 number) }
    ensures err { OnErr result (out.new ≡ out.old) }
{
    out.extend(&number.to_le_bytes())
}

pub(crate) fn put_u32(number: u32, out: &mut Bytes) -> Result<(), NoMemory>
    ensures ok { OnOk result (out.new ≡ out.old ++ to_le_bytes w32 number) }
    ensures err { OnErr result (out.new ≡ out.old) }
{
    out.extend(&number.to_le_bytes())
}

pub(crate) fn put_u64(number: u64, out: &mut Bytes) -> Result<(), NoMemory>
    ensures ok { OnOk result (out.new ≡ out.old ++ to_le_bytes w64 number) }
    ensures err { OnErr result (out.new ≡ out.old) }
{
    out.extend(&number.to_le_bytes())
}

/// Adds a text after two bytes of count, or a front of them.
#[tactic(auto, using(bl_syntax::proofs::BeginsWithLemmas::writing))]
pub(crate) fn add_text(bytes: &[u8], out: &mut Bytes) -> Result<(), NoMemory>
    requires { length bytes.now < 2 ^ 16 }
    ensures ok { OnOk result (out.new ≡ out.old ++ text bytes.now) }
    ensures err { OnErr result (BeginsWith out.new out.old) }
{
    put_u16(bytes.len() as u16, out)?;
    out.extend(bytes)
}

/// Adds bytes after four bytes of count, or a front of them.
#[tactic(auto, using(bl_syntax::proofs::BeginsWithLemmas::writing))]
pub(crate) fn add_data(bytes: &[u8], out: &mut Bytes) -> Result<(), NoMemory>
    requires { length bytes.now < 2 ^ 32 }
    ensures ok { OnOk result (out.new ≡ out.old ++ counted w32 bytes.now) }
    ensures err { OnErr result (BeginsWith out.new out.old) }
{
    put_u32(bytes.len() as u32, out)?;
    out.extend(bytes)
}

/// Adds four bytes for the size of a message, its kind and its tag, or a front of them.
pub(crate) fn put_head(kind: u8, tag: u16, out: &mut Bytes) -> Result<(), NoMemory>
    ensures ok { OnOk result (out.new ≡ out.old ++ (to_le_bytes w32 0 ++ kind ∷ to_le_bytes w16 tag)) }
    ensures err { OnErr result (out.new ≡ out.old) }
{
    let tag = tag.to_le_bytes();
    out.extend(&[0, 0, 0, 0, kind, tag[0], tag[1]])
}

/// Puts the size of the message that begins at `start` into its first four bytes.
pub(crate) fn put_size(start: usize, out: &mut Bytes)
    requires room { start + 4 ≤ length out.old }
    requires size { length out.old - start < 2 ^ 32 }
    ensures { out.new ≡ take start out.old ++ (to_le_bytes w32 (length out.old - start) ++ drop (start + 4) out.old) }
{
    let size = out.len() - start;
    out.overwrite(start, &(size as u32).to_le_bytes());
}
