//! Bytes in blocks that lie end to end: written, read, added and cut.

ghost use Rattle.std.specs.Prelude.{◌≡◌, ◌+◌, ◌-◌, ◌*◌, ◌^◌, ◌<◌, ◌≤◌, ◌++◌, length, max, take, drop, OnOk, OnErr, IfOk};
ghost use Rattle.std.specs.List.{concat};
ghost use Rattle.file_blocks.specs.Blocks.{over, zeros, blocks_for, joined, AreWhole};

use crate::block::{BLOCK_BYTES, Block};
use bl_syntax::{Bytes, NoMemory};
use std::alloc::Global;

/// How many blocks so many bytes take.
pub fn blocks_for(len: usize) -> usize
    requires { len ≤ 2 ^ 63 }
    ensures { result ≡ blocks_for len }
{
    (len + (BLOCK_BYTES - 1)) / BLOCK_BYTES
}

/// Puts these bytes over as many from the offset on.
pub fn put(blocks: &mut [Block], offset: usize, bytes: &[u8])
    requires whole { AreWhole blocks.old }
    requires within { offset + length bytes.now ≤ BLOCK_BYTES * length blocks.old }
    requires few { length blocks.old ≤ 2 ^ 51 }
    ensures bytes { concat blocks.new ≡ over (concat blocks.old) offset bytes.now }
    ensures whole { AreWhole blocks.new }
{
    let mut at = offset;
    let mut rest = bytes;
    'pieces: while !rest.is_empty() {
        let start = at % BLOCK_BYTES;
        let count = rest.len().min(BLOCK_BYTES - start);
        blocks[at / BLOCK_BYTES].put(start, &rest[..count]);
        at += count;
        rest = &rest[count..];
    }
}

// The bytes from the offset on that lie in one block, or in the tail after them, and before the end: at least one.
fn piece<'a>(blocks: &'a [Block], tail: &'a Block, at: usize, end: usize) -> &'a [u8]
    requires whole { AreWhole blocks.now }
    requires some { at < end }
    requires within { end ≤ BLOCK_BYTES * length blocks.now + length tail.now }
    requires few { length blocks.now ≤ 2 ^ 51 }
    ensures part { result.now ≡ take (length result.now) (drop at (joined blocks.now tail.now)) }
    ensures some { 0 < length result.now }
    ensures within { at + length result.now ≤ end }
{
    let whole = BLOCK_BYTES * blocks.len();
    if whole <= at {
        return &tail.as_slice()[at - whole..end - whole];
    }
    let start = at % BLOCK_BYTES;
    let count = (end - at).min(BLOCK_BYTES - start);
    let bytes = blocks[at / BLOCK_BYTES].as_slice();
    &bytes[start..start + count]
}

/// Appends the bytes from the start to the end, all or none.
pub fn append(
    blocks: &[Block],
    tail: &Block,
    start: usize,
    end: usize,
    out: &mut Bytes,
) -> Result<(), NoMemory>
    requires whole { AreWhole blocks.now }
    requires order { start ≤ end }
    requires within { end ≤ BLOCK_BYTES * length blocks.now + length tail.now }
    requires few { length blocks.now ≤ 2 ^ 51 }
    ensures ok { OnOk result (out.new ≡ out.old ++ take (end - start) (drop start (joined blocks.now tail.now))) }
    ensures err { OnErr result (out.new ≡ out.old) }
{
    let before = out.len();
    let mut at = start;
    'pieces: while at < end {
        let part = piece(blocks, tail, at, end);
        if let Err(refused) = out.extend(part) {
            out.truncate(before);
            return Err(refused);
        }
        at += part.len();
    }
    Ok(())
}

/// Adds blocks of zero bytes until there are so many.
pub fn fill_up(blocks: &mut Vec<Block>, alloc: Global, count: usize) -> Result<(), NoMemory>
    requires { AreWhole blocks.old.items }
    ensures bytes { concat blocks.new.items ≡ concat blocks.old.items ++ zeros (BLOCK_BYTES * (length blocks.new.items - length blocks.old.items)) }
    ensures whole { AreWhole blocks.new.items }
    ensures grows { length blocks.old.items ≤ length blocks.new.items }
    ensures bounded { length blocks.new.items ≤ max count (length blocks.old.items) }
    ensures ok { OnOk result (count ≤ length blocks.new.items) }
    ensures full { OnErr result (length blocks.old.items < count) }
{
    for _added in blocks.len()..count {
        blocks.push(Block::zero(alloc, BLOCK_BYTES)?)?;
    }
    Ok(())
}

/// Gives back the blocks that so many bytes do not need, and puts zero bytes over the rest of the last one.
pub fn cut(blocks: &mut Vec<Block>, len: usize)
    requires whole { AreWhole blocks.old.items }
    requires within { len ≤ BLOCK_BYTES * length blocks.old.items }
    requires few { length blocks.old.items ≤ 2 ^ 51 }
    ensures bytes { concat blocks.new.items ≡ take len (concat blocks.old.items) ++ zeros (BLOCK_BYTES * blocks_for len - len) }
    ensures whole { AreWhole blocks.new.items }
    ensures count { length blocks.new.items ≡ blocks_for len }
{
    blocks.truncate(blocks_for(len));
    let start = len % BLOCK_BYTES;
    if start != 0 {
        blocks[len / BLOCK_BYTES].wipe_from(start);
    }
}

/// The same bytes in blocks of their own.
pub fn copy(blocks: &[Block], alloc: Global) -> Result<Vec<Block>, NoMemory>
    ensures { IfOk result (λ copied. copied.items ≡ blocks.now) }
{
    let mut copied = Vec::with_capacity(alloc, blocks.len())?;
    for block in blocks {
        copied.push(block.copy(alloc)?)?;
    }
    Ok(copied)
}
