//! The memory of a file: whole blocks, and a tail after them that is no longer than one.

ghost use Rattle.std.specs.Prelude.{◌≡◌, [], ◌+◌, ◌-◌, ◌*◌, ◌^◌, ◌<◌, ◌≤◌, ◌++◌, length, min, take, drop, OnOk, OnErr, IfOk};
ghost use Rattle.file_blocks.specs.Blocks.{over, zeros, blocks_for, joined, AreBlocks, IsFilledUp};

use crate::block::{BLOCK_BYTES, Block};
use crate::spans::{append, copy, cut, fill_up, put};
use bl_syntax::{Bytes, NoMemory};
use std::alloc::Global;
use std::marker::Model;

// A tail has a multiple of so many bytes when it is taken.
const TAIL_STEP: usize = 64;

/// Whole blocks and a shorter tail. Contracts see all bytes of them.
#[derive(Drop)]
pub struct Blocks {
    whole: Vec<Block>,
    tail: Block,
}

impl Model for Blocks {
    ghost use Rattle.std.specs.Prelude.{ℕ, List};
    ghost use Rattle.file_blocks.specs.Blocks.{joined, AreBlocks};

    ghost Value = { List ℕ };

    ghost view = { λ b. joined b.whole.items b.tail };

    ghost invariant = { λ b. AreBlocks b.whole.items b.tail };
}

// These bytes over as many from the offset on, which lies in a whole block.
fn put_across(blocks: &mut [Block], tail: &mut Block, offset: usize, bytes: &[u8])
    requires kept { AreBlocks blocks.old tail.old }
    requires before { offset < BLOCK_BYTES * length blocks.old }
    requires within { offset + length bytes.now ≤ BLOCK_BYTES * length blocks.old + length tail.old }
    ensures kept { AreBlocks blocks.new tail.new }
    ensures bytes { joined blocks.new tail.new ≡ over (joined blocks.old tail.old) offset bytes.now }
{
    let count = bytes.len().min(BLOCK_BYTES * blocks.len() - offset);
    put(blocks, offset, &bytes[..count]);
    tail.put(0, &bytes[count..]);
}

// These bytes over as many from the offset on.
fn put_all(blocks: &mut [Block], tail: &mut Block, offset: usize, bytes: &[u8])
    requires kept { AreBlocks blocks.old tail.old }
    requires within { offset + length bytes.now ≤ BLOCK_BYTES * length blocks.old + length tail.old }
    ensures kept { AreBlocks blocks.new tail.new }
    ensures bytes { joined blocks.new tail.new ≡ over (joined blocks.old tail.old) offset bytes.now }
{
    let whole = BLOCK_BYTES * blocks.len();
    if whole <= offset {
        tail.put(offset - whole, bytes);
    } else {
        put_across(blocks, tail, offset, bytes);
    }
}

// The tail, filled up with zero bytes, becomes a whole block, and no bytes are after it.
fn close(blocks: &mut Vec<Block>, tail: &mut Block, alloc: Global) -> Result<(), NoMemory>
    requires kept { AreBlocks blocks.old.items tail.old }
    requires few { length blocks.old.items < 2 ^ 51 }
    ensures kept { AreBlocks blocks.new.items tail.new }
    ensures filled { IsFilledUp (joined blocks.old.items tail.old) (joined blocks.new.items tail.new) }
    ensures more { length blocks.new.items ≤ length blocks.old.items + 1 }
    ensures ok { OnOk result (tail.new ≡ []) }
{
    let block = tail.longer(alloc, BLOCK_BYTES)?;
    blocks.push(block)?;
    *tail = Block::empty(alloc);
    Ok(())
}

// How many bytes a tail gets that had fewer than are asked for: at least twice as many as it had, but no more than a
// whole block has.
fn tail_size(had: usize, len: usize) -> usize
    requires short { had ≤ BLOCK_BYTES }
    requires fits { len ≤ BLOCK_BYTES }
    ensures enough { len ≤ result }
    ensures short { result ≤ BLOCK_BYTES }
{
    let rounded = (len + (TAIL_STEP - 1)) / TAIL_STEP * TAIL_STEP;
    rounded.max(2 * had).min(BLOCK_BYTES)
}

// Zero bytes after the tail until it has at least so many.
fn lengthen(tail: &mut Block, alloc: Global, len: usize) -> Result<(), NoMemory>
    requires short { length tail.old ≤ BLOCK_BYTES }
    requires fits { len ≤ BLOCK_BYTES }
    ensures short { length tail.new ≤ BLOCK_BYTES }
    ensures filled { IsFilledUp tail.old tail.new }
    ensures ok { OnOk result (len ≤ length tail.new) }
{
    let had = tail.len();
    if len <= had {
        return Ok(());
    }
    let size = tail_size(had, len);
    let longer = tail.longer(alloc, size)?;
    *tail = longer;
    Ok(())
}

// Whole blocks instead of the tail until there are at least so many.
fn fill_blocks(
    blocks: &mut Vec<Block>,
    tail: &mut Block,
    alloc: Global,
    count: usize,
) -> Result<(), NoMemory>
    requires kept { AreBlocks blocks.old.items tail.old }
    requires few { count ≤ 2 ^ 51 }
    ensures kept { AreBlocks blocks.new.items tail.new }
    ensures filled { IsFilledUp (joined blocks.old.items tail.old) (joined blocks.new.items tail.new) }
    ensures ok { OnOk result (count ≤ length blocks.new.items) }
{
    let there = blocks.len();
    if count <= there {
        return Ok(());
    }
    close(blocks, tail, alloc)?;
    fill_up(blocks, alloc, count)
}

// Zero bytes after all until there are at least so many.
fn grow_all(
    blocks: &mut Vec<Block>,
    tail: &mut Block,
    alloc: Global,
    len: usize,
) -> Result<(), NoMemory>
    requires kept { AreBlocks blocks.old.items tail.old }
    requires some { 0 < len }
    requires fits { len ≤ 2 ^ 63 }
    ensures kept { AreBlocks blocks.new.items tail.new }
    ensures filled { IsFilledUp (joined blocks.old.items tail.old) (joined blocks.new.items tail.new) }
    ensures ok { OnOk result (len ≤ BLOCK_BYTES * length blocks.new.items + length tail.new) }
{
    let before = (len - 1) / BLOCK_BYTES;
    fill_blocks(blocks, tail, alloc, before)?;
    lengthen(tail, alloc, len - BLOCK_BYTES * before)
}

// Gives back what so many bytes do not need of whole blocks, and puts zero bytes over the rest.
fn cut_all(blocks: &mut Vec<Block>, tail: &mut Block, len: usize)
    requires kept { AreBlocks blocks.old.items tail.old }
    requires within { len ≤ BLOCK_BYTES * length blocks.old.items + length tail.old }
    ensures kept { AreBlocks blocks.new.items tail.new }
    ensures bytes { joined blocks.new.items tail.new
        ≡ take len (joined blocks.old.items tail.old) ++ zeros (BLOCK_BYTES * length blocks.new.items + length tail.new - len) }
    ensures room { BLOCK_BYTES * length blocks.new.items + length tail.new
        ≡ min (BLOCK_BYTES * length blocks.old.items + length tail.old) (BLOCK_BYTES * blocks_for len) }
{
    let whole = BLOCK_BYTES * blocks.len();
    if whole < len {
        tail.wipe_from(len - whole);
    } else {
        *tail = Block::empty(*blocks.allocator());
        cut(blocks, len);
    }
}

impl Blocks {
    /// Without bytes. It takes no memory.
    pub fn new(alloc: Global) -> Blocks
        ensures { result ≡ [] }
    {
        Blocks {
            whole: Vec::new(alloc),
            tail: Block::empty(alloc),
        }
    }

    /// The same bytes in memory of their own.
    pub fn copy(&self) -> Result<Blocks, NoMemory>
        ensures { IfOk result (λ copied. copied ≡ self.now) }
    {
        let alloc = *self.whole.allocator();
        let whole = copy(self.whole.as_slice(), alloc)?;
        let tail = self.tail.copy(alloc)?;
        Ok(Blocks { whole, tail })
    }

    /// How many bytes there are.
    pub fn len(&self) -> usize
        ensures { result ≡ length self.now }
    {
        BLOCK_BYTES * self.whole.len() + self.tail.len()
    }

    /// Adds zero bytes until there are so many.
    pub fn grow(&mut self, alloc: Global, len: usize) -> Result<(), NoMemory>
        requires some { 0 < len }
        requires fits { len ≤ 2 ^ 63 }
        ensures filled { IsFilledUp self.old self.new }
        ensures few { length self.new < 2 ^ 64 }
        ensures ok { OnOk result (len ≤ length self.new) }
    {
        grow_all(&mut self.whole, &mut self.tail, alloc, len)
    }

    /// Puts these bytes over as many from the offset on.
    pub fn put(&mut self, offset: usize, bytes: &[u8])
        requires { offset + length bytes.now ≤ length self.old }
        ensures { self.new ≡ over self.old offset bytes.now }
    {
        put_all(self.whole.as_mut_slice(), &mut self.tail, offset, bytes);
    }

    /// Gives back the blocks that so many bytes do not need, and puts zero bytes over the rest of the last one.
    pub fn cut(&mut self, len: usize)
        requires { len ≤ length self.old }
        ensures bytes { self.new ≡ take len self.old ++ zeros (length self.new - len) }
        ensures room { length self.new ≡ min (length self.old) (BLOCK_BYTES * blocks_for len) }
    {
        cut_all(&mut self.whole, &mut self.tail, len);
    }

    /// Appends the bytes from the start to the end, all or none.
    pub fn append(&self, start: usize, end: usize, out: &mut Bytes) -> Result<(), NoMemory>
        requires order { start ≤ end }
        requires within { end ≤ length self.now }
        ensures ok { OnOk result (out.new ≡ out.old ++ take (end - start) (drop start self.now)) }
        ensures err { OnErr result (out.new ≡ out.old) }
    {
        append(self.whole.as_slice(), &self.tail, start, end, out)
    }
}
