//! One block of bytes on the heap: a whole one, or the shorter last one of a file.

ghost use Rattle.std.specs.Prelude.{◌≡◌, [], ◌+◌, ◌-◌, ◌≤◌, ◌++◌, length, IfOk};
ghost use Rattle.file_blocks.specs.Blocks.{over, zeros};

use bl_syntax::NoMemory;
use std::alloc::Global;
use std::marker::Model;

/// How many bytes a whole block has.
pub const BLOCK_BYTES: usize = 4096;

/// A block of bytes. Contracts see the bytes.
#[derive(Drop)]
pub struct Block {
    bytes: Vec<u8>,
}

impl Model for Block {
    ghost use Rattle.std.specs.Prelude.{ℕ, List};

    ghost Value = { List ℕ };

    ghost view = { λ b. b.bytes.items };
}

// So many zero bytes.
fn zero_bytes(alloc: Global, count: usize) -> Result<Vec<u8>, NoMemory>
    ensures { IfOk result (λ made. made.items ≡ zeros count) }
{
    Ok(vec![in alloc; 0; count]?)
}

// Zero bytes in place of those from `at` on.
fn wipe(bytes: &mut [u8], at: usize)
    requires { at ≤ length bytes.old }
    ensures { bytes.new ≡ over bytes.old at (zeros (length bytes.old - at)) }
{
    bytes[at..].fill(0);
}

// These bytes over as many from `at` on.
fn overwrite(all: &mut [u8], at: usize, bytes: &[u8])
    requires { at + length bytes.now ≤ length all.old }
    ensures { all.new ≡ over all.old at bytes.now }
{
    let end = at + bytes.len();
    all[at..end].copy_from_slice(bytes);
}

impl Block {
    /// Without bytes. It takes no memory.
    pub fn empty(alloc: Global) -> Block
        ensures { result ≡ [] }
    {
        Block {
            bytes: Vec::new(alloc),
        }
    }

    /// A block of so many zero bytes.
    pub fn zero(alloc: Global, len: usize) -> Result<Block, NoMemory>
        ensures { IfOk result (λ block. block ≡ zeros len) }
    {
        Ok(Block {
            bytes: zero_bytes(alloc, len)?,
        })
    }

    /// The bytes, and zero bytes after them up to the length, in memory of its own.
    pub fn longer(&self, alloc: Global, len: usize) -> Result<Block, NoMemory>
        requires { length self.now ≤ len }
        ensures { IfOk result (λ block. block ≡ self.now ++ zeros (len - length self.now)) }
    {
        let mut block = Block::zero(alloc, len)?;
        block.put(0, self.as_slice());
        Ok(block)
    }

    /// How many bytes there are.
    pub fn len(&self) -> usize
        ensures { result ≡ length self.now }
    {
        self.bytes.len()
    }

    /// An equal block in memory of its own.
    pub fn copy(&self, alloc: Global) -> Result<Block, NoMemory>
        ensures { IfOk result (λ copied. copied ≡ self.now) }
    {
        Ok(Block {
            bytes: Vec::from_slice(alloc, self.bytes.as_slice())?,
        })
    }

    /// The bytes.
    pub fn as_slice(&self) -> &[u8]
        ensures { result.now ≡ self.now }
    {
        self.bytes.as_slice()
    }

    /// Puts these bytes over as many from `at` on.
    pub fn put(&mut self, at: usize, bytes: &[u8])
        requires { at + length bytes.now ≤ length self.old }
        ensures { self.new ≡ over self.old at bytes.now }
    {
        overwrite(self.bytes.as_mut_slice(), at, bytes);
    }

    /// Puts zero bytes over those from `at` on.
    pub fn wipe_from(&mut self, at: usize)
        requires { at ≤ length self.old }
        ensures { self.new ≡ over self.old at (zeros (length self.old - at)) }
    {
        wipe(self.bytes.as_mut_slice(), at);
    }
}
