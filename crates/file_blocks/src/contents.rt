//! The contents of a file.

ghost use Rattle.std.specs.Prelude.{◌≡◌, [], ◌+◌, ◌*◌, ◌^◌, ◌<◌, ◌≤◌, ◌++◌, length, min, if◌then◌else◌, nat_lt, IfOk, OnOk, OnErr};
ghost use Rattle.file_blocks.specs.Blocks.{blocks_for};
ghost use Rattle.file_world.specs.TreeEffect.{write_at, resize_to, bytes_in};

use crate::block::BLOCK_BYTES;
use crate::blocks::Blocks;
use bl_syntax::{Bytes, NoMemory};
use std::alloc::{AllocError, Global};
use std::marker::Model;

// No contents take more room.
const MOST_ROOM: usize = 1 << 63;

/// The contents of a file, in blocks. Contracts see the bytes, and how long they may become without taking memory.
#[derive(Drop)]
pub struct FileContents {
    /// They begin with the bytes, and have zero bytes after them.
    blocks: Blocks,
    len: usize,
}

impl Model for FileContents {
    ghost use Rattle.file_blocks.specs.Blocks.{ContentsView, contents_view, AreContents};

    ghost Value = { ContentsView };

    ghost view = { λ c. contents_view c.blocks c.len };

    ghost invariant = { λ c. AreContents c.blocks c.len };
}

impl Clone for FileContents {
    ghost is_clone = { λ contents copied. copied.bytes ≡ contents.bytes };

    fn clone(&self) -> Result<Self, AllocError> {
        match self.blocks.copy() {
            Ok(blocks) => Ok(FileContents {
                blocks,
                len: self.len,
            }),
            Err(_) => Err(AllocError),
        }
    }
}

impl FileContents {
    /// Without bytes. It takes no memory.
    pub fn new(alloc: Global) -> FileContents
        ensures { result.bytes ≡ [] }
    {
        FileContents {
            blocks: Blocks::new(alloc),
            len: 0,
        }
    }

    /// These bytes, in memory of its own.
    pub fn from_bytes(alloc: Global, bytes: &[u8]) -> Result<FileContents, NoMemory>
        ensures { IfOk result (λ contents. contents.bytes ≡ bytes.now) }
    {
        let mut contents = FileContents::new(alloc);
        contents.reserve(alloc, bytes.len())?;
        contents.write(0, bytes);
        Ok(contents)
    }

    /// How many bytes there are.
    pub fn len(&self) -> usize
        ensures { result ≡ length self.now.bytes }
    {
        self.len
    }

    /// Takes the memory for contents of so many bytes.
    pub fn reserve(&mut self, alloc: Global, len: usize) -> Result<(), NoMemory>
        ensures bytes { self.new.bytes ≡ self.old.bytes }
        ensures grows { self.old.room ≤ self.new.room }
        ensures room { OnOk result (len ≤ self.new.room) }
        ensures full { OnErr result (self.old.room < len) }
    {
        if len <= self.blocks.len() {
            return Ok(());
        }
        if MOST_ROOM < len {
            return Err(NoMemory);
        }
        self.blocks.grow(alloc, len)
    }

    /// Writes the bytes at the offset, and zero bytes in a gap before them. It takes no memory.
    pub fn write(&mut self, offset: usize, bytes: &[u8])
        requires { length (write_at self.old.bytes offset bytes.now) ≤ self.old.room }
        ensures bytes { self.new.bytes ≡ write_at self.old.bytes offset bytes.now }
        ensures room { self.new.room ≡ self.old.room }
    {
        if bytes.is_empty() {
            return;
        }
        self.blocks.put(offset, bytes);
        self.len = self.len.max(offset + bytes.len());
    }

    /// Cuts the contents to the length, and gives the memory of whole blocks back; or fills them up to it with zero
    /// bytes. It takes no memory.
    pub fn resize(&mut self, len: usize)
        requires { len ≤ self.old.room }
        ensures bytes { self.new.bytes ≡ resize_to self.old.bytes len }
        ensures room { self.new.room ≡ (if nat_lt len (length self.old.bytes) then min self.old.room (BLOCK_BYTES * blocks_for len) else self.old.room) }
    {
        if len < self.len {
            self.blocks.cut(len);
        }
        self.len = len;
    }

    /// Appends the bytes from the offset on, at most so many; all or none.
    pub fn append_part(&self, offset: usize, len: usize, out: &mut Bytes) -> Result<(), NoMemory>
        ensures ok { OnOk result (out.new ≡ out.old ++ bytes_in self.now.bytes offset len) }
        ensures err { OnErr result (out.new ≡ out.old) }
    {
        let start = offset.min(self.len);
        let end = start + len.min(self.len - start);
        self.blocks.append(start, end, out)
    }

    /// Appends all bytes, or none.
    pub fn append_all(&self, out: &mut Bytes) -> Result<(), NoMemory>
        ensures ok { OnOk result (out.new ≡ out.old ++ self.now.bytes) }
        ensures err { OnErr result (out.new ≡ out.old) }
    {
        self.blocks.append(0, self.len, out)
    }

    /// All bytes, in memory of their own.
    pub fn to_bytes(&self, alloc: Global) -> Result<Bytes, NoMemory>
        ensures { IfOk result (λ bytes. bytes ≡ self.now.bytes) }
    {
        let mut bytes = Bytes::from_vec(Vec::with_capacity(alloc, self.len)?);
        self.append_all(&mut bytes)?;
        Ok(bytes)
    }

    /// The bytes from the offset on, at most so many.
    pub fn part(&self, alloc: Global, offset: usize, len: usize) -> Result<Bytes, NoMemory>
        ensures { IfOk result (λ part. part ≡ bytes_in self.now.bytes offset len) }
    {
        let most = len.min(self.len);
        let mut part = Bytes::from_vec(Vec::with_capacity(alloc, most)?);
        self.append_part(offset, len, &mut part)?;
        Ok(part)
    }
}
