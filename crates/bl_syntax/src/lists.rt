//! Lists that contracts see as lists, and the one error of a growth that is refused.

ghost use Rattle.std.specs.Prelude.{◌≡◌, [], ◌∷◌, ◌++◌, ◌+◌, ◌≤◌, OnOk, OnErr, IfOk, length, take, drop};
ghost use Rattle.bl_syntax.specs.declared.lists.NoMemory.{NoMemory};

use std::alloc::{AllocError, AllocFailed, Global};
use std::marker::Model;
use thiserror::Error;

/// A growth was refused, and nothing was changed.
#[derive(Clone, Copy, Debug, PartialEq, Eq, Error)]
#[error("out of memory")]
pub struct NoMemory;

impl From<AllocError> for NoMemory {
    fn from(_refused: AllocError) -> NoMemory {
        NoMemory
    }
}

impl<T: Drop> From<AllocFailed<T>> for NoMemory {
    fn from(_refused: AllocFailed<T>) -> NoMemory {
        NoMemory
    }
}

/// A growing list. Contracts see the list of its items, and neither its room nor where it lies.
#[derive(Debug, Drop)]
pub struct Sequence<T> {
    items: Vec<T>,
}

impl<T> Model for Sequence<T> {
    ghost use Rattle.std.specs.Prelude.{List};

    ghost Value = { List T };

    ghost view = { λ s. s.items.items };
}

/// Bytes.
pub type Bytes = Sequence<u8>;

/// The bytes in memory of their own.
pub fn copy_bytes(alloc: Global, bytes: &[u8]) -> Result<Bytes, NoMemory>
    ensures { IfOk result (λ owned. owned ≡ bytes.now) }
{
    Ok(Sequence::from_vec(Vec::from_slice(alloc, bytes)?))
}

/// Numbers, as of statements.
pub type Numbers = Sequence<u32>;

/// The numbers in memory of their own.
pub fn copy_numbers(alloc: Global, numbers: &[u32]) -> Result<Numbers, NoMemory>
    ensures { IfOk result (λ owned. owned ≡ numbers.now) }
{
    Ok(Sequence::from_vec(Vec::from_slice(alloc, numbers)?))
}

impl<T> Sequence<T> {
    /// The empty list. It takes no memory.
    pub fn new(alloc: Global) -> Sequence<T>
        ensures { result ≡ [] }
    {
        Sequence {
            items: Vec::new(alloc),
        }
    }

    /// The list of a vector's items. It takes no memory.
    pub fn from_vec(items: Vec<T>) -> Sequence<T>
        ensures { result ≡ items.items }
    {
        Sequence { items }
    }

    /// The items as a vector. It takes no memory.
    pub fn into_vec(self) -> Vec<T>
        ensures { result.items ≡ self }
    {
        self.items
    }

    /// How many items there are.
    pub fn len(&self) -> usize
        ensures { result ≡ length self.now }
    {
        self.items.len()
    }

    /// The items in order.
    pub fn as_slice(&self) -> &[T]
        ensures { result.now ≡ self.now }
    {
        self.items.as_slice()
    }
}

impl<T: Drop> Sequence<T> {
    /// Adds an item at the end.
    pub fn push(&mut self, item: T) -> Result<(), NoMemory>
        ensures ok { OnOk result (self.new ≡ self.old ++ item ∷ []) }
        ensures err { OnErr result (self.new ≡ self.old) }
    {
        self.items.push(item)?;
        Ok(())
    }

    /// Takes room for so many more items at once, and no more than that. The list stays as it is.
    pub fn reserve(&mut self, more: usize) -> Result<(), NoMemory>
        ensures { self.new ≡ self.old }
    {
        self.items.reserve_exact(more)?;
        Ok(())
    }

    /// Keeps the first `len` items, and drops those after them.
    pub fn truncate(&mut self, len: usize)
        ensures { self.new ≡ take len self.old }
    {
        self.items.truncate(len);
    }

    /// Drops all items. It gives no memory back.
    pub fn clear(&mut self)
        ensures { self.new ≡ [] }
    {
        self.items.clear();
    }
}

impl<T: Copy> Sequence<T> {
    /// A list with the same items in memory of its own.
    pub fn copy(&self, alloc: Global) -> Result<Sequence<T>, NoMemory>
        ensures { IfOk result (λ copied. copied ≡ self.now) }
    {
        Ok(Sequence {
            items: Vec::from_slice(alloc, self.items.as_slice())?,
        })
    }

    /// Adds these items at the end, all or none.
    pub fn extend(&mut self, items: &[T]) -> Result<(), NoMemory>
        ensures ok { OnOk result (self.new ≡ self.old ++ items.now) }
        ensures err { OnErr result (self.new ≡ self.old) }
    {
        self.items.extend_from_slice(items)?;
        Ok(())
    }

    /// Puts these items over as many from `at` on. It takes no memory.
    pub fn overwrite(&mut self, at: usize, items: &[T])
        requires { at + length items.now ≤ length self.old }
        ensures { self.new ≡ take at self.old ++ (items.now ++ drop (at + length items.now) self.old) }
    {
        overwrite(&mut self.items, at, items);
    }
}

// Puts these items over as many from `at` on.
fn overwrite<T: Copy>(all: &mut [T], at: usize, items: &[T])
    requires { at + length items.now ≤ length all.old }
    ensures { all.new ≡ take at all.old ++ (items.now ++ drop (at + length items.now) all.old) }
{
    let end = at + items.len();
    all[at..end].copy_from_slice(items);
}
