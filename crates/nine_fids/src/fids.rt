//! Fids by rising numbers, with room for all that there may be.

ghost use Rattle.std.specs.Prelude.{◌≡◌, ◌≤◌, [], length, nat_le, IfOk, IfErr, vec_capacity};
ghost use Rattle.std.specs.List.Sorted.{IsSearchInRange};
ghost use Rattle.std.specs.Ordering.{nat_cmp};
ghost use Rattle.nine_fids.specs.Fids.{fid_in, with_entry, without_entry, HasRoomFor};
ghost use Rattle.nine_fids.specs.Index.{AreRising, IsFidAt, IsGap};

use crate::entry::Entry;
use crate::fid::Fid;
use crate::limits::MOST_FIDS;
use bl_syntax::NoMemory;
use std::alloc::{AllocFailed, Global};
use std::cmp::Ordering;
use std::marker::Model;

/// At most `MOST_FIDS` fids, each under its number. Contracts see them by rising numbers. No call but the first takes
/// memory.
#[derive(Debug, Drop)]
pub struct Fids {
    entries: Vec<Entry>,
}

impl Model for Fids {
    ghost use Rattle.std.specs.Prelude.{◌≤◌, ℕ, List, vec_capacity};
    ghost use Rattle.nine_fids.specs.declared.fid.Fid.{Fid};
    ghost use Rattle.nine_fids.specs.Fids.{AreFids};
    ghost use Rattle.nine_fids.specs.declared.limits.TheConstants.{MOST_FIDS};

    ghost Value = { List (ℕ × Fid) };

    ghost view = { λ f. f.entries.items };

    ghost invariant = { λ f. AreFids f.entries.items × (MOST_FIDS ≤ vec_capacity f.entries) };
}

fn compare(entry: &Entry, number: u32) -> Ordering
    ensures { result ≡ nat_cmp entry.now.0 number }
{
    entry.number().cmp(&number)
}

// The place of the fid of that number, or where it would go.
fn search(entries: &[Entry], number: u32) -> Result<usize, usize>
    requires { AreRising entries.now }
    ensures bound { IsSearchInRange result (length entries.now) }
    ensures found { IfOk result (IsFidAt entries.now number) }
    ensures absent { IfErr result (IsGap entries.now number) }
{
    entries.binary_search_by(|entry| compare(entry, number))
}

// The fid of that number.
fn fid_among(entries: &[Entry], number: u32) -> Option<Fid>
    requires { AreRising entries.now }
    ensures { result ≡ fid_in entries.now number }
{
    match search(entries, number) {
        Ok(place) => Some(entries[place].fid()),
        Err(_) => None,
    }
}

// Puts a fid under a number, replacing one that is there.
fn put(entries: &mut Vec<Entry>, number: u32, fid: Fid)
    requires rising { AreRising entries.old.items }
    requires room { length (with_entry entries.old.items number fid) ≤ vec_capacity entries.old }
    ensures put { entries.new.items ≡ with_entry entries.old.items number fid }
    ensures rising { AreRising entries.new.items }
    ensures room { vec_capacity entries.old ≤ vec_capacity entries.new }
{
    match search(entries.as_slice(), number) {
        Ok(place) => entries[place] = Entry::new(number, fid),
        Err(place) => {
            let entry = Entry::new(number, fid);
            let put: Result<(), AllocFailed<Entry>> = entries.insert(place, entry);
            put.unwrap();
        }
    }
}

// Takes the fid of that number out.
fn take_out(entries: &mut Vec<Entry>, number: u32)
    requires { AreRising entries.old.items }
    ensures taken { entries.new.items ≡ without_entry entries.old.items number }
    ensures rising { AreRising entries.new.items }
    ensures room { vec_capacity entries.new ≡ vec_capacity entries.old }
{
    if let Ok(place) = search(entries.as_slice(), number) {
        let _ = entries.remove(place);
    }
}

impl Fids {
    /// No fids, with room for all.
    pub fn new(alloc: Global) -> Result<Fids, NoMemory>
        ensures { IfOk result (λ fids. fids ≡ []) }
    {
        Ok(Fids {
            entries: Vec::with_capacity(alloc, MOST_FIDS)?,
        })
    }

    /// The fid of that number.
    pub fn get(&self, number: u32) -> Option<Fid>
        ensures { result ≡ fid_in self.now number }
    {
        fid_among(self.entries.as_slice(), number)
    }

    /// Whether there is no room for another fid.
    pub fn is_full(&self) -> bool
        ensures { result ≡ nat_le MOST_FIDS (length self.now) }
    {
        MOST_FIDS <= self.entries.len()
    }

    /// Puts a fid under a number, which may be new.
    pub fn put(&mut self, number: u32, fid: Fid)
        requires { HasRoomFor self.old number }
        ensures { self.new ≡ with_entry self.old number fid }
    {
        put(&mut self.entries, number, fid);
    }

    /// Takes the fid of that number out, if there is one.
    pub fn remove(&mut self, number: u32)
        ensures { self.new ≡ without_entry self.old number }
    {
        take_out(&mut self.entries, number);
    }

    /// Takes all out.
    pub fn clear(&mut self)
        ensures { self.new ≡ [] }
    {
        self.entries.clear();
    }
}
