//! Tables of modes.

ghost use Rattle.std.specs.Prelude.{◌≡◌, ◌<◌, length, Contains, Some, MatchOption};
ghost use Rattle.std.specs.List.{slice_get};
ghost use Rattle.mode_policy.specs.Allowed.{class_of, is_member};
ghost use Rattle.mode_policy.specs.Places.{IsPlaceOf};
ghost use Rattle.mode_policy.specs.Table.{no_table, nodes_of};
ghost use Rattle.mode_policy.specs.declared.entry.Entry.TheVariants.{Who, Member, File};
ghost use Rattle.mode_policy.specs.Adding.{AddsEntry};
ghost use Rattle.mode_policy.specs.Rows.{GivesPlace};

use crate::entry::{Entry, FileModes, Membership};
use crate::fault::LineFault;
use crate::files::{FileList, FileRow};
use crate::members::MemberList;
use crate::modes::Class;
use crate::names::NameList;
use bl_syntax::{NoMemory, NodeId, Principal};
use std::alloc::Global;
use std::marker::Model;

/// A table of modes: principals, their groups, and files with their owner, their group and their modes.
#[derive(Drop)]
pub struct ModeTable {
    pub(crate) who: NameList,
    pub(crate) groups: NameList,
    pub(crate) members: MemberList,
    pub(crate) files: FileList,
}

impl Model for ModeTable {
    ghost use Rattle.mode_policy.specs.Table.{TableView};
    ghost use Rattle.mode_policy.specs.Rows.{table_view, AreInRange};

    ghost Value = { TableView };

    ghost view = { λ t. table_view t.who t.groups t.members t.files };

    ghost invariant = { λ t. AreInRange t.who t.groups t.members t.files };
}

// The place of the name, which is added if it is not there.
fn place_of(names: &mut NameList, name: Principal) -> Result<u32, NoMemory>
    ensures { GivesPlace names.old name result names.new }
{
    match names.find(&name) {
        Some(place) => Ok(place),
        None => names.add(name),
    }
}

impl ModeTable {
    /// A table of no lines. It takes no memory.
    pub(crate) fn new(alloc: Global) -> ModeTable
        ensures { result ≡ no_table }
    {
        ModeTable {
            who: NameList::new(alloc),
            groups: NameList::new(alloc),
            members: MemberList::new(alloc),
            files: FileList::new(alloc),
        }
    }

    // Adds a principal.
    fn add_principal(&mut self, who: Principal) -> Result<(), LineFault>
        ensures { AddsEntry self.old (Who who) result self.new }
    {
        match self.who.find(&who) {
            Some(_) => Err(LineFault::Twice),
            None => {
                self.who.add(who)?;
                Ok(())
            }
        }
    }

    // Adds a membership.
    fn add_member(&mut self, m: Membership) -> Result<(), LineFault>
        ensures { AddsEntry self.old (Member m) result self.new }
    {
        let place = match self.who.find(&m.who) {
            Some(place) => place,
            None => return Err(LineFault::Bad),
        };
        let group_place = place_of(&mut self.groups, m.group)?;
        if self.members.has(place, group_place) {
            return Err(LineFault::Twice);
        }
        self.members.add(place, group_place)?;
        Ok(())
    }

    // Adds a file.
    fn add_file(&mut self, f: FileModes) -> Result<(), LineFault>
        ensures { AddsEntry self.old (File f) result self.new }
    {
        let owner = match self.who.find(&f.owner) {
            Some(place) => place,
            None => return Err(LineFault::Bad),
        };
        if self.files.find(f.node.0).is_some() {
            return Err(LineFault::Twice);
        }
        let group = place_of(&mut self.groups, f.group)?;
        self.files.add(FileRow {
            number: f.node.0,
            owner,
            group,
            modes: f.modes,
        })?;
        Ok(())
    }

    /// Adds an entry.
    pub(crate) fn add(&mut self, e: Entry) -> Result<(), LineFault>
        ensures { AddsEntry self.old e result self.new }
    {
        match e {
            Entry::Who(who) => self.add_principal(who),
            Entry::Member(m) => self.add_member(m),
            Entry::File(f) => self.add_file(f),
        }
    }

    /// The principals in order.
    pub fn principals(&self) -> &[Principal]
        ensures { result.now ≡ self.now.who }
    {
        self.who.as_slice()
    }

    /// Where the principal stands, from 0.
    pub(crate) fn find_principal(&self, who: &Principal) -> Option<u32>
        ensures { MatchOption result (Contains self.now.who who.now → ⊥) (IsPlaceOf self.now.who who.now) }
    {
        self.who.find(who)
    }

    /// How many files there are.
    pub fn file_count(&self) -> usize
        ensures { result ≡ length self.now.files }
    {
        self.files.as_slice().len()
    }

    /// Where the file stands, from 0.
    pub(crate) fn find_file(&self, node: NodeId) -> Option<u32>
        ensures { MatchOption result (Contains (nodes_of self.now) node → ⊥) (IsPlaceOf (nodes_of self.now) node) }
    {
        self.files.find(node.0)
    }

    /// The file of that place.
    pub fn file(&self, place: usize) -> FileModes
        requires { place < length self.now.files }
        ensures { slice_get self.now.files place ≡ Some result }
    {
        let row = self.files.as_slice()[place];
        FileModes {
            node: NodeId(row.number),
            owner: self.who.as_slice()[row.owner as usize],
            group: self.groups.as_slice()[row.group as usize],
            modes: row.modes,
        }
    }

    /// The class of the principal for the file.
    pub(crate) fn class_of(&self, f: &FileModes, who: &Principal) -> Class
        ensures { result ≡ class_of self.now f.now who.now }
    {
        if who.is_same(&f.owner) {
            return Class::Owner;
        }
        if self.is_member(who, &f.group) {
            Class::Group
        } else {
            Class::Other
        }
    }

    // Whether the principal is a member of the group.
    fn is_member(&self, who: &Principal, group: &Principal) -> bool
        ensures { result ≡ is_member self.now.members who.now group.now }
    {
        match self.who.find(who) {
            Some(place) => match self.groups.find(group) {
                Some(group_place) => self.members.has(place, group_place),
                None => false,
            },
            None => false,
        }
    }
}
