//! What the lines of a table say.

use crate::modes::Modes;
use bl_syntax::{NodeId, Principal};

/// A principal is a member of a group.
#[derive(Clone, Copy, Debug, PartialEq, Eq)]
pub struct Membership {
    pub who: Principal,
    pub group: Principal,
}

/// Whose a file is, and its modes.
#[derive(Clone, Copy, Debug, PartialEq, Eq)]
pub struct FileModes {
    pub node: NodeId,
    pub owner: Principal,
    pub group: Principal,
    pub modes: Modes,
}

/// What a line says.
#[derive(Clone, Copy, Debug, PartialEq, Eq)]
pub enum Entry {
    /// There is a principal.
    Who(Principal),
    /// The principal is a member of the group.
    Member(Membership),
    /// Whose the file is, and its modes.
    File(FileModes),
}
