//! The modes of a file: an octal digit for each class of principals.

ghost use Rattle.std.specs.Prelude.{◌≡◌};
ghost use Rattle.mode_policy.specs.Modes.{digit_of, permits};

use bl_syntax::Perm;

/// The class of a principal for a file.
#[derive(Clone, Copy, Debug, PartialEq, Eq)]
pub enum Class {
    /// It owns the file.
    Owner,
    /// It does not, and is a member of the file's group.
    Group,
    /// Neither.
    Other,
}

/// The modes of a file, a digit for each class: 4 is for reading, 2 for writing and 1 for executing.
#[derive(Clone, Copy, Debug, PartialEq, Eq)]
pub struct Modes {
    pub owner: u8,
    pub group: u8,
    pub other: u8,
}

impl Modes {
    /// The digit of the class.
    pub fn digit(&self, class: Class) -> u8
        ensures { result ≡ digit_of self.now class }
    {
        match class {
            Class::Owner => self.owner,
            Class::Group => self.group,
            Class::Other => self.other,
        }
    }
}

/// Whether the digit has the bit of the permission.
pub fn permits(digit: u8, perm: Perm) -> bool
    ensures { result ≡ permits digit perm }
{
    match perm {
        Perm::Read => digit / 4 % 2 == 1,
        Perm::Write => digit / 2 % 2 == 1,
        Perm::Execute => digit % 2 == 1,
        Perm::Identity => false,
        Perm::Govern => false,
    }
}
