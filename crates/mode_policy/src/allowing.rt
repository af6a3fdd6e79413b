//! What a table of modes allows.

ghost use Rattle.std.specs.Prelude.{◌↔◌, IsTrue};
ghost use Rattle.mode_policy.specs.Allowed.{ModeAllows};

use crate::modes::permits;
use crate::table::ModeTable;
use bl_syntax::{NodeId, Perm, Principal};

impl ModeTable {
    /// Whether the principal may have the permission on the file: both are in the table, and the digit of the principal's class has
    /// the permission.
    pub fn allows(&self, who: &Principal, file: NodeId, perm: Perm) -> bool
        ensures { IsTrue result ↔ ModeAllows self.now who.now file perm }
    {
        match self.find_principal(who) {
            None => false,
            Some(_) => match self.find_file(file) {
                None => false,
                Some(place) => {
                    let f = self.file(place as usize);
                    permits(f.modes.digit(self.class_of(&f, who)), perm)
                }
            },
        }
    }
}
