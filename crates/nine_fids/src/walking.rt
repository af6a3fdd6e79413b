//! How a walk ends whose names were looked up.

ghost use Rattle.std.specs.Prelude.{◌≡◌};
ghost use Rattle.nine_fids.specs.Fids.{HasRoomFor};
ghost use Rattle.nine_fids.specs.Walks.{last_of, standing_for, walked};

use crate::connection::Connection;
use crate::fid::{FidFile, closed};

// The file that was found last.
fn last_of(found: &[FidFile]) -> Option<FidFile>
    ensures { result ≡ last_of found.now }
{
    found.last().copied()
}

impl Connection {
    // The fid stands for the file, if there is one.
    fn stand_for(&mut self, newfid: u32, file: Option<FidFile>)
        requires { HasRoomFor self.old.fids newfid }
        ensures { self.new ≡ standing_for self.old newfid file }
    {
        match file {
            None => {}
            Some(file) => {
                let made = closed(file);
                self.fids.put(newfid, made);
            }
        }
    }

    /// A walk of so many names found these files, one after the other. If these are all names, the new fid stands for the
    /// last, or the fid itself if it is the new one; else nothing changes. It takes no memory.
    pub fn walked(&mut self, newfid: u32, names: usize, found: &[FidFile])
        requires { HasRoomFor self.old.fids newfid }
        ensures { self.new ≡ walked self.old newfid names found.now }
    {
        if found.len() == names {
            self.stand_for(newfid, last_of(found));
        }
    }
}
