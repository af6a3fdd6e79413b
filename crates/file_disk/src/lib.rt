//! A disk over a file of the system, which one program at a time has.
//!
//! Who has opened the file holds a lock on it until the disk is dropped, and a sync that failed leaves a mark for the next
//! opening. As a disk it tells nothing of its bytes: proved is that a call fails only with its count of faults risen, and
//! succeeds only with the count as it was. What it does with the file is tested.
#![tactic(auto)]

mod disk;
mod files;
mod mark;

pub use disk::FileDisk;
pub use mark::remove_mark;
