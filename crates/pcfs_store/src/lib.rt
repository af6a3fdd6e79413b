//! The store: a history that survives the loss of power, on two disks.
//!
//! A step answers by the definition of answers, and what it keeps is on the disk before the answer is returned. Whenever a
//! crash comes, the newest of the two areas stands for the history as it was, or for that and the one event that was being
//! kept. An event that came from outside is kept likewise, if it may come next. A checkpoint writes the image of the state on
//! the other disk, which counts from then on, and leaves the history as it is, also if a crash comes within it. After a fault
//! of a disk a store is stopped, and touches no disk any more.
#![tactic(auto)]

mod areas;
mod checkpoints;
mod format;
mod image;
mod keeping;
pub mod laws;
mod opened;
mod reply;
mod store;

pub use areas::newer;
pub use checkpoints::Checkpoint;
pub use format::{FormatFault, format_store};
pub use image::FRESH_IMAGE;
pub use reply::{Admitted, CheckpointReply, StoreReply};
pub use store::Store;
