//! The journal: an image and records on one disk, in the bytes of an area.
//!
//! A record is added whole or not at all, at every moment at which a crash may come, and so is a new
//! area. A scan of any bytes gives the image and the records of the area, or says why there is none.
#![tactic(auto)]

mod area;
mod contents;
mod durable;
mod frames;
mod generation;
pub mod laws;
mod records;
mod scan;

pub use area::{Area, AreaFault};
pub use contents::Scan;
pub use frames::{Framed, frame, frame_after_four};
pub use generation::peek;
pub use scan::{ScanFault, scan_front};
