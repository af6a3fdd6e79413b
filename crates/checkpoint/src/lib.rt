//! The image of a state, with which an area begins, as a whole: a base is written as its image, and read from it.
//!
//! An image is a spelling of one state. Each state has one of version 2, and one of version 1 if all its statements stand. What
//! is read is a state whose nodes are a world within the limits, and whose image, of either version, the bytes are to their
//! end; any other bytes give their first fault. Whether the state is
//! lawful, under some key and ring, is asked by those who begin a history with it.
#![tactic(auto)]

pub mod laws;
mod reading;
mod writing;

pub use bl_syntax::CodecFault;
pub use reading::{read_base, read_old_image};
pub use writing::{image_bytes, state_image, write_old_image};
