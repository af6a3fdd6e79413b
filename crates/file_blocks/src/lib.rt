//! The contents of one file, in blocks on the heap.
//!
//! Contracts see the bytes, and the room: how long the contents may become without taking memory. A write and a read
//! touch the blocks that they cover, and growing copies at most the last one, which may be shorter than the others.
#![tactic(auto)]

mod block;
mod blocks;
mod contents;
mod spans;

pub use block::BLOCK_BYTES;
pub use contents::FileContents;
