//! The image of a state, with which an area begins, both ways, field by field.
//!
//! What is written is the one spelling of the state in its version. What is read is spelled so; any other bytes give their
//! first fault from the left. Numbers of nodes, names of attributes and the numbers of withdrawn statements rise. Whether the
//! nodes are a tree is asked by those who make a world of them.
//!
//! Images are of version 2. Those of version 1, which have no version and no numbers of withdrawn statements, are read too.
#![tactic(auto)]

mod fields;
mod image;
mod image_reading;
mod image_writing;
pub mod laws;
mod node_reading;
mod node_writing;
mod withdrawn_numbers;

pub use image::Image;
pub use image_reading::{image_at, old_image_at, stored_image_at};
pub use image_writing::{
    write_head, write_image, write_issues, write_nodes, write_old_image, write_statements,
    write_version,
};
pub use withdrawn_numbers::write_withdrawn_numbers;
