//! Files of this machine: the user's own folder, which nobody else may read, and files that are copied; and the output.
//!
//! No contract says what a file holds: what is read is handed to functions over values.
#![tactic(auto)]

pub mod home;
pub mod local_files;
pub mod messages;
mod system;

pub use system::System;
