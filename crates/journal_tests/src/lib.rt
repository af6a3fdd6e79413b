//! Tests of the journal, in a crate above it, so that it is proved once.
//!
//! Each public call is made with ample memory, over bytes that were made by hand. Records on a file are found when it is
//! opened again; and what a disk does with its file is tried over the system. No crate stands on this one.
#![tactic(auto)]

#[cfg(test)]
mod areas;
#[cfg(test)]
mod disks;
#[cfg(test)]
mod files;
