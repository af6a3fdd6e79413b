//! The file server over its store: the run of the program.
//!
//! `run_alone` answers each line of a script as it comes, its status says how it ended and why, of the history at the end the
//! headline holds, and the disks that come back stand for it; so of messages that are taken from another store. An audit, an
//! export, an inquiry, a table of modes, statements to be signed and a large run end as what they look at says, and leave the
//! areas as they are.
#![tactic(auto)]

pub mod run;

pub use run::Ended;
