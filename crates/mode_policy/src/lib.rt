//! Tables of modes, as of a Unix file system, turned into policy: statements of `admin` by which each principal may have what the
//! digit of its class allows.
//!
//! A text is a table, or it has a first line that is wrong, which is reported with its number. Whatever a table allows is derivable
//! from its statements while the files are their owners', and `proof_of` gives the proof.
#![tactic(auto)]

mod allowing;
mod entry;
mod fault;
mod files;
mod formulas;
pub mod laws;
mod lines;
mod members;
mod modes;
mod name;
mod names;
mod parsing;
mod proving;
mod statements;
mod stating;
mod table;

pub use entry::FileModes;
pub use fault::ModeFault;
pub use modes::{Class, Modes};
pub use proving::{ModeProof, proof_of};
pub use statements::Statements;
pub use table::ModeTable;
