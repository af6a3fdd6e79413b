//! The commands that leave the areas as they are: a script over a store in memory, an audit of a history, an inquiry, a table
//! of modes, statements to be signed, and a large run; and a script over any store.
//!
//! Each writes what it comes to, and returns the status to end with. If the output fails or memory runs out, that is the
//! status; nothing is written after a call of the output that failed.
#![tactic(auto)]

pub mod answering;
mod auditing;
mod inquiring;
mod loading;
mod memory;
mod signing;
mod stating;

pub use auditing::audit_history;
pub use inquiring::inquire;
pub use loading::load;
pub use memory::run_in_memory;
pub use signing::sign_statements;
pub use stating::state_table;
