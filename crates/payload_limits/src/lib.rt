//! How long payloads are: what may come next in a history fits a message that carries it to another store.
#![tactic(auto)]

pub mod laws;
