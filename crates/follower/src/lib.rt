//! A follower: a store that takes the events of another one, its leader, over a link that may lose, repeat and reorder them.
//!
//! An event is kept exactly if it has the next number and may come next, tested as if it came now. So whatever is delivered,
//! and whenever the follower is stopped and opened again, its history is lawful; and if all that is delivered are events
//! of the leader, it is a prefix of the leader's by the numbers of events.
#![tactic(auto)]

pub mod laws;
mod taking;

pub use taking::{Taken, take};
