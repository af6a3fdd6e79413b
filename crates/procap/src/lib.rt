//! Procaps: grants with a seal, the tag of HMAC-SHA256 of the grant's bytes under the store's key.
//!
//! A procap is genuine exactly if all bytes of its tag are its grant's. A grant and a procap have one spelling each:
//! what is read is spelled so, and any other bytes give their first fault from the left.
#![tactic(auto)]

mod feeding;
pub mod laws;
mod procap;
mod reading;
mod sealing;
mod writing;

pub use procap::Procap;
pub use reading::{grant_at, procap_at, read_grant, read_procap};
pub use sealing::{SealKey, genuine, seal};
pub use writing::{write_grant, write_procap};
