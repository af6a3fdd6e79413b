//! The secrets of a store: the key of its seal, and the names whose signatures it accepts, with their keys.
//!
//! A text is a secrets file, and then the secrets are those of its lines; or it has a first bad line, whose number is
//! reported. It is never both.
#![tactic(auto)]

mod fault;
mod keys;
pub mod laws;
mod lines;
mod secrets;

pub use fault::SecretFault;
pub use secrets::Secrets;
