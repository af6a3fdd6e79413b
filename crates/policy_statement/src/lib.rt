//! Signatures of statements, of their withdrawals and of logins, and the registry of statements.
//!
//! A ring accepts exactly the whole tag of a message under the key of who signs it, or what the root of who signs it
//! accepts. The registry keeps no statement of which it was told that it is there, and tells its number: `test` says when
//! and why not to keep one. A statement that was withdrawn keeps its number, and `live` does not return it.
#![tactic(auto)]

pub mod digest;
mod digests;
mod messages;
mod registry;
mod ring;

pub use messages::{login_message, statement_message, withdraw_message};
pub use registry::{RegisterFault, Registered, Registry, WithdrawFault};
pub use ring::{KeyFault, Keyring};
