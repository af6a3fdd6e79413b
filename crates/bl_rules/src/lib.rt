//! What the authorization logic derives, what statements allow at a moment, and what a sound grant is.
//!
//! The crate has definitions, which stand in its specifications, and laws over them; it runs nothing.
#![tactic(auto)]

pub mod laws;
