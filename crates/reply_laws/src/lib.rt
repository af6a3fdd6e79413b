//! What the names and texts in replies are made of: none of them holds the byte that ends a line.
//!
//! A step's reply is one line over each world within its limits, if the procaps that it was brought are; those that a
//! line writes out are. What the verdict on a proof grants is one line, if the statements, the goal and the proof are,
//! and a state keeps none but such statements and grants. The crate has laws over definitions below it; it runs nothing.
#![tactic(auto)]

pub mod laws;
