//! The table of a history: a row for each event, with its number, its second, whose it is, and what each procap rests on.
//!
//! A row is a definition over the state before the event; each event has one. The path of a node is that at the
//! time of the event. Which rows a filter lets through and which issues would admit somebody now are definitions too.
#![tactic(auto)]

mod admitting;
mod cursor;
mod filter;
mod following;
mod issues;
mod places;
mod resting;
mod rows;

pub use admitting::who_may;
pub use cursor::RowCursor;
pub use filter::Filter;
pub use resting::{Rest, resting_on};
pub use rows::{Row, Use, Uses};
