//! Finds a proof that somebody may have a permission, from numbered statements.
//!
//! What is returned is a proof of that goal from statements of the list, with their numbers. It has a verdict, whose grant is
//! sound for these statements, and whose conditions hold at each moment that was asked for. What is said to be missing is
//! enough. The search itself is believed by nobody: each proof that it finds is checked before it is returned.
#![tactic(auto)]

mod answers;
mod asked;
mod cited;
mod confirming;
mod encoding;
mod missing;
mod searching;
mod spelling;

pub use answers::{Answer, Cause, Near, Proved, Suggestion};
pub use asked::{Asked, Moments};
pub use confirming::confirm;
pub use missing::find_missing;
pub use searching::find_proof;
