//! How grants stand that were issued, once statements on which they rest were withdrawn.
//!
//! A grant that names no statements is gone by its issues if each issue with it cites a statement that was withdrawn. An
//! index has how each issued grant of that kind stands, so that one is found by its procap's tag without going over the
//! issues. Grants that name statements have no rows: they are gone by the names themselves.
#![tactic(auto)]

mod bearing;
mod laws;
mod standing;
mod standings;

pub use bearing::Bearing;
pub use laws::gone_is_told_by_the_last_issue;
pub use standing::{GrantStanding, first_withdrawn};
pub use standings::Standings;
