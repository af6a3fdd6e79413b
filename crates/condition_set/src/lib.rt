//! The conditions of a grant: kept once each as they come up, tested at a moment and over the facts of the state.
//!
//! A test answers the place of the first condition that fails, from 0. A window is the time between whose ends the
//! conditions on time hold. All but the adding of a condition takes no memory.
#![tactic(auto)]

mod collect;
mod failing;
mod time_window;

pub use collect::{Collect, CollectFault};
pub use failing::{Facts, first_failing_state, first_failing_time};
pub use time_window::window;
