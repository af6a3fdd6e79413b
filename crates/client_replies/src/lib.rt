//! The server's replies: each as a value, and the words of each refusal, with what to do.
//!
//! A reply that has no meaning here is never taken for one that has: it is told as what this client does not know.
#![tactic(auto)]

mod denial;
mod moments;
mod refusals;
mod reply;
mod states;

pub use denial::{Cause, Denial};
pub use moments::{put_moment, put_time};
pub use refusals::{
    bad_reply, failing, not_registered, not_verified, permission_name, refusal, unknown_reply,
};
pub use reply::{Reply, issue_of, node_of, reply_of, statement_of};
pub use states::put_state;
