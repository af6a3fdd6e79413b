//! The gate: it answers a request by the definition of answers, and keeps exactly the event that the answer keeps.
//!
//! An operation is admitted if for each of its needs, in order, the procap in the need's place passes every test; the
//! first test that fails is the denial, whatever the operation would do. The last test is that the procap's grant does not
//! rest on withdrawn statements. To decide changes nothing that is kept; to commit what was decided takes no memory and
//! cannot fail. An event that was read from an area is tested as if it came now, and kept exactly if it may come next; a
//! state that was read is tested whole before a history begins with it.
#![tactic(auto)]

mod act;
mod admit;
mod base;
mod brings;
mod cause;
mod cite;
mod damage;
mod decide;
mod gate;
pub mod laws;
mod planned;

pub use brings::brings_enough;
pub use cite::Citation;
pub use damage::{AdmitFault, Damage};
pub use gate::{Decision, Gate};
