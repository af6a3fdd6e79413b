//! Files of a shared store over 9P2000.
//!
//! A login takes one turn at the store; so do a reading and a writing of a node that no test refuses, and each name of a walk up
//! to the one that ends it, under the first procap of the purse that fits. A name for which none fits takes no turn, and memory
//! may run out before a turn. Whatever others do, each reply is placed in each history that begins with what the pass has seen
//! then. The definitions are in `specs/`: `Asking`, `Placed`, `Turns`, `Said`, `Taken`, `Ends`, and `Asked`, `Laws` of the laws;
//! `Walked`, `Short`, `Views`, `Framing` serve the code; by `NineTalking` and `SaidLaws` a connection is a talk of `session_loop`.
#![tactic(auto)]

mod answering;
mod found;
mod framer;
pub mod laws;
mod looking;
mod messages;
mod nine_end;
mod replying;
mod serving;
mod short;
mod talk;
mod walking;

pub use answering::answer;
pub use found::Found;
pub use nine_end::NineEnd;
pub use replying::{NineReply, WalkError};
pub use serving::serve_nine;
