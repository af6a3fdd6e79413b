//! A talk over an input and an output: the items of the input as they come, each answered by one reply.
//!
//! How bytes are cut into items, how an item is answered and how a reply is written is a `Talk`'s own. `converse` reads the
//! input in pieces, writes each reply before the next item is answered, and returns how the talk ends; the definitions are
//! in `specs/`: `Cutting`, `Talking`, `Taken`, `Written`, `TalkEnds`, `Ends`; `Heard` and `Spoken` serve the code.
#![tactic(auto)]

mod answering;
mod conversing;
mod heard;
mod talk;
mod talk_end;

pub use conversing::converse;
pub use heard::Heard;
pub use talk::Talk;
pub use talk_end::{TalkEnd, Unsent};
