//! What the client asks of the world: the server, the prover, the wallet, the clock.

use bl_syntax::{Bytes, Goal, NodeId, Numbers, Principal};
use client_home::{Pass, Wallet};
use client_session::Replies;
use client_words::{Name, Place, Stop};

/// A proof: the line that asks for its procap, and the numbers of the statements that it cites; or why there is none.
#[derive(Drop)]
pub enum Proof {
    Found(Bytes, Numbers),
    NotFound(String),
}

/// From when to when a procap has to hold, in seconds.
#[derive(Clone, Copy)]
pub struct Span {
    pub from: i64,
    pub to: i64,
}

/// A change of the wallet.
#[derive(Clone, Copy)]
pub enum Change<'a> {
    /// This procap was won.
    Add(&'a Pass),
    /// The procap of this word is of no use any more.
    Remove(&'a str),
    /// The statement of this number does not stand any more.
    Gone(u32),
}

/// What the client asks of the world.
pub trait Ports {
    /// The replies to these lines, which are sent at once.
    fn ask(&mut self, lines: &[Bytes]) -> Result<Replies, Stop>;

    /// A proof of the goal for that time, or for now, from the user's statements without these.
    fn prove(&mut self, goal: Goal, without: &[u32], span: Option<Span>) -> Result<Proof, Stop>;

    /// The wallet after a change of what it is now.
    fn change(&mut self, change: Change<'_>) -> Result<Wallet, Stop>;

    /// Whether the statement of this number is in the user's list.
    fn is_listed(&self, number: u32) -> bool;

    /// The server's address.
    fn server(&self) -> &str;

    /// Who asks.
    fn who(&self) -> Principal;

    /// The second now.
    fn now(&self) -> i64;

    /// Waits so many milliseconds.
    fn pause(&self, milliseconds: u64);

    /// A name that no other has, which begins with this.
    fn new_name(&mut self, front: &str) -> Result<Name, Stop>;

    /// Tells whoever looks on what is no fault.
    fn remark(&self, words: &str);

    /// Tells whoever looks on how many bytes are done.
    fn show_progress(&mut self, done: u64);

    /// Notes that this file is there under a name of its own until it takes another, so that it can be removed if the program is ended.
    fn note_hidden(&mut self, directory: NodeId, hidden: &Place, node: NodeId) -> Result<(), Stop>;

    /// Notes that it is not there any more.
    fn forget_hidden(&mut self);
}
