//! The next message of bytes that come in pieces.

ghost use Rattle.std.specs.Prelude.{◌≡◌, ◌≤◌, length};
ghost use Rattle.nine_messages.specs.Cutting.{agreed_after, size_of};
ghost use Rattle.nine_messages.specs.Views.{request_view};
ghost use Rattle.nine_messages.specs.Framing.{IsCutAt};

use crate::fields::u32_at;
use crate::request::{Message, Request};
use crate::request_reading::read_message;

/// The greatest size of a message before the two sides have agreed on one, and the greatest that they agree on.
pub const MOST_SIZE: u32 = 65_536;

/// The fewest bytes for which a Tversion is not refused.
pub const LEAST_SIZE: u32 = 512;

const HEAD: u32 = 7;

/// What bytes begin with.
#[derive(Debug, Drop)]
pub enum Next<'a> {
    /// A message, and the bytes after it.
    Message(Message<'a>, &'a [u8]),
    /// Less than a message: more bytes tell what it is.
    Open,
    /// No message, whatever bytes come.
    Bad,
}

// What bytes begin with whose first four say this size.
#[tactic(auto, using(crate::proofs::CuttingLemmas::cutting))]
fn sized_message(agreed: u32, size: u32, left: &[u8]) -> Next<'_>
    requires whole { 4 ≤ length left.now }
    requires said { size ≡ size_of left.now }
    ensures { IsCutAt agreed left.now result }
{
    if size < HEAD {
        return Next::Bad;
    }
    if agreed < size {
        return Next::Bad;
    }
    let size = size as usize;
    if left.len() < size {
        return Next::Open;
    }
    let (front, rest) = left.split_at(size);
    match read_message(front) {
        None => Next::Bad,
        Some(message) => Next::Message(message, rest),
    }
}

/// What these bytes begin with, if no message may be larger than was agreed. The message borrows what it carries.
#[tactic(auto, using(crate::proofs::CuttingLemmas::unsized_left), unfolding(crate::specs::Cutting::size_of))]
pub fn next_message(agreed: u32, left: &[u8]) -> Next<'_>
    ensures { IsCutAt agreed left.now result }
{
    match u32_at(left) {
        None => Next::Open,
        Some((size, _)) => sized_message(agreed, size, left),
    }
}

/// How large a message may be after this request: a Tversion for at least 512 bytes agrees on the lesser of its size and
/// 65,536.
pub fn agreed_after(agreed: u32, request: &Request<'_>) -> u32
    ensures { result ≡ agreed_after agreed (request_view request.now) }
{
    match request {
        Request::Version(msize, _) => {
            if *msize < LEAST_SIZE {
                agreed
            } else {
                (*msize).min(MOST_SIZE)
            }
        }
        Request::Attach(..)
        | Request::Flush(_)
        | Request::Walk(..)
        | Request::Open(..)
        | Request::Read(..)
        | Request::Write(..)
        | Request::Clunk(_)
        | Request::Other(..) => agreed,
    }
}
