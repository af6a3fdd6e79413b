//! Reading requests.

ghost use Rattle.std.specs.Prelude.{◌≡◌, IfSome, IfNone};
ghost use Rattle.std.specs.Int.{w16, w32, w64};
ghost use Rattle.nine_messages.specs.Fields.{Gives, ended, filled, both_at, number_at, byte_at, counted_at, text_at, listed_at};
ghost use Rattle.nine_messages.specs.Requests.{tversion, tattach, tflush, twalk, topen, tread, twrite, tclunk, request_of, tagged_at, message_of, IsMessage, spelling};
ghost use Rattle.nine_messages.specs.Cutting.{IsNoMessage};
ghost use Rattle.nine_messages.specs.Views.{request_view, message_view};

use crate::fields::{byte_at, data_at, text_at, u16_at, u32_at, u64_at};
use crate::names::names_of;
use crate::request::{Message, Request};

// The request that is made of fields, if nothing stands after them.
fn filled<'a>(request: Request<'a>, rest: &'a [u8]) -> Option<Request<'a>>
    ensures { Gives (λ x. request_view x) result (ended (request_view request.entry) rest.now) }
{
    match rest {
        [] => Some(request),
        _ => None,
    }
}

fn version_of(fields: &[u8]) -> Option<Request<'_>>
    ensures { Gives (λ x. request_view x) result (filled (λ t. tversion t.0 t.1) (both_at (number_at w32) text_at fields.now)) }
{
    let (msize, rest) = u32_at(fields)?;
    let (version, rest) = text_at(rest)?;
    filled(Request::Version(msize, version), rest)
}

fn attach_of(fields: &[u8]) -> Option<Request<'_>>
    ensures { Gives (λ x. request_view x) result (filled (λ t. tattach t.0 t.1.0 t.1.1.0 t.1.1.1)
        (both_at (number_at w32) (both_at (number_at w32) (both_at text_at text_at)) fields.now)) }
{
    let (fid, rest) = u32_at(fields)?;
    let (afid, rest) = u32_at(rest)?;
    let (uname, rest) = text_at(rest)?;
    let (aname, rest) = text_at(rest)?;
    filled(Request::Attach(fid, afid, uname, aname), rest)
}

fn flush_of(fields: &[u8]) -> Option<Request<'_>>
    ensures { Gives (λ x. request_view x) result (filled (λ t. tflush t) (number_at w16 fields.now)) }
{
    let (oldtag, rest) = u16_at(fields)?;
    filled(Request::Flush(oldtag), rest)
}

fn walk_of(fields: &[u8]) -> Option<Request<'_>>
    ensures { Gives (λ x. request_view x) result (filled (λ t. twalk t.0 t.1.0 t.1.1)
        (both_at (number_at w32) (both_at (number_at w32) (listed_at text_at)) fields.now)) }
{
    let (fid, rest) = u32_at(fields)?;
    let (newfid, rest) = u32_at(rest)?;
    match names_of(rest) {
        None => None,
        Some(names) => Some(Request::Walk(fid, newfid, names)),
    }
}

fn open_of(fields: &[u8]) -> Option<Request<'_>>
    ensures { Gives (λ x. request_view x) result (filled (λ t. topen t.0 t.1) (both_at (number_at w32) byte_at fields.now)) }
{
    let (fid, rest) = u32_at(fields)?;
    let (mode, rest) = byte_at(rest)?;
    filled(Request::Open(fid, mode), rest)
}

fn read_of(fields: &[u8]) -> Option<Request<'_>>
    ensures { Gives (λ x. request_view x) result (filled (λ t. tread t.0 t.1.0 t.1.1)
        (both_at (number_at w32) (both_at (number_at w64) (number_at w32)) fields.now)) }
{
    let (fid, rest) = u32_at(fields)?;
    let (offset, rest) = u64_at(rest)?;
    let (count, rest) = u32_at(rest)?;
    filled(Request::Read(fid, offset, count), rest)
}

fn write_of(fields: &[u8]) -> Option<Request<'_>>
    ensures { Gives (λ x. request_view x) result (filled (λ t. twrite t.0 t.1.0 t.1.1)
        (both_at (number_at w32) (both_at (number_at w64) (counted_at w32)) fields.now)) }
{
    let (fid, rest) = u32_at(fields)?;
    let (offset, rest) = u64_at(rest)?;
    let (bytes, rest) = data_at(rest)?;
    filled(Request::Write(fid, offset, bytes), rest)
}

fn clunk_of(fields: &[u8]) -> Option<Request<'_>>
    ensures { Gives (λ x. request_view x) result (filled (λ t. tclunk t) (number_at w32 fields.now)) }
{
    let (fid, rest) = u32_at(fields)?;
    filled(Request::Clunk(fid), rest)
}

/// The request of a kind whose fields fill the bytes.
#[tactic(auto, unfolding(crate::specs::Requests::request_of))]
fn request_of(kind: u8, fields: &[u8]) -> Option<Request<'_>>
    ensures { Gives (λ x. request_view x) result (request_of kind fields.now) }
{
    match kind {
        100 => version_of(fields),
        104 => attach_of(fields),
        108 => flush_of(fields),
        110 => walk_of(fields),
        112 => open_of(fields),
        116 => read_of(fields),
        118 => write_of(fields),
        120 => clunk_of(fields),
        _ => Some(Request::Other(kind, fields)),
    }
}

/// What stands after the size of a message.
#[tactic(auto, unfolding(crate::specs::Requests::tagged_at))]
fn tagged_at(bytes: &[u8]) -> Option<Message<'_>>
    ensures { Gives (λ x. message_view x) result (tagged_at bytes.now) }
{
    let (kind, rest) = byte_at(bytes)?;
    let (tag, rest) = u16_at(rest)?;
    match request_of(kind, rest) {
        None => None,
        Some(request) => Some(Message { tag, request }),
    }
}

#[tactic(auto, unfolding(crate::specs::Requests::message_of))]
fn message_of(bytes: &[u8]) -> Option<Message<'_>>
    ensures { Gives (λ x. message_view x) result (message_of bytes.now) }
{
    let (size, rest) = u32_at(bytes)?;
    if size as usize == bytes.len() {
        tagged_at(rest)
    } else {
        None
    }
}

/// The message that fills the bytes; none exactly if they are those of no message.
pub fn read_message(bytes: &[u8]) -> Option<Message<'_>>
    ensures found { IfSome result (λ m. IsMessage (message_view m) × (bytes.now ≡ spelling (message_view m))) }
    ensures none { IfNone result (IsNoMessage bytes.now) }
{
    message_of(bytes)
}
