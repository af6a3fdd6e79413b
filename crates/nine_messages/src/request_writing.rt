//! Writing requests, as a client does.

ghost use Rattle.std.specs.Prelude.{◌≡◌, ◌++◌, OnOk, OnErr};
ghost use Rattle.bl_syntax.specs.BeginsWith.{BeginsWith};
ghost use Rattle.nine_messages.specs.Requests.{request_kind, request_fields, spelling, IsRequest, IsMessage};
ghost use Rattle.nine_messages.specs.Views.{request_view, message_view};

use crate::fields_writing::{add_data, add_text, put_head, put_size, put_u16, put_u32, put_u64};
use crate::request::{Message, Request};
use bl_syntax::{Bytes, NoMemory};

fn request_kind(request: &Request<'_>) -> u8
    ensures { result ≡ request_kind (request_view request.now) }
{
    match request {
        Request::Version(..) => 100,
        Request::Attach(..) => 104,
        Request::Flush(_) => 108,
        Request::Walk(..) => 110,
        Request::Open(..) => 112,
        Request::Read(..) => 116,
        Request::Write(..) => 118,
        Request::Clunk(_) => 120,
        Request::Other(kind, _) => *kind,
    }
}

/// Adds what stands after size, kind and tag, or a front of it.
#[tactic(auto, using(bl_syntax::proofs::BeginsWithLemmas::writing), unfolding(crate::specs::Requests::request_fields))]
fn add_fields(request: &Request<'_>, out: &mut Bytes) -> Result<(), NoMemory>
    requires { IsRequest (request_view request.now) }
    ensures ok { OnOk result (out.new ≡ out.old ++ request_fields (request_view request.now)) }
    ensures err { OnErr result (BeginsWith out.new out.old) }
{
    match request {
        Request::Version(msize, version) => {
            put_u32(*msize, out)?;
            add_text(version, out)
        }
        Request::Attach(fid, afid, uname, aname) => {
            put_u32(*fid, out)?;
            put_u32(*afid, out)?;
            add_text(uname, out)?;
            add_text(aname, out)
        }
        Request::Flush(oldtag) => put_u16(*oldtag, out),
        Request::Walk(fid, newfid, names) => {
            put_u32(*fid, out)?;
            put_u32(*newfid, out)?;
            names.add(out)
        }
        Request::Open(fid, mode) => {
            put_u32(*fid, out)?;
            out.push(*mode)
        }
        Request::Read(fid, offset, count) => {
            put_u32(*fid, out)?;
            put_u64(*offset, out)?;
            put_u32(*count, out)
        }
        Request::Write(fid, offset, bytes) => {
            put_u32(*fid, out)?;
            put_u64(*offset, out)?;
            add_data(bytes, out)
        }
        Request::Clunk(fid) => put_u32(*fid, out),
        Request::Other(_, body) => out.extend(body),
    }
}

/// Adds the message, or a front of it. Its size is put in when it is known.
#[tactic(auto, using(bl_syntax::proofs::BeginsWithLemmas::writing))]
fn add_message(m: &Message<'_>, out: &mut Bytes) -> Result<(), NoMemory>
    requires { IsMessage (message_view m.now) }
    ensures ok { OnOk result (out.new ≡ out.old ++ spelling (message_view m.now)) }
    ensures err { OnErr result (BeginsWith out.new out.old) }
{
    let start = out.len();
    put_head(request_kind(&m.request), m.tag, out)?;
    add_fields(&m.request, out)?;
    put_size(start, out);
    Ok(())
}

/// Adds the message, or nothing. Its texts and names have fewer than 2^16 bytes each, and it has fewer than 2^32.
pub fn write_message(m: &Message<'_>, out: &mut Bytes) -> Result<(), NoMemory>
    requires { IsMessage (message_view m.now) }
    ensures ok { OnOk result (out.new ≡ out.old ++ spelling (message_view m.now)) }
    ensures err { OnErr result (out.new ≡ out.old) }
{
    let start = out.len();
    let added = add_message(m, out);
    if added.is_err() {
        out.truncate(start);
    }
    added
}
