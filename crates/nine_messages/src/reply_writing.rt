//! Writing replies.

ghost use Rattle.std.specs.Prelude.{◌≡◌, ◌++◌, OnOk, OnErr};
ghost use Rattle.std.specs.List.{flat_map, AllByRecursion};
ghost use Rattle.bl_syntax.specs.BeginsWith.{BeginsWith};
ghost use Rattle.nine_messages.specs.Replies.{reply_kind, qid_spelling, reply_fields, reply_spelling, IsQid, IsReply, IsTaggedReply, IsWritableReply};
ghost use Rattle.nine_messages.specs.Views.{reply_view};

use crate::fields_writing::{add_data, add_text, put_head, put_size, put_u16, put_u32};
use crate::reply::{Qid, Reply};
use bl_syntax::{Bytes, NoMemory};

fn reply_kind(reply: &Reply<'_>) -> u8
    ensures { result ≡ reply_kind (reply_view reply.now) }
{
    match reply {
        Reply::Version(..) => 101,
        Reply::Attach(_) => 105,
        Reply::Error(_) => 107,
        Reply::Flush => 109,
        Reply::Walk(_) => 111,
        Reply::Open(_) => 113,
        Reply::Read(_) => 117,
        Reply::Write(_) => 119,
        Reply::Clunk => 121,
    }
}

#[tactic(auto, unfolding(crate::specs::Replies::qid_spelling))]
fn qid_bytes(qid: Qid) -> [u8; 13]
    ensures spelled { result ≡ qid_spelling qid }
    ensures fits { IsQid qid }
{
    let version = qid.version.to_le_bytes();
    let path = qid.path.to_le_bytes();
    [
        qid.kind, version[0], version[1], version[2], version[3], path[0], path[1], path[2],
        path[3], path[4], path[5], path[6], path[7],
    ]
}

/// Adds the bytes of each qid, or a front of them.
#[tactic(auto, using(bl_syntax::proofs::BeginsWithLemmas::writing))]
fn add_qids(qids: &[Qid], out: &mut Bytes) -> Result<(), NoMemory>
    ensures ok { OnOk result (out.new ≡ out.old ++ flat_map qid_spelling qids.now) }
    ensures fits { OnOk result (AllByRecursion IsQid qids.now) }
    ensures err { OnErr result (BeginsWith out.new out.old) }
{
    match qids {
        [] => Ok(()),
        [first, others @ ..] => {
            out.extend(&qid_bytes(*first))?;
            add_qids(others, out)
        }
    }
}

/// Adds what stands after size, kind and tag, or a front of it.
#[tactic(auto, using(bl_syntax::proofs::BeginsWithLemmas::writing), unfolding(crate::specs::Replies::reply_fields))]
fn add_fields(reply: &Reply<'_>, out: &mut Bytes) -> Result<(), NoMemory>
    requires { IsWritableReply (reply_view reply.now) }
    ensures ok { OnOk result (out.new ≡ out.old ++ reply_fields (reply_view reply.now)) }
    ensures fits { OnOk result (IsReply (reply_view reply.now)) }
    ensures err { OnErr result (BeginsWith out.new out.old) }
{
    match reply {
        Reply::Version(msize, version) => {
            put_u32(*msize, out)?;
            add_text(version, out)
        }
        Reply::Attach(qid) => out.extend(&qid_bytes(*qid)),
        Reply::Flush => Ok(()),
        Reply::Walk(qids) => {
            put_u16(qids.len() as u16, out)?;
            add_qids(qids, out)
        }
        Reply::Open(qid) => {
            out.extend(&qid_bytes(*qid))?;
            put_u32(0, out)
        }
        Reply::Read(bytes) => add_data(bytes, out),
        Reply::Write(count) => put_u32(*count, out),
        Reply::Clunk => Ok(()),
        Reply::Error(ename) => add_text(ename, out),
    }
}

/// Adds the message, or a front of it. Its size is put in when it is known.
#[tactic(auto, using(bl_syntax::proofs::BeginsWithLemmas::writing))]
fn add_reply(tag: u16, reply: &Reply<'_>, out: &mut Bytes) -> Result<(), NoMemory>
    requires { IsWritableReply (reply_view reply.now) }
    ensures ok { OnOk result (out.new ≡ out.old ++ reply_spelling tag (reply_view reply.now)) }
    ensures fits { OnOk result (IsTaggedReply tag (reply_view reply.now)) }
    ensures err { OnErr result (BeginsWith out.new out.old) }
{
    let start = out.len();
    put_head(reply_kind(reply), tag, out)?;
    add_fields(reply, out)?;
    put_size(start, out);
    Ok(())
}

/// Adds the reply to the request with that tag, or nothing. What it carries is copied once, to where it is sent from.
pub fn write_reply(tag: u16, reply: &Reply<'_>, out: &mut Bytes) -> Result<(), NoMemory>
    requires { IsWritableReply (reply_view reply.now) }
    ensures ok { OnOk result (out.new ≡ out.old ++ reply_spelling tag (reply_view reply.now)) }
    ensures fits { OnOk result (IsTaggedReply tag (reply_view reply.now)) }
    ensures err { OnErr result (out.new ≡ out.old) }
{
    let start = out.len();
    let added = add_reply(tag, reply, out);
    if added.is_err() {
        out.truncate(start);
    }
    added
}
