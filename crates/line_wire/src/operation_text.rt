//! The texts of what operations return.
#![tactic(auto, using(bl_syntax::proofs::BeginsWithLemmas::writing))]

ghost use Rattle.std.specs.Prelude.{◌≡◌, ◌++◌, codes, OnOk, OnErr};
ghost use Rattle.bl_syntax.specs.BeginsWith.{BeginsWith};
ghost use Rattle.line_wire.specs.OperationText.{named_text, names_text, tree_text, attribute_text, operation_text};

use crate::hex_text::write_hex_text;
use bl_syntax::decimal::{put_counted, put_text};
use bl_syntax::{Bytes, NoMemory, Text};
use file_world::{MetaReply, NamedNode, OpReply, TreeReply};

// Writes a name in a directory and its node, after a space.
fn write_named(out: &mut Bytes, named: &NamedNode) -> Result<(), NoMemory>
    ensures ok { OnOk result (out.new ≡ out.old ++ named_text named.now) }
    ensures err { OnErr result (BeginsWith out.new out.old) }
{
    put_text(out, " ")?;
    out.extend(named.name.bytes())?;
    put_counted(out, "#", named.node.0)
}

fn write_names(out: &mut Bytes, names: &[NamedNode]) -> Result<(), NoMemory>
    ensures ok { OnOk result (out.new ≡ out.old ++ names_text names.now) }
    ensures err { OnErr result (BeginsWith out.new out.old) }
{
    for named in names {
        write_named(out, named)?;
    }
    Ok(())
}

fn write_list(out: &mut Bytes, names: &[NamedNode]) -> Result<(), NoMemory>
    ensures ok { OnOk result (out.new ≡ out.old ++ (codes "ok list" ++ names_text names.now)) }
    ensures err { OnErr result (BeginsWith out.new out.old) }
{
    put_text(out, "ok list")?;
    write_names(out, names)
}

fn write_tree_reply(out: &mut Bytes, reply: &TreeReply) -> Result<(), NoMemory>
    ensures ok { OnOk result (out.new ≡ out.old ++ tree_text reply.now) }
    ensures err { OnErr result (BeginsWith out.new out.old) }
{
    match reply {
        TreeReply::Done => put_text(out, "ok"),
        TreeReply::Bytes(bytes) => write_hex_text(out, "ok bytes ", bytes.as_slice()),
        TreeReply::Names(names) => write_list(out, names.as_slice()),
        TreeReply::Node(node) => put_counted(out, "ok node #", node.0),
    }
}

fn write_value(out: &mut Bytes, value: &Text) -> Result<(), NoMemory>
    ensures ok { OnOk result (out.new ≡ out.old ++ (codes "ok text \"" ++ (value.now ++ codes "\""))) }
    ensures err { OnErr result (BeginsWith out.new out.old) }
{
    put_text(out, "ok text \"")?;
    out.extend(value.bytes())?;
    put_text(out, "\"")
}

fn write_attribute_reply(out: &mut Bytes, reply: &MetaReply) -> Result<(), NoMemory>
    ensures ok { OnOk result (out.new ≡ out.old ++ attribute_text reply.now) }
    ensures err { OnErr result (BeginsWith out.new out.old) }
{
    match reply {
        MetaReply::Done => put_text(out, "ok"),
        MetaReply::Text(value) => write_value(out, value),
    }
}

/// Writes what an operation returns.
pub fn write_operation(out: &mut Bytes, reply: &OpReply) -> Result<(), NoMemory>
    ensures ok { OnOk result (out.new ≡ out.old ++ operation_text reply.now) }
    ensures err { OnErr result (BeginsWith out.new out.old) }
{
    match reply {
        OpReply::Tree(reply) => write_tree_reply(out, reply),
        OpReply::Meta(reply) => write_attribute_reply(out, reply),
    }
}
