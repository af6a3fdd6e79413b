//! The words of an operation.
#![tactic(auto, using(bl_syntax::proofs::BeginsWithLemmas::writing))]

ghost use Rattle.std.specs.Prelude.{◌≡◌, ◌++◌, [], OnOk, OnErr};
ghost use Rattle.bl_syntax.specs.BeginsWith.{BeginsWith};
ghost use Rattle.line_writing.specs.LineTexts.{named_text, value_text, operation_text};

use crate::words::{put_hex, put_name, put_principal};
use bl_syntax::decimal::{put_counted, put_text};
use bl_syntax::{Bytes, NoMemory, NodeId, Text};
use file_world::Op;
use std::alloc::Global;

// Writes the name of an operation, a node, and a name.
fn put_named(out: &mut Bytes, words: &str, node: NodeId, name: &Bytes) -> Result<(), NoMemory>
    ensures ok { OnOk result (out.new ≡ out.old ++ named_text words.now node name.now []) }
    ensures err { OnErr result (BeginsWith out.new out.old) }
{
    put_counted(out, words, node.0)?;
    put_name(out, " ", name.as_slice())
}

fn put_value(out: &mut Bytes, value: &Text) -> Result<(), NoMemory>
    ensures ok { OnOk result (out.new ≡ out.old ++ value_text value.now []) }
    ensures err { OnErr result (BeginsWith out.new out.old) }
{
    put_name(out, " \"", value.bytes())?;
    put_text(out, "\"")
}

/// Writes the name and the words of an operation.
pub fn put_operation(alloc: Global, out: &mut Bytes, op: &Op) -> Result<(), NoMemory>
    ensures ok { OnOk result (out.new ≡ out.old ++ operation_text op.now []) }
    ensures err { OnErr result (BeginsWith out.new out.old) }
{
    match op {
        Op::Read(node, offset, len) => {
            put_counted(out, "read #", node.0)?;
            put_counted(out, " ", *offset)?;
            put_counted(out, " ", *len)
        }
        Op::Write(node, offset, bytes) => {
            put_counted(out, "write #", node.0)?;
            put_counted(out, " ", *offset)?;
            put_hex(alloc, out, " ", bytes.as_slice())
        }
        Op::Truncate(node, len) => {
            put_counted(out, "truncate #", node.0)?;
            put_counted(out, " ", *len)
        }
        Op::List(node) => put_counted(out, "list #", node.0),
        Op::Lookup(node, name) => put_named(out, "lookup #", *node, name),
        Op::Create(node, name) => put_named(out, "create #", *node, name),
        Op::Mkdir(node, name) => put_named(out, "mkdir #", *node, name),
        Op::Unlink(node, name) => put_named(out, "unlink #", *node, name),
        Op::Rename(node, name, target, new_name) => {
            put_named(out, "rename #", *node, name)?;
            put_named(out, " #", *target, new_name)
        }
        Op::Getattr(node, name) => put_named(out, "getattr #", *node, name),
        Op::Setattr(node, name, value) => {
            put_named(out, "setattr #", *node, name)?;
            put_value(out, value)
        }
        Op::Delattr(node, name) => put_named(out, "delattr #", *node, name),
        Op::Chown(node, who) => {
            put_counted(out, "chown #", node.0)?;
            put_principal(out, " ", who)
        }
    }
}
