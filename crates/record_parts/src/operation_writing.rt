//! Writing operations.

ghost use Rattle.std.specs.Prelude.{◌≡◌, ◌∷◌, ◌++◌, OnOk, OnErr, IsTrue};
ghost use Rattle.bl_syntax.specs.BeginsWith.{BeginsWith};
ghost use Rattle.bl_syntax.specs.Names.{is_principal_name, is_text};
ghost use Rattle.bl_syntax.specs.Spelling.{with_length};
ghost use Rattle.record_parts.specs.Fields.{number_spelling, IsSpellableNumber, node_spelling, IsSpellableNode, FitsOneByte, sized_bytes_spelling, FitsFourBytes};
ghost use Rattle.record_parts.specs.OperationSpelling.{operation_spelling, IsSpellableOperation, HasFittingWords};

use crate::fields::{put_free_name, put_node, put_number, put_sized_bytes};
use bl_syntax::{Bytes, NoMemory, NodeId, Principal, Text, write_name, write_text};
use file_world::Op;

/// Adds the bytes of an operation. Its names have at most 255 bytes, and what it writes fewer than 2^32.
pub fn write_operation(op: &Op, out: &mut Bytes) -> Result<(), NoMemory>
    requires { HasFittingWords op.now }
    ensures ok { OnOk result (out.new ≡ out.old ++ operation_spelling op.now) }
    ensures spelled { OnOk result (IsSpellableOperation op.now) }
    ensures err { OnErr result (out.new ≡ out.old) }
{
    let len = out.len();
    let added = add_operation(op, out);
    if added.is_err() {
        out.truncate(len);
    }
    added
}

/// Adds the bytes of an operation, or a front of them.
#[tactic(auto, using(bl_syntax::proofs::BeginsWithLemmas::writing), unfolding(crate::specs::OperationSpelling::operation_spelling))]
fn add_operation(op: &Op, out: &mut Bytes) -> Result<(), NoMemory>
    requires { HasFittingWords op.now }
    ensures ok { OnOk result (out.new ≡ out.old ++ operation_spelling op.now) }
    ensures spelled { OnOk result (IsSpellableOperation op.now) }
    ensures err { OnErr result (BeginsWith out.new out.old) }
{
    match op {
        Op::Read(file, offset, len) => add_read(*file, *offset, *len, out),
        Op::Write(file, offset, piece) => add_write(*file, *offset, piece, out),
        Op::Truncate(file, len) => add_truncate(*file, *len, out),
        Op::List(directory) => put_node(4, *directory, out),
        Op::Lookup(directory, name) => add_named_node(5, *directory, name, out),
        Op::Create(directory, name) => add_named_node(6, *directory, name, out),
        Op::Mkdir(directory, name) => add_named_node(7, *directory, name, out),
        Op::Unlink(directory, name) => add_named_node(8, *directory, name, out),
        Op::Rename(directory, name, target, renamed) => {
            add_rename(*directory, name, *target, renamed, out)
        }
        Op::Getattr(node, name) => add_named_node(10, *node, name, out),
        Op::Setattr(node, name, value) => add_setattr(*node, name, value, out),
        Op::Delattr(node, name) => add_named_node(12, *node, name, out),
        Op::Chown(node, owner) => add_chown(*node, owner, out),
    }
}

/// Adds the bytes of a reading, or a front of them.
#[tactic(auto, using(bl_syntax::proofs::BeginsWithLemmas::writing))]
fn add_read(file: NodeId, offset: u64, len: u64, out: &mut Bytes) -> Result<(), NoMemory>
    ensures ok { OnOk result (out.new ≡ out.old ++ 1 ∷ (node_spelling file ++ (number_spelling offset ++ number_spelling len))) }
    ensures spelled { OnOk result (IsSpellableNode file × (IsSpellableNumber offset × IsSpellableNumber len)) }
    ensures err { OnErr result (BeginsWith out.new out.old) }
{
    put_node(1, file, out)?;
    put_number(offset, out)?;
    put_number(len, out)
}

/// Adds the bytes of a writing, or a front of them.
#[tactic(auto, using(bl_syntax::proofs::BeginsWithLemmas::writing))]
fn add_write(file: NodeId, offset: u64, piece: &Bytes, out: &mut Bytes) -> Result<(), NoMemory>
    requires { FitsFourBytes piece.now }
    ensures ok { OnOk result (out.new ≡ out.old ++ 2 ∷ (node_spelling file ++ (number_spelling offset ++ sized_bytes_spelling piece.now))) }
    ensures spelled { OnOk result (IsSpellableNode file × IsSpellableNumber offset) }
    ensures err { OnErr result (BeginsWith out.new out.old) }
{
    put_node(2, file, out)?;
    put_number(offset, out)?;
    put_sized_bytes(piece.as_slice(), out)
}

/// Adds the bytes of a truncation, or a front of them.
#[tactic(auto, using(bl_syntax::proofs::BeginsWithLemmas::writing))]
fn add_truncate(file: NodeId, len: u64, out: &mut Bytes) -> Result<(), NoMemory>
    ensures ok { OnOk result (out.new ≡ out.old ++ 3 ∷ (node_spelling file ++ number_spelling len)) }
    ensures spelled { OnOk result (IsSpellableNode file × IsSpellableNumber len) }
    ensures err { OnErr result (BeginsWith out.new out.old) }
{
    put_node(3, file, out)?;
    put_number(len, out)
}

/// Adds the bytes of a renaming, or a front of them.
#[tactic(auto, using(bl_syntax::proofs::BeginsWithLemmas::writing))]
fn add_rename(
    directory: NodeId,
    name: &Bytes,
    target: NodeId,
    renamed: &Bytes,
    out: &mut Bytes,
) -> Result<(), NoMemory>
    requires name { FitsOneByte name.now }
    requires renamed { FitsOneByte renamed.now }
    ensures ok { OnOk result (out.new ≡ out.old ++ 9
        ∷ (node_spelling directory
        ++ (with_length name.now ++ (node_spelling target ++ with_length renamed.now)))) }
    ensures spelled { OnOk result (IsSpellableNode directory × IsSpellableNode target) }
    ensures err { OnErr result (BeginsWith out.new out.old) }
{
    add_named_node(9, directory, name, out)?;
    put_number(target.0, out)?;
    put_free_name(renamed.as_slice(), out)
}

/// Adds the bytes of a change of an attribute, or a front of them.
#[tactic(auto, using(bl_syntax::proofs::BeginsWithLemmas::writing))]
fn add_setattr(node: NodeId, name: &Bytes, value: &Text, out: &mut Bytes) -> Result<(), NoMemory>
    requires { FitsOneByte name.now }
    ensures ok { OnOk result (out.new ≡ out.old ++ 11 ∷ (node_spelling node ++ (with_length name.now ++ with_length value.now))) }
    ensures spelled { OnOk result (IsSpellableNode node × IsTrue (is_text value.now)) }
    ensures err { OnErr result (BeginsWith out.new out.old) }
{
    add_named_node(11, node, name, out)?;
    write_text(value, out)
}

/// Adds the bytes of a change of an owner, or a front of them.
#[tactic(auto, using(bl_syntax::proofs::BeginsWithLemmas::writing))]
fn add_chown(node: NodeId, owner: &Principal, out: &mut Bytes) -> Result<(), NoMemory>
    ensures ok { OnOk result (out.new ≡ out.old ++ 13 ∷ (node_spelling node ++ with_length owner.now)) }
    ensures spelled { OnOk result (IsSpellableNode node × IsTrue (is_principal_name owner.now)) }
    ensures err { OnErr result (BeginsWith out.new out.old) }
{
    put_node(13, node, out)?;
    write_name(owner, out)
}

/// Adds a byte, the number of a node and a name, or a front of them.
#[tactic(auto, using(bl_syntax::proofs::BeginsWithLemmas::writing))]
fn add_named_node(code: u8, node: NodeId, name: &Bytes, out: &mut Bytes) -> Result<(), NoMemory>
    requires { FitsOneByte name.now }
    ensures ok { OnOk result (out.new ≡ out.old ++ code ∷ (node_spelling node ++ with_length name.now)) }
    ensures spelled { IsSpellableNode node }
    ensures err { OnErr result (BeginsWith out.new out.old) }
{
    put_node(code, node, out)?;
    put_free_name(name.as_slice(), out)
}
