//! Writing the nodes of an image.

ghost use Rattle.std.specs.Prelude.{◌≡◌, ◌≤◌, ◌<◌, ◌++◌, OnOk, OnErr, length};
ghost use Rattle.std.specs.List.{AllByRecursion, flat_map};
ghost use Rattle.bl_syntax.specs.BeginsWith.{BeginsWith};
ghost use Rattle.procap.specs.GrantSpelling.{list_spelling};
ghost use Rattle.record_parts.specs.Fields.{FitsOneByte};
ghost use Rattle.node_rows.specs.Rows.{item_row, item_rows, AreOfSameNodes};
ghost use Rattle.checkpoint_image.specs.NodeSpelling.{attribute_spelling, node_head_spelling, node_tail_spelling, node_spelling, HasFittingParts};

use crate::fields::kind_code;
use bl_syntax::{Bytes, NoMemory, write_name, write_text};
use node_rows::{MetaRow, RowAttribute, TreeRow};
use record_parts::fields::{put_free_name, put_number, put_sized_bytes};

/// Adds the number of a node, its kind, its owner, and the number of its directory, or a front of them.
#[tactic(auto, using(bl_syntax::proofs::BeginsWithLemmas::writing), unfolding(crate::specs::NodeSpelling::node_head_spelling))]
fn add_head(tree: &TreeRow, meta: &MetaRow, out: &mut Bytes) -> Result<(), NoMemory>
    ensures ok { OnOk result (out.new ≡ out.old ++ node_head_spelling (item_row tree.now meta.now)) }
    ensures err { OnErr result (BeginsWith out.new out.old) }
{
    put_number(tree.number.0, out)?;
    out.push(kind_code(tree.kind))?;
    write_name(&meta.owner, out)?;
    put_number(tree.parent, out)
}

/// Adds an attribute, or a front of it.
#[tactic(auto, using(bl_syntax::proofs::BeginsWithLemmas::writing))]
fn add_attribute(attribute: &RowAttribute, out: &mut Bytes) -> Result<(), NoMemory>
    requires { FitsOneByte attribute.now.0 }
    ensures ok { OnOk result (out.new ≡ out.old ++ attribute_spelling attribute.now) }
    ensures err { OnErr result (BeginsWith out.new out.old) }
{
    put_free_name(attribute.0.bytes(), out)?;
    write_text(&attribute.1, out)
}

/// Adds each attribute, or a front of them.
#[tactic(auto, using(bl_syntax::proofs::BeginsWithLemmas::writing))]
fn add_each_attribute(attributes: &[RowAttribute], out: &mut Bytes) -> Result<(), NoMemory>
    requires { AllByRecursion (λ attribute. FitsOneByte attribute.0) attributes.now }
    ensures ok { OnOk result (out.new ≡ out.old ++ flat_map attribute_spelling attributes.now) }
    ensures err { OnErr result (BeginsWith out.new out.old) }
{
    match attributes {
        [] => Ok(()),
        [first, others @ ..] => {
            add_attribute(first, out)?;
            add_each_attribute(others, out)
        }
    }
}

/// Adds the number of attributes, and each, or a front of them.
#[tactic(auto, using(bl_syntax::proofs::BeginsWithLemmas::writing))]
fn add_attributes(attributes: &[RowAttribute], out: &mut Bytes) -> Result<(), NoMemory>
    requires few { length attributes.now ≤ 255 }
    requires names { AllByRecursion (λ attribute. FitsOneByte attribute.0) attributes.now }
    ensures ok { OnOk result (out.new ≡ out.old ++ list_spelling attribute_spelling attributes.now) }
    ensures err { OnErr result (BeginsWith out.new out.old) }
{
    out.push(attributes.len() as u8)?;
    add_each_attribute(attributes, out)
}

/// Adds the name of a node, its attributes, and its contents, or a front of them.
#[tactic(auto, using(bl_syntax::proofs::BeginsWithLemmas::writing), unfolding(crate::specs::NodeSpelling::node_tail_spelling))]
fn add_tail(tree: &TreeRow, meta: &MetaRow, out: &mut Bytes) -> Result<(), NoMemory>
    requires { HasFittingParts (item_row tree.now meta.now).1 }
    ensures ok { OnOk result (out.new ≡ out.old ++ node_tail_spelling (item_row tree.now meta.now).1) }
    ensures err { OnErr result (BeginsWith out.new out.old) }
{
    put_free_name(tree.name.bytes(), out)?;
    add_attributes(meta.attributes.as_slice(), out)?;
    put_sized_bytes(tree.contents.as_slice(), out)
}

/// Adds a node, or a front of it.
#[tactic(auto, using(bl_syntax::proofs::BeginsWithLemmas::writing))]
fn add_node(tree: &TreeRow, meta: &MetaRow, out: &mut Bytes) -> Result<(), NoMemory>
    requires { HasFittingParts (item_row tree.now meta.now).1 }
    ensures ok { OnOk result (out.new ≡ out.old ++ node_spelling (item_row tree.now meta.now)) }
    ensures err { OnErr result (BeginsWith out.new out.old) }
{
    add_head(tree, meta, out)?;
    add_tail(tree, meta, out)
}

/// Adds each node, or a front of them. The rows are of the same nodes.
#[tactic(auto, using(bl_syntax::proofs::BeginsWithLemmas::writing))]
pub(crate) fn add_each_node(
    trees: &[TreeRow],
    metas: &[MetaRow],
    out: &mut Bytes,
) -> Result<(), NoMemory>
    requires same { AreOfSameNodes trees.now metas.now }
    requires fit { AllByRecursion (λ row. HasFittingParts row.1) (item_rows trees.now metas.now) }
    ensures ok { OnOk result (out.new ≡ out.old ++ flat_map node_spelling (item_rows trees.now metas.now)) }
    ensures err { OnErr result (BeginsWith out.new out.old) }
{
    for place in 0..trees.len() {
        let tree = &trees[place];
        let meta = &metas[place];
        add_node(tree, meta, out)?;
    }
    Ok(())
}
