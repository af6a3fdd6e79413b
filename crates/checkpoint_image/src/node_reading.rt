//! Reading the nodes of an image.

ghost use Rattle.std.specs.Prelude.{◌≡◌, ◌++◌, ◌∷◌, [], IfOk, OnOk};
ghost use Rattle.bl_syntax.specs.Reading.{GivesReading};
ghost use Rattle.bl_syntax.specs.Codec.{GivesReadingOrReports};
ghost use Rattle.node_rows.specs.Rows.{item_row, item_rows, AreOfSameNodes};
ghost use Rattle.checkpoint_image.specs.Chain.{chain_at};
ghost use Rattle.checkpoint_image.specs.NodeReading.{owned_at, kinded_at, node_head_at, attribute_at, name_of, attributes_at, held_at, node_tail_at, node_at, number_of, nodes_at};

use crate::fields::{attribute_name_at, kind_at, node_name_at, number_after};
use bl_syntax::fields::{name_at, text_at, u32_at, u64_at};
use bl_syntax::{Bytes, CodecFault, NoMemory, NodeId, Principal, Sequence, Short};
use file_world::Kind;
use node_rows::{MetaRow, MetaRows, RowAttribute, RowAttributes, TreeRow, TreeRows};
use record_parts::fields::sized_bytes_at;
use std::alloc::Global;

/// An owner, and the number of a directory.
#[tactic(auto, unfolding(crate::specs::NodeReading::owned_at))]
fn owned_at(input: usize, bytes: &[u8]) -> Result<(Principal, u64, &[u8]), CodecFault>
    ensures { GivesReading (λ x. ((x.0, x.1), x.2.now)) result (owned_at input bytes.now) }
{
    match name_at(input, bytes) {
        Err(fault) => Err(fault),
        Ok((owner, rest)) => match u64_at(rest) {
            Err(fault) => Err(fault),
            Ok((directory, rest)) => Ok((owner, directory, rest)),
        },
    }
}

/// A kind, an owner, and the number of a directory.
#[tactic(auto, unfolding(crate::specs::NodeReading::kinded_at))]
fn kinded_at(input: usize, bytes: &[u8]) -> Result<(Kind, Principal, u64, &[u8]), CodecFault>
    ensures { GivesReading (λ x. ((x.0, (x.1, x.2)), x.3.now)) result (kinded_at input bytes.now) }
{
    match kind_at(input, bytes) {
        Err(fault) => Err(fault),
        Ok((kind, rest)) => match owned_at(input, rest) {
            Err(fault) => Err(fault),
            Ok((owner, directory, rest)) => Ok((kind, owner, directory, rest)),
        },
    }
}

/// The number of a node, which passes the previous one, its kind, its owner, and the number of its directory.
#[tactic(auto, unfolding(crate::specs::NodeReading::node_head_at))]
fn node_head_at(
    previous: u64,
    input: usize,
    bytes: &[u8],
) -> Result<(u64, Kind, Principal, u64, &[u8]), CodecFault>
    ensures { GivesReading (λ x. ((x.0, (x.1, (x.2, x.3))), x.4.now)) result (node_head_at previous input bytes.now) }
{
    match number_after(previous, input, bytes) {
        Err(fault) => Err(fault),
        Ok((number, rest)) => match kinded_at(input, rest) {
            Err(fault) => Err(fault),
            Ok((kind, owner, directory, rest)) => Ok((number, kind, owner, directory, rest)),
        },
    }
}

/// An attribute, whose name comes after the previous one.
#[tactic(auto, unfolding(crate::specs::NodeReading::attribute_at))]
fn attribute_at<'a>(
    previous: &[u8],
    input: usize,
    bytes: &'a [u8],
) -> Result<(RowAttribute, &'a [u8]), CodecFault>
    ensures { GivesReading (λ x. (x.0, x.1.now)) result (attribute_at previous.now input bytes.now) }
{
    match attribute_name_at(previous, input, bytes) {
        Err(fault) => Err(fault),
        Ok((name, rest)) => match text_at(input, rest) {
            Err(fault) => Err(fault),
            Ok((value, rest)) => Ok(((name, value), rest)),
        },
    }
}

/// So many attributes, by rising name.
fn many_attributes_at(
    alloc: Global,
    count: u8,
    input: usize,
    bytes: &[u8],
) -> Result<(RowAttributes, &[u8]), CodecFault>
    ensures { GivesReadingOrReports (λ x. (x.0, x.1.now)) result (chain_at (λ previous. attribute_at previous input) name_of count [] bytes.now) }
{
    let mut attributes = Sequence::new(alloc);
    let mut previous: Short<64> = Short::new(b"");
    let mut rest = bytes;
    for _ in 0..count {
        match attribute_at(previous.bytes(), input, rest) {
            Err(fault) => return Err(fault),
            Ok((attribute, behind)) => {
                previous = attribute.0;
                attributes.push(attribute)?;
                rest = behind;
            }
        }
    }
    Ok((attributes, rest))
}

/// The number of attributes, and each.
#[tactic(auto, unfolding(crate::specs::Chain::short_list_at))]
fn attributes_at(
    alloc: Global,
    input: usize,
    bytes: &[u8],
) -> Result<(RowAttributes, &[u8]), CodecFault>
    ensures { GivesReadingOrReports (λ x. (x.0, x.1.now)) result (attributes_at input bytes.now) }
{
    match bytes {
        [] => Err(CodecFault::Short),
        [count, rest @ ..] => many_attributes_at(alloc, *count, input, rest),
    }
}

/// Attributes, and contents.
#[tactic(auto, using(bl_syntax::proofs::ReportsFaultLemmas::hands_on, bl_syntax::proofs::ReportsFaultLemmas::stops), unfolding(crate::specs::NodeReading::held_at))]
fn held_at(
    alloc: Global,
    input: usize,
    bytes: &[u8],
) -> Result<(RowAttributes, Bytes, &[u8]), CodecFault>
    ensures { GivesReadingOrReports (λ x. ((x.0, x.1), x.2.now)) result (held_at input bytes.now) }
{
    match attributes_at(alloc, input, bytes) {
        Err(fault) => Err(fault),
        Ok((attributes, rest)) => match sized_bytes_at(alloc, rest) {
            Err(fault) => Err(fault),
            Ok((contents, rest)) => Ok((attributes, contents, rest)),
        },
    }
}

/// The name of a node, its attributes, and its contents.
#[tactic(auto, using(bl_syntax::proofs::ReportsFaultLemmas::hands_on, bl_syntax::proofs::ReportsFaultLemmas::stops), unfolding(crate::specs::NodeReading::node_tail_at))]
fn node_tail_at(
    alloc: Global,
    input: usize,
    bytes: &[u8],
) -> Result<(Short<64>, RowAttributes, Bytes, &[u8]), CodecFault>
    ensures { GivesReadingOrReports (λ x. ((x.0, (x.1, x.2)), x.3.now)) result (node_tail_at input bytes.now) }
{
    match node_name_at(input, bytes) {
        Err(fault) => Err(fault),
        Ok((name, rest)) => match held_at(alloc, input, rest) {
            Err(fault) => Err(fault),
            Ok((attributes, contents, rest)) => Ok((name, attributes, contents, rest)),
        },
    }
}

/// A node, whose number passes the previous one: its row of the tree, and its row of owners and attributes.
#[tactic(auto, using(bl_syntax::proofs::ReportsFaultLemmas::hands_on, bl_syntax::proofs::ReportsFaultLemmas::stops), unfolding(crate::specs::NodeReading::node_fields_at))]
fn node_at(
    alloc: Global,
    previous: u64,
    input: usize,
    bytes: &[u8],
) -> Result<(TreeRow, MetaRow, &[u8]), CodecFault>
    ensures read { GivesReadingOrReports (λ x. (item_row x.0 x.1, x.2.now)) result (node_at previous input bytes.now) }
    ensures number { IfOk result (λ x. x.0.number ≡ x.1.number) }
    ensures parent { IfOk result (λ x. x.0.parent ≡ x.1.parent) }
{
    match node_head_at(previous, input, bytes) {
        Err(fault) => Err(fault),
        Ok((number, kind, owner, parent, rest)) => match node_tail_at(alloc, input, rest) {
            Err(fault) => Err(fault),
            Ok((name, attributes, contents, rest)) => {
                let number = NodeId(number);
                let tree = TreeRow {
                    number,
                    kind,
                    parent,
                    name,
                    contents,
                };
                let meta = MetaRow {
                    number,
                    owner,
                    parent,
                    attributes,
                };
                Ok((tree, meta, rest))
            }
        },
    }
}

// Adds the two rows of a node.
fn add_rows(
    trees: &mut TreeRows,
    metas: &mut MetaRows,
    tree: TreeRow,
    meta: MetaRow,
) -> Result<(), NoMemory>
    ensures tree { OnOk result (trees.new ≡ trees.old ++ tree ∷ []) }
    ensures meta { OnOk result (metas.new ≡ metas.old ++ meta ∷ []) }
{
    trees.push(tree)?;
    metas.push(meta)
}

/// So many nodes, by rising number.
fn many_nodes_at(
    alloc: Global,
    count: u32,
    input: usize,
    bytes: &[u8],
) -> Result<(TreeRows, MetaRows, &[u8]), CodecFault>
    ensures read { GivesReadingOrReports (λ x. (item_rows x.0 x.1, x.2.now)) result
        (chain_at (λ previous. node_at previous input) number_of count 0 bytes.now) }
    ensures same { IfOk result (λ x. AreOfSameNodes x.0 x.1) }
{
    let mut trees = Sequence::new(alloc);
    let mut metas = Sequence::new(alloc);
    let mut previous = 0;
    let mut rest = bytes;
    for _ in 0..count {
        match node_at(alloc, previous, input, rest) {
            Err(fault) => return Err(fault),
            Ok((tree, meta, behind)) => {
                previous = tree.number.0;
                add_rows(&mut trees, &mut metas, tree, meta)?;
                rest = behind;
            }
        }
    }
    Ok((trees, metas, rest))
}

/// The number of nodes, and each.
#[tactic(auto, using(bl_syntax::proofs::ReportsFaultLemmas::stops), unfolding(crate::specs::Chain::long_list_at))]
pub(crate) fn nodes_at(
    alloc: Global,
    input: usize,
    bytes: &[u8],
) -> Result<(TreeRows, MetaRows, &[u8]), CodecFault>
    ensures read { GivesReadingOrReports (λ x. (item_rows x.0 x.1, x.2.now)) result (nodes_at input bytes.now) }
    ensures same { IfOk result (λ x. AreOfSameNodes x.0 x.1) }
{
    match u32_at(bytes) {
        Err(fault) => Err(fault),
        Ok((count, rest)) => many_nodes_at(alloc, count, input, rest),
    }
}
