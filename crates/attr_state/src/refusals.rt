//! The first refusal of an operation, and the reply of one that is not refused.

ghost use Rattle.std.specs.Prelude.{◌≡◌, ◌++◌, [], ◌∷◌, ◌&&◌, length, None, is_none, nat_le};
ghost use Rattle.file_world.specs.Limits.{most_attributes};
ghost use Rattle.file_world.specs.Outcome.{first_of};
ghost use Rattle.file_world.specs.Attributes.{mark_at};
ghost use Rattle.file_world.specs.AttributeEffect.{attribute_tests, attributes_of, value_of, meta_refusal, meta_reply};
ghost use Rattle.file_world.specs.declared.refusal.Refusal.TheVariants.{NoNode, NoAttribute, AttrFull};
ghost use Rattle.attr_state.specs.Index.{marks_of, AreOrdered};

use crate::attributes::value_among;
use crate::mark::KeptMarks;
use bl_syntax::Text;
use file_world::{MOST_ATTRIBUTES, MetaOp, MetaReply, Refusal};
use node_rows::names::is_attribute_name;

fn node_refusal(marks: &KeptMarks, number: u64) -> Option<Refusal>
    ensures { result ≡ first_of ((is_none (mark_at (marks_of marks.now.entries) number), NoNode) ∷ []) }
{
    match marks.get(&number) {
        None => Some(Refusal::NoNode),
        Some(_) => None,
    }
}

fn attribute_refusal(marks: &KeptMarks, number: u64, name: &[u8]) -> Option<Refusal>
    ensures { result ≡ first_of (attribute_tests (marks_of marks.now.entries) number name.now) }
{
    if let Some(refusal) = node_refusal(marks, number) {
        return Some(refusal);
    }
    if is_attribute_name(name) {
        None
    } else {
        Some(Refusal::BadAttrName)
    }
}

/// The value of an attribute of the node of that number.
pub fn value_kept(marks: &KeptMarks, number: u64, name: &[u8]) -> Option<Text>
    requires { AreOrdered marks.now.entries }
    ensures { result ≡ value_of (marks_of marks.now.entries) number name.now }
{
    match marks.get(&number) {
        None => None,
        Some(mark) => value_among(mark.attributes.as_slice(), name),
    }
}

fn count(marks: &KeptMarks, number: u64) -> usize
    ensures { result ≡ length (attributes_of (mark_at (marks_of marks.now.entries) number)) }
{
    match marks.get(&number) {
        None => 0,
        Some(mark) => mark.attributes.len(),
    }
}

fn missing_refusal(marks: &KeptMarks, number: u64, name: &[u8]) -> Option<Refusal>
    requires { AreOrdered marks.now.entries }
    ensures { result ≡ first_of (attribute_tests (marks_of marks.now.entries) number name.now
        ++ (is_none (value_of (marks_of marks.now.entries) number name.now), NoAttribute) ∷ []) }
{
    if let Some(refusal) = attribute_refusal(marks, number, name) {
        return Some(refusal);
    }
    match value_kept(marks, number, name) {
        None => Some(Refusal::NoAttribute),
        Some(_) => None,
    }
}

fn full_refusal(marks: &KeptMarks, number: u64, name: &[u8]) -> Option<Refusal>
    requires { AreOrdered marks.now.entries }
    ensures { result ≡ first_of (attribute_tests (marks_of marks.now.entries) number name.now
        ++ (
          is_none (value_of (marks_of marks.now.entries) number name.now)
              && nat_le most_attributes (length (attributes_of (mark_at (marks_of marks.now.entries) number))),
          AttrFull,
        )
        ∷ []) }
{
    if let Some(refusal) = attribute_refusal(marks, number, name) {
        return Some(refusal);
    }
    if value_kept(marks, number, name).is_none() && MOST_ATTRIBUTES <= count(marks, number) {
        Some(Refusal::AttrFull)
    } else {
        None
    }
}

/// The first refusal of an operation; none if nothing refuses it.
pub fn refusal(marks: &KeptMarks, op: &MetaOp) -> Option<Refusal>
    requires { AreOrdered marks.now.entries }
    ensures { result ≡ meta_refusal (marks_of marks.now.entries) op.now }
{
    match op {
        MetaOp::Get(node, name) => missing_refusal(marks, node.0, name.as_slice()),
        MetaOp::Set(node, name, _) => full_refusal(marks, node.0, name.as_slice()),
        MetaOp::Remove(node, name) => missing_refusal(marks, node.0, name.as_slice()),
        MetaOp::Chown(node, _) => node_refusal(marks, node.0),
        MetaOp::Add(_, _, _) => None,
        MetaOp::Drop(_) => None,
        MetaOp::Move(_, _) => None,
    }
}

/// The reply of an operation that is not refused.
pub fn reply(marks: &KeptMarks, op: &MetaOp) -> MetaReply
    requires ordered { AreOrdered marks.now.entries }
    requires free { meta_refusal (marks_of marks.now.entries) op.now ≡ None }
    ensures { result ≡ meta_reply (marks_of marks.now.entries) op.now }
{
    match op {
        MetaOp::Get(node, name) => {
            MetaReply::Text(value_kept(marks, node.0, name.as_slice()).unwrap())
        }
        MetaOp::Set(_, _, _) => MetaReply::Done,
        MetaOp::Remove(_, _) => MetaReply::Done,
        MetaOp::Chown(_, _) => MetaReply::Done,
        MetaOp::Add(_, _, _) => MetaReply::Done,
        MetaOp::Drop(_) => MetaReply::Done,
        MetaOp::Move(_, _) => MetaReply::Done,
    }
}
