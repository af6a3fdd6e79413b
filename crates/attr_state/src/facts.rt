//! What policy can speak of, looked up at the node that it names.

ghost use Rattle.std.specs.Prelude.{◌≡◌, ◌↔◌, Contains, IsTrue, IfSome, option_map};
ghost use Rattle.bl_syntax.specs.declared.terms.StatePred.TheVariants.{Owner, HasXattr, InDir};
ghost use Rattle.file_world.specs.Facts.{facts_of_marks};
ghost use Rattle.attr_state.specs.Index.{shown, marks_in, mark_named, AreSorted, IsMarkIndex};

use crate::attributes::value_among;
use crate::current::current_mark;
use crate::mark::{KeptMark, KeptMarks};
use crate::ready::MetaReady;
use bl_syntax::{NodeId, Term};
use file_world::ROOT_NUMBER;

fn named_mark<'a>(
    marks: &'a KeptMarks,
    ready: &Option<MetaReady>,
    node: &Term,
) -> Option<&'a KeptMark>
    requires { IsMarkIndex marks.now.entries ready.now }
    ensures shown { option_map (λ mark. shown mark.now) result
        ≡ mark_named (marks_in ready.now marks.now.entries) node.now }
    ensures sorted { IfSome result (λ mark. AreSorted mark.now.attributes.items) }
{
    match node {
        Term::File(node) => current_mark(marks, ready, node.0),
        _ => None,
    }
}

/// Whether the principal owns the node.
pub fn is_owner(marks: &KeptMarks, ready: &Option<MetaReady>, node: &Term, owner: &Term) -> bool
    requires { IsMarkIndex marks.now.entries ready.now }
    ensures { IsTrue result
        ↔ Contains (facts_of_marks (marks_in ready.now marks.now.entries)) (Owner node.now owner.now) }
{
    match named_mark(marks, ready, node) {
        None => false,
        Some(mark) => owner.is_same(&Term::Prin(mark.owner)),
    }
}

/// Whether the attribute of that name has the value.
pub fn has_value(
    marks: &KeptMarks,
    ready: &Option<MetaReady>,
    node: &Term,
    name: &Term,
    value: &Term,
) -> bool
    requires { IsMarkIndex marks.now.entries ready.now }
    ensures { IsTrue result
        ↔ Contains (facts_of_marks (marks_in ready.now marks.now.entries)) (HasXattr node.now name.now value.now) }
{
    match (named_mark(marks, ready, node), name) {
        (Some(mark), Term::Text(name)) => {
            match value_among(mark.attributes.as_slice(), name.bytes()) {
                None => false,
                Some(known) => value.is_same(&Term::Text(known)),
            }
        }
        _ => false,
    }
}

/// Whether the directory holds the node. None holds the root.
pub fn is_in(marks: &KeptMarks, ready: &Option<MetaReady>, node: &Term, directory: &Term) -> bool
    requires { IsMarkIndex marks.now.entries ready.now }
    ensures { IsTrue result
        ↔ Contains (facts_of_marks (marks_in ready.now marks.now.entries)) (InDir node.now directory.now) }
{
    match named_mark(marks, ready, node) {
        None => false,
        Some(mark) => {
            !node.is_same(&Term::File(NodeId(ROOT_NUMBER)))
                && directory.is_same(&Term::File(NodeId(mark.parent)))
        }
    }
}
