//! Writing the image of a state.

ghost use Rattle.std.specs.Prelude.{◌≡◌, ◌++◌, IfOk, OnErr, OnOk};
ghost use Rattle.bl_syntax.specs.BeginsWith.{BeginsWith};
ghost use Rattle.std.specs.List.{AllByRecursion};
ghost use Rattle.access_history.specs.History.{state_of};
ghost use Rattle.checkpoint_image.specs.ImageSpelling.{fields_spelling, IsSpellableEntry, IsSpellableIssue, AreSpelledIn, HasFittingSignature, HasFewCited};
ghost use Rattle.checkpoint_image.specs.WithdrawnNumbers.{AreStanding};
ghost use Rattle.checkpoint.specs.Reading.{IsImageOf};
ghost use Rattle.checkpoint.specs.Writing.{FitsImage, IsWrittenImageOf, state_with, front_spelling};

use access_history::{Base, History, IssueRecord};
use bl_syntax::{Bytes, NoMemory, Sequence};
use checkpoint_image::{
    write_head, write_issues, write_nodes, write_statements, write_version, write_withdrawn_numbers,
};
use node_rows::{MetaRow, TreeRow};
use policy_statement::Registered;
use std::alloc::Global;
use world_state::World;

/// About how many bytes a node takes in an image beside its attributes and contents.
const NODE_BYTES: usize = 120;

/// About how many bytes an attribute takes there.
const ATTRIBUTE_BYTES: usize = 64;

// About how many bytes these nodes take in an image.
fn room_for(tree: &[TreeRow], meta: &[MetaRow]) -> usize {
    let mut room = 0usize;
    for row in tree {
        room = room
            .saturating_add(NODE_BYTES)
            .saturating_add(row.contents.len());
    }
    for row in meta {
        room = room.saturating_add(row.attributes.len().saturating_mul(ATTRIBUTE_BYTES));
    }
    room
}

// The same bytes, with room for so many more, so that many do not grow step by step.
fn with_room(bytes: Bytes, room: usize) -> Result<Bytes, NoMemory>
    ensures { IfOk result (λ same. same ≡ bytes) }
{
    let mut bytes = bytes.into_vec();
    bytes.reserve(room)?;
    Ok(Sequence::from_vec(bytes))
}

// What stands before the nodes in an image.
fn begun(
    alloc: Global,
    statements: &[Registered],
    issues: &[IssueRecord],
    moment: i64,
    count: u64,
    next: u64,
) -> Result<Bytes, NoMemory>
    requires statements { AreSpelledIn HasFittingSignature statements.now }
    requires issues { AreSpelledIn HasFewCited issues.now }
    ensures written { IfOk result (λ image. image ≡ front_spelling statements.now issues.now moment count next) }
    ensures statements { IfOk result (λ image. AllByRecursion IsSpellableEntry statements.now) }
    ensures issues { IfOk result (λ image. AllByRecursion IsSpellableIssue issues.now) }
{
    let mut image = Sequence::new(alloc);
    write_version(&mut image)?;
    write_head(moment, count, next, &mut image)?;
    write_statements(statements, &mut image)?;
    write_issues(issues, &mut image)?;
    Ok(image)
}

// The image of a state of these parts.
fn image_of(
    alloc: Global,
    world: &World,
    statements: &[Registered],
    issues: &[IssueRecord],
    moment: i64,
    count: u64,
) -> Result<Bytes, NoMemory>
    requires { FitsImage (state_with world.now.world statements.now issues.now moment count) }
    ensures { IfOk result (IsWrittenImageOf (state_with world.now.world statements.now issues.now moment count)) }
{
    let next = world.tree().next_number();
    let image = begun(alloc, statements, issues, moment, count, next)?;
    let (tree, meta) = world.to_rows(alloc)?;
    let room = room_for(tree.as_slice(), meta.as_slice());
    let mut image = with_room(image, room)?;
    write_nodes(tree.as_slice(), meta.as_slice(), &mut image)?;
    write_withdrawn_numbers(statements, &mut image)?;
    Ok(image)
}

/// Adds the image of version 1 of a state, or nothing. None of its statements was withdrawn.
pub fn write_old_image(alloc: Global, base: &Base, out: &mut Bytes) -> Result<(), NoMemory>
    requires fits { FitsImage base.now }
    requires standing { AreStanding base.now.statements }
    ensures ok { OnOk result (out.new ≡ out.old ++ fields_spelling base.now) }
    ensures image { OnOk result (IsImageOf base.now (fields_spelling base.now)) }
    ensures err { OnErr result (out.new ≡ out.old) }
{
    let len = out.len();
    let added = add_old_image(alloc, base, out);
    if added.is_err() {
        out.truncate(len);
    }
    added
}

// Adds the fields of a state, or a front of them.
#[tactic(auto, using(bl_syntax::proofs::BeginsWithLemmas::writing))]
fn add_old_image(alloc: Global, base: &Base, out: &mut Bytes) -> Result<(), NoMemory>
    requires fits { FitsImage base.now }
    requires standing { AreStanding base.now.statements }
    ensures ok { OnOk result (out.new ≡ out.old ++ fields_spelling base.now) }
    ensures image { OnOk result (IsImageOf base.now (fields_spelling base.now)) }
    ensures err { OnErr result (BeginsWith out.new out.old) }
{
    let world = base.world();
    let next = world.tree().next_number();
    write_head(base.moment(), base.count(), next, out)?;
    write_statements(base.statements(), out)?;
    write_issues(base.issues(), out)?;
    let (tree, meta) = world.to_rows(alloc)?;
    write_nodes(tree.as_slice(), meta.as_slice(), out)?;
    Ok(())
}

/// The image of a state. Beside its bytes, memory is taken for one copy of the nodes.
pub fn image_bytes(alloc: Global, base: &Base) -> Result<Bytes, NoMemory>
    requires { FitsImage base.now }
    ensures { IfOk result (IsWrittenImageOf base.now) }
{
    image_of(
        alloc,
        base.world(),
        base.statements(),
        base.issues(),
        base.moment(),
        base.count(),
    )
}

/// The image of the state to which a history leads, with which the next area may begin. The state itself is not copied.
pub fn state_image(alloc: Global, history: &History) -> Result<Bytes, NoMemory>
    requires { FitsImage (state_of history.now) }
    ensures { IfOk result (IsWrittenImageOf (state_of history.now)) }
{
    image_of(
        alloc,
        history.world(),
        history.statements(),
        history.issues(),
        history.moment(),
        history.count(),
    )
}
