//! Whether an area goes on from the one before.

ghost use Rattle.std.specs.Prelude.{◌≡◌, ◌↔◌, IfOk, IsTrue};
ghost use Rattle.access_history.specs.History.{state_of};
ghost use Rattle.checkpoint.specs.Writing.{IsWrittenImageOf};
ghost use Rattle.pcfs_history.specs.Chain.{IsSeam};

use access_history::History;
use bl_syntax::{Bytes, NoMemory};
use checkpoint::laws::{lawful_states_fit, states_are_read};
use checkpoint::{image_bytes, state_image};
use std::alloc::Global;

/// How an area stands to the one before it.
#[derive(Clone, Copy, Debug, PartialEq, Eq)]
pub enum Seam {
    /// It begins with the state at the end of the one before.
    GoesOn,
    /// It begins after a later event: events between them are missing.
    Gap,
    /// It begins after an earlier event.
    Overlap,
    /// It begins after the same event, with another state.
    Differs,
}

/// More issues than an image has.
const MOST_ISSUES: usize = 4_294_967_296;

// The image of the state at the end of a history.
fn end_image(alloc: Global, history: &History) -> Result<Bytes, NoMemory>
    ensures { IfOk result (IsWrittenImageOf (state_of history.now)) }
{
    history.lemma_is_lawful();
    lawful_states_fit();
    if MOST_ISSUES <= history.issues().len() {
        return Err(NoMemory);
    }
    state_image(alloc, history)
}

// The image of the state at the begin of a history.
fn begin_image(alloc: Global, history: &History) -> Result<Bytes, NoMemory>
    ensures { IfOk result (IsWrittenImageOf history.now.base) }
{
    history.lemma_is_lawful();
    lawful_states_fit();
    let base = history.base();
    if MOST_ISSUES <= base.issues().len() {
        return Err(NoMemory);
    }
    image_bytes(alloc, base)
}

// Whether the second history begins with the state at the end of the first.
fn does_go_on(alloc: Global, before: &History, next: &History) -> Result<bool, NoMemory>
    ensures { IfOk result (λ same. IsTrue same ↔ (state_of before.now ≡ next.now.base)) }
{
    let end = end_image(alloc, before)?;
    let begin = begin_image(alloc, next)?;
    states_are_read();
    Ok(end.as_slice() == begin.as_slice())
}

/// How the area that holds the second history stands to that of the first.
pub fn seam_between(alloc: Global, before: &History, next: &History) -> Result<Seam, NoMemory>
    ensures { IfOk result (IsSeam (state_of before.now) next.now.base) }
{
    let end = before.count();
    let begin = next.base().count();
    if end < begin {
        return Ok(Seam::Gap);
    }
    if begin < end {
        return Ok(Seam::Overlap);
    }
    if does_go_on(alloc, before, next)? {
        Ok(Seam::GoesOn)
    } else {
        Ok(Seam::Differs)
    }
}
