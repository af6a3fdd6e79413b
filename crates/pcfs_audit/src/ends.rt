//! Before which event of a history each statement was withdrawn.

ghost use Rattle.std.specs.Prelude.{◌≡◌, ◌+◌, ◌∷◌, ◌++◌, [], false, map, None, IfOk, OnOk};
ghost use Rattle.std.specs.List.{AllByRecursion};
ghost use Rattle.pcfs_audit.specs.Ends.{NeverEnds, base_end, end_of, ended_at, earlier_end, first_end, is_ended, is_past};

use access_history::Base;
use bl_syntax::NoMemory;
use policy_statement::Registered;
use std::alloc::Global;

/// For each statement by its number from 1, the place of the first event before which it was withdrawn, 0 if it was in the
/// base; none if it never is.
pub type Ends = Vec<Option<usize>>;

// The end of a statement of a base.
fn base_end(entry: &Registered) -> Option<usize>
    ensures { result ≡ base_end entry.now }
{
    if entry.is_withdrawn() { Some(0) } else { None }
}

/// The ends of the statements of a base.
pub fn base_ends(alloc: Global, base: &Base) -> Result<Ends, NoMemory>
    ensures { IfOk result (λ ends. ends.items ≡ map base_end base.now.statements) }
{
    let mut ends = Vec::new(alloc);
    let entries = base.statements();
    for entry in entries {
        ends.push(base_end(entry))?;
    }
    Ok(ends)
}

/// Whether one of the statements ends.
pub fn has_ended(ends: &[Option<usize>]) -> bool
    ensures { result ≡ false → AllByRecursion NeverEnds ends.now }
{
    for end in ends {
        if end.is_some() {
            return true;
        }
    }
    false
}

/// Whether what has that end was withdrawn before the event at that place.
pub fn is_past(end: Option<usize>, place: usize) -> bool
    ensures { result ≡ is_past end place }
{
    match end {
        None => false,
        Some(end) => end <= place,
    }
}

// The end of the statement of a number; none too if nothing has that number.
#[tactic(auto, using(crate::proofs::EndsLemmas::end_of_none, crate::proofs::EndsLemmas::end_beyond, crate::proofs::EndsLemmas::end_read))]
fn end_of(ends: &[Option<usize>], number: u32) -> Option<usize>
    ensures { result ≡ end_of ends.now number }
{
    if number == 0 {
        return None;
    }
    if ends.len() < number as usize {
        return None;
    }
    ends[number as usize - 1]
}

/// Whether the statement of a number was withdrawn before the event at that place.
pub fn is_ended(ends: &[Option<usize>], number: u32, place: usize) -> bool
    ensures { result ≡ is_ended ends.now number place }
{
    is_past(end_of(ends, number), place)
}

// The earlier of two ends.
fn earlier_end(one: Option<usize>, other: Option<usize>) -> Option<usize>
    ensures { result ≡ earlier_end one other }
{
    match one {
        None => other,
        Some(end) => match other {
            None => Some(end),
            Some(second) => Some(end.min(second)),
        },
    }
}

/// The first end of the statements of these numbers.
pub fn first_end(ends: &[Option<usize>], numbers: &[u32]) -> Option<usize>
    ensures { result ≡ first_end ends.now numbers.now }
{
    match numbers {
        [] => None,
        [first, others @ ..] => earlier_end(end_of(ends, *first), first_end(ends, others)),
    }
}

/// Adds a statement that was not withdrawn yet.
pub fn add_open_end(ends: &mut Ends) -> Result<(), NoMemory>
    ensures { OnOk result (ends.new.items ≡ ends.old.items ++ None ∷ []) }
{
    ends.push(None)?;
    Ok(())
}

/// Ends the statement of that number before the event at that place, unless it ended before; nothing, if nothing has that
/// number.
pub fn end_statement(ends: &mut Ends, number: u32, place: usize)
    ensures { ends.new.items ≡ ended_at ends.old.items number place }
{
    if number == 0 {
        return;
    }
    end_entry(ends, number as usize - 1, place);
}

// Ends the statement at that index, unless it ended before; nothing, if there is none.
#[tactic(auto, using(crate::proofs::EndsLemmas::ended_entry, crate::proofs::EndsLemmas::ended_kept, crate::proofs::EndsLemmas::ended_beyond))]
fn end_entry(ends: &mut Ends, index: usize, place: usize)
    ensures { ends.new.items ≡ ended_at ends.old.items (index + 1) place }
{
    let within = index < ends.len();
    if within {
        if ends[index].is_none() {
            ends[index] = Some(place);
        }
    }
}
