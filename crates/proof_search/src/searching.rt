//! The search for a proof that is confirmed.

ghost use Rattle.std.specs.Prelude.{IfOk, IfSome};
ghost use Rattle.proof_search.specs.Answers.{IsAnswer};
ghost use Rattle.proof_search.specs.Proved.{IsProved};

use crate::answers::{Answer, Cause, Proved};
use crate::asked::{Asked, Moments};
use crate::confirming::confirm;
use crate::encoding::Encoder;
use crate::spelling::proof_of;
use bl_syntax::{Bytes, NoMemory, Numbers, Terms};
use proof_draft::Asked as Wanted;
use proof_verifier::Cite;
use search_core::{End, Found, Machine};
use std::alloc::Global;

/// So many proofs that are refused are passed over.
const MOST_REFUSED: usize = 64;

/// So many times a proof with fewer conditions is sought.
const MOST_TIMES: usize = 64;

/// The steps of such a search.
const STEPS_FOR_FEWER: u64 = 4000;

/// The nesting of uses of statements that is tried.
const DEEPEST: usize = 100;

/// The nesting that is tried where statements may be missing.
const DEEPEST_MISSING: usize = 16;

/// What the search is asked for, if so many statements may be missing.
pub fn wanted(asked: &Asked, budget: usize) -> Wanted {
    let (timed, at, until) = match asked.moments {
        Moments::Some => (false, 0, 0),
        Moments::Each(from, to) => (true, from, to),
    };
    Wanted {
        timed,
        at,
        until,
        leaves: asked.leaves,
        budget,
        deepest: if budget == 0 {
            DEEPEST
        } else {
            DEEPEST_MISSING
        },
    }
}

/// A search among these statements, and its constants by their numbers.
pub fn machine_for(
    alloc: Global,
    statements: &[Cite],
    asked: &Asked,
    budget: usize,
) -> Result<(Machine, Terms, Vec<Bytes>), NoMemory> {
    let mut encoder = Encoder::new(alloc);
    let goal = encoder.goal(&asked.goal)?;
    encoder.statements(statements)?;
    encoder.facts(asked.facts.as_slice())?;
    let (policy, constants, names) = encoder.into_parts();
    Ok((
        Machine::new(alloc, policy, goal, wanted(asked, budget)),
        constants,
        names,
    ))
}

/// Why a search that ended so found nothing.
pub fn cause_of(end: End) -> Cause {
    match end {
        End::Exhausted => Cause::Exhausted,
        End::TooDeep => Cause::TooDeep,
        End::NoSteps => Cause::NoSteps,
        End::Found => Cause::Refused,
    }
}

/// The numbers of the statements that a proof cites.
pub fn numbers_of(alloc: Global, statements: &[Cite], found: &Found) -> Result<Numbers, NoMemory> {
    let mut numbers = Numbers::new(alloc);
    for index in &found.cited {
        if let Some(cite) = statements.get(*index) {
            numbers.push(cite.number)?;
        }
    }
    Ok(numbers)
}

// The proof that a search found, if it is confirmed.
fn confirmed(
    alloc: Global,
    statements: &[Cite],
    asked: &Asked,
    machine: &Machine,
    constants: &Terms,
) -> Result<Option<Proved>, NoMemory>
    ensures { IfOk result (λ found. IfSome found (IsProved statements.now asked.now)) }
{
    let found = match machine.found()? {
        Some(found) => found,
        None => return Ok(None),
    };
    let numbers = numbers_of(alloc, statements, &found)?;
    match proof_of(alloc, &found.pieces, constants.as_slice())? {
        Some(proof) => confirm(alloc, statements, asked, numbers, proof),
        None => Ok(None),
    }
}

// A proof with fewer conditions than this one, if there is one.
fn fewer(
    alloc: Global,
    statements: &[Cite],
    asked: &Asked,
    machine: &mut Machine,
    constants: &Terms,
    conditions: usize,
) -> Result<Option<Proved>, NoMemory>
    ensures { IfOk result (λ found. IfSome found (IsProved statements.now asked.now)) }
{
    for between_constants in [true, false] {
        match machine.search_fewer(conditions, between_constants, STEPS_FOR_FEWER)? {
            End::Found => return confirmed(alloc, statements, asked, machine, constants),
            _ => {}
        }
    }
    Ok(None)
}

// The proof with the fewest conditions that is found after the first one.
fn fewest(
    alloc: Global,
    statements: &[Cite],
    asked: &Asked,
    machine: &mut Machine,
    constants: &Terms,
    first: Proved,
) -> Result<Proved, NoMemory>
    requires { IsProved statements.now asked.now first }
    ensures { IfOk result (IsProved statements.now asked.now) }
{
    let mut best = first;
    for _ in 0..MOST_TIMES {
        let conditions = machine.conditions();
        if conditions == 0 {
            return Ok(best);
        }
        match fewer(alloc, statements, asked, machine, constants, conditions)? {
            Some(better) => best = better,
            None => return Ok(best),
        }
    }
    Ok(best)
}

/// Finds a proof of what is asked for, from these statements, whose numbers rise, in at most so many steps. A step is a use
/// of a rule, or a way that is given up.
pub fn find_proof(
    alloc: Global,
    statements: &[Cite],
    asked: &Asked,
    steps: u64,
) -> Result<Answer, NoMemory>
    ensures { IfOk result (IsAnswer statements.now asked.now) }
{
    let (mut machine, constants, _) = machine_for(alloc, statements, asked, 0)?;
    let mut end = machine.search(steps)?;
    for _ in 0..MOST_REFUSED {
        match end {
            End::Found => {}
            _ => return Ok(Answer::NotFound(cause_of(end))),
        }
        match confirmed(alloc, statements, asked, &machine, &constants)? {
            Some(first) => {
                let best = fewest(alloc, statements, asked, &mut machine, &constants, first)?;
                return Ok(Answer::Found(best));
            }
            None => {}
        }
        end = machine.search_on(steps)?;
    }
    Ok(Answer::NotFound(Cause::Refused))
}
