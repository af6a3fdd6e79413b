//! What is missing for a proof.
#![tactic(auto, using(crate::proofs::AnswersLemmas::adding))]

ghost use Rattle.std.specs.Prelude.{◌≡◌, IfOk, IfSome, OnOk};
ghost use Rattle.proof_search.specs.Answers.{HasAdded, IsEnough};

use crate::answers::{Near, Suggestion};
use crate::asked::{Asked, Moments};
use crate::confirming::confirm;
use crate::searching::{machine_for, numbers_of};
use crate::spelling::proof_of;
use bl_syntax::limits::MOST_CITED;
use bl_syntax::{
    Bytes, Formula, NoMemory, Numbers, Principal, Sort, Statement, Term, Terms, TimePoint, Word,
};
use proof_draft::{FIRST_PREDICATE, Sort as Kind, Term as Code};
use proof_verifier::Cite;
use search_core::{Assumed, End, Found, Machine};
use std::alloc::Global;

/// So many statements may be missing.
const MOST_MISSING: usize = 3;

/// So many ways of supplying them are compared.
const MOST_COMPARED: usize = 24;

/// So far is what something else could give as well.
const FAR: usize = 10;

/// What the numbers of a search stand for.
#[derive(Drop)]
struct Words {
    constants: Terms,
    names: Vec<Bytes>,
}

// Equal statements in memory of their own.
fn copies(alloc: Global, statements: &[Cite]) -> Result<Vec<Cite>, NoMemory>
    ensures { IfOk result (λ copied. copied.items ≡ statements.now) }
{
    let mut copied = Vec::new(alloc);
    for cite in statements {
        copied.push(Cite {
            number: cite.number,
            statement: cite.statement.copy(alloc)?,
        })?;
    }
    Ok(copied)
}

// A time at which a missing statement begins, or ends.
fn time_of(code: Code, constants: &[Term], now: TimePoint) -> TimePoint {
    match code {
        Code::Constant(number) => match constants.get(number) {
            Some(Term::Time(point)) => *point,
            _ => now,
        },
        _ => now,
    }
}

// The interval of a missing statement.
fn interval_of(asked: &Asked, wanted: &Assumed, words: &Words) -> (TimePoint, TimePoint) {
    let (from, to) = match asked.moments {
        Moments::Some => (TimePoint::NegInf, TimePoint::PosInf),
        Moments::Each(from, to) => (TimePoint::At(from), TimePoint::At(to)),
    };
    let constants = words.constants.as_slice();
    match (wanted.from, wanted.to) {
        (Code::Parameter(_), _) | (_, Code::Parameter(_)) => {
            (TimePoint::NegInf, TimePoint::PosInf)
        }
        (begins, ends) => (
            time_of(begins, constants, from),
            time_of(ends, constants, to),
        ),
    }
}

// The parameters in the arguments of an atom that is missing, each once, in order.
fn parameters_of(alloc: Global, wanted: &Assumed) -> Result<Vec<usize>, NoMemory> {
    let mut parameters = Vec::new(alloc);
    for code in &wanted.arguments {
        match code {
            Code::Parameter(number) => {
                if !parameters.as_slice().contains(number) {
                    parameters.push(*number)?;
                }
            }
            _ => {}
        }
    }
    Ok(parameters)
}

// The term of an argument. A parameter is the variable of its quantifier.
fn term_of(code: Code, parameters: &Vec<usize>, words: &Words) -> Option<Term> {
    match code {
        Code::Constant(number) => words.constants.as_slice().get(number).copied(),
        Code::Parameter(number) => {
            let place = parameters
                .as_slice()
                .iter()
                .position(|known| *known == number);
            match place {
                Some(place) => {
                    let inside = parameters.len().saturating_sub(place).saturating_sub(1);
                    Some(Term::Bound(u32::try_from(inside).unwrap_or(0)))
                }
                None => None,
            }
        }
        _ => None,
    }
}

// The terms of an atom that is missing.
fn terms_of(
    alloc: Global,
    wanted: &Assumed,
    parameters: &Vec<usize>,
    words: &Words,
) -> Result<Terms, NoMemory> {
    let mut terms = Terms::new(alloc);
    for code in &wanted.arguments {
        match term_of(*code, parameters, words) {
            Some(term) => terms.extend(&[term])?,
            None => {}
        }
    }
    Ok(terms)
}

fn sort_of(kind: Kind) -> Sort {
    match kind {
        Kind::Principal => Sort::Principal,
        Kind::File => Sort::File,
        Kind::Perm => Sort::Perm,
        Kind::Time => Sort::Time,
        Kind::Text => Sort::Text,
    }
}

// The sort of a parameter among the arguments.
fn sort_of_parameter(wanted: &Assumed, number: usize) -> Sort {
    for (code, kind) in wanted
        .arguments
        .as_slice()
        .iter()
        .zip(wanted.sorts.as_slice().iter())
    {
        if *code == Code::Parameter(number) {
            return sort_of(*kind);
        }
    }
    Sort::Text
}

// The atom that is missing, for all that its parameters stand for.
fn body_of(
    alloc: Global,
    wanted: &Assumed,
    name: Word,
    words: &Words,
) -> Result<Formula, NoMemory> {
    let mut parameters = parameters_of(alloc, wanted)?;
    let mut body = Formula::Atom(name, terms_of(alloc, wanted, &parameters, words)?);
    for _ in 0..parameters.len() {
        if let Some(number) = parameters.pop() {
            let inner = Box::new(alloc, body)?;
            body = Formula::Forall(sort_of_parameter(wanted, number), inner);
        }
    }
    Ok(body)
}

// Who has to say it; none if that is nobody.
fn speaker_of(wanted: &Assumed, words: &Words) -> Option<Principal> {
    match wanted.who {
        Code::Constant(number) => match words.constants.as_slice().get(number) {
            Some(Term::Prin(name)) => Some(*name),
            _ => None,
        },
        _ => None,
    }
}

// The name of the predicate that has to be said.
fn name_of(wanted: &Assumed, words: &Words) -> Option<Word> {
    match words
        .names
        .get(wanted.predicate.saturating_sub(FIRST_PREDICATE))
    {
        Some(name) => Word::new(name.as_slice()),
        None => None,
    }
}

// The atom that is missing, as a statement.
fn stated_atom(
    alloc: Global,
    wanted: &Assumed,
    words: &Words,
    from: TimePoint,
    to: TimePoint,
) -> Result<Option<Statement>, NoMemory> {
    match (speaker_of(wanted, words), name_of(wanted, words)) {
        (Some(who), Some(name)) => {
            let body = body_of(alloc, wanted, name, words)?;
            Ok(Statement::new(who, body, from, to))
        }
        _ => Ok(None),
    }
}

// The statement that is missing; none if it cannot be said.
fn statement_of(
    alloc: Global,
    statements: &[Cite],
    asked: &Asked,
    wanted: &Assumed,
    words: &Words,
) -> Result<Option<Statement>, NoMemory> {
    let (from, to) = interval_of(asked, wanted, words);
    match statements.get(wanted.stated) {
        Some(cite) => {
            let body = cite.statement.body().copy(alloc)?;
            Ok(Statement::new(*cite.statement.who(), body, from, to))
        }
        None => stated_atom(alloc, wanted, words, from, to),
    }
}

fn last_number(statements: &[Cite]) -> u32 {
    match statements.last() {
        Some(cite) => cite.number,
        None => 0,
    }
}

// Adds one statement under the next number, and returns that.
fn add_one(all: &mut Vec<Cite>, statement: Statement) -> Result<u32, NoMemory>
    ensures { OnOk result (HasAdded all.old.items all.new.items) }
{
    let number = last_number(all.as_slice()).saturating_add(1);
    all.push(Cite { number, statement })?;
    Ok(number)
}

// Adds the statements that are missing, with their numbers. False, if one of them cannot be said.
fn add_missing(
    alloc: Global,
    all: &mut Vec<Cite>,
    asked: &Asked,
    found: &Found,
    words: &Words,
    numbers: &mut Numbers,
) -> Result<bool, NoMemory>
    ensures { OnOk result (HasAdded all.old.items all.new.items) }
{
    for wanted in &found.assumed {
        let statement = match statement_of(alloc, all.as_slice(), asked, wanted, words)? {
            Some(statement) => statement,
            None => return Ok(false),
        };
        let number = add_one(all, statement)?;
        numbers.push(number)?;
    }
    Ok(true)
}

// How near what is missing is to what is said.
fn nearness_of(machine: &Machine, statements: &[Cite], wanted: &Assumed) -> Near {
    match statements.get(wanted.stated) {
        Some(cite) => return Near::AtAnotherTime(cite.number),
        None => {}
    }
    let chain = machine.draft.policy.chain(wanted.predicate);
    match statements.get(machine.draft.policy.entry(chain.first).statement) {
        Some(cite) => {
            if chain.last < machine.draft.policy.entries.len() {
                Near::Otherwise(cite.number)
            } else {
                Near::Never
            }
        }
        None => Near::Never,
    }
}

fn distance_of(near: Near) -> usize {
    match near {
        Near::AtAnotherTime(_) => 1,
        Near::Otherwise(_) => 2,
        Near::Never => 3,
    }
}

// How far a proof is from what is said, and how near each statement is that it misses. What something else could give as
// well is far; of two that are as far the one is nearer that cites more.
fn nearness(
    alloc: Global,
    machine: &Machine,
    statements: &[Cite],
    found: &Found,
) -> Result<(usize, Vec<Near>), NoMemory> {
    let mut sum = 0usize;
    let mut all = Vec::new(alloc);
    for wanted in &found.assumed {
        let near = nearness_of(machine, statements, wanted);
        let far = if wanted.is_only { 0 } else { FAR };
        sum = sum.saturating_add(distance_of(near)).saturating_add(far);
        all.push(near)?;
    }
    let fewer = MOST_CITED.saturating_sub(found.cited.len());
    Ok((sum.saturating_mul(MOST_CITED).saturating_add(fewer), all))
}

// What is missing for the proof that was found, if the proof is confirmed with it.
fn suggestion(
    alloc: Global,
    statements: &[Cite],
    asked: &Asked,
    found: &Found,
    words: &Words,
    near: Vec<Near>,
) -> Result<Option<Suggestion>, NoMemory>
    ensures { IfOk result (λ made. IfSome made (IsEnough statements.now asked.now)) }
{
    let mut all = copies(alloc, statements)?;
    let mut numbers = numbers_of(alloc, statements, found)?;
    if !add_missing(alloc, &mut all, asked, found, words, &mut numbers)? {
        return Ok(None);
    }
    let proof = match proof_of(alloc, &found.pieces, words.constants.as_slice())? {
        Some(proof) => proof,
        None => return Ok(None),
    };
    match confirm(alloc, all.as_slice(), asked, numbers, proof)? {
        Some(proved) => Ok(Some(Suggestion { all, near, proved })),
        None => Ok(None),
    }
}

// Of the proofs with at most so many statements missing the one that misses the nearest ones.
fn nearest(
    alloc: Global,
    statements: &[Cite],
    asked: &Asked,
    budget: usize,
    steps: u64,
) -> Result<Option<Suggestion>, NoMemory>
    ensures { IfOk result (λ made. IfSome made (IsEnough statements.now asked.now)) }
{
    let (mut machine, constants, names) = machine_for(alloc, statements, asked, budget)?;
    let words = Words { constants, names };
    let mut best = None;
    let mut least = usize::MAX;
    let mut end = machine.search(steps)?;
    let mut left = steps.saturating_sub(machine.steps);
    for _ in 0..MOST_COMPARED {
        match end {
            End::Found => {}
            _ => break,
        }
        if let Some(found) = machine.found()? {
            let (sum, near) = nearness(alloc, &machine, statements, &found)?;
            if sum < least {
                if let Some(made) = suggestion(alloc, statements, asked, &found, &words, near)? {
                    best = Some(made);
                    least = sum;
                }
            }
        }
        end = machine.search_on(left)?;
        left = left.saturating_sub(machine.steps);
    }
    Ok(best)
}

/// The fewest and nearest statements that are missing for a proof of what is asked for, at most three; none if none were
/// found in at most so many steps for each.
pub fn find_missing(
    alloc: Global,
    statements: &[Cite],
    asked: &Asked,
    steps: u64,
) -> Result<Option<Suggestion>, NoMemory>
    ensures { IfOk result (λ made. IfSome made (IsEnough statements.now asked.now)) }
{
    for budget in 1..=MOST_MISSING {
        match nearest(alloc, statements, asked, budget, steps)? {
            Some(made) => return Ok(Some(made)),
            None => {}
        }
    }
    Ok(None)
}
