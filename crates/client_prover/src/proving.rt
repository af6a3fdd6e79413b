//! A proof, and the line of it.

ghost use Rattle.std.specs.Prelude.{◌≡◌, IfOk};
ghost use Rattle.line_forms.specs.declared.asked.Line.TheVariants as lines;
ghost use Rattle.line_forms.specs.declared.command.Command.TheVariants.{Verify};
ghost use Rattle.line_writing.specs.LineTexts.{asked_text};
ghost use Rattle.client_prover.specs.Proofs.{IsAnswer, asked_for};

use crate::remarks::{put_cause, put_grant, put_suggestion};
use bl_syntax::{Bytes, Goal, NoMemory, StatePreds};
use bl_text::{TextFault, parse_statement};
use line_forms::{Command, Line};
use line_writing::write_line;
use proof_search::{Answer as Searched, Asked, Cause, Moments, Proved, find_missing, find_proof};
use proof_verifier::Cite;
use std::alloc::Global;

/// The steps of a search.
const STEPS: u64 = 200_000;

/// A statement of the user's list.
#[derive(Clone, Copy)]
pub struct Listed<'a> {
    pub number: u32,
    pub text: &'a str,
}

/// What is wanted: the goal, and the moments at which its conditions have to hold.
#[derive(Clone, Copy)]
pub struct Wanted {
    pub goal: Goal,
    pub from: i64,
    pub to: i64,
}

/// The answer to what is wanted: the line of a proof, and the proof; or why there is none.
#[derive(Drop)]
pub enum Answer {
    Found(Bytes, Proved),
    NotFound(String),
}

/// The statements of a list, by rising numbers; or the number of the first that is none, with its fault.
pub fn cites_of(alloc: Global, list: &[Listed<'_>]) -> Result<Result<Vec<Cite>, u32>, NoMemory> {
    let mut cites = Vec::new(alloc);
    for one in list {
        match parse_statement(alloc, one.text.as_bytes()) {
            Ok(statement) => cites.push(Cite {
                number: one.number,
                statement,
            })?,
            Err(TextFault::NoMemory) => return Err(NoMemory),
            Err(_) => return Ok(Err(one.number)),
        }
    }
    Ok(Ok(cites))
}

/// The line that asks for the procap of a proof.
fn line_of(alloc: Global, goal: Goal, proved: &Proved) -> Result<Bytes, NoMemory>
    ensures { IfOk result (λ text. text ≡ asked_text (lines.Command (Verify goal proved.now.numbers proved.now.checked.proof))) }
{
    let numbers = proved.numbers.copy(alloc)?;
    let proof = proved.checked.proof().copy(alloc)?;
    let line = Line::Command(Command::Verify(goal, numbers, proof));
    let mut text = Bytes::new(alloc);
    write_line(alloc, &line, &mut text)?;
    Ok(text)
}

// Why there is no proof, and what is missing.
fn missing(
    alloc: Global,
    statements: &[Cite],
    asked: &Asked,
    cause: Cause,
) -> Result<String, NoMemory> {
    let mut out = String::new(alloc);
    put_cause(&mut out, cause)?;
    match find_missing(alloc, statements, asked, STEPS)? {
        Some(suggestion) => put_suggestion(alloc, &mut out, &suggestion)?,
        None => {}
    }
    Ok(out)
}

fn asked_for(alloc: Global, wanted: &Wanted) -> Asked
    ensures { result ≡ asked_for wanted.now }
{
    Asked {
        goal: wanted.goal,
        moments: Moments::Each(wanted.from, wanted.to),
        facts: StatePreds::new(alloc),
        leaves: true,
    }
}

// A proof of what is asked for.
fn answer_of(alloc: Global, statements: &[Cite], asked: &Asked) -> Result<Answer, NoMemory>
    ensures { IfOk result (IsAnswer statements.now asked.now) }
{
    match find_proof(alloc, statements, asked, STEPS)? {
        Searched::Found(proved) => {
            let line = line_of(alloc, asked.goal, &proved)?;
            Ok(Answer::Found(line, proved))
        }
        Searched::NotFound(cause) => {
            Ok(Answer::NotFound(missing(alloc, statements, asked, cause)?))
        }
    }
}

/// A proof of what is wanted, from these statements, whose numbers rise.
pub fn prove(alloc: Global, statements: &[Cite], wanted: &Wanted) -> Result<Answer, NoMemory>
    ensures { IfOk result (IsAnswer statements.now (asked_for wanted.now)) }
{
    let asked = asked_for(alloc, wanted);
    answer_of(alloc, statements, &asked)
}

impl Answer {
    /// Whether there is a proof.
    pub fn is_found(&self) -> bool {
        matches!(self, Answer::Found(..))
    }

    /// When the procap of the proof will be good, or why there is none.
    pub fn remark(&self, alloc: Global) -> Result<String, NoMemory> {
        match self {
            Answer::Found(_, proved) => {
                let mut out = String::new(alloc);
                put_grant(alloc, &mut out, proved.checked.grant())?;
                Ok(out)
            }
            Answer::NotFound(words) => Ok(String::from_str(alloc, words.as_str())?),
        }
    }
}
