//! The line that asks for something.
#![tactic(auto, using(bl_syntax::proofs::BeginsWithLemmas::writing))]

ghost use Rattle.std.specs.Prelude.{◌≡◌, ◌++◌, OnOk, OnErr};
ghost use Rattle.bl_syntax.specs.BeginsWith.{BeginsWith};
ghost use Rattle.line_writing.specs.LineTexts.{cited_goal_text, command_text, asked_text};

use crate::operations::put_operation;
use crate::words::{
    put_cited, put_goal, put_hex, put_principal, put_procaps, put_second, put_signature,
};
use bl_syntax::decimal::{put_counted, put_text};
use bl_syntax::{Bytes, Goal, NoMemory};
use bl_text::print_statement;
use line_forms::{Command, Line};
use proof_term::ProofTree;
use proof_text::print_proof;
use std::alloc::Global;

// Writes a goal, the numbers of the statements that its proof cites, and the proof.
fn put_cited_goal(
    out: &mut Bytes,
    words: &str,
    goal: &Goal,
    numbers: &[u32],
    proof: &ProofTree,
) -> Result<(), NoMemory>
    ensures ok { OnOk result (out.new ≡ out.old ++ (words.now ++ cited_goal_text goal.now numbers.now proof.now)) }
    ensures err { OnErr result (BeginsWith out.new out.old) }
{
    put_goal(out, words, goal)?;
    put_cited(out, " ", numbers)?;
    put_text(out, " ")?;
    print_proof(proof, out)
}

fn put_command(alloc: Global, out: &mut Bytes, command: &Command) -> Result<(), NoMemory>
    ensures ok { OnOk result (out.new ≡ out.old ++ command_text command.now) }
    ensures err { OnErr result (BeginsWith out.new out.old) }
{
    match command {
        Command::At(second) => put_second(out, "at ", *second),
        Command::As(who) => put_principal(out, "as ", who),
        Command::Register(signature, statement) => {
            put_signature(alloc, out, "register ", signature)?;
            put_text(out, " ")?;
            print_statement(statement, out)
        }
        Command::Withdraw(number, signature) => {
            put_counted(out, "withdraw ", u64::from(*number))?;
            put_signature(alloc, out, " ", signature)
        }
        Command::Procap(number) => put_counted(out, "procap ", *number),
        Command::Checkpoint => put_text(out, "checkpoint"),
        Command::Verify(goal, numbers, proof) => {
            put_cited_goal(out, "verify ", goal, numbers.as_slice(), proof)
        }
        Command::Check(goal, numbers, proof) => {
            put_cited_goal(out, "check ", goal, numbers.as_slice(), proof)
        }
        Command::Do(op, procaps) => {
            put_text(out, "do ")?;
            put_operation(alloc, out, op)?;
            put_procaps(alloc, out, procaps.as_slice())
        }
    }
}

fn put_line(alloc: Global, out: &mut Bytes, line: &Line) -> Result<(), NoMemory>
    ensures ok { OnOk result (out.new ≡ out.old ++ asked_text line.now) }
    ensures err { OnErr result (BeginsWith out.new out.old) }
{
    match line {
        Line::Command(command) => put_command(alloc, out, command),
        Line::Login(who, signature) => {
            put_principal(out, "login ", who)?;
            put_hex(alloc, out, " ", signature.as_slice())
        }
        Line::Statement(statement) => {
            put_text(out, "statement ")?;
            print_statement(statement, out)
        }
        Line::Goal(goal, proof) => {
            put_goal(out, "goal ", goal)?;
            put_text(out, " ")?;
            print_proof(proof, out)
        }
    }
}

/// Writes the line that asks for this, without its end, all of it or nothing.
pub fn write_line(alloc: Global, line: &Line, out: &mut Bytes) -> Result<(), NoMemory>
    ensures ok { OnOk result (out.new ≡ out.old ++ asked_text line.now) }
    ensures err { OnErr result (out.new ≡ out.old) }
{
    let len = out.len();
    let written = put_line(alloc, out, line);
    if written.is_err() {
        out.truncate(len);
    }
    written
}
