//! What a line asks for.

ghost use Rattle.std.specs.Prelude.{◌≡◌, [], MatchResult, unwrap_or};
ghost use Rattle.line_forms.specs.declared.forms.Form.TheVariants.{Register, Verify, Check, Statement, Goal};
ghost use Rattle.line_forms.specs.Heads.{text_of};
ghost use Rattle.line_forms.specs.Lines.{IsAsked, IsTextUnread, IsLineIn, IsUnreadIn, IsLine, IsUnread};
ghost use Rattle.line_forms.specs.Said.{IsSaidInScript};

use crate::asked::Line;
use crate::command::Command;
use crate::fault::{LineFault, text_fault, word_fault};
use crate::forms::{Form, kinds_of};
use crate::head::{head_in, is_counted, text_of};
use crate::making::{do_command, written_goal};
use crate::mode::{Mode, is_session};
use bl_syntax::Bytes;
use bl_text::parse_statement;
use line_words::{Arguments, read_words};
use proof_text::parse_proof;
use std::alloc::Global;

// The statement of the text is to be registered.
fn register(alloc: Global, arguments: Arguments, text: &[u8]) -> Result<Line, LineFault>
    ensures { MatchResult result (IsAsked Register arguments text.now) (IsTextUnread Register text.now) }
{
    match parse_statement(alloc, text) {
        Ok(statement) => Ok(Line::Command(Command::Register(arguments.signature, statement))),
        Err(fault) => Err(text_fault(fault)),
    }
}

// The statement of this number is to be withdrawn.
fn withdraw(arguments: Arguments) -> Line
    ensures { result ≡ Line.Command (Command.Withdraw arguments.number arguments.signature) }
{
    let Arguments {
        number,
        signature,
        ..
    } = arguments;
    Line::Command(Command::Withdraw(number, signature))
}

// The proof of the text is to be verified.
fn verify(alloc: Global, arguments: Arguments, text: &[u8]) -> Result<Line, LineFault>
    ensures { MatchResult result (IsAsked Verify arguments text.now) (IsTextUnread Verify text.now) }
{
    match parse_proof(alloc, text) {
        Ok(proof) => Ok(Line::Command(Command::Verify(
            written_goal(&arguments),
            arguments.cited,
            proof,
        ))),
        Err(fault) => Err(text_fault(fault)),
    }
}

// The proof of the text is to be checked.
fn check(alloc: Global, arguments: Arguments, text: &[u8]) -> Result<Line, LineFault>
    ensures { MatchResult result (IsAsked Check arguments text.now) (IsTextUnread Check text.now) }
{
    match parse_proof(alloc, text) {
        Ok(proof) => Ok(Line::Command(Command::Check(
            written_goal(&arguments),
            arguments.cited,
            proof,
        ))),
        Err(fault) => Err(text_fault(fault)),
    }
}

// The principal is to be logged in.
fn login(alloc: Global, arguments: Arguments) -> Line
    ensures { result ≡ Line.Login arguments.who (unwrap_or arguments.signature []) }
{
    let Arguments { who, signature, .. } = arguments;
    match signature {
        Some(signature) => Line::Login(who, signature),
        None => Line::Login(who, Bytes::new(alloc)),
    }
}

// The statement of the text is said in an inquiry.
fn statement(alloc: Global, _arguments: Arguments, text: &[u8]) -> Result<Line, LineFault>
    ensures { MatchResult result (IsAsked Statement _arguments text.now) (IsTextUnread Statement text.now) }
{
    match parse_statement(alloc, text) {
        Ok(statement) => Ok(Line::Statement(statement)),
        Err(fault) => Err(text_fault(fault)),
    }
}

// The proof of the text is that of the goal of an inquiry.
fn goal(alloc: Global, arguments: Arguments, text: &[u8]) -> Result<Line, LineFault>
    ensures { MatchResult result (IsAsked Goal arguments text.now) (IsTextUnread Goal text.now) }
{
    match parse_proof(alloc, text) {
        Ok(proof) => Ok(Line::Goal(written_goal(&arguments), proof)),
        Err(fault) => Err(text_fault(fault)),
    }
}

// What a line of the form with these arguments and this text asks for.
fn line_of(alloc: Global, form: Form, arguments: Arguments, text: &[u8]) -> Result<Line, LineFault>
    ensures { MatchResult result (IsAsked form arguments text.now) (IsTextUnread form text.now) }
{
    match form {
        Form::At => Ok(Line::Command(Command::At(arguments.second))),
        Form::As => Ok(Line::Command(Command::As(arguments.who))),
        Form::Register => register(alloc, arguments, text),
        Form::Withdraw => Ok(withdraw(arguments)),
        Form::Procap => Ok(Line::Command(Command::Procap(arguments.issue))),
        Form::Checkpoint => Ok(Line::Command(Command::Checkpoint)),
        Form::Verify => verify(alloc, arguments, text),
        Form::Check => check(alloc, arguments, text),
        Form::Do(operation) => Ok(Line::Command(do_command(operation, arguments))),
        Form::Login => Ok(login(alloc, arguments)),
        Form::Statement => statement(alloc, arguments, text),
        Form::Goal => goal(alloc, arguments, text),
    }
}

/// What a line that is said in this mode, given without its end, asks for, or its first fault. The tests come in this
/// order: the form is known in the mode, the number of words is right, each word is of its kind, the text is right.
pub fn read_line_in(alloc: Global, mode: &Mode, line: &[u8]) -> Result<Line, LineFault>
    ensures { MatchResult result (IsLineIn mode.now line.now) (IsUnreadIn mode.now line.now) }
{
    let (form, behind) = head_in(mode, line)?;
    if !is_counted(form, behind) {
        return Err(LineFault::BadCount);
    }
    let mut arguments = Arguments::blank(alloc);
    match read_words(
        alloc,
        is_session(mode),
        kinds_of(form),
        line.len(),
        behind,
        &mut arguments,
    ) {
        Ok(rest) => line_of(alloc, form, arguments, text_of(rest)),
        Err(fault) => Err(word_fault(fault)),
    }
}

// The command that a line of a script asks for.
fn command_of(asked: Line) -> Command
    requires { IsSaidInScript asked }
    ensures { asked ≡ Line.Command result }
{
    match asked {
        Line::Command(command) => command,
        Line::Login(_, _) => unreachable!(),
        Line::Statement(_) => unreachable!(),
        Line::Goal(_, _) => unreachable!(),
    }
}

/// What a line of a script, given without its end, asks for, or its first fault.
pub fn read_line(alloc: Global, line: &[u8]) -> Result<Command, LineFault>
    ensures { MatchResult result (IsLine line.now) (IsUnread line.now) }
{
    match read_line_in(alloc, &Mode::Operator, line) {
        Ok(asked) => Ok(command_of(asked)),
        Err(fault) => Err(fault),
    }
}
