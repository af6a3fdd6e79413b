//! How a line is to be answered.

ghost use Rattle.std.specs.Prelude.{◌≡◌, ◌≢◌, ℕ, List, map, Some, None, IfOk, IsSome, IsTrue};
ghost use Rattle.bl_syntax.specs.Names.{is_principal_name};
ghost use Rattle.bl_syntax.specs.Statement.{IsStatement};
ghost use Rattle.std.specs.List.{AllByRecursion};
ghost use Rattle.line_words.specs.declared.procap_word.ProcapWord.TheVariants as words;
ghost use Rattle.line_forms.specs.Said.{IsWrittenOut, IsOfSession, IsOfUser, IsWithin, IsOperationAsked, IsSaidByUser, IsLineWithin};
ghost use Rattle.session_history.specs.Tasks.{IsUserTask, IsReadTask, IsTaskOf, IsTaskFormed};

use access_history::StepRequest;
use bl_syntax::{Bytes, NoMemory, Principal, Statement};
use file_world::Op;
use journal_records::Procaps;
use line_forms::{Command, Line, LineFault, Mode, read_line_in};
use line_wire::{GuestLine, LineReply, read_guest_line};
use line_words::{ProcapWord, ProcapWords};
use session_history::{LineTask, TurnRequest};
use std::alloc::Global;

// The procaps that are written out.
fn held_procaps(alloc: Global, given: &[ProcapWord]) -> Result<Procaps, NoMemory>
    requires { AllByRecursion IsWrittenOut given.now }
    ensures { IfOk result (λ procaps. given.now ≡ map words.Procap procaps) }
{
    let mut procaps = Procaps::new(alloc);
    procaps.reserve(given.len())?;
    for word in given {
        match word {
            ProcapWord::Procap(procap) => procaps.push(procap.copy(alloc)?)?,
            ProcapWord::Issue(_) => unreachable!(),
        }
    }
    Ok(procaps)
}

// A principal's name is in the grammar of names.
fn has_name(who: &Principal)
    ensures { IsTrue (is_principal_name who.now) }
{
    let _ = who.bytes();
}

// A registration under this signature.
fn registering(signature: Option<Bytes>, statement: Statement) -> LineTask
    requires said { IsSome signature }
    requires statement { IsStatement statement }
    ensures task { (who : List ℕ) → IsUserTask who (Command.Register signature statement) result }
    ensures formed { IsTaskFormed result }
{
    match signature {
        Some(signature) => LineTask::Turn(TurnRequest::Step(StepRequest::Register(
            statement, signature,
        ))),
        None => unreachable!(),
    }
}

// A withdrawal under this signature.
fn withdrawing(number: u32, signature: Option<Bytes>) -> LineTask
    requires { IsSome signature }
    ensures task { (who : List ℕ) → IsUserTask who (Command.Withdraw number signature) result }
    ensures formed { IsTaskFormed result }
{
    match signature {
        Some(signature) => {
            LineTask::Turn(TurnRequest::Step(StepRequest::Withdraw(number, signature)))
        }
        None => unreachable!(),
    }
}

// An operation of this principal under the procaps that are written out.
fn acting(alloc: Global, who: Principal, op: Op, given: ProcapWords) -> Result<LineTask, NoMemory>
    requires written_out { AllByRecursion IsWrittenOut given }
    requires within { IsOperationAsked op given }
    ensures ok { IfOk result (λ task. IsUserTask who (Command.Do op given) task) }
    ensures formed { IfOk result IsTaskFormed }
{
    has_name(&who);
    let procaps = held_procaps(alloc, given.as_slice())?;
    Ok(LineTask::Turn(TurnRequest::Step(StepRequest::Act(who, op, procaps))))
}

// How a command of this principal is to be answered.
fn user_task(alloc: Global, who: Principal, command: Command) -> Result<LineTask, NoMemory>
    requires said { IsOfSession command }
    requires mine { IsOfUser who command }
    requires within { IsWithin command }
    ensures ok { IfOk result (λ task. IsUserTask who command task) }
    ensures formed { IfOk result IsTaskFormed }
{
    match command {
        Command::Register(signature, statement) => Ok(registering(signature, statement)),
        Command::Withdraw(number, signature) => Ok(withdrawing(number, signature)),
        Command::Procap(number) => Ok(LineTask::Turn(TurnRequest::Step(StepRequest::ShowProcap(
            number,
            Some(who),
        )))),
        Command::Checkpoint => Ok(LineTask::Turn(TurnRequest::Checkpoint)),
        Command::Verify(goal, numbers, proof) => Ok(LineTask::Proof(goal, numbers, proof)),
        Command::Do(op, given) => acting(alloc, who, op, given),
        Command::At(_) => unreachable!(),
        Command::As(_) => unreachable!(),
        Command::Check(_, _, _) => unreachable!(),
    }
}

// A login over this nonce.
fn logging_in(nonce: &[u8; 16], who: Principal, signature: Bytes) -> LineTask
    ensures { result ≡ LineTask.Turn (TurnRequest.Login who nonce.now signature) }
{
    let request = TurnRequest::Login(who, *nonce, signature);
    LineTask::Turn(request)
}

// What a line is told that has this fault.
fn telling_fault(fault: LineFault) -> Result<LineTask, NoMemory>
    ensures { IfOk result (λ task. (task ≡ LineTask.Reply (LineReply.Faulty fault)) × (fault ≢ LineFault.NoMemory)) }
{
    match fault {
        LineFault::NoMemory => Err(NoMemory),
        _ => Ok(LineTask::Reply(LineReply::Faulty(fault))),
    }
}

// How a line of this principal is to be answered that was read.
fn said_task(
    alloc: Global,
    nonce: &[u8; 16],
    who: Principal,
    said: Line,
) -> Result<LineTask, NoMemory>
    requires said { IsSaidByUser who said }
    requires within { IsLineWithin said }
    ensures ok { IfOk result (λ task. IsReadTask (record { nonce = nonce.now; caller = Some who }) said task) }
    ensures formed { IfOk result IsTaskFormed }
{
    match said {
        Line::Command(command) => user_task(alloc, who, command),
        Line::Login(person, signature) => Ok(logging_in(nonce, person, signature)),
        Line::Statement(_) => unreachable!(),
        Line::Goal(_, _) => unreachable!(),
    }
}

// How a line is to be answered that this principal says.
fn user_line_task(
    alloc: Global,
    nonce: &[u8; 16],
    who: Principal,
    line: &[u8],
) -> Result<LineTask, NoMemory>
    ensures ok { IfOk result (λ task. IsTaskOf (record { nonce = nonce.now; caller = Some who }) line.now task) }
    ensures formed { IfOk result IsTaskFormed }
{
    let mode = Mode::User(who);
    match read_line_in(alloc, &mode, line) {
        Ok(said) => said_task(alloc, nonce, who, said),
        Err(fault) => telling_fault(fault),
    }
}

// What a line is told at once, unless memory ran out.
fn telling(reply: LineReply) -> Result<LineTask, NoMemory>
    ensures { IfOk result (λ task. (task ≡ LineTask.Reply reply) × (reply ≢ LineReply.NoMemory)) }
{
    match reply {
        LineReply::NoMemory => Err(NoMemory),
        _ => Ok(LineTask::Reply(reply)),
    }
}

// How a line is to be answered before a login.
fn guest_line_task(alloc: Global, nonce: &[u8; 16], line: &[u8]) -> Result<LineTask, NoMemory>
    ensures ok { IfOk result (λ task. IsTaskOf (record { nonce = nonce.now; caller = None }) line.now task) }
    ensures formed { IfOk result IsTaskFormed }
{
    match read_guest_line(alloc, line) {
        GuestLine::Login(who, signature) => Ok(logging_in(nonce, who, signature)),
        GuestLine::Answered(reply) => telling(reply),
    }
}

/// How a line, given without its end, is to be answered in a session with this nonce and this caller; an error only if
/// memory runs out.
pub fn task_of(
    alloc: Global,
    nonce: &[u8; 16],
    caller: &Option<Principal>,
    line: &[u8],
) -> Result<LineTask, NoMemory>
    ensures ok { IfOk result (λ task. IsTaskOf (record { nonce = nonce.now; caller = caller.now }) line.now task) }
    ensures formed { IfOk result IsTaskFormed }
{
    match caller {
        Some(who) => user_line_task(alloc, nonce, *who, line),
        None => guest_line_task(alloc, nonce, line),
    }
}
