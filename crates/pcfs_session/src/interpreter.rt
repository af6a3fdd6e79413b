//! The interpreter, which answers the lines of an operator's script.

ghost use Rattle.std.specs.Prelude.{◌≡◌, ◌≤◌, ◌↔◌, None, length, IfOk, OnErr, IsSome, IsTrue};
ghost use Rattle.bl_syntax.specs.declared.limits.TheConstants.{MOST_BYTES_AT_ONCE};

use crate::brought::add_procaps;
use crate::line_replies::{reply_of_checkpoint, reply_of_store, unproved, unread};
use crate::signing::{signature_of, withdrawal_of};
use access_history::{StepReply, StepRequest};
use bl_syntax::{Bytes, Goal, NoMemory, Numbers, Principal, Statement};
use file_world::Op;
use journal_records::Procaps;
use line_forms::{Command, read_line};
use line_wire::LineReply;
use line_words::ProcapWords;
use op_gate::Citation;
use pcfs_ports::Disk;
use pcfs_store::Store;
use proof_term::ProofTree;
use proof_verifier::{verdict, verify};
use std::alloc::Global;
use std::marker::Model;

/// The events of an operator's script carry this number.
const SCRIPT_PASS: u64 = 1;

/// A store, the number that its events carry, what the clock shows in whole seconds from 1970-01-01T00:00:00Z, who
/// calls, and whose procaps are shown: each if nobody is named.
#[derive(Drop)]
pub struct Interpreter<D: Disk> {
    store: Store<D>,
    pass: u64,
    clock: i64,
    caller: Principal,
    sees: Option<Principal>,
}

impl<D: Disk> Model for Interpreter<D> {
    ghost use Rattle.std.specs.Prelude.{IsTrue};
    ghost use Rattle.bl_syntax.specs.Names.{is_principal_name};
    ghost use Rattle.bl_syntax.specs.TimeOrder.{IsMoment};
    ghost use Rattle.pcfs_session.specs.InterpreterCode.{interpreter_code};
    ghost use Rattle.pcfs_session.specs.InterpreterView.{InterpreterView};

    ghost Value = { InterpreterView D };

    ghost coded = { interpreter_code D.code };

    ghost view = { λ d. record { store = d.store; asker = record { pass = d.pass; clock = d.clock; caller = d.caller; sees = d.sees } } };

    ghost invariant = { λ d. IsMoment d.clock × IsTrue (is_principal_name d.caller) };
}

impl<D: Disk> Interpreter<D> {
    ghost use Rattle.access_history.specs.WellFormed.{IsWellFormed};
    ghost use Rattle.bl_syntax.specs.Citable.{AreCitable};
    ghost use Rattle.bl_syntax.specs.Statement.{IsStatement};
    ghost use Rattle.file_world.specs.Effect.{IsOperation};
    ghost use Rattle.file_world.specs.Needs.{slots, bytes_to_write};
    ghost use Rattle.line_forms.specs.declared.command.Command.TheVariants.{Register, Withdraw, Procap as ShowProcap, Checkpoint, Verify, Check, Do};
    ghost use Rattle.pcfs_session.specs.ScriptContext.{first_asker};
    ghost use Rattle.pcfs_session.specs.ScriptRun.{IsLawfulStanding, IsReplied, script_pass};
    ghost use Rattle.pcfs_session.specs.InterpreterView.{standing_of};
    ghost use Rattle.pcfs_session.specs.Stored.{LeadsTo};
    ghost use Rattle.line_forms.specs.Said.{IsWithin};
    ghost use Rattle.pcfs_session.specs.Interpreter.{IsDecidedAs, IsFollowed};

    /// An interpreter over this store, where an operator's script begins.
    pub fn over(store: Store<D>) -> Interpreter<D>
        ensures { result ≡ record { store = store; asker = first_asker script_pass } }
    {
        Interpreter {
            store,
            pass: SCRIPT_PASS,
            clock: 0,
            caller: Principal::new(b"admin").unwrap(),
            sees: None,
        }
    }

    /// The store.
    pub fn into_store(self) -> Store<D>
        ensures { result ≡ self.store }
    {
        self.store
    }

    /// Whether a disk failed. Then no further line is to be answered.
    pub fn is_stopped(&self) -> bool
        ensures { IsTrue result ↔ IsSome self.now.store.stop }
    {
        self.store.is_stopped()
    }

    // Asks the store.
    fn ask(&mut self, alloc: Global, request: StepRequest) -> Result<LineReply, NoMemory>
        requires running { self.old.store.stop ≡ None }
        requires lawful { IsLawfulStanding (standing_of self.old None) }
        requires well_formed { IsWellFormed request }
        ensures ok { IfOk result (λ reply. LeadsTo D.clock D.left_since D.image D.faults (IsDecidedAs request) self.old reply self.new) }
        ensures err { OnErr result (self.new ≡ self.old) }
    {
        let reply = self.store.step(alloc, self.pass, request, self.clock);
        reply_of_store(reply)
    }

    // Checks the proof of the goal from the statements of these numbers, and asks for an issue.
    fn verify(
        &mut self,
        alloc: Global,
        goal: Goal,
        numbers: &Numbers,
        proof: ProofTree,
    ) -> Result<LineReply, NoMemory>
        requires running { self.old.store.stop ≡ None }
        requires lawful { IsLawfulStanding (standing_of self.old None) }
        requires citable { AreCitable numbers.now }
        ensures ok { IfOk result (λ reply. LeadsTo D.clock D.left_since D.image D.faults (IsFollowed (Verify goal numbers.now proof)) self.old reply self.new) }
        ensures err { OnErr result (self.new ≡ self.old) }
    {
        match self.store.gate().cite(alloc, numbers.as_slice())? {
            Citation::Absent(number) => Ok(LineReply::Step(StepReply::Absent(number as u64))),
            Citation::Cited(cites) => match verify(alloc, cites, goal, proof) {
                Ok(checked) => self.ask(alloc, StepRequest::Issue(checked)),
                Err(fault) => unproved(fault),
            },
        }
    }

    // Checks the proof of the goal from the statements of these numbers.
    fn check(
        &self,
        alloc: Global,
        goal: &Goal,
        numbers: &Numbers,
        proof: &ProofTree,
    ) -> Result<LineReply, NoMemory>
        requires { AreCitable numbers.now }
        ensures { IfOk result (λ reply. IsFollowed (Check goal.now numbers.now proof.now) (standing_of self.now None) reply (standing_of self.now None)) }
    {
        match self.store.gate().cite(alloc, numbers.as_slice())? {
            Citation::Absent(number) => Ok(LineReply::Step(StepReply::Absent(number as u64))),
            Citation::Cited(cites) => match verdict(alloc, &cites, goal, proof) {
                Ok(grant) => Ok(LineReply::Checked(grant)),
                Err(fault) => unproved(fault),
            },
        }
    }

    // Registers the statement under the signature that the line gives, or that the ring makes.
    fn register(
        &mut self,
        alloc: Global,
        signature: Option<Bytes>,
        statement: Statement,
    ) -> Result<LineReply, NoMemory>
        requires running { self.old.store.stop ≡ None }
        requires lawful { IsLawfulStanding (standing_of self.old None) }
        requires statement { IsStatement statement }
        ensures ok { IfOk result (λ reply. LeadsTo D.clock D.left_since D.image D.faults (IsFollowed (Register signature statement)) self.old reply self.new) }
        ensures err { OnErr result (self.new ≡ self.old) }
    {
        let signature = signature_of(alloc, self.store.gate().ring(), &statement, signature)?;
        self.ask(alloc, StepRequest::Register(statement, signature))
    }

    // Withdraws the statement of this number under the signature that the line gives, or that the ring makes.
    fn withdraw(
        &mut self,
        alloc: Global,
        number: u32,
        signature: Option<Bytes>,
    ) -> Result<LineReply, NoMemory>
        requires running { self.old.store.stop ≡ None }
        requires lawful { IsLawfulStanding (standing_of self.old None) }
        ensures ok { IfOk result (λ reply. LeadsTo D.clock D.left_since D.image D.faults (IsFollowed (Withdraw number signature)) self.old reply self.new) }
        ensures err { OnErr result (self.new ≡ self.old) }
    {
        let signature = withdrawal_of(alloc, self.store.gate().history(), number, signature)?;
        self.ask(alloc, StepRequest::Withdraw(number, signature))
    }

    // Shows the procap of the issue of this number.
    fn show(&mut self, alloc: Global, number: u64) -> Result<LineReply, NoMemory>
        requires running { self.old.store.stop ≡ None }
        requires lawful { IsLawfulStanding (standing_of self.old None) }
        ensures ok { IfOk result (λ reply. LeadsTo D.clock D.left_since D.image D.faults (IsFollowed (ShowProcap number)) self.old reply self.new) }
        ensures err { OnErr result (self.new ≡ self.old) }
    {
        self.ask(alloc, StepRequest::ShowProcap(number, self.sees))
    }

    // Does the operation under the procaps that the words bring.
    fn act(&mut self, alloc: Global, op: Op, words: &ProcapWords) -> Result<LineReply, NoMemory>
        requires running { self.old.store.stop ≡ None }
        requires lawful { IsLawfulStanding (standing_of self.old None) }
        requires operation { IsOperation op }
        requires one_each { length words.now ≡ slots op }
        requires few_bytes { bytes_to_write op ≤ MOST_BYTES_AT_ONCE }
        ensures ok { IfOk result (λ reply. LeadsTo D.clock D.left_since D.image D.faults (IsFollowed (Do op words.now)) self.old reply self.new) }
        ensures err { OnErr result (self.new ≡ self.old) }
    {
        let mut procaps = Procaps::new(alloc);
        if let Some(number) = add_procaps(
            alloc,
            self.store.gate(),
            words.as_slice(),
            &mut procaps,
        )? {
            return Ok(LineReply::Step(StepReply::Absent(number)));
        }
        self.ask(alloc, StepRequest::Act(self.caller, op, procaps))
    }

    // Makes a checkpoint.
    fn checkpoint(&mut self, alloc: Global) -> Result<LineReply, NoMemory>
        requires running { self.old.store.stop ≡ None }
        ensures ok { IfOk result (λ reply. LeadsTo D.clock D.left_since D.image D.faults (IsFollowed Checkpoint) self.old reply self.new) }
        ensures err { OnErr result (self.new ≡ self.old) }
    {
        let reply = self.store.checkpoint(alloc, self.pass);
        reply_of_checkpoint(reply)
    }

    // Does what a line of a script asks for.
    fn follow(&mut self, alloc: Global, command: Command) -> Result<LineReply, NoMemory>
        requires running { self.old.store.stop ≡ None }
        requires lawful { IsLawfulStanding (standing_of self.old None) }
        requires within { IsWithin command }
        ensures ok { IfOk result (λ reply. LeadsTo D.clock D.left_since D.image D.faults (IsFollowed command) self.old reply self.new) }
        ensures err { OnErr result (self.new ≡ self.old) }
    {
        match command {
            Command::At(second) => {
                self.clock = second;
                Ok(LineReply::Done)
            }
            Command::As(who) => {
                self.caller = who;
                Ok(LineReply::Done)
            }
            Command::Register(signature, statement) => {
                self.register(alloc, signature, statement)
            }
            Command::Withdraw(number, signature) => self.withdraw(alloc, number, signature),
            Command::Verify(goal, numbers, proof) => self.verify(alloc, goal, &numbers, proof),
            Command::Check(goal, numbers, proof) => self.check(alloc, &goal, &numbers, &proof),
            Command::Procap(number) => self.show(alloc, number),
            Command::Checkpoint => self.checkpoint(alloc),
            Command::Do(op, words) => self.act(alloc, op, &words),
        }
    }

    /// The reply to a line of a script, which is given without its end; out of memory, and then nothing changes, if
    /// there is none for it.
    pub fn reply_to(&mut self, alloc: Global, line: &[u8]) -> LineReply
        requires running { self.old.store.stop ≡ None }
        requires lawful { IsLawfulStanding (standing_of self.old None) }
        ensures { LeadsTo D.clock D.left_since D.image D.faults (IsReplied line.now) self.old result self.new }
    {
        match read_line(alloc, line) {
            Ok(command) => match self.follow(alloc, command) {
                Ok(reply) => reply,
                Err(_) => LineReply::NoMemory,
            },
            Err(fault) => unread(fault),
        }
    }
}
