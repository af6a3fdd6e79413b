//! The answers to requests on statements and issues, and what is to be kept.

ghost use Rattle.std.specs.Prelude.{◌≡◌, ◌↔◌, ◌≤◌, Some, None, IfOk, MatchOption, IsTrue, ℕ, ℤ, length};
ghost use Rattle.bl_syntax.specs.Citable.{AreNamed};
ghost use Rattle.bl_syntax.specs.Grant.{MayName};
ghost use Rattle.bl_syntax.specs.Statement.{IsStatement};
ghost use Rattle.access_history.specs.declared.request.StepRequest.TheVariants as requests;
ghost use Rattle.access_history.specs.Answer.{Answers, MaySee};
ghost use Rattle.access_history.specs.Citing.{issued_grant, numbers_of};
ghost use Rattle.access_history.specs.History.{authority_of, state_of};
ghost use Rattle.op_gate.specs.Admits.{issue_naming, pending_parts};
ghost use Rattle.op_gate.specs.Decision.{IsPlanned, Keeps, plan_of_withdrawal};
ghost use Rattle.access_history.specs.Numbered.{HasNone};
ghost use Rattle.op_gate.specs.Issued.{IsProcapOf};
ghost use Rattle.op_gate.specs.Rejection.{rejection_of};

use crate::cite::{cited_numbers, first_moved};
use crate::planned::{DecisionPlan, Pending};
use access_history::{Addition, History, IssueRecord, Rejection, StepReply};
use bl_syntax::{Bytes, Grant, NoMemory, Numbers, Principal, Statement};
use journal_records::Event;
use policy_statement::{RegisterFault as RegistryFault, WithdrawFault};
use procap::Procap;
use proof_verifier::Checked;
use std::alloc::Global;

// The answer to a statement that may not be registered, or out of memory.
fn rejection(fault: RegistryFault) -> DecisionPlan
    ensures { MatchOption (rejection_of fault) (result ≡ DecisionPlan.NoMemory) (λ rejection. result ≡ DecisionPlan.Answer (StepReply.Rejected rejection)) }
{
    match fault {
        RegistryFault::BadSignature => {
            DecisionPlan::Answer(StepReply::Rejected(Rejection::BadSignature))
        }
        RegistryFault::RegistryFull => {
            DecisionPlan::Answer(StepReply::Rejected(Rejection::RegistryFull))
        }
        RegistryFault::Duplicate(number) => {
            DecisionPlan::Answer(StepReply::Rejected(Rejection::Duplicate(number)))
        }
        RegistryFault::NoMemory => DecisionPlan::NoMemory,
    }
}

// What the registry keeps of a statement, in memory of its own.
fn statement_addition(
    alloc: Global,
    statement: &Statement,
    signature: &Bytes,
) -> Result<Addition, NoMemory>
    ensures { IfOk result (λ addition. addition ≡ Addition.Statement statement.now signature.now) }
{
    let statement = statement.copy(alloc)?;
    let signature = signature.copy(alloc)?;
    Ok(Addition::Statement(statement, signature))
}

/// The event that registers the statement, and what the registry keeps of it.
pub fn registered(
    alloc: Global,
    pass: u64,
    statement: Statement,
    signature: Bytes,
) -> Result<Pending, NoMemory>
    ensures { IfOk result (λ pending. pending
        ≡ record {
          event = Event.Registered pass statement signature;
          addition =
              Addition.Statement statement signature;
        }) }
{
    match statement_addition(alloc, &statement, &signature) {
        Ok(addition) => {
            let event = Event::Registered {
                pass,
                statement,
                signature,
            };
            Ok(Pending { event, addition })
        }
        Err(refused) => Err(refused),
    }
}

// Has the statement to be kept under that number.
fn keep_statement(
    alloc: Global,
    pass: u64,
    number: u32,
    statement: Statement,
    signature: Bytes,
) -> DecisionPlan
    ensures { Keeps (StepReply.Statement number) (Event.Registered pass statement signature) result }
{
    match registered(alloc, pass, statement, signature) {
        Ok(pending) => DecisionPlan::Keep(StepReply::Statement(number), pending),
        Err(_) => DecisionPlan::NoMemory,
    }
}

/// Whether and as what a statement is registered under a signature.
pub fn decide_register(
    alloc: Global,
    history: &History,
    pass: u64,
    statement: Statement,
    signature: Bytes,
) -> DecisionPlan
    requires { IsStatement statement }
    ensures { (clock : ℤ) → IsPlanned history.now pass clock (requests.Register statement signature) result history.now }
{
    let registry = history.registry();
    match registry.test(alloc, history.ring(), &statement, signature.as_slice()) {
        Ok(()) => {
            let number = history.statements().len() as u32 + 1;
            keep_statement(alloc, pass, number, statement, signature)
        }
        Err(fault) => rejection(fault),
    }
}

/// The event that withdraws the statement of that number, and what the registry keeps of it.
pub fn withdrawn(pass: u64, number: u32, signature: Bytes) -> Pending
    ensures { result ≡ record { event = Event.Withdrawn pass number signature; addition = Addition.Withdrawal number } }
{
    Pending {
        event: Event::Withdrawn {
            pass,
            number,
            signature,
        },
        addition: Addition::Withdrawal(number),
    }
}

// The answer to a withdrawal that the registry does not take, or out of memory.
fn refused_withdrawal(number: u32, fault: WithdrawFault) -> DecisionPlan
    ensures { result ≡ plan_of_withdrawal number fault }
{
    match fault {
        WithdrawFault::Absent => DecisionPlan::Answer(StepReply::Absent(number as u64)),
        WithdrawFault::BadSignature => {
            DecisionPlan::Answer(StepReply::Rejected(Rejection::BadSignature))
        }
        WithdrawFault::NoMemory => DecisionPlan::NoMemory,
    }
}

/// Whether the statement of that number is withdrawn under a signature.
pub fn decide_withdraw(
    alloc: Global,
    history: &History,
    pass: u64,
    number: u32,
    signature: Bytes,
) -> DecisionPlan
    ensures { (clock : ℤ) →
        IsPlanned history.now pass clock (requests.Withdraw number signature) result history.now }
{
    let registry = history.registry();
    match registry.test_withdrawal(alloc, history.ring(), number, signature.as_slice()) {
        Ok(()) => DecisionPlan::Keep(StepReply::Withdrawn, withdrawn(pass, number, signature)),
        Err(fault) => refused_withdrawal(number, fault),
    }
}

/// The procap of the issue of that number, whose grant is read; none exactly if there is no such issue.
pub fn issued_procap(
    alloc: Global,
    history: &History,
    number: u64,
) -> Result<Option<Procap>, NoMemory>
    ensures { IfOk result (λ found. MatchOption found (HasNone (state_of history.now).issues number)
        (IsProcapOf history.now.key (state_of history.now).issues number)) }
{
    match history.issue(alloc, number)? {
        Some(grant) => Ok(Some(history.key().seal(grant))),
        None => Ok(None),
    }
}

// Whether the procap of the grant may be seen: by whom it names, or by the operator, if nobody is named.
fn may_see(who: &Option<Principal>, grant: &Grant) -> bool
    ensures { IsTrue result ↔ MaySee who.now grant.now }
{
    match who {
        None => true,
        Some(who) => grant.goal().who.is_same(who),
    }
}

/// The procap of an issue, as far as it may be seen.
pub fn decide_show(
    alloc: Global,
    history: &History,
    number: u64,
    who: &Option<Principal>,
) -> Result<StepReply, NoMemory>
    ensures { IfOk result (λ reply. (pass : ℕ) (clock : ℤ) → Answers (authority_of history.now)
        (state_of history.now) pass clock (requests.ShowProcap number who.now) reply None) }
{
    match issued_procap(alloc, history, number)? {
        Some(procap) => {
            if may_see(who, &procap.grant) {
                Ok(StepReply::Procap(procap))
            } else {
                Ok(StepReply::Absent(number))
            }
        }
        None => Ok(StepReply::Absent(number)),
    }
}

// The issue of a checked proof whose grant names these statements, in memory of its own.
fn issue_of(alloc: Global, checked: &Checked, named: &Numbers) -> Result<IssueRecord, NoMemory>
    requires few { length (numbers_of checked.now.cited) ≤ 255 }
    requires named { MayName named.now }
    ensures { IfOk result (λ issue. issue ≡ issue_naming checked.now named.now) }
{
    let cited = cited_numbers(alloc, checked.cited().as_slice())?;
    let grant = checked.grant().copy(alloc)?;
    let named = named.copy(alloc)?;
    let grant = grant.naming(named);
    IssueRecord::of(alloc, cited.as_slice(), checked.proof(), &grant)
}

/// What is made of a checked proof beside it: the numbers that it cites, those that its grant names, and what the state
/// keeps of its issue.
#[derive(Debug, Drop)]
pub struct IssueParts {
    cited: Numbers,
    named: Numbers,
    issue: IssueRecord,
}

/// What is made of the checked proof beside it, of which the grant names these statements.
pub fn issue_parts(alloc: Global, checked: &Checked, named: Numbers) -> Result<IssueParts, NoMemory>
    requires few { length (numbers_of checked.now.cited) ≤ 255 }
    requires named { MayName named }
    ensures cited { IfOk result (λ parts. parts.cited ≡ numbers_of checked.now.cited) }
    ensures named { IfOk result (λ parts. parts.named ≡ named) }
    ensures issue { IfOk result (λ parts. parts.issue ≡ issue_naming checked.now named) }
{
    let issue = issue_of(alloc, checked, &named)?;
    let cited = cited_numbers(alloc, checked.cited().as_slice())?;
    Ok(IssueParts {
        cited,
        named,
        issue,
    })
}

/// The event that issues the grant of the checked proof, and what the state keeps of it. It takes no memory.
pub fn pend_issue(pass: u64, checked: Checked, parts: IssueParts) -> Pending
    requires { MayName parts.named }
    ensures { result ≡ pending_parts pass checked parts }
{
    let IssueParts {
        cited,
        named,
        issue,
    } = parts;
    let (_cites, proof, grant) = checked.into_parts();
    Pending {
        event: Event::Issued {
            pass,
            cited,
            proof,
            grant: grant.naming(named),
        },
        addition: Addition::Issue(issue),
    }
}

// What is made beside a checked proof of which the grant names what its proof cites.
fn parts_naming_cited(alloc: Global, checked: &Checked) -> Result<IssueParts, NoMemory>
    requires { AreNamed (numbers_of checked.now.cited) }
    ensures cited { IfOk result (λ parts. parts.cited ≡ numbers_of checked.now.cited) }
    ensures named { IfOk result (λ parts. parts.named ≡ numbers_of checked.now.cited) }
    ensures issue { IfOk result (λ parts. parts.issue ≡ issue_naming checked.now (numbers_of checked.now.cited)) }
{
    let named = cited_numbers(alloc, checked.cited().as_slice())?;
    issue_parts(alloc, checked, named)
}

// Has the grant of the checked proof to be kept under that number. It names what the proof cites.
fn keep_issue(alloc: Global, pass: u64, number: u64, checked: Checked) -> DecisionPlan
    requires { AreNamed (numbers_of checked.cited) }
    ensures { Keeps (StepReply.Issue number (length checked.grant.times)
        (length checked.grant.states)) (Event.Issued pass (numbers_of checked.cited) checked.proof
        (issued_grant checked.grant (numbers_of checked.cited))) result }
{
    let times = checked.grant().times().len() as u32;
    let states = checked.grant().states().len() as u32;
    match parts_naming_cited(alloc, &checked) {
        Ok(parts) => DecisionPlan::Keep(
            StepReply::Issue(number, times, states),
            pend_issue(pass, checked, parts),
        ),
        Err(_) => DecisionPlan::NoMemory,
    }
}

/// Whether and as what the grant of a checked proof is issued.
pub fn decide_issue(alloc: Global, history: &History, pass: u64, checked: Checked) -> DecisionPlan
    ensures { (clock : ℤ) →
        IsPlanned history.now pass clock (requests.Issue checked) result history.now }
{
    match first_moved(history.statements(), checked.cited().as_slice()) {
        Some(number) => DecisionPlan::Answer(StepReply::Absent(number as u64)),
        None => {
            let number = history.issues().len() as u64 + 1;
            keep_issue(alloc, pass, number, checked)
        }
    }
}
