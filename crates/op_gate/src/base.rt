//! States that were read from an area: each is tested whole before a history begins with it.

ghost use Rattle.std.specs.Prelude.{◌≡◌, ◌↔◌, ◌∷◌, ◌++◌, [], ℕ, List, IsTrue, OnOk};
ghost use Rattle.std.specs.List.{AllByRecursion};
ghost use Rattle.policy_statement.specs.Registry.{CanRegister, sayings};
ghost use Rattle.access_history.specs.Citing.{IsGoodIssue};
ghost use Rattle.access_history.specs.History.{authority_with};
ghost use Rattle.op_gate.specs.BaseDamage.{AreNew, IsBaseShaped, TellsBase};
ghost use Rattle.op_gate.specs.BaseTests.{IsFormed, IsSignedIn, TellsTest};

use crate::admit::{check_again, find_cited, register_damage};
use crate::cite::Among;
use crate::damage::{AdmitFault, Damage};
use access_history::{Base, Issue, IssueRecord, keep_copy};
use bl_syntax::limits::MOST_EVENTS;
use bl_syntax::{Grant, is_moment};
use pcfs_ports::Signatures;
use policy_statement::{Keyring, Registered, Registry, statement_message};
use proof_term::ProofTree;
use std::alloc::Global;

// Whether its moment lies in the range of moments, and its count is within that of numbers.
fn is_base_shaped(base: &Base) -> bool
    ensures { IsTrue result ↔ IsBaseShaped base.now }
{
    is_moment(base.moment()) && base.count() <= MOST_EVENTS
}

// Whether the ring accepts the signature with which the statement was registered.
fn test_signature(alloc: Global, ring: &Keyring, entry: &Registered) -> Result<(), AdmitFault>
    ensures signed { TellsTest (IsSignedIn ring.now entry.now) Damage.Unsigned result }
    ensures formed { IsFormed entry.now }
{
    let statement = entry.statement();
    let _from = statement.from();
    let Ok(message) = statement_message(alloc, statement) else {
        return Err(AdmitFault::NoMemory);
    };
    let who = statement.who().bytes();
    let is_accepted = ring.accepts(who, message.as_slice(), entry.signature());
    if is_accepted {
        Ok(())
    } else {
        Err(AdmitFault::Damaged(Damage::Unsigned))
    }
}

// Whether the ring accepts each signature.
fn test_signatures(alloc: Global, ring: &Keyring, entries: &[Registered]) -> Result<(), AdmitFault>
    ensures signed { TellsTest (AllByRecursion (IsSignedIn ring.now) entries.now) Damage.Unsigned result }
    ensures formed { OnOk result (AllByRecursion IsFormed entries.now) }
{
    for entry in entries {
        match test_signature(alloc, ring, entry) {
            Ok(()) => {}
            Err(fault) => return Err(fault),
        }
    }
    Ok(())
}

// Whether the issue of these parts is good: the statements that it cites are looked up, withdrawn ones too, and its proof
// is checked.
fn test_issue_parts(
    alloc: Global,
    entries: &[Registered],
    cited: &[u32],
    proof: ProofTree,
    grant: &Grant,
) -> Result<(), AdmitFault>
    ensures { TellsTest (IsGoodIssue (sayings entries.now) (record { cited = cited.now; proof = proof; grant = grant.now })) Damage.Unproved result }
{
    match find_cited(alloc, entries, Among::Registered, cited) {
        Ok(cites) => match check_again(alloc, cites, proof, cited, grant) {
            Ok(_) => Ok(()),
            Err(fault) => Err(fault),
        },
        Err(uncited) => Err(uncited),
    }
}

// Whether the issue is good. It is read once.
fn test_issue(alloc: Global, entries: &[Registered], issue: &IssueRecord) -> Result<(), AdmitFault>
    ensures { TellsTest (IsGoodIssue (sayings entries.now) issue.now) Damage.Unproved result }
{
    match issue.issue(alloc) {
        Ok(read) => {
            let Issue {
                cited,
                proof,
                grant,
            } = read;
            test_issue_parts(alloc, entries, cited.as_slice(), proof, &grant)
        }
        Err(_) => Err(AdmitFault::NoMemory),
    }
}

// Whether each issue is good.
fn test_issues(
    alloc: Global,
    entries: &[Registered],
    issues: &[IssueRecord],
) -> Result<(), AdmitFault>
    ensures { TellsTest (AllByRecursion (IsGoodIssue (sayings entries.now)) issues.now) Damage.Unproved result }
{
    for issue in issues {
        match test_issue(alloc, entries, issue) {
            Ok(()) => {}
            Err(fault) => return Err(fault),
        }
    }
    Ok(())
}

// Keeps an equal statement, if it is new among those that are kept and there is room for it. Its signature is accepted.
fn keep_new(
    alloc: Global,
    ring: &Keyring,
    registry: &mut Registry,
    entry: &Registered,
) -> Result<(), AdmitFault>
    requires { IsSignedIn ring.now entry.now }
    ensures new { TellsTest (CanRegister (sayings registry.old.entries) entry.now.statement) Damage.Duplicate result }
    ensures kept { OnOk result (registry.new.entries ≡ registry.old.entries ++ entry.now ∷ []) }
{
    match registry.test(alloc, ring, entry.statement(), entry.signature()) {
        Ok(()) => match keep_copy(alloc, registry, entry) {
            Ok(()) => Ok(()),
            Err(_) => Err(AdmitFault::NoMemory),
        },
        Err(fault) => Err(register_damage(fault)),
    }
}

// Whether no two of the statements are equal, and there are at most 4,096. Their signatures are accepted.
fn test_new(alloc: Global, ring: &Keyring, entries: &[Registered]) -> Result<(), AdmitFault>
    requires { AllByRecursion (IsSignedIn ring.now) entries.now }
    ensures { TellsTest (AreNew entries.now) Damage.Duplicate result }
{
    let mut registry = Registry::new(alloc);
    for entry in entries {
        match keep_new(alloc, ring, &mut registry, entry) {
            Ok(()) => {}
            Err(fault) => return Err(fault),
        }
    }
    Ok(())
}

// Tests the statements and the issues: all signatures, then all proofs, then whether the statements are new.
fn test_parts(alloc: Global, ring: &Keyring, base: &Base) -> Result<(), AdmitFault>
    requires { IsBaseShaped base.now }
    ensures { (key : List ℕ) → TellsBase (authority_with key ring.now) base.now result }
{
    let _tree = base.world().tree();
    let entries = base.statements();
    match test_signatures(alloc, ring, entries) {
        Ok(()) => match test_issues(alloc, entries, base.issues()) {
            Ok(()) => test_new(alloc, ring, entries),
            Err(fault) => Err(fault),
        },
        Err(fault) => Err(fault),
    }
}

/// Tests whether a history may begin with the state under this ring, whatever the key of the seal is; otherwise it
/// reports the state's first damage.
pub fn test_base(alloc: Global, ring: &Keyring, base: &Base) -> Result<(), AdmitFault>
    ensures { (key : List ℕ) → TellsBase (authority_with key ring.now) base.now result }
{
    if is_base_shaped(base) {
        test_parts(alloc, ring, base)
    } else {
        Err(AdmitFault::Damaged(Damage::Shape))
    }
}
