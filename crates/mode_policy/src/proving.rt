//! The proof of what a table of modes allows.

ghost use Rattle.std.specs.Prelude.{◌≡◌, ◌<◌, ◌≤◌, ◌+◌, if◌then◌else◌, length, take, Some, IfOk, MatchOption, true};
ghost use Rattle.std.specs.List.{slice_get};
ghost use Rattle.bl_syntax.specs.declared.limits.TheConstants.{MOST_STATEMENTS};
ghost use Rattle.proof_term.specs.Proof.{proof_view};
ghost use Rattle.mode_policy.specs.Modes.{digit_of, permits, permitted};
ghost use Rattle.mode_policy.specs.Proofs.{GivesProof, IsOver, StandsAt, mode_proof};
ghost use Rattle.mode_policy.specs.Statements.{rules_of, said_of_all};
ghost use Rattle.mode_policy.specs.declared.entry.FileModes.{FileModes as File};

use crate::entry::FileModes;
use crate::modes::{Class, permits};
use crate::table::ModeTable;
use bl_syntax::limits::MOST_STATEMENTS;
use bl_syntax::{NoMemory, NodeId, Perm, Principal, Term};
use proof_term::{Proof, ProofTree};
use std::alloc::Global;

/// The proof of what a table allows, and the numbers of the two statements that it cites: that of the principal's class, and that of
/// the rule for it.
#[derive(Debug, Drop)]
pub struct ModeProof {
    pub class_number: usize,
    pub rule_number: usize,
    pub proof: ProofTree,
}

// 1 if the digit has the bit of the permission, else 0.
fn bit(digit: u8, perm: Perm) -> usize
    ensures bit { result ≡ (if permits digit perm then 1 else 0) }
    ensures small { result ≤ 1 }
{
    if permits(digit, perm) { 1 } else { 0 }
}

// How many permissions the digit has.
fn count_of(digit: u8) -> usize
    ensures count { result ≡ length (permitted digit) }
    ensures small { result ≤ 3 }
{
    bit(digit, Perm::Read) + bit(digit, Perm::Write) + bit(digit, Perm::Execute)
}

// Where the permission stands among those of the digit.
fn place_in(digit: u8, perm: Perm) -> usize
    ensures place { permits digit perm ≡ true → slice_get (permitted digit) result ≡ Some perm }
    ensures small { result ≤ 2 }
{
    match perm {
        Perm::Read => 0,
        Perm::Write => bit(digit, Perm::Read),
        _ => bit(digit, Perm::Read) + bit(digit, Perm::Write),
    }
}

// How many rules there are for the file.
fn rule_count(f: &FileModes) -> usize
    ensures count { result ≡ length (rules_of f.now) }
    ensures small { result ≤ 9 }
{
    count_of(f.modes.owner) + count_of(f.modes.group) + count_of(f.modes.other)
}

// Where the rule of the class for the permission stands among those for the file.
fn rule_place(f: &FileModes, class: Class, perm: Perm) -> usize
    ensures small { result ≤ 8 }
    ensures place { StandsAt f.now class perm result }
{
    let place = place_in(f.modes.digit(class), perm);
    match class {
        Class::Owner => place,
        Class::Group => count_of(f.modes.owner) + place,
        Class::Other => count_of(f.modes.owner) + count_of(f.modes.group) + place,
    }
}

// The proof for the principal.
fn proof_for(alloc: Global, who: &Principal) -> Result<ProofTree, NoMemory>
    ensures { IfOk result (λ p. p ≡ mode_proof who.now) }
{
    let of_class = Box::new(alloc, Proof::Init(2))?;
    let condition = Box::new(
        alloc,
        Proof::AndR(of_class, Box::new(alloc, Proof::InterR)?),
    )?;
    let last = Box::new(alloc, Proof::Init(5))?;
    let rule = Box::new(
        alloc,
        Proof::ImpL(4, Term::Ctime, Term::Ctime, condition, last),
    )?;
    let instance = Box::new(alloc, Proof::ForallL(3, Term::Prin(*who), rule))?;
    let second = Box::new(alloc, Proof::Claim(1, instance))?;
    let first = Box::new(alloc, Proof::Claim(0, second))?;
    let whole = Box::new(alloc, Proof::SaysR(first))?;
    Ok(ProofTree::new(whole).unwrap())
}

// How many statements come before those on the file of that place; none if there are more than 4,096.
fn said_before(table: &ModeTable, place: usize) -> Option<usize>
    requires { place ≤ length table.now.files }
    ensures { MatchOption result (IsOver table.now) (λ n. (n ≡ length (said_of_all table.now (take place table.now.files))) × (n ≤ MOST_STATEMENTS)) }
{
    let principals = table.principals().len();
    let mut count = 0;
    for before in 0..place {
        if MOST_STATEMENTS < principals {
            return None;
        }
        count += principals + rule_count(&table.file(before));
        if MOST_STATEMENTS < count {
            return None;
        }
    }
    Some(count)
}

/// The proof that the principal may have the permission on the file, with the numbers of the two statements of the table that it
/// cites; none exactly if the table does not allow it, or has more than 4,096 statements. The verifier accepts it with
/// the owner of the file as its only condition on the state.
pub fn proof_of(
    alloc: Global,
    table: &ModeTable,
    who: &Principal,
    file: NodeId,
    perm: Perm,
) -> Result<Option<ModeProof>, NoMemory>
    ensures { IfOk result (GivesProof table.now who.now file perm) }
{
    let Some(place) = table.find_principal(who) else {
        return Ok(None);
    };
    let Some(file_place) = table.find_file(file) else {
        return Ok(None);
    };
    let f = table.file(file_place as usize);
    let class = table.class_of(&f, who);
    if !permits(f.modes.digit(class), perm) {
        return Ok(None);
    }
    let Some(_all) = said_before(table, table.file_count()) else {
        return Ok(None);
    };
    let Some(before) = said_before(table, file_place as usize) else {
        return Ok(None);
    };
    let principals = table.principals().len();
    Ok(Some(ModeProof {
        class_number: before + place as usize + 1,
        rule_number: before + (principals + rule_place(&f, class, perm)) + 1,
        proof: proof_for(alloc, who)?,
    }))
}
