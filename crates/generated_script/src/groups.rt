//! The lines of a user before the rounds, and those of a round. If memory runs out, what was written is of no use.
#![tactic(auto, using(bl_syntax::proofs::BeginsWithLemmas::writing))]

ghost use Rattle.std.specs.Prelude.{◌≡◌, ◌≤◌, ◌<◌, ◌^◌, ◌++◌, OnOk};
ghost use Rattle.generated_script.specs.Script.{again_lines, create_lines, give_lines, kind_lines, prove_lines, root_lines, round_lines, write_lines};

use crate::drawing::{Kind, Round};
use crate::lines::{
    put_admin, put_at, put_chown, put_create, put_govern_proof, put_owner_proof, put_root,
    put_root_proof, put_user, put_write,
};
use bl_syntax::{Bytes, NoMemory};

/// How many issues there are before the first round.
pub const FIRST_ISSUES: u64 = 8;

/// Writes that a user may write the root, and how it gets the procap for it.
#[tactic(auto, using(bl_syntax::proofs::BeginsWithLemmas::writing), unfolding(crate::specs::Script::root_lines))]
pub fn put_root_lines(out: &mut Bytes, user: u64) -> Result<(), NoMemory>
    requires { user < 8 }
    ensures { OnOk result (out.new ≡ out.old ++ root_lines user) }
{
    put_root(out, user)?;
    put_root_proof(out, user)
}

// Writes how a user makes a file that is named after the round.
#[tactic(auto, using(bl_syntax::proofs::BeginsWithLemmas::writing), unfolding(crate::specs::Script::create_lines))]
fn put_create_lines(out: &mut Bytes, user: u64, number: u64) -> Result<(), NoMemory>
    requires { user < 8 }
    ensures { OnOk result (out.new ≡ out.old ++ create_lines user number) }
{
    put_user(out, user)?;
    put_create(out, number, user + 1)
}

// Writes how a user writes the number of the round into a file.
#[tactic(auto, using(bl_syntax::proofs::BeginsWithLemmas::writing), unfolding(crate::specs::Script::write_lines))]
fn put_write_lines(
    out: &mut Bytes,
    user: u64,
    file: u64,
    number: u64,
    issue: u64,
) -> Result<(), NoMemory>
    ensures { OnOk result (out.new ≡ out.old ++ write_lines user file number issue) }
{
    put_user(out, user)?;
    put_write(out, file, number, issue)
}

// Writes how a user proves that it may write a file that it owns, and writes.
#[tactic(auto, using(bl_syntax::proofs::BeginsWithLemmas::writing), unfolding(crate::specs::Script::prove_lines))]
fn put_prove_lines(
    out: &mut Bytes,
    user: u64,
    file: u64,
    number: u64,
    issue: u64,
) -> Result<(), NoMemory>
    ensures { OnOk result (out.new ≡ out.old ++ prove_lines user file number issue) }
{
    put_owner_proof(out, user, file)?;
    put_write_lines(out, user, file, number, issue)
}

// Writes how a user writes by the procap of an issue that a round has made; it makes a file if there is none.
#[tactic(auto, using(bl_syntax::proofs::BeginsWithLemmas::writing), unfolding(crate::specs::Script::again_lines))]
fn put_again_lines(out: &mut Bytes, round: &Round, number: u64, issues: u64) -> Result<(), NoMemory>
    requires user { round.now.user < 8 }
    requires issues { 8 ≤ issues }
    ensures { OnOk result (out.new ≡ out.old ++ again_lines round.now number issues) }
{
    if issues == FIRST_ISSUES {
        return put_create_lines(out, round.user, number);
    }
    let issue = 9 + round.choice % (issues - FIRST_ISSUES);
    put_write_lines(out, round.user, round.file, number, issue)
}

// Writes how `admin` gives a file to a user.
#[tactic(auto, using(bl_syntax::proofs::BeginsWithLemmas::writing), unfolding(crate::specs::Script::give_lines))]
fn put_give_lines(out: &mut Bytes, file: u64, user: u64, issue: u64) -> Result<(), NoMemory>
    ensures { OnOk result (out.new ≡ out.old ++ give_lines file user issue) }
{
    put_govern_proof(out, file)?;
    put_admin(out)?;
    put_chown(out, file, user, issue)
}

// Writes the lines of a round after its time, if there were so many issues before it.
fn put_kind_lines(out: &mut Bytes, round: &Round, number: u64, issues: u64) -> Result<(), NoMemory>
    requires user { round.now.user < 8 }
    requires issues { 8 ≤ issues }
    requires few { issues < 2 ^ 32 }
    ensures { OnOk result (out.new ≡ out.old ++ kind_lines round.now.kind round.now number issues) }
{
    match round.kind {
        Kind::Create => put_create_lines(out, round.user, number),
        Kind::Prove => put_prove_lines(out, round.user, round.file, number, issues + 1),
        Kind::Again => put_again_lines(out, round, number, issues),
        Kind::Give => put_give_lines(out, round.file, round.choice, issues + 1),
    }
}

/// Writes the lines of the round of that number, if there were so many issues before it.
#[tactic(auto, using(bl_syntax::proofs::BeginsWithLemmas::writing), unfolding(crate::specs::Script::round_lines))]
pub fn put_round_lines(
    out: &mut Bytes,
    round: &Round,
    number: u64,
    issues: u64,
) -> Result<(), NoMemory>
    requires user { round.now.user < 8 }
    requires number { number < 2 ^ 32 }
    requires issues { 8 ≤ issues }
    requires few { issues < 2 ^ 32 }
    ensures { OnOk result (out.new ≡ out.old ++ round_lines round.now number issues) }
{
    put_at(out, 1000 + 10 * number)?;
    put_kind_lines(out, round, number, issues)
}
