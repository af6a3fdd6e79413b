//! The whole script. If memory runs out, what was written is dropped.

ghost use Rattle.std.specs.Prelude.{◌≡◌, ◌≤◌, ◌<◌, ◌+◌, ◌^◌, ◌++◌, IfOk, OnOk};
ghost use Rattle.generated_script.specs.Script.{front_text, issues_after, rounds_text, script_text, users_lines};

use crate::drawing::{Kind, round_from};
use crate::groups::{FIRST_ISSUES, put_root_lines, put_round_lines};
use crate::lines::{put_at, put_govern, put_owner};
use bl_syntax::{Bytes, NoMemory};
use std::alloc::Global;

/// The most rounds that a script has.
pub const MOST_ROUNDS: u64 = 20_000;

/// How many users there are.
const USERS: u64 = 8;

// Writes the lines of each user before the rounds.
fn put_users(out: &mut Bytes) -> Result<(), NoMemory>
    ensures { OnOk result (out.new ≡ out.old ++ users_lines 8) }
{
    for user in 0..USERS {
        put_root_lines(out, user)?;
    }
    Ok(())
}

// Writes what stands before the first round.
#[tactic(auto, using(bl_syntax::proofs::BeginsWithLemmas::writing), unfolding(crate::specs::Script::front_text))]
fn put_front(out: &mut Bytes) -> Result<(), NoMemory>
    ensures { OnOk result (out.new ≡ out.old ++ front_text) }
{
    put_at(out, 1000)?;
    put_users(out)?;
    put_owner(out)?;
    put_govern(out)
}

// How many issues there are after a round of that kind.
fn issues_after(kind: Kind, issues: u64) -> u64
    requires { issues < 2 ^ 32 }
    ensures same { result ≡ issues_after kind issues }
    ensures no_fewer { issues ≤ result }
    ensures one { result ≤ issues + 1 }
{
    match kind {
        Kind::Create | Kind::Again => issues,
        Kind::Prove | Kind::Give => issues + 1,
    }
}

// Writes so many rounds with that seed.
fn put_rounds(out: &mut Bytes, rounds: u64, seed: u64) -> Result<(), NoMemory>
    requires { rounds ≤ MOST_ROUNDS }
    ensures { OnOk result (out.new ≡ out.old ++ rounds_text 1 rounds seed 8) }
{
    let mut state = seed;
    let mut issues = FIRST_ISSUES;
    for place in 0..rounds {
        let round = round_from(state);
        put_round_lines(out, &round, place + 1, issues)?;
        state = round.state;
        issues = issues_after(round.kind, issues);
    }
    Ok(())
}

// Writes the script of so many rounds with that seed.
#[tactic(auto, using(bl_syntax::proofs::BeginsWithLemmas::writing), unfolding(crate::specs::Script::script_text))]
fn put_script(out: &mut Bytes, rounds: u64, seed: u64) -> Result<(), NoMemory>
    requires { rounds ≤ MOST_ROUNDS }
    ensures { OnOk result (out.new ≡ out.old ++ script_text rounds seed) }
{
    put_front(out)?;
    put_rounds(out, rounds, seed)
}

/// The script of so many rounds with that seed.
pub fn generated_script(alloc: Global, rounds: u64, seed: u64) -> Result<Bytes, NoMemory>
    requires { rounds ≤ MOST_ROUNDS }
    ensures { IfOk result (λ text. text ≡ script_text rounds seed) }
{
    let mut text = Bytes::new(alloc);
    put_script(&mut text, rounds, seed)?;
    Ok(text)
}
