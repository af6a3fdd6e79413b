//! Writers of canonical bytes. Each adds the one spelling of its value at the end, or nothing.

ghost use Rattle.std.specs.Prelude.{◌≡◌, ◌≤◌, ◌∷◌, ◌++◌, OnOk, OnErr, length};
ghost use Rattle.std.specs.List.{AllByRecursion, flat_map};
ghost use Rattle.bl_syntax.specs.BeginsWith.{BeginsWith};
ghost use Rattle.bl_syntax.specs.Terms.{HasTimeInRange};
ghost use Rattle.bl_syntax.specs.Grant.{IsGrant, IsTimeCondition, IsStateCondition};
ghost use Rattle.bl_syntax.specs.WellSorted.{terms_of_state};
ghost use Rattle.bl_syntax.specs.FormulaSpelling.{state_spelling};
ghost use Rattle.procap.specs.GrantSpelling.{goal_spelling, time_condition_spelling, list_spelling, version_of, name_spelling, names_spelling, parts_spelling, grant_spelling, IsSpellableGoal, IsSpellableTime, IsSpellableState, IsSpellableName, IsSpellableGrant};
ghost use Rattle.procap.specs.Procap.{procap_spelling, IsSpellableProcap};

use crate::procap::Procap;
use bl_syntax::fields::{permission_code, u32_bytes, u64_bytes};
use bl_syntax::limits::{MOST_CITED, MOST_CONDITIONS};
use bl_syntax::{Bytes, Constraint, Goal, Grant, NoMemory, StatePred, write_name, write_term};

/// Adds the bytes of a condition on time, or a front of them.
#[tactic(auto, using(bl_syntax::proofs::BeginsWithLemmas::writing), unfolding(crate::specs::GrantSpelling::time_condition_spelling))]
fn add_time(c: &Constraint, out: &mut Bytes) -> Result<(), NoMemory>
    requires low { HasTimeInRange c.now.low }
    requires high { HasTimeInRange c.now.high }
    ensures ok { OnOk result (out.new ≡ out.old ++ time_condition_spelling c.now) }
    ensures spelled { OnOk result (IsSpellableTime c.now) }
    ensures err { OnErr result (BeginsWith out.new out.old) }
{
    write_term(&c.low, out)?;
    write_term(&c.high, out)
}

/// Adds the bytes of a condition on the server's state, or a front of them.
#[tactic(auto, using(bl_syntax::proofs::BeginsWithLemmas::writing), unfolding(bl_syntax::specs::FormulaSpelling::state_spelling))]
fn add_state(s: &StatePred, out: &mut Bytes) -> Result<(), NoMemory>
    requires { AllByRecursion HasTimeInRange (terms_of_state s.now) }
    ensures ok { OnOk result (out.new ≡ out.old ++ state_spelling s.now) }
    ensures spelled { OnOk result (IsSpellableState s.now) }
    ensures err { OnErr result (BeginsWith out.new out.old) }
{
    match s {
        StatePred::Owner(file, owner) => {
            out.push(18)?;
            write_term(file, out)?;
            write_term(owner, out)
        }
        StatePred::HasXattr(file, name, value) => {
            out.push(19)?;
            write_term(file, out)?;
            write_term(name, out)?;
            write_term(value, out)
        }
        StatePred::InDir(file, directory) => {
            out.push(20)?;
            write_term(file, out)?;
            write_term(directory, out)
        }
    }
}

/// Adds the bytes of a goal, or a front of them.
#[tactic(auto, using(bl_syntax::proofs::BeginsWithLemmas::writing), unfolding(crate::specs::GrantSpelling::goal_spelling))]
fn add_goal(goal: &Goal, out: &mut Bytes) -> Result<(), NoMemory>
    ensures ok { OnOk result (out.new ≡ out.old ++ goal_spelling goal.now) }
    ensures spelled { OnOk result (IsSpellableGoal goal.now) }
    ensures err { OnErr result (BeginsWith out.new out.old) }
{
    write_name(&goal.who, out)?;
    out.extend(&u64_bytes(goal.file.0))?;
    out.push(permission_code(goal.perm))
}

/// Adds the number of the conditions on time, and their bytes, or a front of them.
#[tactic(auto, using(bl_syntax::proofs::BeginsWithLemmas::writing))]
fn add_times(times: &[Constraint], out: &mut Bytes) -> Result<(), NoMemory>
    requires few { length times.now ≤ MOST_CONDITIONS }
    requires conditions { AllByRecursion IsTimeCondition times.now }
    ensures ok { OnOk result (out.new ≡ out.old ++ list_spelling time_condition_spelling times.now) }
    ensures spelled { OnOk result (AllByRecursion IsSpellableTime times.now) }
    ensures err { OnErr result (BeginsWith out.new out.old) }
{
    out.push(times.len() as u8)?;
    add_each_time(times, out)
}

/// Adds the bytes of each condition, or a front of them.
#[tactic(auto, using(bl_syntax::proofs::BeginsWithLemmas::writing))]
fn add_each_time(times: &[Constraint], out: &mut Bytes) -> Result<(), NoMemory>
    requires { AllByRecursion IsTimeCondition times.now }
    ensures ok { OnOk result (out.new ≡ out.old ++ flat_map time_condition_spelling times.now) }
    ensures spelled { OnOk result (AllByRecursion IsSpellableTime times.now) }
    ensures err { OnErr result (BeginsWith out.new out.old) }
{
    match times {
        [] => Ok(()),
        [first, others @ ..] => {
            add_time(first, out)?;
            add_each_time(others, out)
        }
    }
}

/// Adds the number of the conditions on the server's state, and their bytes, or a front of them.
#[tactic(auto, using(bl_syntax::proofs::BeginsWithLemmas::writing))]
fn add_states(states: &[StatePred], out: &mut Bytes) -> Result<(), NoMemory>
    requires few { length states.now ≤ MOST_CONDITIONS }
    requires conditions { AllByRecursion IsStateCondition states.now }
    ensures ok { OnOk result (out.new ≡ out.old ++ list_spelling state_spelling states.now) }
    ensures spelled { OnOk result (AllByRecursion IsSpellableState states.now) }
    ensures err { OnErr result (BeginsWith out.new out.old) }
{
    out.push(states.len() as u8)?;
    add_each_state(states, out)
}

/// Adds the bytes of each condition, or a front of them.
#[tactic(auto, using(bl_syntax::proofs::BeginsWithLemmas::writing))]
fn add_each_state(states: &[StatePred], out: &mut Bytes) -> Result<(), NoMemory>
    requires { AllByRecursion IsStateCondition states.now }
    ensures ok { OnOk result (out.new ≡ out.old ++ flat_map state_spelling states.now) }
    ensures spelled { OnOk result (AllByRecursion IsSpellableState states.now) }
    ensures err { OnErr result (BeginsWith out.new out.old) }
{
    match states {
        [] => Ok(()),
        [first, others @ ..] => {
            add_state(first, out)?;
            add_each_state(others, out)
        }
    }
}

/// The version of the grants that name these statements.
pub(crate) fn version_of(numbers: &[u32]) -> u8
    ensures { result ≡ version_of numbers.now }
{
    match numbers {
        [] => 1,
        [_, ..] => 2,
    }
}

/// Adds the byte of grants, the version, and the bytes of the goal, or a front of them.
#[tactic(auto, using(bl_syntax::proofs::BeginsWithLemmas::writing))]
fn add_head(g: &Grant, out: &mut Bytes) -> Result<(), NoMemory>
    ensures ok { OnOk result (out.new ≡ out.old ++ 71 ∷ version_of g.now.cited ∷ goal_spelling g.now.goal) }
    ensures spelled { OnOk result (IsSpellableGoal g.now.goal) }
    ensures err { OnErr result (BeginsWith out.new out.old) }
{
    out.extend(&[71, version_of(g.cited())])?;
    add_goal(&g.goal(), out)
}

/// Adds the number of the statements that a grant names, and the number of each, or a front of them; nothing if it names
/// none.
#[tactic(auto, using(bl_syntax::proofs::BeginsWithLemmas::writing))]
fn add_names(numbers: &[u32], out: &mut Bytes) -> Result<(), NoMemory>
    requires { length numbers.now ≤ MOST_CITED }
    ensures ok { OnOk result (out.new ≡ out.old ++ names_spelling numbers.now) }
    ensures spelled { OnOk result (AllByRecursion IsSpellableName numbers.now) }
    ensures err { OnErr result (BeginsWith out.new out.old) }
{
    match numbers {
        [] => Ok(()),
        [_, ..] => {
            out.push(numbers.len() as u8)?;
            add_each_name(numbers, out)
        }
    }
}

/// Adds the bytes of each number, or a front of them.
#[tactic(auto, using(bl_syntax::proofs::BeginsWithLemmas::writing))]
fn add_each_name(numbers: &[u32], out: &mut Bytes) -> Result<(), NoMemory>
    ensures ok { OnOk result (out.new ≡ out.old ++ flat_map name_spelling numbers.now) }
    ensures spelled { OnOk result (AllByRecursion IsSpellableName numbers.now) }
    ensures err { OnErr result (BeginsWith out.new out.old) }
{
    match numbers {
        [] => Ok(()),
        [first, others @ ..] => {
            out.extend(&u32_bytes(*first))?;
            add_each_name(others, out)
        }
    }
}

/// Adds the bytes of the conditions of a grant, and of the statements that it names, or a front of them.
#[tactic(auto, using(bl_syntax::proofs::BeginsWithLemmas::writing))]
fn add_parts(g: &Grant, out: &mut Bytes) -> Result<(), NoMemory>
    ensures ok { OnOk result (out.new ≡ out.old ++ parts_spelling g.now) }
    ensures times { OnOk result (AllByRecursion IsSpellableTime g.now.times) }
    ensures states { OnOk result (AllByRecursion IsSpellableState g.now.states) }
    ensures names { OnOk result (AllByRecursion IsSpellableName g.now.cited) }
    ensures kept { IsGrant g.now }
    ensures err { OnErr result (BeginsWith out.new out.old) }
{
    add_times(g.times(), out)?;
    add_states(g.states(), out)?;
    add_names(g.cited(), out)
}

/// Adds the bytes of a grant, or a front of them.
#[tactic(auto, using(bl_syntax::proofs::BeginsWithLemmas::writing), unfolding(crate::specs::GrantSpelling::grant_spelling))]
fn add_grant(g: &Grant, out: &mut Bytes) -> Result<(), NoMemory>
    ensures ok { OnOk result (out.new ≡ out.old ++ grant_spelling g.now) }
    ensures spelled { OnOk result (IsSpellableGrant g.now) }
    ensures err { OnErr result (BeginsWith out.new out.old) }
{
    add_head(g, out)?;
    add_parts(g, out)
}

/// Adds the bytes of a procap, or a front of them.
#[tactic(auto, using(bl_syntax::proofs::BeginsWithLemmas::writing), unfolding(crate::specs::Procap::procap_spelling))]
fn add_procap(p: &Procap, out: &mut Bytes) -> Result<(), NoMemory>
    ensures ok { OnOk result (out.new ≡ out.old ++ procap_spelling p.now) }
    ensures spelled { OnOk result (IsSpellableProcap p.now) }
    ensures err { OnErr result (BeginsWith out.new out.old) }
{
    add_grant(&p.grant, out)?;
    out.extend(&p.tag)
}

/// Adds the bytes of a grant.
pub fn write_grant(g: &Grant, out: &mut Bytes) -> Result<(), NoMemory>
    ensures ok { OnOk result (out.new ≡ out.old ++ grant_spelling g.now) }
    ensures spelled { OnOk result (IsSpellableGrant g.now) }
    ensures err { OnErr result (out.new ≡ out.old) }
{
    let len = out.len();
    let added = add_grant(g, out);
    if added.is_err() {
        out.truncate(len);
    }
    added
}

/// Adds the bytes of a procap.
pub fn write_procap(p: &Procap, out: &mut Bytes) -> Result<(), NoMemory>
    ensures ok { OnOk result (out.new ≡ out.old ++ procap_spelling p.now) }
    ensures spelled { OnOk result (IsSpellableProcap p.now) }
    ensures err { OnErr result (out.new ≡ out.old) }
{
    let len = out.len();
    let added = add_procap(p, out);
    if added.is_err() {
        out.truncate(len);
    }
    added
}
