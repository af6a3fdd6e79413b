//! Whether bytes are those of a grant. Nothing here takes memory.
//!
//! Each function but the last gives what is after the bytes of its value; none exactly if the bytes given to it do not
//! begin with them.

ghost use Rattle.std.specs.Prelude.{◌≡◌, ◌↔◌, ◌≤◌, ◌∷◌, ◌++◌, IsSome, IsTrue, length};
ghost use Rattle.std.specs.List.{AllByRecursion, flat_map};
ghost use Rattle.bl_syntax.specs.Terms.{HasTimeInRange};
ghost use Rattle.bl_syntax.specs.Grant.{IsGrant, IsTimeCondition, IsStateCondition};
ghost use Rattle.bl_syntax.specs.WellSorted.{terms_of_state};
ghost use Rattle.bl_syntax.specs.Spelling.{term_spelling, IsSpellable};
ghost use Rattle.bl_syntax.specs.FormulaSpelling.{state_spelling};
ghost use Rattle.procap.specs.GrantSpelling.{goal_spelling, time_condition_spelling, list_spelling, version_of, name_spelling, names_spelling, parts_spelling, grant_spelling, IsSpellableGoal, IsSpellableTime, IsSpellableState, IsSpellableName, IsSpellableGrant};
ghost use Rattle.record_parts.specs.Fronts.{after, Gives};

use bl_syntax::fields::{permission_code, second_bytes, u32_bytes, u64_bytes};
use bl_syntax::limits::{MOST_CITED, MOST_CONDITIONS};
use bl_syntax::{Constraint, Goal, Grant, StatePred, Term, TimePoint};

// After these bytes.
#[tactic(auto, unfolding(crate::specs::Fronts::after))]
fn after_bytes<'a>(front: &[u8], bytes: &'a [u8]) -> Option<&'a [u8]>
    ensures { Gives (λ x. x.now) result (after front.now bytes.now) }
{
    match front {
        [] => Some(bytes),
        [first, others @ ..] => match bytes {
            [] => None,
            [byte, rest @ ..] => {
                if *first == *byte {
                    after_bytes(others, rest)
                } else {
                    None
                }
            }
        },
    }
}

// After these bytes, and then those.
#[tactic(auto, using(crate::proofs::FrontLemmas::fronts))]
fn after_both<'a>(first: &[u8], second: &[u8], bytes: &'a [u8]) -> Option<&'a [u8]>
    ensures { Gives (λ x. x.now) result (after (first.now ++ second.now) bytes.now) }
{
    match after_bytes(first, bytes) {
        None => None,
        Some(rest) => after_bytes(second, rest),
    }
}

// After a term.
#[tactic(auto, using(crate::proofs::FrontLemmas::fronts), unfolding(bl_syntax::specs::Spelling::term_spelling, bl_syntax::specs::Spelling::time_spelling))]
fn after_term<'a>(t: &Term, bytes: &'a [u8]) -> Option<&'a [u8]>
    requires { HasTimeInRange t.now }
    ensures rest { Gives (λ x. x.now) result (after (term_spelling t.now) bytes.now) }
    ensures spelled { IsSpellable t.now }
{
    match t {
        Term::Prin(name) => {
            let name = name.bytes();
            after_both(&[1, name.len() as u8], name, bytes)
        }
        Term::File(node) => {
            let number = node.0;
            after_both(&[2], &u64_bytes(number), bytes)
        }
        Term::Perm(permission) => after_bytes(&[3, permission_code(*permission)], bytes),
        Term::Time(TimePoint::NegInf) => after_bytes(&[4, 0], bytes),
        Term::Time(TimePoint::At(second)) => { after_both(&[4, 1], &second_bytes(*second), bytes) }
        Term::Time(TimePoint::PosInf) => after_bytes(&[4, 2], bytes),
        Term::Text(constant) => {
            let constant = constant.bytes();
            after_both(&[5, constant.len() as u8], constant, bytes)
        }
        Term::Ctime => after_bytes(&[6], bytes),
        Term::Param(number) => after_both(&[7], &u32_bytes(*number), bytes),
        Term::Bound(number) => after_both(&[8], &u32_bytes(*number), bytes),
    }
}

// After two terms.
#[tactic(auto, using(crate::proofs::FrontLemmas::fronts))]
fn after_two_terms<'a>(first: &Term, second: &Term, bytes: &'a [u8]) -> Option<&'a [u8]>
    requires first { HasTimeInRange first.now }
    requires second { HasTimeInRange second.now }
    ensures rest { Gives (λ x. x.now) result (after (term_spelling first.now ++ term_spelling second.now) bytes.now) }
    ensures first { IsSome result → IsSpellable first.now }
    ensures second { IsSome result → IsSpellable second.now }
{
    match after_term(first, bytes) {
        None => None,
        Some(rest) => after_term(second, rest),
    }
}

// After a condition on time.
#[tactic(auto, unfolding(procap::specs::GrantSpelling::time_condition_spelling))]
fn after_time<'a>(c: &Constraint, bytes: &'a [u8]) -> Option<&'a [u8]>
    requires { IsTimeCondition c.now }
    ensures rest { Gives (λ x. x.now) result (after (time_condition_spelling c.now) bytes.now) }
    ensures spelled { IsSome result → IsSpellableTime c.now }
{
    after_two_terms(&c.low, &c.high, bytes)
}

// After a condition on the server's state.
#[tactic(auto, using(crate::proofs::FrontLemmas::fronts), unfolding(bl_syntax::specs::FormulaSpelling::state_spelling))]
fn after_state<'a>(s: &StatePred, bytes: &'a [u8]) -> Option<&'a [u8]>
    requires { AllByRecursion HasTimeInRange (terms_of_state s.now) }
    ensures rest { Gives (λ x. x.now) result (after (state_spelling s.now) bytes.now) }
    ensures spelled { IsSome result → IsSpellableState s.now }
{
    match s {
        StatePred::Owner(file, owner) => match after_bytes(&[18], bytes) {
            None => None,
            Some(rest) => after_two_terms(file, owner, rest),
        },
        StatePred::HasXattr(file, name, value) => match after_bytes(&[19], bytes) {
            None => None,
            Some(rest) => match after_term(file, rest) {
                None => None,
                Some(rest) => after_two_terms(name, value, rest),
            },
        },
        StatePred::InDir(file, directory) => match after_bytes(&[20], bytes) {
            None => None,
            Some(rest) => after_two_terms(file, directory, rest),
        },
    }
}

// After a goal.
#[tactic(auto, using(crate::proofs::FrontLemmas::fronts), unfolding(procap::specs::GrantSpelling::goal_spelling))]
fn after_goal<'a>(goal: &Goal, bytes: &'a [u8]) -> Option<&'a [u8]>
    ensures rest { Gives (λ x. x.now) result (after (goal_spelling goal.now) bytes.now) }
    ensures spelled { IsSome result → IsSpellableGoal goal.now }
{
    let name = goal.who.bytes();
    match after_both(&[name.len() as u8], name, bytes) {
        None => None,
        Some(rest) => after_both(&u64_bytes(goal.file.0), &[permission_code(goal.perm)], rest),
    }
}

// After the number of the conditions on time, and each of them.
#[tactic(auto, using(crate::proofs::FrontLemmas::fronts))]
fn after_times<'a>(times: &[Constraint], bytes: &'a [u8]) -> Option<&'a [u8]>
    requires few { length times.now ≤ MOST_CONDITIONS }
    requires conditions { AllByRecursion IsTimeCondition times.now }
    ensures rest { Gives (λ x. x.now) result (after (list_spelling time_condition_spelling times.now) bytes.now) }
    ensures spelled { IsSome result → AllByRecursion IsSpellableTime times.now }
{
    match after_bytes(&[times.len() as u8], bytes) {
        None => None,
        Some(rest) => after_each_time(times, rest),
    }
}

// After each condition.
#[tactic(auto, using(crate::proofs::FrontLemmas::fronts))]
fn after_each_time<'a>(times: &[Constraint], bytes: &'a [u8]) -> Option<&'a [u8]>
    requires { AllByRecursion IsTimeCondition times.now }
    ensures rest { Gives (λ x. x.now) result (after (flat_map time_condition_spelling times.now) bytes.now) }
    ensures spelled { IsSome result → AllByRecursion IsSpellableTime times.now }
{
    match times {
        [] => after_bytes(&[], bytes),
        [first, others @ ..] => match after_time(first, bytes) {
            None => None,
            Some(rest) => after_each_time(others, rest),
        },
    }
}

// After the number of the conditions on the server's state, and each of them.
#[tactic(auto, using(crate::proofs::FrontLemmas::fronts))]
fn after_states<'a>(states: &[StatePred], bytes: &'a [u8]) -> Option<&'a [u8]>
    requires few { length states.now ≤ MOST_CONDITIONS }
    requires conditions { AllByRecursion IsStateCondition states.now }
    ensures rest { Gives (λ x. x.now) result (after (list_spelling state_spelling states.now) bytes.now) }
    ensures spelled { IsSome result → AllByRecursion IsSpellableState states.now }
{
    match after_bytes(&[states.len() as u8], bytes) {
        None => None,
        Some(rest) => after_each_state(states, rest),
    }
}

// After each condition.
#[tactic(auto, using(crate::proofs::FrontLemmas::fronts))]
fn after_each_state<'a>(states: &[StatePred], bytes: &'a [u8]) -> Option<&'a [u8]>
    requires { AllByRecursion IsStateCondition states.now }
    ensures rest { Gives (λ x. x.now) result (after (flat_map state_spelling states.now) bytes.now) }
    ensures spelled { IsSome result → AllByRecursion IsSpellableState states.now }
{
    match states {
        [] => after_bytes(&[], bytes),
        [first, others @ ..] => match after_state(first, bytes) {
            None => None,
            Some(rest) => after_each_state(others, rest),
        },
    }
}

// After the number of the statements that a grant names, and each number; nothing is there of a grant that names none.
#[tactic(auto, using(crate::proofs::FrontLemmas::fronts))]
fn after_names<'a>(numbers: &[u32], bytes: &'a [u8]) -> Option<&'a [u8]>
    requires { length numbers.now ≤ MOST_CITED }
    ensures rest { Gives (λ x. x.now) result (after (names_spelling numbers.now) bytes.now) }
    ensures spelled { IsSome result → AllByRecursion IsSpellableName numbers.now }
{
    match numbers {
        [] => after_bytes(&[], bytes),
        [_, ..] => match after_bytes(&[numbers.len() as u8], bytes) {
            None => None,
            Some(rest) => after_each_name(numbers, rest),
        },
    }
}

// After each number.
#[tactic(auto, using(crate::proofs::FrontLemmas::fronts))]
fn after_each_name<'a>(numbers: &[u32], bytes: &'a [u8]) -> Option<&'a [u8]>
    ensures rest { Gives (λ x. x.now) result (after (flat_map name_spelling numbers.now) bytes.now) }
    ensures spelled { IsSome result → AllByRecursion IsSpellableName numbers.now }
{
    match numbers {
        [] => after_bytes(&[], bytes),
        [first, others @ ..] => match after_bytes(&u32_bytes(*first), bytes) {
            None => None,
            Some(rest) => after_each_name(others, rest),
        },
    }
}

// The version of a grant that names these statements.
fn version_of(numbers: &[u32]) -> u8
    ensures { result ≡ version_of numbers.now }
{
    match numbers {
        [] => 1,
        [_, ..] => 2,
    }
}

// After the byte of grants, the version and the goal.
#[tactic(auto, using(crate::proofs::FrontLemmas::fronts))]
fn after_head<'a>(grant: &Grant, bytes: &'a [u8]) -> Option<&'a [u8]>
    ensures rest { Gives (λ x. x.now) result (after (71 ∷ version_of grant.now.cited ∷ goal_spelling grant.now.goal) bytes.now) }
    ensures spelled { IsSome result → IsSpellableGoal grant.now.goal }
{
    let version = version_of(grant.cited());
    match after_bytes(&[71, version], bytes) {
        None => None,
        Some(rest) => after_goal(&grant.goal(), rest),
    }
}

// After the conditions of a grant, and the statements that it names.
#[tactic(auto, using(crate::proofs::FrontLemmas::fronts))]
fn after_parts<'a>(grant: &Grant, bytes: &'a [u8]) -> Option<&'a [u8]>
    ensures rest { Gives (λ x. x.now) result (after (parts_spelling grant.now) bytes.now) }
    ensures times { IsSome result → AllByRecursion IsSpellableTime grant.now.times }
    ensures states { IsSome result → AllByRecursion IsSpellableState grant.now.states }
    ensures names { IsSome result → AllByRecursion IsSpellableName grant.now.cited }
    ensures kept { IsGrant grant.now }
{
    match after_times(grant.times(), bytes) {
        None => None,
        Some(rest) => match after_states(grant.states(), rest) {
            None => None,
            Some(rest) => after_names(grant.cited(), rest),
        },
    }
}

// After a grant.
#[tactic(auto, using(crate::proofs::FrontLemmas::fronts), unfolding(procap::specs::GrantSpelling::grant_spelling))]
fn after_grant<'a>(grant: &Grant, bytes: &'a [u8]) -> Option<&'a [u8]>
    ensures rest { Gives (λ x. x.now) result (after (grant_spelling grant.now) bytes.now) }
    ensures spelled { IsSome result → IsSpellableGrant grant.now }
{
    match after_head(grant, bytes) {
        None => None,
        Some(rest) => after_parts(grant, rest),
    }
}

/// Whether the bytes are those of the grant.
pub(crate) fn is_grant_spelling(grant: &Grant, bytes: &[u8]) -> bool
    ensures same { IsTrue result ↔ (bytes.now ≡ grant_spelling grant.now) }
    ensures spelled { IsTrue result → IsSpellableGrant grant.now }
{
    match after_grant(grant, bytes) {
        None => false,
        Some(rest) => rest.is_empty(),
    }
}
