//! The bytes of a grant as they are fed to a keyed text. Nothing here takes memory.

ghost use Rattle.std.specs.Prelude.{◌≡◌, ◌≤◌, ◌∷◌, ◌++◌, length};
ghost use Rattle.bl_syntax.specs.Terms.{HasTimeInRange};
ghost use Rattle.bl_syntax.specs.Grant.{IsTimeCondition, IsStateCondition};
ghost use Rattle.bl_syntax.specs.WellSorted.{terms_of_state};
ghost use Rattle.bl_syntax.specs.Spelling.{term_spelling, time_spelling, IsSpellable};
ghost use Rattle.bl_syntax.specs.FormulaSpelling.{state_spelling};
ghost use Rattle.std.specs.List.{AllByRecursion, flat_map};
ghost use Rattle.procap.specs.GrantSpelling.{goal_spelling, time_condition_spelling, list_spelling, version_of, name_spelling, names_spelling, grant_spelling, IsSpellableGoal, IsSpellableTime, IsSpellableState, IsSpellableName, IsSpellableGrant};

use crate::writing::version_of;
use bl_syntax::fields::{permission_code, second_bytes, u32_bytes, u64_bytes};
use bl_syntax::limits::{MOST_CITED, MOST_CONDITIONS};
use bl_syntax::{Constraint, Goal, Grant, StatePred, Term, TimePoint};
use pcfs_hmac::Mac;

/// Adds the bytes of a term.
#[tactic(auto, unfolding(bl_syntax::specs::Spelling::term_spelling, bl_syntax::specs::Spelling::time_spelling))]
fn feed_term(text: &mut Mac, t: &Term)
    requires { HasTimeInRange t.now }
    ensures fed { text.new ≡ record text.old { text = text.old.text ++ term_spelling t.now } }
    ensures spelled { IsSpellable t.now }
{
    match t {
        Term::Prin(name) => {
            let name = name.bytes();
            text.update(&[1, name.len() as u8]);
            text.update(name);
        }
        Term::File(node) => {
            text.update(&[2]);
            text.update(&u64_bytes(node.0));
        }
        Term::Perm(permission) => text.update(&[3, permission_code(*permission)]),
        Term::Time(TimePoint::NegInf) => text.update(&[4, 0]),
        Term::Time(TimePoint::At(second)) => {
            text.update(&[4, 1]);
            text.update(&second_bytes(*second));
        }
        Term::Time(TimePoint::PosInf) => text.update(&[4, 2]),
        Term::Text(constant) => {
            let constant = constant.bytes();
            text.update(&[5, constant.len() as u8]);
            text.update(constant);
        }
        Term::Ctime => text.update(&[6]),
        Term::Param(number) => {
            text.update(&[7]);
            text.update(&u32_bytes(*number));
        }
        Term::Bound(number) => {
            text.update(&[8]);
            text.update(&u32_bytes(*number));
        }
    }
}

/// Adds the bytes of a condition on time.
#[tactic(auto, unfolding(crate::specs::GrantSpelling::time_condition_spelling))]
fn feed_time(text: &mut Mac, c: &Constraint)
    requires low { HasTimeInRange c.now.low }
    requires high { HasTimeInRange c.now.high }
    ensures fed { text.new ≡ record text.old { text = text.old.text ++ time_condition_spelling c.now } }
    ensures spelled { IsSpellableTime c.now }
{
    feed_term(text, &c.low);
    feed_term(text, &c.high);
}

/// Adds the bytes of a condition on the server's state.
#[tactic(auto, unfolding(bl_syntax::specs::FormulaSpelling::state_spelling))]
fn feed_state(text: &mut Mac, s: &StatePred)
    requires { AllByRecursion HasTimeInRange (terms_of_state s.now) }
    ensures fed { text.new ≡ record text.old { text = text.old.text ++ state_spelling s.now } }
    ensures spelled { IsSpellableState s.now }
{
    match s {
        StatePred::Owner(file, owner) => {
            text.update(&[18]);
            feed_term(text, file);
            feed_term(text, owner);
        }
        StatePred::HasXattr(file, name, value) => {
            text.update(&[19]);
            feed_term(text, file);
            feed_term(text, name);
            feed_term(text, value);
        }
        StatePred::InDir(file, directory) => {
            text.update(&[20]);
            feed_term(text, file);
            feed_term(text, directory);
        }
    }
}

/// Adds the bytes of a goal.
#[tactic(auto, unfolding(crate::specs::GrantSpelling::goal_spelling))]
fn feed_goal(text: &mut Mac, goal: &Goal)
    ensures fed { text.new ≡ record text.old { text = text.old.text ++ goal_spelling goal.now } }
    ensures spelled { IsSpellableGoal goal.now }
{
    let name = goal.who.bytes();
    text.update(&[name.len() as u8]);
    text.update(name);
    text.update(&u64_bytes(goal.file.0));
    text.update(&[permission_code(goal.perm)]);
}

/// Adds the number of the conditions on time, and their bytes.
fn feed_times(text: &mut Mac, times: &[Constraint])
    requires few { length times.now ≤ MOST_CONDITIONS }
    requires conditions { AllByRecursion IsTimeCondition times.now }
    ensures fed { text.new ≡ record text.old { text = text.old.text ++ list_spelling time_condition_spelling times.now } }
    ensures spelled { AllByRecursion IsSpellableTime times.now }
{
    text.update(&[times.len() as u8]);
    feed_each_time(text, times);
}

/// Adds the bytes of each condition.
fn feed_each_time(text: &mut Mac, times: &[Constraint])
    requires { AllByRecursion IsTimeCondition times.now }
    ensures fed { text.new ≡ record text.old { text = text.old.text ++ flat_map time_condition_spelling times.now } }
    ensures spelled { AllByRecursion IsSpellableTime times.now }
{
    match times {
        [] => {}
        [first, others @ ..] => {
            feed_time(text, first);
            feed_each_time(text, others);
        }
    }
}

/// Adds the number of the conditions on the server's state, and their bytes.
fn feed_states(text: &mut Mac, states: &[StatePred])
    requires few { length states.now ≤ MOST_CONDITIONS }
    requires conditions { AllByRecursion IsStateCondition states.now }
    ensures fed { text.new ≡ record text.old { text = text.old.text ++ list_spelling state_spelling states.now } }
    ensures spelled { AllByRecursion IsSpellableState states.now }
{
    text.update(&[states.len() as u8]);
    feed_each_state(text, states);
}

/// Adds the bytes of each condition.
fn feed_each_state(text: &mut Mac, states: &[StatePred])
    requires { AllByRecursion IsStateCondition states.now }
    ensures fed { text.new ≡ record text.old { text = text.old.text ++ flat_map state_spelling states.now } }
    ensures spelled { AllByRecursion IsSpellableState states.now }
{
    match states {
        [] => {}
        [first, others @ ..] => {
            feed_state(text, first);
            feed_each_state(text, others);
        }
    }
}

/// Adds the bytes of a grant.
#[tactic(auto, unfolding(crate::specs::GrantSpelling::grant_spelling))]
pub(crate) fn feed_grant(text: &mut Mac, g: &Grant)
    ensures fed { text.new ≡ record text.old { text = text.old.text ++ grant_spelling g.now } }
    ensures spelled { IsSpellableGrant g.now }
{
    feed_head(text, g);
    feed_times(text, g.times());
    feed_states(text, g.states());
    feed_names(text, g.cited());
}

/// Adds the byte of grants, the version, and the bytes of the goal.
fn feed_head(text: &mut Mac, g: &Grant)
    ensures fed { text.new ≡ record text.old { text = text.old.text ++ 71 ∷ version_of g.now.cited ∷ goal_spelling g.now.goal } }
    ensures spelled { IsSpellableGoal g.now.goal }
{
    text.update(&[71, version_of(g.cited())]);
    feed_goal(text, &g.goal());
}

/// Adds the number of the statements that a grant names, and the number of each, or nothing if it names none.
fn feed_names(text: &mut Mac, numbers: &[u32])
    requires { length numbers.now ≤ MOST_CITED }
    ensures fed { text.new ≡ record text.old { text = text.old.text ++ names_spelling numbers.now } }
    ensures spelled { AllByRecursion IsSpellableName numbers.now }
{
    match numbers {
        [] => {}
        [_, ..] => {
            text.update(&[numbers.len() as u8]);
            feed_each_name(text, numbers);
        }
    }
}

/// Adds the bytes of each number.
fn feed_each_name(text: &mut Mac, numbers: &[u32])
    ensures fed { text.new ≡ record text.old { text = text.old.text ++ flat_map name_spelling numbers.now } }
    ensures spelled { AllByRecursion IsSpellableName numbers.now }
{
    match numbers {
        [] => {}
        [first, others @ ..] => {
            text.update(&u32_bytes(*first));
            feed_each_name(text, others);
        }
    }
}
