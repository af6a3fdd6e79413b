//! Reading grants and procaps.

ghost use Rattle.std.specs.Prelude.{◌≡◌, ◌<◌, ◌≤◌, ◌+◌, ◌-◌, [], IfOk, length};
ghost use Rattle.bl_syntax.specs.Reading.{GivesReading, reading, term_at};
ghost use Rattle.bl_syntax.specs.Citable.{AreNamed};
ghost use Rattle.bl_syntax.specs.Codec.{GivesReadingOrReports, ReadsFront};
ghost use Rattle.procap.specs.GrantSpelling.{grant_spelling, IsSpellableGrant};
ghost use Rattle.procap.specs.GrantReading.{marker_at, goal_at, both_at, time_condition_at, state_terms_at, state_condition_at, is_time_among, is_state_among, may_follow_times, may_follow_states, items_at, count_at, conditions_at, version_at, head_at, rising_at, names_at, versioned_names_at, grant_at};
ghost use Rattle.procap.specs.Procap.{procap_spelling, IsSpellableProcap, procap_at, whole_procap, ReadsWholeProcap};

use crate::procap::Procap;
use bl_syntax::fields::{is_formula_tag, name_at, permission_at, place, term_at, u32_at, u64_at};
use bl_syntax::limits::{MOST_CITED, MOST_CONDITIONS};
use bl_syntax::{
    CodecFault, Constraint, Goal, Grant, NodeId, Numbers, Sequence, StatePred, Term,
    is_state_condition, is_time_condition,
};
use std::alloc::Global;

/// The number of a tag's bytes.
const TAG_LENGTH: usize = 32;

/// A byte that has this one value.
#[tactic(auto, unfolding(crate::specs::GrantReading::marker_at))]
fn marker_at(value: u8, input: usize, bytes: &[u8]) -> Result<&[u8], CodecFault>
    ensures { GivesReading (λ x. x.now) result (marker_at value input bytes.now) }
{
    match bytes {
        [] => Err(CodecFault::Short),
        [byte, rest @ ..] => {
            if *byte == value {
                Ok(rest)
            } else {
                Err(CodecFault::BadTag(place(input, bytes)))
            }
        }
    }
}

/// A goal.
#[tactic(auto, unfolding(crate::specs::GrantReading::goal_at))]
fn goal_at(input: usize, bytes: &[u8]) -> Result<(Goal, &[u8]), CodecFault>
    ensures { GivesReading (λ x. (x.0, x.1.now)) result (goal_at input bytes.now) }
{
    match name_at(input, bytes) {
        Err(fault) => Err(fault),
        Ok((who, rest)) => match u64_at(rest) {
            Err(fault) => Err(fault),
            Ok((number, rest)) => match permission_at(input, rest) {
                Err(fault) => Err(fault),
                Ok((perm, rest)) => Ok((
                    Goal {
                        who,
                        file: NodeId(number),
                        perm,
                    },
                    rest,
                )),
            },
        },
    }
}

/// The version of a grant's bytes.
#[tactic(auto, unfolding(crate::specs::GrantReading::version_at))]
fn version_at(input: usize, bytes: &[u8]) -> Result<(u8, &[u8]), CodecFault>
    ensures { GivesReading (λ x. (x.0, x.1.now)) result (version_at input bytes.now) }
{
    match bytes {
        [] => Err(CodecFault::Short),
        [version, rest @ ..] => {
            if *version == 1 || *version == 2 {
                Ok((*version, rest))
            } else {
                Err(CodecFault::BadTag(place(input, bytes)))
            }
        }
    }
}

/// The byte of grants, the version, and the goal.
#[tactic(auto, unfolding(crate::specs::GrantReading::head_at))]
fn head_at(input: usize, bytes: &[u8]) -> Result<(u8, Goal, &[u8]), CodecFault>
    ensures { GivesReading (λ x. ((x.0, x.1), x.2.now)) result (head_at input bytes.now) }
{
    match marker_at(b'G', input, bytes) {
        Err(fault) => Err(fault),
        Ok(rest) => match version_at(input, rest) {
            Err(fault) => Err(fault),
            Ok((version, rest)) => match goal_at(input, rest) {
                Err(fault) => Err(fault),
                Ok((goal, rest)) => Ok((version, goal, rest)),
            },
        },
    }
}

/// Two terms.
#[tactic(auto, unfolding(crate::specs::GrantReading::both_at))]
fn two_terms_at(input: usize, bytes: &[u8]) -> Result<((Term, Term), &[u8]), CodecFault>
    ensures { GivesReading (λ x. (x.0, x.1.now)) result (both_at term_at term_at input bytes.now) }
{
    match term_at(input, bytes) {
        Err(fault) => Err(fault),
        Ok((first, rest)) => match term_at(input, rest) {
            Err(fault) => Err(fault),
            Ok((second, rest)) => Ok(((first, second), rest)),
        },
    }
}

/// Three terms.
#[tactic(auto, unfolding(crate::specs::GrantReading::both_at))]
fn three_terms_at(input: usize, bytes: &[u8]) -> Result<((Term, (Term, Term)), &[u8]), CodecFault>
    ensures { GivesReading (λ x. (x.0, x.1.now)) result (both_at term_at (both_at term_at term_at) input bytes.now) }
{
    match term_at(input, bytes) {
        Err(fault) => Err(fault),
        Ok((first, rest)) => match two_terms_at(input, rest) {
            Err(fault) => Err(fault),
            Ok((others, rest)) => Ok(((first, others), rest)),
        },
    }
}

/// A condition on time, before it is tested.
#[tactic(auto, unfolding(crate::specs::GrantReading::time_condition_at))]
fn time_condition_at(input: usize, bytes: &[u8]) -> Result<(Constraint, &[u8]), CodecFault>
    ensures { GivesReading (λ x. (x.0, x.1.now)) result (time_condition_at input bytes.now) }
{
    match two_terms_at(input, bytes) {
        Err(fault) => Err(fault),
        Ok(((low, high), rest)) => Ok((Constraint { low, high }, rest)),
    }
}

/// The terms of a condition on the server's state with this tag, which begins at `start`.
#[tactic(auto, unfolding(crate::specs::GrantReading::state_terms_at))]
fn state_terms_at(
    input: usize,
    start: usize,
    tag: u8,
    rest: &[u8],
) -> Result<(StatePred, &[u8]), CodecFault>
    ensures { GivesReading (λ x. (x.0, x.1.now)) result (state_terms_at input start tag rest.now) }
{
    match tag {
        18 => match two_terms_at(input, rest) {
            Err(fault) => Err(fault),
            Ok(((file, owner), rest)) => Ok((StatePred::Owner(file, owner), rest)),
        },
        19 => match three_terms_at(input, rest) {
            Err(fault) => Err(fault),
            Ok(((file, (name, value)), rest)) => Ok((StatePred::HasXattr(file, name, value), rest)),
        },
        20 => match two_terms_at(input, rest) {
            Err(fault) => Err(fault),
            Ok(((file, directory), rest)) => Ok((StatePred::InDir(file, directory), rest)),
        },
        _ => {
            if is_formula_tag(tag) {
                Err(CodecFault::NotCanonical(start))
            } else {
                Err(CodecFault::BadTag(start))
            }
        }
    }
}

/// A condition on the server's state, before it is tested.
#[tactic(auto, unfolding(crate::specs::GrantReading::state_condition_at))]
fn state_condition_at(input: usize, bytes: &[u8]) -> Result<(StatePred, &[u8]), CodecFault>
    ensures { GivesReading (λ x. (x.0, x.1.now)) result (state_condition_at input bytes.now) }
{
    match bytes {
        [] => Err(CodecFault::Short),
        [tag, rest @ ..] => state_terms_at(input, place(input, bytes), *tag, rest),
    }
}

fn is_time_among(before: &[Constraint], c: &Constraint) -> bool
    ensures { result ≡ is_time_among before.now c.now }
{
    before.iter().any(|known| known == c)
}

fn is_state_among(before: &[StatePred], s: &StatePred) -> bool
    ensures { result ≡ is_state_among before.now s.now }
{
    before.iter().any(|known| known == s)
}

/// Whether the condition may stand after these.
fn may_follow_times(before: &[Constraint], c: &Constraint) -> bool
    ensures { result ≡ may_follow_times before.now c.now }
{
    is_time_condition(c) && !is_time_among(before, c)
}

/// Whether the condition may stand after these.
fn may_follow_states(before: &[StatePred], s: &StatePred) -> bool
    ensures { result ≡ may_follow_states before.now s.now }
{
    is_state_condition(s) && !is_state_among(before, s)
}

/// The number of conditions, at most so many.
#[tactic(auto, unfolding(crate::specs::GrantReading::count_at))]
fn count_at(most: usize, input: usize, bytes: &[u8]) -> Result<(usize, &[u8]), CodecFault>
    ensures read { GivesReading (λ x. (x.0, x.1.now)) result (count_at most input bytes.now) }
    ensures few { IfOk result (λ x. x.0 ≤ most) }
{
    match bytes {
        [] => Err(CodecFault::Short),
        [count, rest @ ..] => {
            let count = *count as usize;
            if most < count {
                Err(CodecFault::NotCanonical(place(input, bytes)))
            } else {
                Ok((count, rest))
            }
        }
    }
}

/// So many conditions on time, which the grant gets after its own.
fn add_times_at<'a>(
    grant: &mut Grant,
    count: usize,
    input: usize,
    bytes: &'a [u8],
) -> Result<&'a [u8], CodecFault>
    requires { length grant.old.times + length grant.old.states + count ≤ MOST_CONDITIONS }
    ensures read { GivesReadingOrReports (λ rest. (grant.new.times, rest.now)) result
        (items_at time_condition_at may_follow_times count input grant.old.times bytes.now) }
    ensures others { IfOk result (λ _. grant.new ≡ record grant.old { times = grant.new.times }) }
    ensures counted { IfOk result (λ _. length grant.new.times ≡ length grant.old.times + count) }
{
    if count == 0 {
        return Ok(bytes);
    }
    match time_condition_at(input, bytes) {
        Err(fault) => Err(fault),
        Ok((c, rest)) => {
            if !may_follow_times(grant.times(), &c) {
                return Err(CodecFault::NotCanonical(place(input, bytes)));
            }
            grant.push_time(c)?;
            add_times_at(grant, count - 1, input, rest)
        }
    }
}

/// So many conditions on the server's state, which the grant gets after its own.
fn add_states_at<'a>(
    grant: &mut Grant,
    count: usize,
    input: usize,
    bytes: &'a [u8],
) -> Result<&'a [u8], CodecFault>
    requires { length grant.old.times + length grant.old.states + count ≤ MOST_CONDITIONS }
    ensures read { GivesReadingOrReports (λ rest. (grant.new.states, rest.now)) result
        (items_at state_condition_at may_follow_states count input grant.old.states bytes.now) }
    ensures others { IfOk result (λ _. grant.new ≡ record grant.old { states = grant.new.states }) }
    ensures counted { IfOk result (λ _. length grant.new.states ≡ length grant.old.states + count) }
{
    if count == 0 {
        return Ok(bytes);
    }
    match state_condition_at(input, bytes) {
        Err(fault) => Err(fault),
        Ok((s, rest)) => {
            if !may_follow_states(grant.states(), &s) {
                return Err(CodecFault::NotCanonical(place(input, bytes)));
            }
            grant.push_state(s)?;
            add_states_at(grant, count - 1, input, rest)
        }
    }
}

/// The conditions on time of a grant that has none yet.
fn times_at<'a>(grant: &mut Grant, input: usize, bytes: &'a [u8]) -> Result<&'a [u8], CodecFault>
    requires no_times { grant.old.times ≡ [] }
    requires no_states { grant.old.states ≡ [] }
    ensures read { GivesReadingOrReports (λ rest. (grant.new.times, rest.now)) result
        (conditions_at time_condition_at may_follow_times MOST_CONDITIONS input bytes.now) }
    ensures others { IfOk result (λ _. grant.new ≡ record grant.old { times = grant.new.times }) }
    ensures few { IfOk result (λ _. length grant.new.times ≤ MOST_CONDITIONS) }
{
    match count_at(MOST_CONDITIONS, input, bytes) {
        Err(fault) => Err(fault),
        Ok((count, rest)) => {
            grant.reserve_times(count)?;
            add_times_at(grant, count, input, rest)
        }
    }
}

/// The conditions on the server's state of a grant that has none of them yet.
fn states_at<'a>(grant: &mut Grant, input: usize, bytes: &'a [u8]) -> Result<&'a [u8], CodecFault>
    requires few { length grant.old.times ≤ MOST_CONDITIONS }
    requires no_states { grant.old.states ≡ [] }
    ensures read { GivesReadingOrReports (λ rest. (grant.new.states, rest.now)) result
        (conditions_at state_condition_at may_follow_states
        (MOST_CONDITIONS - length grant.old.times) input bytes.now) }
    ensures others { IfOk result (λ _. grant.new ≡ record grant.old { states = grant.new.states }) }
{
    let left = MOST_CONDITIONS - grant.times().len();
    match count_at(left, input, bytes) {
        Err(fault) => Err(fault),
        Ok((count, rest)) => {
            grant.reserve_states(count)?;
            add_states_at(grant, count, input, rest)
        }
    }
}

/// So many numbers, each above the previous one, which are added after these.
fn add_rising_at<'a>(
    numbers: &mut Numbers,
    count: usize,
    previous: u32,
    input: usize,
    bytes: &'a [u8],
) -> Result<&'a [u8], CodecFault>
    ensures { GivesReadingOrReports (λ rest. (numbers.new, rest.now)) result (rising_at count previous input numbers.old bytes.now) }
{
    if count == 0 {
        return Ok(bytes);
    }
    match u32_at(bytes) {
        Err(fault) => Err(fault),
        Ok((number, rest)) => {
            if number <= previous {
                return Err(CodecFault::NotCanonical(place(input, bytes)));
            }
            numbers.push(number)?;
            add_rising_at(numbers, count - 1, number, input, rest)
        }
    }
}

/// The statements that a grant names: how many, and the number of each.
#[tactic(auto, using(crate::proofs::NamesLemmas::names_counted, crate::proofs::NamesLemmas::names_uncounted), unfolding(crate::specs::GrantReading::names_at))]
fn names_at(alloc: Global, input: usize, bytes: &[u8]) -> Result<(Numbers, &[u8]), CodecFault>
    ensures read { GivesReadingOrReports (λ x. (x.0, x.1.now)) result (names_at input bytes.now) }
    ensures named { IfOk result (λ x. AreNamed x.0) }
{
    match bytes {
        [] => Err(CodecFault::Short),
        [count, rest @ ..] => {
            let count = *count as usize;
            if 0 < count && count <= MOST_CITED {
                counted_names_at(alloc, count, input, rest)
            } else {
                Err(CodecFault::NotCanonical(place(input, bytes)))
            }
        }
    }
}

/// So many numbers of named statements, in memory that is taken at once.
#[tactic(auto, using(crate::proofs::NamesLemmas::counted_named))]
fn counted_names_at(
    alloc: Global,
    count: usize,
    input: usize,
    bytes: &[u8],
) -> Result<(Numbers, &[u8]), CodecFault>
    requires some { 0 < count }
    requires few { count ≤ MOST_CITED }
    ensures read { GivesReadingOrReports (λ x. (x.0, x.1.now)) result (rising_at count 0 input [] bytes.now) }
    ensures named { IfOk result (λ x. AreNamed x.0) }
{
    let mut numbers = Sequence::new(alloc);
    numbers.reserve(count)?;
    match add_rising_at(&mut numbers, count, 0, input, bytes) {
        Err(fault) => Err(fault),
        Ok(rest) => Ok((numbers, rest)),
    }
}

/// The grant, which names no statements yet, with those that one of this version names.
fn naming_at(
    alloc: Global,
    grant: Grant,
    version: u8,
    input: usize,
    bytes: &[u8],
) -> Result<(Grant, &[u8]), CodecFault>
    requires { grant.cited ≡ [] }
    ensures read { GivesReadingOrReports (λ x. (x.0.cited, x.1.now)) result (versioned_names_at version input bytes.now) }
    ensures others { IfOk result (λ x. x.0 ≡ record grant { cited = x.0.cited }) }
{
    if version == 1 {
        return Ok((grant, bytes));
    }
    match names_at(alloc, input, bytes) {
        Err(fault) => Err(fault),
        Ok((numbers, rest)) => Ok((grant.naming(numbers), rest)),
    }
}

/// A grant at the front of `bytes`, the rest of an input of `input` bytes, and the bytes after it, or the first fault with
/// its place in the input.
pub fn grant_at(alloc: Global, input: usize, bytes: &[u8]) -> Result<(Grant, &[u8]), CodecFault>
    ensures { GivesReadingOrReports (λ x. (x.0, x.1.now)) result (grant_at input bytes.now) }
{
    match head_at(input, bytes) {
        Err(fault) => Err(fault),
        Ok((version, goal, rest)) => {
            let mut grant = Grant::new(alloc, goal);
            match times_at(&mut grant, input, rest) {
                Err(fault) => Err(fault),
                Ok(rest) => match states_at(&mut grant, input, rest) {
                    Err(fault) => Err(fault),
                    Ok(rest) => match naming_at(alloc, grant, version, input, rest) {
                        Err(fault) => Err(fault),
                        Ok((grant, rest)) => Ok((grant, rest)),
                    },
                },
            }
        }
    }
}

/// The tag with these bytes.
fn tag_of(bytes: &[u8]) -> [u8; 32]
    requires { length bytes.now ≡ 32 }
    ensures { result ≡ bytes.now }
{
    let mut tag = [0; 32];
    tag.copy_from_slice(bytes);
    tag
}

/// Reads a grant at the front of the bytes, and returns how many bytes it takes.
pub fn read_grant(alloc: Global, bytes: &[u8]) -> Result<(Grant, usize), CodecFault>
    ensures exact { GivesReadingOrReports (λ x. (x.0, x.1)) result (reading grant_at bytes.now) }
    ensures front { ReadsFront (λ g. g) IsSpellableGrant grant_spelling bytes.now result }
{
    match grant_at(alloc, bytes.len(), bytes) {
        Err(fault) => Err(fault),
        Ok((grant, rest)) => Ok((grant, place(bytes.len(), rest))),
    }
}

/// A procap at the front of `bytes`, the rest of an input of `input` bytes, and the bytes after it, or the first fault
/// with its place in the input.
pub fn procap_at(alloc: Global, input: usize, bytes: &[u8]) -> Result<(Procap, &[u8]), CodecFault>
    ensures { GivesReadingOrReports (λ x. (x.0, x.1.now)) result (procap_at input bytes.now) }
{
    match grant_at(alloc, input, bytes) {
        Err(fault) => Err(fault),
        Ok((grant, rest)) => {
            if rest.len() < TAG_LENGTH {
                return Err(CodecFault::Short);
            }
            let (front, behind) = rest.split_at(TAG_LENGTH);
            let tag = tag_of(front);
            Ok((Procap { grant, tag }, behind))
        }
    }
}

/// Reads a procap that is all of the bytes. Bytes after it are `NotCanonical` at the first of them.
pub fn read_procap(alloc: Global, bytes: &[u8]) -> Result<Procap, CodecFault>
    ensures exact { GivesReadingOrReports (λ p. p) result (whole_procap bytes.now) }
    ensures whole { ReadsWholeProcap IsSpellableProcap procap_spelling bytes.now result }
{
    match procap_at(alloc, bytes.len(), bytes) {
        Err(fault) => Err(fault),
        Ok((p, rest)) => {
            if rest.is_empty() {
                Ok(p)
            } else {
                Err(CodecFault::NotCanonical(place(bytes.len(), rest)))
            }
        }
    }
}
