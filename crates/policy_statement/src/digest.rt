//! A number that is the same for the same statement. It takes no memory.

ghost use Rattle.std.specs.Prelude.{◌≡◌};
ghost use Rattle.bl_syntax.specs.Formula.{formula_view};
ghost use Rattle.policy_statement.specs.Digest.{mix, mix_bytes, mix_time, mix_term, mix_terms, mix_state, mix_formula, digest_of};

use bl_syntax::fields::{permission_code, sort_code};
use bl_syntax::{Formula, StatePred, Statement, Term, TimePoint};

#[tactic(auto, unfolding(crate::specs::Digest::mix))]
fn mix(before: u64, number: u64) -> u64
    ensures { result ≡ mix before number }
{
    before
        .wrapping_mul(6364136223846793005)
        .wrapping_add(number)
}

fn mix_bytes(before: u64, bytes: &[u8]) -> u64
    ensures { result ≡ mix_bytes before bytes.now }
{
    bytes
        .iter()
        .fold(before, |mixed, byte| mix(mixed, u64::from(*byte)))
}

fn mix_time(before: u64, point: TimePoint) -> u64
    ensures { result ≡ mix_time before point }
{
    match point {
        TimePoint::NegInf => mix(before, 1),
        TimePoint::At(second) => mix(mix(before, 2), second.cast_unsigned()),
        TimePoint::PosInf => mix(before, 3),
    }
}

fn mix_term(before: u64, t: &Term) -> u64
    ensures { result ≡ mix_term before t.now }
{
    match t {
        Term::Prin(name) => mix_bytes(mix(before, 4), name.bytes()),
        Term::File(node) => mix(mix(before, 5), node.0),
        Term::Perm(permission) => mix(mix(before, 6), u64::from(permission_code(*permission))),
        Term::Time(point) => mix_time(before, *point),
        Term::Text(text) => mix_bytes(mix(before, 7), text.bytes()),
        Term::Ctime => mix(before, 8),
        Term::Param(number) => mix(mix(before, 9), u64::from(*number)),
        Term::Bound(number) => mix(mix(before, 10), u64::from(*number)),
    }
}

fn mix_terms(before: u64, terms: &[Term]) -> u64
    ensures { result ≡ mix_terms before terms.now }
{
    match terms {
        [] => before,
        [first, others @ ..] => mix_terms(mix_term(before, first), others),
    }
}

fn mix_state(before: u64, s: &StatePred) -> u64
    ensures { result ≡ mix_state before s.now }
{
    match s {
        StatePred::Owner(file, owner) => mix_term(mix_term(mix(before, 11), file), owner),
        StatePred::HasXattr(file, name, value) => {
            mix_term(mix_term(mix_term(mix(before, 12), file), name), value)
        }
        StatePred::InDir(file, directory) => mix_term(mix_term(mix(before, 13), file), directory),
    }
}

fn mix_formula(before: u64, f: &Formula) -> u64
    ensures { result ≡ mix_formula before (formula_view f.now) }
{
    match f {
        Formula::Atom(name, terms) => {
            mix_terms(mix_bytes(mix(before, 14), name.bytes()), terms.as_slice())
        }
        Formula::Cons(c) => mix_term(mix_term(mix(before, 15), &c.low), &c.high),
        Formula::State(s) => mix_state(before, s),
        Formula::And(a, b) => mix_formula(mix_formula(mix(before, 16), a), b),
        Formula::Or(a, b) => mix_formula(mix_formula(mix(before, 17), a), b),
        Formula::Imp(a, b) => mix_formula(mix_formula(mix(before, 18), a), b),
        Formula::True => mix(before, 19),
        Formula::False => mix(before, 20),
        Formula::Forall(sort, a) => {
            mix_formula(mix(mix(before, 21), u64::from(sort_code(*sort))), a)
        }
        Formula::Exists(sort, a) => {
            mix_formula(mix(mix(before, 22), u64::from(sort_code(*sort))), a)
        }
        Formula::Says(who, a) => mix_formula(mix_term(mix(before, 23), who), a),
        Formula::At(a, from, to) => {
            mix_term(mix_term(mix_formula(mix(before, 24), a), from), to)
        }
    }
}

/// The digest of a statement.
#[tactic(auto, unfolding(crate::specs::Digest::digest_of))]
pub fn digest(s: &Statement) -> u64
    ensures { result ≡ digest_of s.now }
{
    let who = mix_bytes(0, s.who().bytes());
    mix_time(mix_time(mix_formula(who, s.body()), s.from()), s.to())
}
