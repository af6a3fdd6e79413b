//! Constants from which chains lead to a term, and to which they lead from it.

ghost use Rattle.std.specs.Prelude.{◌≡◌, ◌≤◌, ◌⊎◌, [], length};
ghost use Rattle.bl_syntax.specs.declared.terms.TimePoint.{TimePoint};
ghost use Rattle.bl_syntax.specs.Entailment.{IsLink};
ghost use Rattle.bl_syntax.specs.TimeOrder.{IsUpTo};
ghost use Rattle.bl_constraints.specs.Reached.{AreAfter, AreBefore, IsLatestStart, IsEarliestEnd, constraints_of};

use crate::places::Places;
use crate::tracked::Tracked;
use bl_syntax::{Term, TimePoint};

/// The latest constant from which a chain leads to the term, by the constraints that lead to it.
pub(crate) fn latest_start(items: &[Tracked], before: &Places, t: &Term) -> TimePoint
    requires few { length items.now ≤ 512 }
    requires before { AreBefore (constraints_of items.now) t.now before.now.words }
    ensures { IsLatestStart (constraints_of items.now) t.now result }
{
    let mut latest = start_of(t);
    for place in 0..items.len() {
        if before.has(place) {
            latest = later_of(latest, start_of(&items[place].constraint.low));
        }
    }
    latest
}

// The latest constant that is linked to the term.
fn start_of(t: &Term) -> TimePoint
    ensures linked { IsLink [] (Term.Time result) t.now }
    ensures constant { (point : TimePoint) → t.now ≡ Term.Time point → point ≡ result }
{
    match t {
        Term::Time(point) => *point,
        _ => TimePoint::NegInf,
    }
}

fn later_of(a: TimePoint, b: TimePoint) -> TimePoint
    ensures either { (result ≡ a) ⊎ (result ≡ b) }
    ensures first { IsUpTo a result }
    ensures second { IsUpTo b result }
{
    if a.is_up_to(b) { b } else { a }
}

/// The earliest constant to which a chain leads from the term, by the constraints to which it leads.
pub(crate) fn earliest_end(items: &[Tracked], after: &Places, u: &Term) -> TimePoint
    requires few { length items.now ≤ 512 }
    requires after { AreAfter (constraints_of items.now) u.now after.now.words }
    ensures { IsEarliestEnd (constraints_of items.now) u.now result }
{
    let mut earliest = end_of(u);
    for place in 0..items.len() {
        if after.has(place) {
            earliest = earlier_of(earliest, end_of(&items[place].constraint.high));
        }
    }
    earliest
}

// The earliest constant to which the term is linked.
fn end_of(u: &Term) -> TimePoint
    ensures linked { IsLink [] u.now (Term.Time result) }
    ensures constant { (point : TimePoint) → u.now ≡ Term.Time point → point ≡ result }
{
    match u {
        Term::Time(point) => *point,
        _ => TimePoint::PosInf,
    }
}

fn earlier_of(a: TimePoint, b: TimePoint) -> TimePoint
    ensures either { (result ≡ a) ⊎ (result ≡ b) }
    ensures first { IsUpTo result a }
    ensures second { IsUpTo result b }
{
    if a.is_up_to(b) { a } else { b }
}
