//! Where chains lead, found in the order in which the constraints were pushed: a constraint is looked at once, and with
//! it comes what it was known to lead to when it was pushed.

ghost use Rattle.std.specs.Prelude.{◌≤◌, ◌↔◌, ◌⊎◌, [], IsTrue, length};
ghost use Rattle.bl_syntax.specs.Entailment.{IsLink, IsChain};
ghost use Rattle.bl_constraints.specs.Places.{Meet};
ghost use Rattle.bl_constraints.specs.Reached.{AreAfter, AreBefore, AreTracked, IsOnward, constraints_of};

use crate::links::is_linked;
use crate::places::Places;
use crate::tracked::Tracked;
use bl_syntax::Term;

/// The constraints to whose low sides chains lead from the term.
pub(crate) fn places_after(items: &[Tracked], u: &Term) -> Places
    requires { AreTracked items.now }
    ensures { AreAfter (constraints_of items.now) u.now result.words }
{
    let mut reached = Places::none();
    for place in 0..items.len() {
        let item = &items[place];
        if is_led_to(item, u, &reached) {
            reached.insert(place);
            reached.add_all(&item.after);
        }
    }
    reached
}

// By a link from the term, or from the high side of one that is reached.
fn is_led_to(item: &Tracked, u: &Term, reached: &Places) -> bool
    ensures { IsTrue result ↔ (IsLink [] u.now item.now.constraint.low ⊎ Meet reached.now.words item.now.before.words) }
{
    is_linked(u, &item.constraint.low) || reached.meets(&item.before)
}

/// The constraints from whose high sides chains lead to the term.
pub(crate) fn places_before(items: &[Tracked], t: &Term) -> Places
    requires { AreTracked items.now }
    ensures { AreBefore (constraints_of items.now) t.now result.words }
{
    let mut leading = Places::none();
    for place in 0..items.len() {
        let item = &items[place];
        if leads_to(item, t, &leading) {
            leading.insert(place);
            leading.add_all(&item.before);
        }
    }
    leading
}

// By a link to the term, or to the low side of one that leads there.
fn leads_to(item: &Tracked, t: &Term, leading: &Places) -> bool
    ensures { IsTrue result ↔ (IsLink [] item.now.constraint.high t.now ⊎ Meet item.now.after.words leading.now.words) }
{
    is_linked(&item.constraint.high, t) || item.after.meets(leading)
}

/// Whether a chain leads from a term to another.
pub(crate) fn has_chain(items: &[Tracked], u: &Term, v: &Term) -> bool
    requires { AreTracked items.now }
    ensures { IsTrue result ↔ IsChain (constraints_of items.now) u.now v.now }
{
    is_linked(u, v) || is_linked_from(items, &places_after(items, u), v)
}

/// Whether the high side of one of these constraints is linked to the term.
fn is_linked_from(items: &[Tracked], reached: &Places, v: &Term) -> bool
    requires { length items.now ≤ 512 }
    ensures { IsTrue result ↔ IsOnward (constraints_of items.now) reached.now.words v.now }
{
    for place in 0..items.len() {
        if reached.has(place) && is_linked(&items[place].constraint.high, v) {
            return true;
        }
    }
    false
}
