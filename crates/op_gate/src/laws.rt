//! Laws of the definitions. The functions do nothing: each contract is a law.

ghost use Rattle.op_gate.specs.DamageLaws.{FirstDamagesAreDetermined, DamagedMayNotFollow, FreeMayFollow, BaseDamagesAreDetermined, DamagedMayNotBegin, FreeMayBegin};

/// An event has at most one first damage.
pub fn first_damages_are_determined()
    ensures { FirstDamagesAreDetermined }
{}

/// An event with a damage may not come next, or there is no number for it.
pub fn damaged_events_may_not_follow()
    ensures { DamagedMayNotFollow }
{}

/// An event without damage may come next over a state with which a history may begin.
pub fn events_without_damage_may_follow()
    ensures { FreeMayFollow }
{}

/// A state has at most one first damage.
pub fn base_damages_are_determined()
    ensures { BaseDamagesAreDetermined }
{}

/// A history may not begin with a state that has a damage.
pub fn damaged_states_may_not_begin()
    ensures { DamagedMayNotBegin }
{}

/// A history may begin with a state exactly if it has no damage.
pub fn states_without_damage_may_begin()
    ensures { FreeMayBegin }
{}
