//! Laws of entailment. A law is the contract of an empty function, which nothing calls.

ghost use Rattle.std.specs.Prelude.{ℤ, List, Contains, map};
ghost use Rattle.bl_syntax.specs.declared.terms.Constraint.{Constraint};
ghost use Rattle.bl_syntax.specs.declared.terms.Term.{Term};
ghost use Rattle.bl_syntax.specs.declared.terms.TimePoint.{TimePoint};
ghost use Rattle.bl_syntax.specs.Assignment.{IsAssignment, AreTrueUnder};
ghost use Rattle.bl_syntax.specs.Entailment.{Entails, EntailsAll};
ghost use Rattle.bl_syntax.specs.Terms.{term_at, constraint_at};
ghost use Rattle.bl_syntax.specs.TimeOrder.{IsUpTo};

/// What is entailed is true under every assignment of times to the current time and the parameters that makes the
/// constraints true.
pub fn what_is_entailed_is_true()
    ensures { (time_of : Term → TimePoint) → IsAssignment time_of → (psi : List Constraint)
        → AreTrueUnder time_of psi
        → (u v : Term) → Entails psi u v → IsUpTo (time_of u) (time_of v) }
{}

/// No term is after itself.
pub fn a_term_is_up_to_itself()
    ensures { (psi : List Constraint) (u : Term) → Entails psi u u }
{}

/// Where one term is not after a second, and that not after a third, the first is not after the third.
pub fn entailment_is_transitive()
    ensures { (psi : List Constraint) (u v w : Term) → Entails psi u v → Entails psi v w
        → Entails psi u w }
{}

/// More constraints entail no less.
pub fn more_constraints_entail_no_less()
    ensures { (fewer more : List Constraint) (u v : Term)
        → ((c : Constraint) → Contains fewer c → Contains more c)
        → Entails fewer u v → Entails more u v }
{}

/// Constraints that the others entail can be left out.
pub fn entailed_constraints_can_be_left_out()
    ensures { (all others : List Constraint) (u v : Term) → EntailsAll others all → Entails all u v
        → Entails others u v }
{}

/// A moment instead of the current time, everywhere, keeps what is entailed.
pub fn a_moment_keeps_what_is_entailed()
    ensures { (moment : ℤ) (psi : List Constraint) (u v : Term) → Entails psi u v
        → Entails (map (constraint_at moment) psi) (term_at moment u) (term_at moment v) }
{}
