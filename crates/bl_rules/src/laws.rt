//! Laws of the definitions. A law is the contract of an empty function, which nothing calls.

ghost use Rattle.std.specs.Prelude.{◌≡◌, ◌↔◌, ℤ, pos, ℕ, List, [], ◌∷◌, Contains};
ghost use Rattle.std.specs.List.{AllByRecursion};
ghost use Rattle.bl_syntax.specs.declared.terms.TimePoint.{TimePoint as Point};
ghost use Rattle.bl_syntax.specs.declared.terms.TimePoint.TheVariants.{NegInf, At, PosInf};
ghost use Rattle.bl_syntax.specs.declared.terms.NodeId.{NodeId as Node};
ghost use Rattle.bl_syntax.specs.declared.terms.Perm.{Perm as Permission};
ghost use Rattle.bl_syntax.specs.declared.terms.Term.{Term};
ghost use Rattle.bl_syntax.specs.declared.terms.Term.TheVariants.{Prin, Time, Bound};
ghost use Rattle.bl_syntax.specs.declared.terms.Sort.TheVariants as sorts;
ghost use Rattle.bl_syntax.specs.declared.terms.StatePred.{StatePred as Fact};
ghost use Rattle.bl_syntax.specs.declared.terms.Constraint.{Constraint};
ghost use Rattle.bl_syntax.specs.declared.grant.Goal.{Goal};
ghost use Rattle.bl_syntax.specs.Formula.{FormulaView, atom, state, either, implies, truth, falsity, forall_, exists_, says};
ghost use Rattle.bl_syntax.specs.TimeOrder.{IsUpTo};
ghost use Rattle.bl_syntax.specs.Terms.{term_at, IsAtLeastAsStrong};
ghost use Rattle.bl_syntax.specs.Substitution.{formula_at};
ghost use Rattle.bl_syntax.specs.Statement.{StatementView, statement_view, IsStatement};
ghost use Rattle.bl_syntax.specs.Entailment.{EntailsAll};
ghost use Rattle.bl_syntax.specs.Grant.{GrantView, IsStateCondition};
ghost use Rattle.bl_rules.specs.Sequent.{Hypothesis, holds, claims, View, Known, bound};
ghost use Rattle.bl_rules.specs.Derivable.{Assumes, IsNotAfter, Derivable};
ghost use Rattle.bl_rules.specs.Allowed.{access, Allows, SoundGrant, IsDerivableUnderConditions};
ghost use Rattle.bl_rules.specs.DirectGrant.{goal_formula, SpeaksForAdmin, granted_by};
ghost use Rattle.bl_rules.specs.FromClauses.{AssumesClauses, IsSimple, FollowsFromClauses, IsClause, IsYielded};
ghost use Rattle.bl_rules.specs.Examples.{admin_name, loc_name, hr, employee, one_hypothesis, statements_on_employees, GivesAlways, rain, snow};
ghost use Rattle.bl_rules.specs.Model.{Model, Values, time_value, IsTrueIn, IsTrueKnown, AreParametersDeclared, IsGoalDeclared};
ghost use Rattle.bl_rules.specs.Height.{Derives};
ghost use Rattle.bl_rules.specs.Richer.{given, Includes};
ghost use Rattle.bl_rules.specs.AtMoment.{known_at};

/// More constraints, facts and hypotheses keep what is derivable.
pub fn more_keeps_what_is_derivable()
    ensures { (known : Known) (constraints : List Constraint) (facts : List Fact) (hypotheses : List Hypothesis) (goal : FormulaView) (u v : Term)
        → Includes constraints known.constraints → Includes facts known.facts
        → Includes hypotheses known.hypotheses
        → Derivable known goal u v → Derivable (given constraints facts hypotheses known) goal u v }
{}

/// Constraints may be replaced by others that entail them: so those can be left out that the rest entails.
pub fn entailed_constraints_can_be_left_out()
    ensures { (known : Known) (constraints : List Constraint) (goal : FormulaView) (u v : Term)
        → EntailsAll constraints known.constraints
        → Derivable known goal u v
        → Derivable (given constraints known.facts known.hypotheses known) goal u v }
{}

/// A true constraint between constants can be left out.
pub fn a_true_constraint_can_be_left_out()
    ensures { (known : Known) (low high : Point) (goal : FormulaView) (u v : Term)
        → IsUpTo low high
        → Derivable (bound (Time low) (Time high) known) goal u v → Derivable known goal u v }
{}

/// One moment instead of the current time, through everything, keeps what is derivable.
pub fn a_moment_keeps_what_is_derivable()
    ensures { (moment : ℤ) (known : Known) (goal : FormulaView) (u v : Term)
        → Derivable known goal u v
        → Derivable (known_at moment known) (formula_at moment goal) (term_at moment u) (term_at moment v) }
{}

/// What is derivable on an interval is derivable on each interval within it.
pub fn a_shorter_interval_keeps_what_is_derivable()
    ensures { (known : Known) (goal : FormulaView) (u v x y : Term)
        → IsNotAfter known u x → IsNotAfter known y v
        → Derivable known goal u v → Derivable known goal x y }
{}

/// What is derivable in a view is derivable in the view of each principal that is no stronger, over each interval within.
pub fn a_weaker_view_keeps_what_is_derivable()
    ensures { (known : Known) (view : View) (goal : FormulaView) (u v : Term)
        → IsAtLeastAsStrong known.view.who view.who → IsNotAfter known known.view.from view.from
        → IsNotAfter known view.to known.view.to
        → Derivable known goal u v → Derivable (record known { view = view }) goal u v }
{}

/// Identity: what is assumed is derivable, whatever the formula, on each interval within. So the rules for a connective on the left give what those on the right ask for.
pub fn what_is_assumed_is_derivable()
    ensures { (known : Known) (f : FormulaView) (from to u v : Term)
        → Assumes known (holds f from to) → IsNotAfter known from u → IsNotAfter known v to
        → Derivable known f u v }
{}

/// What is derivable is true in each model, in each world in which all that is known is true, where all parameters are declared.
pub fn what_is_derivable_is_true_in_each_model()
    ensures { (m : Model) (params : Values) (world : ℕ) (known : Known) (goal : FormulaView) (u v : Term)
        → AreParametersDeclared known → IsGoalDeclared known goal u v → Derivable known goal u v
        → IsTrueKnown m params world known
        → IsTrueIn m params [] world goal (time_value m params [] u) (time_value m params [] v) }
{}

/// So these are not derivable: falsity; one of two from either; what an implication concludes; a certain one from some; all from one; and a truth from what somebody says
/// who is not heard.
pub fn what_does_not_follow()
    ensures falsity { GivesAlways truth falsity → ⊥ }
    ensures either { GivesAlways (either rain snow) rain → ⊥ }
    ensures implication { GivesAlways (implies rain rain) rain → ⊥ }
    ensures some { GivesAlways (exists_ sorts.Principal (employee (Bound 0))) (employee (Prin admin_name)) → ⊥ }
    ensures all { GivesAlways (employee (Prin hr)) (forall_ sorts.Principal (employee (Bound 0)))
        → ⊥ }
    ensures word { GivesAlways (says (Prin hr) rain) rain → ⊥ }
{}

/// Where nobody has stated anything, nobody may do anything.
pub fn no_statements_allow_nothing()
    ensures { (facts : List Fact) (moment : ℤ) (who : List ℕ) (file : Node) (permission : Permission)
        → Allows [] facts moment who file permission → ⊥ }
{}

/// More statements and more facts of the state allow no less.
pub fn more_statements_allow_no_less()
    ensures { (statements more : List StatementView) (facts more_facts : List Fact) (moment : ℤ) (who : List ℕ) (file : Node) (permission : Permission)
        → Includes more statements → Includes more_facts facts
        → Allows statements facts moment who file permission
        → Allows more more_facts moment who file permission }
{}

/// A sound grant stays sound among more statements.
pub fn more_statements_keep_a_grant_sound()
    ensures { (statements more : List StatementView) (granted : GrantView)
        → Includes more statements → SoundGrant statements granted → SoundGrant more granted }
{}

/// A grant is sound if what it grants is derivable from the statements with the grant's conditions to build on, the current time left open.
pub fn a_derivation_under_its_conditions_makes_a_grant_sound()
    ensures { (statements : List StatementView) (granted : GrantView)
        → AllByRecursion IsStatement statements → AllByRecursion IsStateCondition granted.states
        → IsDerivableUnderConditions statements granted → SoundGrant statements granted }
{}

/// A statement that says the goal itself, of a principal that speaks for `admin`, grants it on its interval, among whatever other statements it stands.
pub fn a_statement_grants_on_its_interval()
    ensures { (statements : List StatementView) (statement : StatementView) (goal : Goal)
        → Contains statements statement → SpeaksForAdmin statement.who
        → statement.body ≡ goal_formula goal
        → SoundGrant statements (granted_by statement goal) }
{}

/// Where all hypotheses are clauses, a formula without implications and quantifiers is derivable exactly if it follows in the plain sense.
pub fn what_follows_from_clauses_is_derivable()
    ensures { (known : Known) (goal : FormulaView) (u v : Term)
        → AssumesClauses known → IsSimple goal → Derivable known goal u v
        ↔ FollowsFromClauses known goal u v }
{}

/// Statements of clauses allow exactly what one of them yields, of a principal that speaks for `admin`, at moments of its interval.
pub fn clauses_allow_what_they_yield()
    ensures { (statements : List StatementView) (facts : List Fact) (moment : ℤ) (goal : Goal)
        → ((s : StatementView) → Contains statements s → IsClause s.body)
        → Allows statements facts moment goal.who goal.file goal.perm
        ↔ IsYielded statements facts moment (goal_formula goal) }
{}

/// The simplest statement, by which `admin` says the permission itself, allows it exactly on its interval.
pub fn the_simplest_statement_allows_exactly_on_its_interval()
    ensures { (from to : Point) (facts : List Fact) (moment : ℤ) (who : List ℕ) (file : Node) (permission : Permission)
        → Allows (statement_view admin_name (access who file permission) from to ∷ []) facts moment who file permission
        ↔ (IsUpTo from (At moment) × IsUpTo (At moment) to) }
{}

/// An example: a statement from 100 to 200 allows at these two moments, and neither before nor after.
pub fn from_100_to_200()
    ensures first { (facts : List Fact) (who : List ℕ) (file : Node) (permission : Permission)
        → Allows (statement_view admin_name (access who file permission) (At (pos 100)) (At (pos 200)) ∷ []) facts (pos 100) who file permission }
    ensures last { (facts : List Fact) (who : List ℕ) (file : Node) (permission : Permission)
        → Allows (statement_view admin_name (access who file permission) (At (pos 100)) (At (pos 200)) ∷ []) facts (pos 200) who file permission }
    ensures before { (facts : List Fact) (who : List ℕ) (file : Node) (permission : Permission)
        → Allows (statement_view admin_name (access who file permission) (At (pos 100)) (At (pos 200)) ∷ []) facts (pos 99) who file permission → ⊥ }
    ensures after { (facts : List Fact) (who : List ℕ) (file : Node) (permission : Permission)
        → Allows (statement_view admin_name (access who file permission) (At (pos 100)) (At (pos 200)) ∷ []) facts (pos 201) who file permission → ⊥ }
{}

/// An example: `loc` is heard as `admin` is, and `hr` is not.
pub fn who_is_heard()
    ensures strong { (facts : List Fact) (who : List ℕ) (file : Node) (permission : Permission) (moment : ℤ)
        → Allows (statement_view loc_name (access who file permission) NegInf PosInf ∷ []) facts moment who file permission }
    ensures weak { (facts : List Fact) (who : List ℕ) (file : Node) (permission : Permission) (moment : ℤ)
        → Allows (statement_view hr (access who file permission) NegInf PosInf ∷ []) facts moment who file permission → ⊥ }
{}

/// An example: what `admin` says of a state, as of a file's owner, it allows exactly if that is a fact.
pub fn a_fact_has_to_be_there()
    ensures { (s : Fact) (from to : Point) (facts : List Fact) (moment : ℤ) (who : List ℕ) (file : Node) (permission : Permission)
        → Allows (statement_view admin_name (implies (state s) (access who file permission)) from to ∷ []) facts moment who file permission
        ↔ (Contains facts s × IsUpTo from (At moment) × IsUpTo (At moment) to) }
{}

/// An example: where `admin` lets each principal have the permission of whom `hr` says that it is an employee, and `hr` says so of one from one time to another,
/// this one may have it exactly on that interval, and nobody else may.
pub fn employees_alone_while_they_are()
    ensures { (file : Node) (permission : Permission) (person : List ℕ) (from to : Point) (moment : ℤ) (facts : List Fact) (who : List ℕ)
        → Allows (statements_on_employees file permission person from to) facts moment who file permission
        ↔ ((who ≡ person) × IsUpTo from (At moment) × IsUpTo (At moment) to) }
{}

/// A truth is struck out where a principal speaks: it is derivable, and that anybody says it is not.
pub fn truths_are_struck_out()
    ensures true_ { (name : List ℕ) (terms : List Term) (u v : Term) (view : View)
        → Derivable (one_hypothesis (holds (atom name terms) u v) view) (atom name terms) u v }
    ensures not_said { (name : List ℕ) (terms : List Term) (u v : Term) (view : View) (k x y : Term)
        → Derivable (one_hypothesis (holds (atom name terms) u v) view) (says k (atom name terms)) x y → ⊥ }
{}

/// A claim is kept there: who claims it says it, on the interval of the claim.
pub fn claims_are_said()
    ensures { (name : List ℕ) (terms : List Term) (k u v : Term) (view : View)
        → Derivable (one_hypothesis (claims k (atom name terms) u v) view) (says k (atom name terms)) u v }
{}

/// A claim counts for nothing in the view of a principal that is stronger than who claims it.
pub fn a_weak_claim_does_not_count()
    ensures { (name : List ℕ) (terms : List Term) (k u v : Term) (view : View) (x y : Term)
        → (IsAtLeastAsStrong k view.who → ⊥)
        → Derivable (one_hypothesis (claims k (atom name terms) u v) view) (atom name terms) x y
        → ⊥ }
{}

/// Nor does a claim that begins after the view's interval or ends before it does, not even for who claims it.
pub fn a_short_claim_does_not_count()
    ensures late { (name : List ℕ) (terms : List Term) (k : Term) (from to first last : Point) (x y : Term)
        → (IsUpTo from first → ⊥)
        → Derivable (one_hypothesis (claims k (atom name terms) (Time from) (Time to))
        (record { who = k; from = Time first; to = Time last })) (atom name terms) x y → ⊥ }
    ensures early { (name : List ℕ) (terms : List Term) (k : Term) (from to first last : Point) (x y : Term)
        → (IsUpTo last to → ⊥)
        → Derivable (one_hypothesis (claims k (atom name terms) (Time from) (Time to))
        (record { who = k; from = Time first; to = Time last })) (atom name terms) x y → ⊥ }
{}

/// The calculus read from the goal, by height, derives the same: what is derivable is so by some height.
pub fn what_is_derivable_has_a_height()
    ensures { (known : Known) (goal : FormulaView) (u v : Term)
        → Derivable known goal u v ↔ ((n : ℕ) × Derives n known goal u v) }
{}
