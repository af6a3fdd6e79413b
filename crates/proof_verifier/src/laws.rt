//! Laws of the definitions, and verdicts that they compute. A law is the contract of an empty function, which nothing calls.

ghost use Rattle.std.specs.Prelude.{◌≡◌, ◌↔◌, ◌+◌, ◌⊎◌, ℕ, true, List, [], ◌∷◌, length, Contains, Ok, Err, codes};
ghost use Rattle.std.specs.List.{AllByRecursion};
ghost use Rattle.std.specs.Str.{bytes_eq};
ghost use Rattle.bl_syntax.specs.declared.terms.Sort.{Sort};
ghost use Rattle.bl_syntax.specs.declared.terms.StatePred.{StatePred};
ghost use Rattle.bl_syntax.specs.declared.terms.Term.{Term};
ghost use Rattle.bl_syntax.specs.declared.terms.Term.TheVariants.{Ctime};
ghost use Rattle.bl_syntax.specs.declared.terms.Constraint.{Constraint};
ghost use Rattle.bl_syntax.specs.declared.grant.Goal.{Goal};
ghost use Rattle.bl_syntax.specs.Statement.{StatementView, IsStatement};
ghost use Rattle.bl_syntax.specs.Entailment.{Entails};
ghost use Rattle.bl_syntax.specs.Grant.{GrantView, IsGrant, IsTimeCondition, IsStateCondition};
ghost use Rattle.bl_syntax.specs.Terms.{sort_of, IsAtLeastAsStrong};
ghost use Rattle.bl_syntax.specs.Formula.{state};
ghost use Rattle.bl_syntax.specs.WellSorted.{HasSort, terms_of_state};
ghost use Rattle.bl_rules.specs.Allowed.{SoundGrant};
ghost use Rattle.proof_term.specs.Proof.{ProofView};
ghost use Rattle.proof_term.specs.Limits.{HasTimesInRange};
ghost use Rattle.proof_verifier.specs.declared.fault.CheckFault.TheVariants.{WrongShape, NotEntailed, ViewTooWeak, TooManyConditions, NoMemory};
ghost use Rattle.proof_verifier.specs.Conditions.{of_sort, is_full};
ghost use Rattle.proof_verifier.specs.Tests.{are_same, has_constraint, has_state, is_as_strong, IsParameter, names_ctime_and_no_parameter, names_no_parameter};
ghost use Rattle.proof_verifier.specs.LeftOver.{by_rule, by_grant};
ghost use Rattle.proof_verifier.specs.Sequent.{Sequent};
ghost use Rattle.proof_verifier.specs.WellFormed.{IsInterval, IsClosed, IsWellFormedSequent};
ghost use Rattle.proof_verifier.specs.Entailed.{is_entailed};
ghost use Rattle.proof_verifier.specs.Verdict.{answer, root, verdict, computed_verdict};
ghost use Rattle.proof_verifier.specs.ExampleTable.{Computes, accepted, refused};
ghost use Rattle.proof_verifier.specs.Examples.{second, stated, may_write, writing, by_its_claim, between, employees_may_read, bob_is_employed, reading, by_employment, within_both, bob_may_read_if_employed, by_word, q_of_bob, bob_may_read_if_it_follows, by_new_interval, may_write_if_placed, by_places, within_places};

/// A grant that the verdict gives is sound: wherever its conditions hold, the statements allow what it grants.
pub fn the_verdict_gives_sound_grants()
    ensures { (statements : List StatementView) (goal : Goal) (proof : ProofView) (granted : GrantView)
        → AllByRecursion IsStatement statements → HasTimesInRange proof
        → verdict statements goal proof ≡ Ok granted → SoundGrant statements granted }
{}

/// A grant that the verdict gives grants the goal.
pub fn the_verdict_grants_the_goal()
    ensures { (statements : List StatementView) (goal : Goal) (proof : ProofView) (granted : GrantView)
        → verdict statements goal proof ≡ Ok granted → granted.goal ≡ goal }
{}

/// A grant that the verdict gives keeps the rules of grants: conditions of the right forms, each once, at most 64.
pub fn the_verdict_gives_grants_within_their_rules()
    ensures { (statements : List StatementView) (goal : Goal) (proof : ProofView) (granted : GrantView)
        → AllByRecursion IsStatement statements → HasTimesInRange proof
        → verdict statements goal proof ≡ Ok granted → IsGrant granted }
{}

/// What the verdict leaves over is what a grant can keep: at each node whose sequent is well formed, and so from the root of
/// statements on, a proof gets the same answer whichever of the two is tested.
pub fn what_is_left_over_is_what_a_grant_can_keep()
    ensures time { (sorts : List Sort) (c : Constraint) → IsInterval sorts c.low c.high
        → (names_ctime_and_no_parameter c ≡ true) ↔ IsTimeCondition c }
    ensures state { (sorts : List Sort) (s : StatePred) → IsClosed sorts (state s)
        → (names_no_parameter s ≡ true) ↔ IsStateCondition s }
    ensures node { (proof : ProofView) → HasTimesInRange proof
        → (node : ℕ) (s : Sequent) (so_far : GrantView)
        → IsWellFormedSequent s
        → answer by_rule proof node s so_far ≡ answer by_grant proof node s so_far }
    ensures root { (statements : List StatementView) (goal : Goal)
        → AllByRecursion IsStatement statements → IsWellFormedSequent (root statements goal) }
    ensures verdict { (statements : List StatementView) (goal : Goal) (proof : ProofView)
        → AllByRecursion IsStatement statements → HasTimesInRange proof
        → verdict statements goal proof ≡ computed_verdict statements goal proof }
{}

/// The entailment between times that the verdict computes is entailment.
pub fn the_computed_entailment_is_entailment()
    ensures { (constraints : List Constraint) (u v : Term)
        → (is_entailed constraints u v ≡ true) ↔ Entails constraints u v }
{}

/// Each test that the verdict goes by decides what its name says.
pub fn each_test_decides()
    ensures time { (c : Constraint) → (names_ctime_and_no_parameter c ≡ true)
        ↔ (((c.low ≡ Ctime) ⊎ (c.high ≡ Ctime)) × ((IsParameter c.low → ⊥) × (IsParameter c.high → ⊥))) }
    ensures state { (s : StatePred) → (names_no_parameter s ≡ true) ↔ AllByRecursion (λ (t : Term). IsParameter t → ⊥) (terms_of_state s) }
    ensures sort { (sorts : List Sort) (sort : Sort) (t : Term)
        → (of_sort sort (sort_of sorts [] t) ≡ true) ↔ HasSort sorts [] sort t }
    ensures strength { (k other : Term)
        → (is_as_strong k other ≡ true) ↔ IsAtLeastAsStrong k other }
    ensures kept_time { (constraints : List Constraint) (c : Constraint)
        → (has_constraint constraints c ≡ true) ↔ Contains constraints c }
    ensures kept_state { (predicates : List StatePred) (s : StatePred)
        → (has_state predicates s ≡ true) ↔ Contains predicates s }
    ensures terms { (terms others : List Term) → (are_same terms others ≡ true) ↔ (terms ≡ others) }
    ensures names { (name other : List ℕ) → (bytes_eq name other ≡ true) ↔ (name ≡ other) }
    ensures full { (g : GrantView) → (is_full g ≡ true) ↔ (length g.times + length g.states ≡ 64) }
{}

/// The verdict is never out of memory.
pub fn the_verdict_is_never_out_of_memory()
    ensures { (statements : List StatementView) (goal : Goal) (proof : ProofView)
        → verdict statements goal proof ≡ Err NoMemory → ⊥ }
{}

/// A statement of `admin` grants what it says, on its interval.
pub fn a_statement_grants_what_it_says()
    ensures { verdict (stated (codes "admin") may_write 0 200 ∷ []) writing by_its_claim ≡ Ok (between writing 0 200) }
{}

/// A right of all employees is granted if `hr` says that the reader is one, as long as both statements hold.
pub fn an_employee_may_read()
    ensures { verdict (stated (codes "admin") employees_may_read 0 200 ∷ stated (codes "hr") bob_is_employed 50 150 ∷ []) reading by_employment
        ≡ Ok (within_both reading 0 200 50 150) }
{}

/// A statement about somebody else does not have the form of the goal.
pub fn another_goal_is_a_wrong_shape()
    ensures { verdict (stated (codes "admin") may_write 0 200 ∷ []) reading by_its_claim ≡ Err (WrongShape 2) }
{}

/// Each rule accepts a proof.
pub fn each_rule_accepts_a_proof()
    ensures { AllByRecursion Computes accepted }
{}

/// Each rule has its faults, each at its node.
pub fn each_rule_has_its_faults()
    ensures { AllByRecursion Computes refused }
{}

/// `loc` is as strong as anybody, and `admin` is not.
pub fn loc_speaks_for_all()
    ensures loc { verdict (stated (codes "admin") bob_may_read_if_employed 0 200 ∷ stated (codes "loc") bob_is_employed 0 200 ∷ []) reading by_word
        ≡ Ok (between reading 0 200) }
    ensures admin { verdict (stated (codes "admin") bob_may_read_if_employed 0 200 ∷ stated (codes "admin") bob_is_employed 0 200 ∷ []) reading by_word
        ≡ Err (ViewTooWeak 4) }
{}

/// A condition that names a parameter is not left over. None comes up where the same is proved for the interval of the statements.
pub fn a_condition_on_a_parameter_is_a_fault()
    ensures fault { verdict (stated (codes "admin") bob_may_read_if_it_follows 0 200
        ∷ stated (codes "admin") q_of_bob 0 200 ∷ []) reading (by_new_interval Ctime Ctime)
        ≡ Err (NotEntailed 5) }
    ensures accepted { verdict (stated (codes "admin") bob_may_read_if_it_follows 0 200
        ∷ stated (codes "admin") q_of_bob 0 200 ∷ []) reading
        (by_new_interval (second 0) (second 200))
        ≡ Ok (between reading 0 200) }
{}

/// 2 conditions on time and 62 on the state are kept, and not 63.
pub fn a_grant_keeps_64_conditions()
    ensures kept { verdict (stated (codes "admin") (may_write_if_placed 61) 0 200 ∷ []) writing (by_places 61) ≡ Ok (within_places 61) }
    ensures fault { verdict (stated (codes "admin") (may_write_if_placed 62) 0 200 ∷ []) writing (by_places 62) ≡ Err (TooManyConditions 127) }
{}
