//! Laws of the definitions. A law is the contract of an empty function, which nothing calls.

ghost use Rattle.std.specs.Prelude.{◌≡◌, ◌↔◌, ℕ, List, [], ◌∷◌, None, true, IsTrue};
ghost use Rattle.bl_syntax.specs.declared.terms.NodeId.{NodeId};
ghost use Rattle.bl_syntax.specs.declared.terms.Perm.{Perm};
ghost use Rattle.bl_syntax.specs.declared.terms.Sort.{Sort};
ghost use Rattle.bl_syntax.specs.declared.terms.TimePoint.{TimePoint};
ghost use Rattle.bl_syntax.specs.declared.terms.Term.{Term};
ghost use Rattle.bl_syntax.specs.declared.terms.Constraint.{Constraint};
ghost use Rattle.bl_syntax.specs.declared.terms.StatePred.{StatePred};
ghost use Rattle.bl_syntax.specs.declared.grant.Goal.{Goal};
ghost use Rattle.bl_syntax.specs.Equality.{principal_eq, word_eq, text_eq, node_eq, perm_eq, sort_eq, time_point_eq, term_eq, constraint_eq, state_eq, goal_eq, grant_eq};
ghost use Rattle.bl_syntax.specs.Grant.{GrantView};
ghost use Rattle.bl_syntax.specs.Formula.{FormulaView};
ghost use Rattle.bl_syntax.specs.WellSorted.{HasSort, IsWellSorted, IsFormula, size, widest_atom};
ghost use Rattle.bl_syntax.specs.Substitution.{instance_at};
ghost use Rattle.bl_syntax.specs.Statement.{AllTerms};
ghost use Rattle.bl_syntax.specs.Terms.{HasTimeInRange};
ghost use Rattle.bl_syntax.specs.FirstFault.{formula_fault};
ghost use Rattle.bl_syntax.specs.TimeOrder.{IsInRange};
ghost use Rattle.bl_syntax.specs.Names.{is_principal_name, is_predicate_name, is_text};
ghost use Rattle.bl_syntax.specs.Spelling.{IsSpellable, with_length, time_spelling, term_spelling};
ghost use Rattle.bl_syntax.specs.Reading.{name_at, predicate_at, text_at, time_at, term_at};
ghost use Rattle.bl_syntax.specs.Codec.{IsCodec};

/// Each test of equality is true exactly if the two values are equal.
pub fn equality_is_decided()
    ensures principals { (a b : List ℕ) → (principal_eq a b ≡ true) ↔ (a ≡ b) }
    ensures words { (a b : List ℕ) → (word_eq a b ≡ true) ↔ (a ≡ b) }
    ensures texts { (a b : List ℕ) → (text_eq a b ≡ true) ↔ (a ≡ b) }
    ensures nodes { (a b : NodeId) → (node_eq a b ≡ true) ↔ (a ≡ b) }
    ensures permissions { (a b : Perm) → (perm_eq a b ≡ true) ↔ (a ≡ b) }
    ensures sorts { (a b : Sort) → (sort_eq a b ≡ true) ↔ (a ≡ b) }
    ensures times { (a b : TimePoint) → (time_point_eq a b ≡ true) ↔ (a ≡ b) }
    ensures terms { (a b : Term) → (term_eq a b ≡ true) ↔ (a ≡ b) }
    ensures constraints { (a b : Constraint) → (constraint_eq a b ≡ true) ↔ (a ≡ b) }
    ensures states { (a b : StatePred) → (state_eq a b ≡ true) ↔ (a ≡ b) }
    ensures goals { (a b : Goal) → (goal_eq a b ≡ true) ↔ (a ≡ b) }
    ensures grants { (a b : GrantView) → (grant_eq a b ≡ true) ↔ (a ≡ b) }
{}

/// A formula is closed and well sorted within the limits exactly if it has no first fault.
pub fn no_fault_of_a_formula()
    ensures { (parameters : List Sort) (f : FormulaView)
        → (formula_fault parameters f ≡ None) ↔ IsFormula parameters f }
{}

/// An instance of a well sorted body at a term of its sort is closed and well sorted. It has as many nodes and as wide
/// atoms as the body, and all its times are moments if those of the body and the term are.
pub fn an_instance_is_well_sorted()
    ensures sorted { (parameters : List Sort) (sort : Sort) (t : Term) (body : FormulaView)
        → HasSort parameters [] sort t → IsWellSorted parameters (sort ∷ []) body
        → IsWellSorted parameters [] (instance_at t body) }
    ensures nodes { (t : Term) (body : FormulaView) → size (instance_at t body) ≡ size body }
    ensures arguments { (t : Term) (body : FormulaView)
        → widest_atom (instance_at t body) ≡ widest_atom body }
    ensures times { (t : Term) (body : FormulaView)
        → HasTimeInRange t → AllTerms HasTimeInRange body
        → AllTerms HasTimeInRange (instance_at t body) }
{}

/// The spelling of names, texts and points in time, and the reading of them, belong together.
pub fn fields_are_codecs()
    ensures names { IsCodec (λ name. IsTrue (is_principal_name name)) with_length name_at }
    ensures predicates { IsCodec (λ name. IsTrue (is_predicate_name name)) with_length predicate_at }
    ensures texts { IsCodec (λ text. IsTrue (is_text text)) with_length text_at }
    ensures times { IsCodec IsInRange time_spelling time_at }
{}

/// The spelling of terms and the reading of them belong together.
pub fn terms_are_a_codec()
    ensures { IsCodec IsSpellable term_spelling term_at }
{}
