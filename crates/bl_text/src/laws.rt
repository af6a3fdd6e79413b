//! Laws of the texts. A law is the contract of an empty function, which nothing calls.

ghost use Rattle.std.specs.Prelude.{◌≡◌, ◌≢◌, ◌⊎◌, ℕ, ◌+◌, List};
ghost use Rattle.bl_syntax.specs.Formula.{FormulaView, compare, state};
ghost use Rattle.bl_syntax.specs.Statement.{StatementView, IsStatement};
ghost use Rattle.bl_tokens.specs.declared.faults.TextFault.{TextFault};
ghost use Rattle.bl_text.specs.Texts.{IsFormulaText, FormulaFault, IsSayingText, IsStatementText, StatementFault, AreOneFault};
ghost use Rattle.bl_text.specs.Exact.{IsExact};
ghost use Rattle.bl_text.specs.Printed.{constraint_text, state_text, formula_text, statement_text};
ghost use Rattle.bl_text.specs.RoundTrip.{IsPrintable};
ghost use Rattle.bl_syntax.specs.FormulaSpelling.{IsSpellableStatement};
ghost use Rattle.bl_syntax.specs.declared.terms.Sort.{Sort};
ghost use Rattle.bl_syntax.specs.declared.terms.Constraint.{Constraint};
ghost use Rattle.bl_syntax.specs.declared.terms.StatePred.{StatePred};
ghost use Rattle.bl_text.specs.Sentences.{IsSentence, IsSentenceText, IsStatementSentence};
ghost use Rattle.bl_text.specs.FirstTokens.{SameTokens};
ghost use Rattle.bl_text.specs.Met.{IsMisread};

/// A text is one of one formula at most.
pub fn one_formula()
    ensures { (text : List ℕ) (f g : FormulaView) → IsFormulaText text f → IsFormulaText text g
        → f ≡ g }
{}

/// A text of a formula has no fault, out of memory aside.
pub fn no_fault_of_a_formula()
    ensures { (text : List ℕ) (f : FormulaView) (e : TextFault) → IsFormulaText text f
        → FormulaFault text e
        → e ≡ TextFault.NoMemory }
{}

/// A text has one fault of a formula at most, out of memory aside.
pub fn one_fault_of_a_formula()
    ensures { (text : List ℕ) (e f : TextFault) → FormulaFault text e → FormulaFault text f
        → AreOneFault e f }
{}

/// A text is one of one statement at most.
pub fn one_statement()
    ensures { (text : List ℕ) (s t : StatementView) → IsStatementText text s
        → IsStatementText text t → s ≡ t }
{}

/// A text of a statement has no fault, out of memory aside.
pub fn no_fault_of_a_statement()
    ensures { (text : List ℕ) (s : StatementView) (e : TextFault) → IsStatementText text s
        → StatementFault text e
        → e ≡ TextFault.NoMemory }
{}

/// A text has one fault of a statement at most, out of memory aside.
pub fn one_fault_of_a_statement()
    ensures { (text : List ℕ) (e f : TextFault) → StatementFault text e → StatementFault text f
        → AreOneFault e f }
{}

/// The place of the first fault of a text of no formula is exact. It is met at one token. The tokens
/// before that one can be completed to a sentence of the grammar, which asks for no sorts and no
/// number of arguments and has no limits; where the fault is one of sorts or size, so can those with
/// it. So no fault is told too late. Each text with the same tokens up to it has the fault too, and
/// where the token has no room or a predicate no arguments, each with the same next token as well:
/// so none is told too early.
pub fn exact_fault_of_a_formula()
    ensures { (text : List ℕ) (e : TextFault) → FormulaFault text e
        → (e ≡ TextFault.NoMemory) ⊎ IsExact FormulaFault IsSentence text e }
{}

/// The tokens of a formula's text are a sentence of the grammar.
pub fn sentence_of_a_formula()
    ensures { (text : List ℕ) (f : FormulaView) → IsFormulaText text f
        → IsSentenceText IsSentence text }
{}

/// The place of the first fault of a text of no statement is exact likewise.
pub fn exact_fault_of_a_statement()
    ensures { (text : List ℕ) (e : TextFault) → StatementFault text e
        → (e ≡ TextFault.NoMemory) ⊎ IsExact StatementFault IsStatementSentence text e }
{}

/// What a text of the grammar of statements says may be said: it is closed and well sorted, within
/// the limits, and names no time outside the range of moments, nor the current time.
pub fn sayable_text()
    ensures { (text : List ℕ) (s : StatementView) → IsSayingText text s → IsStatement s }
{}

/// What a formula is written as is a text of it, where it is closed and well sorted within the limits, has a
/// spelling, and has no parameter before a `says`.
pub fn formula_round_trip()
    ensures { (parameters : List Sort) (f : FormulaView) → IsPrintable parameters f
        → IsFormulaText (formula_text 0 f) f }
{}

/// What a condition on time is written as is a text of it, likewise.
pub fn constraint_round_trip()
    ensures { (parameters : List Sort) (c : Constraint) → IsPrintable parameters (compare c)
        → IsFormulaText (constraint_text 0 c) (compare c) }
{}

/// What a condition on the server's state is written as is a text of it, likewise.
pub fn state_round_trip()
    ensures { (parameters : List Sort) (s : StatePred) → IsPrintable parameters (state s)
        → IsFormulaText (state_text 0 s) (state s) }
{}

/// What a statement is written as is a text of it, where it has a spelling.
pub fn statement_round_trip()
    ensures { (s : StatementView) → IsSpellableStatement s → IsStatementText (statement_text s) s }
{}

/// The tokens of a statement's text are a sentence of the grammar of statements.
pub fn sentence_of_a_statement()
    ensures { (text : List ℕ) (s : StatementView) → IsStatementText text s
        → IsSentenceText IsStatementSentence text }
{}

/// Each text is one of a formula or has a fault other than out of memory.
pub fn formula_or_fault()
    ensures { (text : List ℕ) → ((f : FormulaView) × IsFormulaText text f)
        ⊎ ((e : TextFault) × FormulaFault text e × (e ≢ TextFault.NoMemory)) }
{}

/// Each text is one of a statement or has a fault other than out of memory.
pub fn statement_or_fault()
    ensures { (text : List ℕ) → ((s : StatementView) × IsStatementText text s)
        ⊎ ((e : TextFault) × StatementFault text e × (e ≢ TextFault.NoMemory)) }
{}

/// A text whose tokens are a sentence of the grammar is one of a formula, or it has a fault of sorts
/// or one of size.
pub fn formula_of_a_sentence()
    ensures { (text : List ℕ) → IsSentenceText IsSentence text
        → ((f : FormulaView) × IsFormulaText text f)
        ⊎ ((at : ℕ) × (FormulaFault text (TextFault.Sort at) ⊎ FormulaFault text (TextFault.TooLarge at))) }
{}

/// A text whose tokens are a sentence of the grammar of statements is one of a statement, or it has a
/// fault of sorts or one of size.
pub fn statement_of_a_sentence()
    ensures { (text : List ℕ) → IsSentenceText IsStatementSentence text
        → ((s : StatementView) × IsStatementText text s)
        ⊎ ((at : ℕ) × (StatementFault text (TextFault.Sort at) ⊎ StatementFault text (TextFault.TooLarge at))) }
{}

/// Where a fault `Unexpected`, `UnknownName` or `BadDate` of a text of no formula is met, no sentence
/// of the grammar goes on: no text with the same tokens up to and with that one has those of one.
pub fn no_sentence_goes_on()
    ensures { (text : List ℕ) (e : TextFault) (at : ℕ) → IsMisread at e
        → (x : IsExact FormulaFault IsSentence text e)
        → (other : List ℕ) → SameTokens text other (x.number + 1) 0
        → IsSentenceText IsSentence other → ⊥ }
{}

/// No sentence of the grammar of statements goes on after such a fault of a text of no statement.
pub fn no_statement_goes_on()
    ensures { (text : List ℕ) (e : TextFault) (at : ℕ) → IsMisread at e
        → (x : IsExact StatementFault IsStatementSentence text e)
        → (other : List ℕ) → SameTokens text other (x.number + 1) 0
        → IsSentenceText IsStatementSentence other → ⊥ }
{}
