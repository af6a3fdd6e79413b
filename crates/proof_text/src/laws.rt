//! Laws of the texts of proofs. A law is the contract of an empty function, which nothing calls.

ghost use Rattle.std.specs.Prelude.{◌≡◌, ◌≢◌, ◌⊎◌, ℕ, List};
ghost use Rattle.bl_tokens.specs.declared.faults.TextFault.{TextFault};
ghost use Rattle.bl_text.specs.Texts.{AreOneFault};
ghost use Rattle.proof_term.specs.Proof.{ProofView};
ghost use Rattle.proof_text.specs.RoundTrip.{IsPrintableProof};
ghost use Rattle.proof_text.specs.Printed.{proof_text};
ghost use Rattle.proof_text.specs.Cursor.{cursor_at, first_byte};
ghost use Rattle.proof_text.specs.Exact.{IsExactInProof};
ghost use Rattle.proof_text.specs.Sentences.{IsProofSentenceText};
ghost use Rattle.proof_text.specs.SameTokens.{SameUpTo};
ghost use Rattle.proof_text.specs.Texts.{IsProofText, ProofTextFault};

/// A text is one of one proof at most.
pub fn one_proof()
    ensures { (text : List ℕ) (p q : ProofView) → IsProofText text p → IsProofText text q → p ≡ q }
{}

/// A text of a proof has no fault, out of memory aside.
pub fn no_fault_of_a_proof()
    ensures { (text : List ℕ) (p : ProofView) (e : TextFault) → IsProofText text p
        → ProofTextFault text e
        → e ≡ TextFault.NoMemory }
{}

/// A text has one fault of a proof at most, out of memory aside.
pub fn one_fault_of_a_proof()
    ensures { (text : List ℕ) (e f : TextFault) → ProofTextFault text e → ProofTextFault text f
        → AreOneFault e f }
{}

/// The place of a fault is exact. The words before it can be completed to a sentence of the grammar,
/// limits aside: so it is not reported too late. A text that has the same next token from each byte on,
/// up to that place, has the fault too: so it is not reported too early.
pub fn exact_fault_of_a_proof()
    ensures { (text : List ℕ) (e : TextFault) → ProofTextFault text e
        → (e ≡ TextFault.NoMemory) ⊎ IsExactInProof text e }
{}

/// Where a fault other than one of size is, no sentence of the grammar goes on: no text with the same
/// tokens up to and with that one has the words of one.
pub fn no_proof_goes_on()
    ensures { (text : List ℕ) (e : TextFault) → ((at : ℕ) → e ≢ TextFault.TooLarge at)
        → (x : IsExactInProof text e)
        → (other : List ℕ) → SameUpTo text other (first_byte text (cursor_at x.prefix.behind 0))
        → IsProofSentenceText other → ⊥ }
{}

/// The words of a proof's text are a sentence of the grammar.
pub fn sentence_of_a_proof()
    ensures { (text : List ℕ) (p : ProofView) → IsProofText text p → IsProofSentenceText text }
{}

/// A text whose words are a sentence of the grammar is one of a proof, or it is too large.
pub fn text_of_a_sentence()
    ensures { (text : List ℕ) → IsProofSentenceText text
        → ((p : ProofView) × IsProofText text p)
        ⊎ ((at : ℕ) × ProofTextFault text (TextFault.TooLarge at)) }
{}

/// The text that a proof is written as is a text of it, if it is within the limits, its hypotheses have
/// numbers below 65,536, its terms have a spelling and are no variables, and those of an implication are times.
pub fn proof_round_trip()
    ensures { (d : ProofView) → IsPrintableProof d → IsProofText (proof_text d) d }
{}

/// Each text is one of a proof or has a fault other than out of memory.
pub fn proof_or_fault()
    ensures { (text : List ℕ) → ((p : ProofView) × IsProofText text p)
        ⊎ ((e : TextFault) × ProofTextFault text e × (e ≢ TextFault.NoMemory)) }
{}
