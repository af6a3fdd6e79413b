//! Laws of what texts write. A law is the contract of an empty function, which nothing calls.

ghost use Rattle.std.specs.Prelude.{ℕ, List};
ghost use Rattle.bl_syntax.specs.FormulaSpelling.{IsSpellableStatement};
ghost use Rattle.bl_syntax.specs.Statement.{StatementView};
ghost use Rattle.bl_text.specs.Texts.{IsStatementText};
ghost use Rattle.proof_term.specs.Proof.{ProofView};
ghost use Rattle.proof_text.specs.RoundTrip.{IsPrintableProof};
ghost use Rattle.proof_text.specs.Texts.{IsProofText};

/// A statement that a text writes has a spelling: its names and texts are in their grammars, and its numbers fit their
/// bytes.
pub fn read_statements_are_spellable()
    ensures { (text : List ℕ) (s : StatementView) → IsStatementText text s →
        IsSpellableStatement s }
{}

/// A proof that a text says can be printed: it is within the limits, its hypotheses have numbers below 65,536, its terms
/// have a spelling and are no variables, and those of an implication are times.
pub fn read_proofs_are_printable()
    ensures { (text : List ℕ) (d : ProofView) → IsProofText text d → IsPrintableProof d }
{}
