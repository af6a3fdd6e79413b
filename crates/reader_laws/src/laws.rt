//! Laws of the readers. A law is the contract of an empty function, which nothing calls.

ghost use Rattle.std.specs.Prelude.{IsTrue};
ghost use Rattle.bl_syntax.specs.declared.codec_fault.CodecFault.TheVariants.{Short};
ghost use Rattle.bl_syntax.specs.TimeOrder.{IsInRange};
ghost use Rattle.bl_syntax.specs.Names.{is_principal_name, is_predicate_name, is_text};
ghost use Rattle.bl_syntax.specs.Spelling.{IsSpellable, with_length, time_spelling, term_spelling};
ghost use Rattle.bl_syntax.specs.Reading.{reading, name_at, predicate_at, text_at, time_at, term_at};
ghost use Rattle.bl_syntax.specs.FormulaSpelling.{IsSpellableFormula, IsSpellableStatement, formula_spelling, statement_spelling};
ghost use Rattle.bl_syntax.specs.FormulaReading.{whole_formula_at, statement_at};
ghost use Rattle.proof_term.specs.declared.fault.ProofFault.TheVariants.{Short as ShortProof};
ghost use Rattle.proof_term.specs.ProofSpelling.{proof_spelling, IsSpellableProof};
ghost use Rattle.proof_term.specs.ProofReading.{proof_reading};
ghost use Rattle.procap.specs.GrantSpelling.{grant_spelling, IsSpellableGrant};
ghost use Rattle.procap.specs.GrantReading.{grant_at};
ghost use Rattle.procap.specs.Procap.{procap_spelling, IsSpellableProcap, procap_at, whole_procap};
ghost use Rattle.record_parts.specs.OperationSpelling.{operation_spelling, IsSpellableOperation};
ghost use Rattle.record_parts.specs.OperationReading.{operation_at};
ghost use Rattle.record_parts.specs.RecordSpelling.{IsRegistration, registration_spelling, IsWithdrawal, withdrawal_spelling, IsIssuing, issuing_spelling, IsAction, action_spelling};
ghost use Rattle.record_parts.specs.RecordReading.{registered_at, withdrawn_at, issued_at, acted_at};
ghost use Rattle.journal_records.specs.EventSpelling.{event_spelling, IsSpellableEvent};
ghost use Rattle.journal_records.specs.EventReading.{whole_event};
ghost use Rattle.checkpoint_image.specs.ImageSpelling.{AreFieldsOf, fields_spelling, image_spelling, IsSpellableImage};
ghost use Rattle.checkpoint_image.specs.ImageReading.{fields_at, whole_image};
ghost use Rattle.reader_laws.specs.Cuts.{AreCutsRefused, IsLeftOverRefused, AreCutImagesShort};

/// A name, a text, a point in time or a term that is cut short is refused as short.
pub fn cut_fields_are_short()
    ensures names { AreCutsRefused Short (λ name. IsTrue (is_principal_name name)) with_length (reading name_at) }
    ensures predicates { AreCutsRefused Short (λ name. IsTrue (is_predicate_name name)) with_length (reading predicate_at) }
    ensures texts { AreCutsRefused Short (λ text. IsTrue (is_text text)) with_length (reading text_at) }
    ensures times { AreCutsRefused Short IsInRange time_spelling (reading time_at) }
    ensures terms { AreCutsRefused Short IsSpellable term_spelling (reading term_at) }
{}

/// A formula, a statement, a proof or a grant that is cut short is refused as short.
pub fn cut_policies_are_short()
    ensures formulas { AreCutsRefused Short IsSpellableFormula formula_spelling (reading whole_formula_at) }
    ensures statements { AreCutsRefused Short IsSpellableStatement statement_spelling (reading statement_at) }
    ensures proofs { AreCutsRefused ShortProof IsSpellableProof proof_spelling proof_reading }
    ensures grants { AreCutsRefused Short IsSpellableGrant grant_spelling (reading grant_at) }
    ensures procaps { AreCutsRefused Short IsSpellableProcap procap_spelling (reading procap_at) }
{}

/// A part of a record that is cut short is refused as short: an operation, a registration, a withdrawal, an
/// issue, or what was done.
pub fn cut_parts_are_short()
    ensures operations { AreCutsRefused Short IsSpellableOperation operation_spelling (reading operation_at) }
    ensures registrations { AreCutsRefused Short IsRegistration registration_spelling (reading registered_at) }
    ensures withdrawals { AreCutsRefused Short IsWithdrawal withdrawal_spelling (reading (λ input. withdrawn_at)) }
    ensures issues { AreCutsRefused Short IsIssuing issuing_spelling (reading issued_at) }
    ensures actions { AreCutsRefused Short IsAction action_spelling (reading acted_at) }
{}

/// A whole input that is cut short is refused as short: a procap, an event, or the image of a state.
pub fn cut_inputs_are_short()
    ensures procaps { AreCutsRefused Short IsSpellableProcap procap_spelling whole_procap }
    ensures events { AreCutsRefused Short IsSpellableEvent event_spelling whole_event }
    ensures images { AreCutsRefused Short IsSpellableImage image_spelling whole_image }
    ensures old_images { AreCutsRefused Short AreFieldsOf fields_spelling (reading fields_at) }
    ensures states { AreCutImagesShort }
{}

/// Bytes after a whole procap or a whole event are refused at the first of them.
pub fn bytes_left_over_are_refused()
    ensures procaps { IsLeftOverRefused IsSpellableProcap procap_spelling whole_procap }
    ensures events { IsLeftOverRefused IsSpellableEvent event_spelling whole_event }
{}
