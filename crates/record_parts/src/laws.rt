//! Laws of the definitions. A law is the contract of an empty function, which nothing calls.

ghost use Rattle.bl_syntax.specs.Codec.{IsCodec};
ghost use Rattle.record_parts.specs.OperationSpelling.{operation_spelling, IsSpellableOperation};
ghost use Rattle.record_parts.specs.OperationReading.{operation_at};
ghost use Rattle.record_parts.specs.RecordSpelling.{IsRegistration, registration_spelling, IsWithdrawal, withdrawal_spelling, IsIssuing, issuing_spelling, IsAction, action_spelling};
ghost use Rattle.record_parts.specs.RecordReading.{registered_at, withdrawn_at, issued_at, acted_at};

/// The spelling of operations and the reading of them belong together.
pub fn operations_are_a_codec()
    ensures { IsCodec IsSpellableOperation operation_spelling operation_at }
{}

/// The spelling of statements with their signatures and the reading of them belong together.
pub fn registrations_are_a_codec()
    ensures { IsCodec IsRegistration registration_spelling registered_at }
{}

/// The spelling of the numbers of statements with the signatures of their withdrawals and the reading of them belong together.
pub fn withdrawals_are_a_codec()
    ensures { IsCodec IsWithdrawal withdrawal_spelling (λ input. withdrawn_at) }
{}

/// The spelling of issues and the reading of them belong together.
pub fn issues_are_a_codec()
    ensures { IsCodec IsIssuing issuing_spelling issued_at }
{}

/// The spelling of what was done and the reading of it belong together.
pub fn actions_are_a_codec()
    ensures { IsCodec IsAction action_spelling acted_at }
{}
