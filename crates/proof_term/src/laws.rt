//! Laws of the definitions. A law is the contract of an empty function, which nothing calls.

ghost use Rattle.proof_term.specs.ProofCodec.{ProofsAreACodec};

/// The spelling of proofs and the reading of them belong together.
pub fn proofs_are_a_codec()
    ensures { ProofsAreACodec }
{}
