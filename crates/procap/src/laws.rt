//! Laws of the definitions. A law is the contract of an empty function, which nothing calls.

ghost use Rattle.bl_syntax.specs.Codec.{IsCodec};
ghost use Rattle.procap.specs.GrantSpelling.{grant_spelling, IsSpellableGrant};
ghost use Rattle.procap.specs.GrantReading.{grant_at};
ghost use Rattle.procap.specs.Procap.{procap_spelling, IsSpellableProcap, procap_at};

/// The spelling of grants and the reading of them belong together.
pub fn grants_are_a_codec()
    ensures { IsCodec IsSpellableGrant grant_spelling grant_at }
{}

/// The spelling of procaps and the reading of them belong together.
pub fn procaps_are_a_codec()
    ensures { IsCodec IsSpellableProcap procap_spelling procap_at }
{}
