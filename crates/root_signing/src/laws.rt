//! Laws of the definitions. The functions do nothing: each contract is a law.

ghost use Rattle.root_signing.specs.Laws.{HasAnEnd, HasOneEnd, RingAcceptsSigned};

/// Lines come to one status and one output at most.
pub fn a_text_has_one_end()
    ensures { HasOneEnd }
{}

/// Lines come to a status and an output, if the first leaf is at most 2^height.
pub fn a_text_has_an_end()
    ensures { HasAnEnd }
{}

/// A ring accepts what the leaves of a tree sign, as of a name for which it has the root.
pub fn a_ring_accepts_what_leaves_sign()
    ensures { RingAcceptsSigned }
{}
