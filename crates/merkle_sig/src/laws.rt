//! What the definitions keep, over all their values. These functions do nothing: their contracts are the laws.

ghost use Rattle.merkle_sig.specs.Laws.{EachCallIsAnswered, LeavesRise, NoLeafTwice, RootAcceptsLeaves};

/// The root of a tree accepts the signature of each of its leaves.
pub fn roots_accept_their_leaves()
    ensures { RootAcceptsLeaves }
{}

/// The leaves of a signer's signatures are the numbers from its first one on.
pub fn leaves_rise()
    ensures { LeavesRise }
{}

/// No leaf of a signer is given twice.
pub fn no_leaf_is_given_twice()
    ensures { NoLeafTwice }
{}

/// Each call on a signer has an answer.
pub fn each_call_is_answered()
    ensures { EachCallIsAnswered }
{}
