//! Why the bytes of a proof could not be read.

ghost use Rattle.std.specs.Prelude.{◌≡◌};
ghost use Rattle.proof_term.specs.Faults.{of_field};
ghost use Rattle.proof_term.specs.declared.fault.ProofFault.TheVariants as faults;

use bl_syntax::{CodecFault, NoMemory};
use thiserror::Error;

/// The first fault of a reading from the left. A place is a number of bytes of the input before it.
#[derive(Clone, Copy, Debug, PartialEq, Eq, Error)]
pub enum ProofFault {
    /// The input ends before the proof does.
    #[error("the bytes end before the proof does")]
    Short,
    /// The byte at this place is the tag of no rule.
    #[error("the byte at {0} is the tag of no rule")]
    BadTag(usize),
    /// The node at this place is one more than 4,096.
    #[error("the proof has more than 4096 nodes: that at {0} is one more")]
    TooLarge(usize),
    /// The node at this place lies deeper than 200.
    #[error("the proof is more than 200 levels deep: the node at {0} lies deeper")]
    TooDeep(usize),
    /// A term has this fault: a bad tag, or a name, text or point in time outside its grammar or range.
    #[error("in a term, {0}")]
    BadTerm(CodecFault),
    /// There was no memory for the proof.
    #[error("out of memory")]
    NoMemory,
}

impl From<CodecFault> for ProofFault {
    ghost from_gives = { λ fault e. e ≡ of_field fault };

    fn from(fault: CodecFault) -> ProofFault {
        match fault {
            CodecFault::Short => ProofFault::Short,
            CodecFault::NoMemory => ProofFault::NoMemory,
            _ => ProofFault::BadTerm(fault),
        }
    }
}

impl From<NoMemory> for ProofFault {
    ghost from_gives = { λ _ e. e ≡ faults.NoMemory };

    fn from(_refused: NoMemory) -> ProofFault {
        ProofFault::NoMemory
    }
}
