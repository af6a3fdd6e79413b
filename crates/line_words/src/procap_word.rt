//! The words that stand for procaps.

ghost use Rattle.std.specs.Prelude.{◌≡◌, IfOk, MatchOption};
ghost use Rattle.procap.specs.declared.procap.Procap.{Procap};
ghost use Rattle.procap.specs.Procap.{procap_spelling, IsSpellableProcap};
ghost use Rattle.line_words.specs.declared.procap_word.ProcapWord.{ProcapWord};
ghost use Rattle.line_words.specs.Procaps.{IsProcapHex, IsProcapWord};

use crate::numerals::long_number;
use bl_syntax::{CodecFault, NoMemory, Sequence};
use line_text::{read_hex, rest_after};
use procap::{Procap, read_procap};
use std::alloc::Global;

/// What a line gives for a procap.
#[derive(Debug, Drop)]
pub enum ProcapWord {
    /// The procap itself, by its bytes.
    Procap(Procap),
    /// The number of its issue.
    Issue(u64),
}

/// What a line gives for procaps, in order.
pub type ProcapWords = Sequence<ProcapWord>;

// The procap that has these bytes.
fn procap_of(alloc: Global, bytes: &[u8]) -> Result<Option<Procap>, NoMemory>
    ensures { IfOk result (λ r. MatchOption r ((p : Procap) → IsSpellableProcap p → bytes.now
        ≡ procap_spelling p → ⊥) (λ p. IsSpellableProcap p × (bytes.now ≡ procap_spelling p))) }
{
    match read_procap(alloc, bytes) {
        Ok(p) => Ok(Some(p)),
        Err(fault) => match fault {
            CodecFault::NoMemory => Err(NoMemory),
            _ => Ok(None),
        },
    }
}

/// The procap whose bytes the word writes in hexadecimal.
pub fn procap_of_hex(alloc: Global, word: &[u8]) -> Result<Option<Procap>, NoMemory>
    ensures { IfOk result (λ r. MatchOption r ((p : Procap) → IsProcapHex word.now p → ⊥) (IsProcapHex word.now)) }
{
    match read_hex(alloc, word)? {
        Some(bytes) => procap_of(alloc, bytes.as_slice()),
        None => Ok(None),
    }
}

/// What the word gives for a procap: an `@` and the number of an issue, or the bytes of a procap in
/// hexadecimal.
pub fn procap_word(alloc: Global, word: &[u8]) -> Result<Option<ProcapWord>, NoMemory>
    ensures { IfOk result (λ r. MatchOption r ((given : ProcapWord) → IsProcapWord word.now given → ⊥) (IsProcapWord word.now)) }
{
    if let Some(digits) = rest_after(word, b"@") {
        return match long_number(digits) {
            Some(number) => Ok(Some(ProcapWord::Issue(number))),
            None => Ok(None),
        };
    }
    match procap_of_hex(alloc, word)? {
        Some(p) => Ok(Some(ProcapWord::Procap(p))),
        None => Ok(None),
    }
}
