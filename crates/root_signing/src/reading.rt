//! The lines of an input that asks for signatures.

ghost use Rattle.std.specs.Prelude.{◌≡◌, ◌≢◌, ◌++◌, ◌∷◌, ℕ, List, length, IfOk, MatchOption, MatchResult};
ghost use Rattle.root_signing.specs.Reading.{IsUnreadSeed};
ghost use Rattle.root_signing.specs.SigningLines.{IsHeadFault, IsSeedLine, IsSeedWord};

use bl_syntax::NoMemory;
use line_forms::LineFault;
use line_text::{read_hex, rest_after};
use line_words::first_word;
use std::alloc::Global;

/// The place of the seed in its line.
const SEED_PLACE: usize = 5;

/// What stands after the word and a space with which the line begins, or what is wrong with it.
pub fn after_word<'a>(line: &'a [u8], word: &[u8]) -> Result<&'a [u8], LineFault>
    ensures { MatchResult result (λ rest. line.now ≡ word.now ++ 32 ∷ rest.now) (IsHeadFault word.now line.now) }
{
    let Some(behind) = rest_after(line, word) else {
        return Err(LineFault::BadWord(0));
    };
    if behind.is_empty() {
        return Err(LineFault::BadCount);
    }
    match rest_after(behind, b" ") {
        Some(rest) => Ok(rest),
        None => Err(LineFault::BadWord(0)),
    }
}

// A seed of these bytes, if there are 32.
fn seed_from(bytes: &[u8]) -> Option<[u8; 32]>
    ensures { MatchOption result (length bytes.now ≢ 32) (λ seed. (seed ≡ bytes.now) × (length bytes.now ≡ 32)) }
{
    if bytes.len() != 32 {
        return None;
    }
    let mut seed = [0u8; 32];
    seed.copy_from_slice(bytes);
    Some(seed)
}

// The seed that the word writes.
fn seed_of(alloc: Global, word: &[u8]) -> Result<Option<[u8; 32]>, NoMemory>
    ensures { IfOk result (λ r. MatchOption r ((seed : List ℕ) → IsSeedWord word.now seed → ⊥) (IsSeedWord word.now)) }
{
    match read_hex(alloc, word)? {
        Some(bytes) => Ok(seed_from(bytes.as_slice())),
        None => Ok(None),
    }
}

/// The seed that the line gives, or what is wrong with it.
pub fn read_seed(alloc: Global, line: &[u8]) -> Result<[u8; 32], LineFault>
    ensures { MatchResult result (IsSeedLine line.now) (IsUnreadSeed line.now) }
{
    let rest = match after_word(line, b"seed") {
        Ok(rest) => rest,
        Err(fault) => return Err(fault),
    };
    let (word, more) = first_word(rest);
    if !more.is_empty() {
        return Err(LineFault::BadCount);
    }
    match seed_of(alloc, word) {
        Ok(Some(seed)) => Ok(seed),
        Ok(None) => Err(LineFault::BadWord(SEED_PLACE)),
        Err(_) => Err(LineFault::NoMemory),
    }
}
