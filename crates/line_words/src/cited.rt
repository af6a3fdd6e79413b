//! The numbers of the statements that a line cites.

ghost use Rattle.std.specs.Prelude.{◌≡◌, ◌≤◌, ◌+◌, ℕ, List, false, length, IsTrue, IfOk, MatchOption};
ghost use Rattle.line_words.specs.Cited.{AreJoined, IsCited, AreAdded};

use crate::numerals::number;
use bl_syntax::limits::MOST_CITED;
use bl_syntax::{NoMemory, Numbers, are_citable};
use line_text::{rest_after, split_word};
use std::alloc::Global;

// Adds the numbers of the word to those before it, and returns whether it has numbers alone and there are not more than
// can be cited then.
fn read_numbers(word: &[u8], numbers: &mut Numbers) -> Result<bool, NoMemory>
    ensures added { IfOk result (λ all. IsTrue all → AreAdded word.now numbers.old numbers.new) }
    ensures refused { IfOk result (λ all. all ≡ false → (others : List ℕ) → AreJoined word.now others → length numbers.old + length others ≤ MOST_CITED → ⊥) }
{
    if numbers.len() >= MOST_CITED {
        return Ok(false);
    }
    let (first, behind) = split_word(word, b',');
    match number(first) {
        Some(number) => numbers.push(number)?,
        None => return Ok(false),
    }
    match rest_after(behind, b",") {
        Some(others) => read_numbers(others, numbers),
        None => Ok(behind.is_empty()),
    }
}

/// The numbers that the word lists with commas between them, if statements of these numbers can be cited together:
/// 1 to 64, strictly rising.
pub fn cited_numbers(alloc: Global, word: &[u8]) -> Result<Option<Numbers>, NoMemory>
    ensures { IfOk result (λ r. MatchOption r ((numbers : List ℕ) → IsCited word.now numbers → ⊥) (IsCited word.now)) }
{
    let mut numbers = Numbers::new(alloc);
    if !read_numbers(word, &mut numbers)? {
        return Ok(None);
    }
    if !are_citable(numbers.as_slice()) {
        return Ok(None);
    }
    Ok(Some(numbers))
}
