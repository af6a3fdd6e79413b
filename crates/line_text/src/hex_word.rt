//! Words of hexadecimal.

ghost use Rattle.std.specs.Prelude.{◌≡◌, ◌≢◌, ◌↔◌, ◌<◌, ◌++◌, ℕ, List, length, codes, IsTrue, IfOk, OnOk, OnErr, MatchOption};
ghost use Rattle.hex.specs.Hex.{decode_of};
ghost use Rattle.line_text.specs.HexWord.{hex_word, IsHex, is_upper_case_digit, has_no_upper_case};

use bl_syntax::{Bytes, NoMemory};
use hex::FromHexError;
use std::alloc::Global;

/// The word for no bytes.
const NO_BYTES: &[u8; 1] = b"-";

fn is_upper_case_digit(byte: u8) -> bool
    ensures { result ≡ is_upper_case_digit byte }
{
    b'A' <= byte && byte <= b'F'
}

fn has_no_upper_case(word: &[u8]) -> bool
    ensures { result ≡ has_no_upper_case word.now }
{
    word.iter().all(|byte| !is_upper_case_digit(*byte))
}

// Whether a word other than `-` may be one of hexadecimal, so far as its digits are digits.
fn may_be_digits(word: &[u8]) -> bool
    ensures { IsTrue result ↔ ((0 < length word.now) × IsTrue (has_no_upper_case word.now)) }
{
    !word.is_empty() && has_no_upper_case(word)
}

fn is_no_bytes(word: &[u8]) -> bool
    ensures { IsTrue result ↔ (word.now ≡ codes "-") }
{
    word == NO_BYTES.as_slice()
}

// What the word decodes to, in either case of its digits.
fn decode_hex(alloc: Global, word: &[u8]) -> Result<Option<Bytes>, NoMemory>
    ensures { IfOk result (λ r. MatchOption r ((bytes : List ℕ) → decode_of word.now ≢ Ok bytes) (λ bytes. decode_of word.now ≡ Ok bytes)) }
{
    match hex::decode(alloc, word) {
        Ok(bytes) => Ok(Some(Bytes::from_vec(bytes))),
        Err(fault) => match fault {
            FromHexError::OutOfMemory => Err(NoMemory),
            _ => Ok(None),
        },
    }
}

/// The bytes that the word writes in hexadecimal, two lower-case digits for each, or `-` for no bytes; none exactly
/// where it writes no bytes so.
pub fn read_hex(alloc: Global, word: &[u8]) -> Result<Option<Bytes>, NoMemory>
    ensures found { IfOk result (λ r. MatchOption r ((bytes : List ℕ) → IsHex word.now bytes → ⊥) (IsHex word.now)) }
    ensures only { IfOk result (λ r. (bytes : List ℕ) → IsHex word.now bytes → r ≡ Some bytes) }
{
    if is_no_bytes(word) {
        return Ok(Some(Bytes::new(alloc)));
    }
    if !may_be_digits(word) {
        return Ok(None);
    }
    decode_hex(alloc, word)
}

/// Adds the word that writes these bytes in hexadecimal.
pub fn write_hex(alloc: Global, bytes: &[u8], out: &mut Bytes) -> Result<(), NoMemory>
    ensures ok { OnOk result (out.new ≡ out.old ++ hex_word bytes.now) }
    ensures err { OnErr result (out.new ≡ out.old) }
{
    if bytes.is_empty() {
        return out.extend(NO_BYTES);
    }
    let digits = hex::encode(alloc, bytes)?;
    out.extend(digits.as_bytes())
}
