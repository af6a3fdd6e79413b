//! Names, bytes, texts, permissions and signatures in the words of a line.

ghost use Rattle.std.specs.Prelude.{◌≡◌, ◌↔◌, ℕ, List, Option, codes, IsTrue, IfOk, MatchOption};
ghost use Rattle.std.specs.List.{list_all};
ghost use Rattle.bl_syntax.specs.declared.terms.Perm.{Perm};
ghost use Rattle.line_words.specs.Grammar.{is_word_byte, is_name_word, IsName, IsPrincipal, IsData, IsQuoted, IsPermission, IsSignature, IsSignatureHex, IsSigned};

use bl_syntax::limits::{LONGEST_SIGNATURE, MOST_BYTES_AT_ONCE};
use bl_syntax::{Bytes, NoMemory, Perm, Principal, Text};
use line_text::{read_hex, rest_after, split_word};
use std::alloc::Global;

fn is_word_byte(byte: u8) -> bool
    ensures { result ≡ is_word_byte byte }
{
    33 <= byte && byte <= 126
}

fn are_word_bytes(bytes: &[u8]) -> bool
    ensures { result ≡ list_all is_word_byte bytes.now }
{
    bytes.iter().all(|byte| is_word_byte(*byte))
}

fn is_name_word(word: &[u8]) -> bool
    ensures { result ≡ is_name_word word.now }
{
    match word {
        [] => false,
        [first, others @ ..] => { !(*first == b'"') && are_word_bytes(word) && others.len() <= 254 }
    }
}

/// The name that the word gives, of a node or of an attribute.
pub fn name(alloc: Global, word: &[u8]) -> Result<Option<Bytes>, NoMemory>
    ensures { IfOk result (λ r. MatchOption r ((name : List ℕ) → IsName word.now name → ⊥) (IsName word.now)) }
{
    if !is_name_word(word) {
        return Ok(None);
    }
    let mut name = Bytes::new(alloc);
    name.extend(word)?;
    Ok(Some(name))
}

/// The principal that the word names.
pub fn principal(word: &[u8]) -> Option<Principal>
    ensures { MatchOption result ((who : List ℕ) → IsPrincipal word.now who → ⊥) (IsPrincipal word.now) }
{
    Principal::new(word)
}

/// The bytes that the word writes in hexadecimal, if there are at most 65,536.
pub fn data(alloc: Global, word: &[u8]) -> Result<Option<Bytes>, NoMemory>
    ensures { IfOk result (λ r. MatchOption r ((bytes : List ℕ) → IsData word.now bytes → ⊥) (IsData word.now)) }
{
    match read_hex(alloc, word)? {
        Some(bytes) => {
            if bytes.len() <= MOST_BYTES_AT_ONCE {
                Ok(Some(bytes))
            } else {
                Ok(None)
            }
        }
        None => Ok(None),
    }
}

fn is_quote(bytes: &[u8]) -> bool
    ensures { IsTrue result ↔ (bytes.now ≡ codes "\"") }
{
    bytes == b"\"".as_slice()
}

/// The text constant that the word has between quotes.
pub fn quoted_text(word: &[u8]) -> Option<Text>
    ensures { MatchOption result ((text : List ℕ) → IsQuoted word.now text → ⊥) (IsQuoted word.now) }
{
    match rest_after(word, b"\"") {
        Some(behind) => {
            let (text, closing) = split_word(behind, b'"');
            if !is_quote(closing) {
                return None;
            }
            Text::new(text)
        }
        None => None,
    }
}

/// The permission that the word names.
pub fn permission(word: &[u8]) -> Option<Perm>
    ensures { MatchOption result ((p : Perm) → IsPermission word.now p → ⊥) (IsPermission word.now) }
{
    match word {
        b"read" => Some(Perm::Read),
        b"write" => Some(Perm::Write),
        b"execute" => Some(Perm::Execute),
        b"identity" => Some(Perm::Identity),
        b"govern" => Some(Perm::Govern),
        _ => None,
    }
}

/// The signature whose bytes the word writes in hexadecimal, if there are at most 32,768.
pub fn signature_hex(alloc: Global, word: &[u8]) -> Result<Option<Bytes>, NoMemory>
    ensures { IfOk result (λ r. MatchOption r ((bytes : List ℕ) → IsSignatureHex word.now bytes → ⊥) (IsSignatureHex word.now)) }
{
    match read_hex(alloc, word)? {
        Some(bytes) => {
            if bytes.len() <= LONGEST_SIGNATURE {
                Ok(Some(bytes))
            } else {
                Ok(None)
            }
        }
        None => Ok(None),
    }
}

// The signature of some bytes that the word writes in hexadecimal.
fn some_signature(alloc: Global, word: &[u8]) -> Result<Option<Bytes>, NoMemory>
    ensures { IfOk result (λ r. MatchOption r ((bytes : List ℕ) → IsSignature word.now bytes → ⊥) (IsSignature word.now)) }
{
    match read_hex(alloc, word)? {
        Some(bytes) => {
            if 1 <= bytes.len() && bytes.len() <= LONGEST_SIGNATURE {
                Ok(Some(bytes))
            } else {
                Ok(None)
            }
        }
        None => Ok(None),
    }
}

fn is_dash(word: &[u8]) -> bool
    ensures { IsTrue result ↔ (word.now ≡ codes "-") }
{
    word == b"-".as_slice()
}

/// What the word gives for a signature: none for the ring's key if it is a `-`, or the signature.
pub fn signature(alloc: Global, word: &[u8]) -> Result<Option<Option<Bytes>>, NoMemory>
    ensures { IfOk result (λ r. MatchOption r ((given : Option (List ℕ)) → IsSigned word.now given → ⊥) (IsSigned word.now)) }
{
    if is_dash(word) {
        return Ok(Some(None));
    }
    match some_signature(alloc, word)? {
        Some(bytes) => Ok(Some(Some(bytes))),
        None => Ok(None),
    }
}
