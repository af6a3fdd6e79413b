//! The line with which a server greets.

ghost use Rattle.std.specs.Prelude.{◌≡◌, ◌≢◌, ℕ, List, length, IfOk, MatchOption};
ghost use Rattle.client_session.specs.Greetings.{IsGreeting};

use bl_syntax::NoMemory;
use line_text::{read_hex, rest_after};
use std::alloc::Global;

// A nonce of these bytes, if there are as many.
fn nonce_from(bytes: &[u8]) -> Option<[u8; 16]>
    ensures { MatchOption result (length bytes.now ≢ 16) (λ nonce. (nonce ≡ bytes.now) × (length bytes.now ≡ 16)) }
{
    if bytes.len() != 16 {
        return None;
    }
    let mut nonce = [0u8; 16];
    nonce.copy_from_slice(bytes);
    Some(nonce)
}

/// The nonce of a greeting, `hello` and 32 hexadecimal digits; none exactly if the line is no greeting.
pub fn nonce_of(alloc: Global, line: &[u8]) -> Result<Option<[u8; 16]>, NoMemory>
    ensures { IfOk result (λ found. MatchOption found ((nonce : List ℕ) → IsGreeting line.now nonce → ⊥) (IsGreeting line.now)) }
{
    let Some(word) = rest_after(line, b"hello ") else {
        return Ok(None);
    };
    match read_hex(alloc, word)? {
        Some(bytes) => match nonce_from(bytes.as_slice()) {
            Some(nonce) => Ok(Some(nonce)),
            None => Ok(None),
        },
        None => Ok(None),
    }
}
