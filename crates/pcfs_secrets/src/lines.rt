//! The lines of a secrets file.

ghost use Rattle.std.specs.Prelude.{◌≡◌, ◌≢◌, ◌++◌, ◌∷◌, ◌≤◌, [], ℕ, List, length, IsTrue, IfOk, IfSome, IsSomeAnd, MatchOption, MatchBool};
ghost use Rattle.bl_syntax.specs.declared.limits.TheConstants.{HIGHEST_TREE};
ghost use Rattle.bl_syntax.specs.Names.{is_principal_name};
ghost use Rattle.policy_statement.specs.Ring.{KeyView, IsKnown, keyed, rooted};
ghost use Rattle.pcfs_secrets.specs.SecretLines.{GivesKey, IsKeyWord, IsRootWord, IsSealLine, MayHave};

use bl_syntax::limits::MOST_KEY_BYTES;
use bl_syntax::{Bytes, NoMemory, Principal};
use line_text::{read_hex, rest_after, word_before};
use policy_statement::{KeyFault, Keyring};
use std::alloc::Global;

// The key that the word writes.
fn read_key(alloc: Global, word: &[u8]) -> Result<Option<Bytes>, NoMemory>
    ensures { IfOk result (λ r. MatchOption r ((key : List ℕ) → IsKeyWord word.now key → ⊥) (IsKeyWord word.now)) }
{
    match read_hex(alloc, word)? {
        Some(key) => {
            if key.len() <= MOST_KEY_BYTES {
                Ok(Some(key))
            } else {
                Ok(None)
            }
        }
        None => Ok(None),
    }
}

// A digest of these bytes, if there are as many.
fn digest_from(bytes: &[u8]) -> Option<[u8; 32]>
    ensures { MatchOption result (length bytes.now ≢ 32) (λ root. (root ≡ bytes.now) × (length bytes.now ≡ 32)) }
{
    if bytes.len() != 32 {
        return None;
    }
    let mut root = [0u8; 32];
    root.copy_from_slice(bytes);
    Some(root)
}

// The height and the root that the word writes.
fn read_root(alloc: Global, word: &[u8]) -> Result<Option<(u8, [u8; 32])>, NoMemory>
    ensures { IfOk result (λ r. MatchOption r
        ((height : ℕ) (root : List ℕ) → IsRootWord word.now height root → ⊥)
        (λ p. IsRootWord word.now p.0 p.1)) }
{
    let [digit, b' ', digits @ ..] = word else {
        return Ok(None);
    };
    let digit = *digit;
    if digit < b'0' || digit > b'8' {
        return Ok(None);
    }
    match read_hex(alloc, digits)? {
        Some(bytes) => match digest_from(bytes.as_slice()) {
            Some(root) => Ok(Some((digit - b'0', root))),
            None => Ok(None),
        },
        None => Ok(None),
    }
}

/// The key of the seal that the line gives.
pub fn read_seal(alloc: Global, line: &[u8]) -> Result<Option<Bytes>, NoMemory>
    ensures { IfOk result (λ r. MatchOption r ((key : List ℕ) → IsSealLine line.now key → ⊥) (IsSealLine line.now)) }
{
    match rest_after(line, b"seal ") {
        Some(word) => read_key(alloc, word),
        None => Ok(None),
    }
}

// The name in a line that begins with this literal, and the word after it.
fn name_and_word<'a>(line: &'a [u8], literal: &[u8]) -> Option<(&'a [u8], &'a [u8])>
    ensures found { IfSome result (λ p. line.now ≡ literal.now ++ (p.0.now ++ 32 ∷ p.1.now)) }
    ensures only { (who word : List ℕ) → IsTrue (is_principal_name who)
        → line.now ≡ literal.now ++ (who ++ 32 ∷ word)
        → IsSomeAnd result (λ p. (p.0.now ≡ who) × (p.1.now ≡ word)) }
{
    let rest = rest_after(line, literal)?;
    word_before(rest, b" ")
}

// Gives the name this key; `false` exactly if it has a key or a root, and then the ring is as before.
fn add_key_to(ring: &mut Keyring, who: Principal, key: &[u8]) -> Result<bool, NoMemory>
    ensures { IfOk result (λ added. MatchBool added
        ((IsKnown ring.old who → ⊥) × (ring.new ≡ ring.old ++ record { who = who; holds = keyed key.now } ∷ []))
        (IsKnown ring.old who × (ring.new ≡ ring.old))) }
{
    match ring.add(who, key) {
        Ok(()) => Ok(true),
        Err(KeyFault::Known | KeyFault::BadHeight) => Ok(false),
        Err(KeyFault::NoMemory) => Err(NoMemory),
    }
}

// Gives the name this root; `false` exactly if it has a key or a root, and then the ring is as before.
fn add_root_to(
    ring: &mut Keyring,
    who: Principal,
    height: u8,
    root: [u8; 32],
) -> Result<bool, NoMemory>
    requires { height ≤ HIGHEST_TREE }
    ensures { IfOk result (λ added. MatchBool added
        ((IsKnown ring.old who → ⊥) × (ring.new ≡ ring.old ++ record { who = who; holds = rooted height root } ∷ []))
        (IsKnown ring.old who × (ring.new ≡ ring.old))) }
{
    match ring.add_root(who, height, root) {
        Ok(()) => Ok(true),
        Err(KeyFault::Known | KeyFault::BadHeight) => Ok(false),
        Err(KeyFault::NoMemory) => Err(NoMemory),
    }
}

// Gives the name the key that the word writes; `false` exactly if the word writes none, or the name may have none,
// and then the ring is as before.
fn give_key(alloc: Global, ring: &mut Keyring, name: &[u8], word: &[u8]) -> Result<bool, NoMemory>
    ensures { IfOk result (λ added. MatchBool added
        ((key : List ℕ) × MayHave ring.old name.now word.now (keyed key)
        × (ring.new ≡ ring.old ++ record { who = name.now; holds = keyed key } ∷ []))
        (((key : List ℕ) → MayHave ring.old name.now word.now (keyed key) → ⊥) × (ring.new ≡ ring.old))) }
{
    let Some(who) = Principal::new(name) else {
        return Ok(false);
    };
    match read_key(alloc, word)? {
        Some(key) => add_key_to(ring, who, key.as_slice()),
        None => Ok(false),
    }
}

// Gives the name the root that the word writes, likewise.
fn give_root(alloc: Global, ring: &mut Keyring, name: &[u8], word: &[u8]) -> Result<bool, NoMemory>
    ensures { IfOk result (λ added. MatchBool added
        ((height : ℕ) × (root : List ℕ) × MayHave ring.old name.now word.now (rooted height root)
        × (ring.new ≡ ring.old ++ record { who = name.now; holds = rooted height root } ∷ []))
        (((height : ℕ) (root : List ℕ) → MayHave ring.old name.now word.now (rooted height root) → ⊥)
        × (ring.new ≡ ring.old))) }
{
    let Some(who) = Principal::new(name) else {
        return Ok(false);
    };
    match read_root(alloc, word)? {
        Some(found) => {
            let root = found.1;
            add_root_to(ring, who, found.0, root)
        }
        None => Ok(false),
    }
}

/// Gives the key or the root of the line to its name; `false` exactly if the line gives none to a name that has none,
/// and then the ring is as before.
pub fn add_key(alloc: Global, ring: &mut Keyring, line: &[u8]) -> Result<bool, NoMemory>
    ensures { IfOk result (λ added. MatchBool added
        ((k : KeyView) × GivesKey ring.old line.now k × (ring.new ≡ ring.old ++ k ∷ []))
        (((k : KeyView) → GivesKey ring.old line.now k → ⊥) × (ring.new ≡ ring.old))) }
{
    if let Some((name, word)) = name_and_word(line, b"key ") {
        return give_key(alloc, ring, name, word);
    }
    match name_and_word(line, b"root ") {
        Some((name, word)) => give_root(alloc, ring, name, word),
        None => Ok(false),
    }
}
