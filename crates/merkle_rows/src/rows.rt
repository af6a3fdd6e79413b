//! A row: a word, the numbers that it needs, and a message.

ghost use Rattle.std.specs.Prelude.{◌≡◌, ◌^◌, ◌≤◌};
ghost use Rattle.bl_syntax.specs.declared.limits.TheConstants.{HIGHEST_TREE};

use crate::Stop;
use bl_syntax::limits::HIGHEST_TREE;
use merkle_sig::{SignFault, Signer, accepts_root};
use sha2::{Digest, Sha256};

/// The numbers of a row, and its message.
#[derive(Drop)]
struct Row<'a> {
    seed: u8,
    height: u8,
    next: u32,
    number: u32,
    message: &'a [u8],
}

/// Prints what comes of a row.
pub(crate) fn run_row<R: Print + AllocGlobal>(rt: &R, row: &str) -> Result<(), Stop> {
    let mut words = row.split(' ');
    let kind = words.next().unwrap_or("");
    let row = Row {
        seed: small(words.next()),
        height: small(words.next()),
        next: number(words.next()),
        number: number(words.next()),
        message: words.next().unwrap_or("").as_bytes(),
    };
    match signer(row.seed, row.height, row.next) {
        Some(signer) => run_kind(rt, kind, &row, signer),
        None => {
            println!(rt; "{kind}: no signer")?;
            Ok(())
        }
    }
}

fn run_kind<R: Print + AllocGlobal>(
    rt: &R,
    kind: &str,
    row: &Row<'_>,
    mut signer: Signer,
) -> Result<(), Stop> {
    let root = signer.root();
    if kind == "root" {
        let digits = hex::encode(rt.alloc(), &root)?;
        println!(rt; "root {digits}")?;
        return Ok(());
    }
    if kind == "calls" {
        return print_calls(rt, row, signer);
    }
    match signer.sign(rt.alloc(), row.message) {
        Ok(signature) => print_changed(rt, kind, row, &root, signature.into_vec().as_mut_slice()),
        Err(SignFault::Spent) => {
            println!(rt; "{kind}: spent")?;
            Ok(())
        }
        Err(SignFault::NoMemory) => Err(Stop::NoMemory),
    }
}

// Signs so many times, and prints the digest of each signature.
fn print_calls<R: Print + AllocGlobal>(
    rt: &R,
    row: &Row<'_>,
    mut signer: Signer,
) -> Result<(), Stop> {
    let root = signer.root();
    for _ in 0..row.number {
        match signer.sign(rt.alloc(), row.message) {
            Ok(signature) => {
                let bytes = signature.as_slice();
                let digits = hex::encode(rt.alloc(), &Sha256::digest(bytes))?;
                let length = bytes.len();
                let verdict = verdict(accepts_root(&root, row.height, row.message, bytes));
                println!(rt; "signature {length} {digits} {verdict}")?;
            }
            Err(SignFault::Spent) => println!(rt; "spent")?,
            Err(SignFault::NoMemory) => return Err(Stop::NoMemory),
        }
    }
    Ok(())
}

// Prints whether a signature is accepted after a change.
fn print_changed<R: Print>(
    rt: &R,
    kind: &str,
    row: &Row<'_>,
    root: &[u8; 32],
    signature: &mut [u8],
) -> Result<(), Stop> {
    let len = signature.len();
    if kind == "flips" {
        let (places, accepted) = count_flips(signature, row, root);
        println!(rt; "flips: {accepted} of {places} accepted")?;
        return Ok(());
    }
    let accepted = if kind == "cut" && len > 0 {
        accepts_root(root, row.height, row.message, &signature[..len - 1])
    } else if kind == "leaf" && len > 4 {
        signature[..4].copy_from_slice(&row.number.to_be_bytes());
        accepts_root(root, row.height, row.message, signature)
    } else if kind == "height" {
        accepts_root(root, row.height.wrapping_add(1), row.message, signature)
    } else if kind == "message" {
        accepts_root(root, row.height, b"another", signature)
    } else if kind == "siblings" && len > 16388 {
        signature[16388..].reverse();
        accepts_root(root, row.height, row.message, signature)
    } else {
        accepts_root(root, row.height, row.message, signature)
    };
    println!(rt; "{kind}: {}", verdict(accepted))?;
    Ok(())
}

// Changes each byte whose place is a multiple of the row's number, one at a time: how many there were, and how many
// signatures with a changed byte were accepted.
fn count_flips(signature: &mut [u8], row: &Row<'_>, root: &[u8; 32]) -> (u64, u64) {
    let mut places = 0u64;
    let mut accepted = 0u64;
    for place in 0..signature.len() {
        if row.number == 0 || place as u64 % u64::from(row.number) != 0 {
            continue;
        }
        signature[place] ^= 1;
        places = places.saturating_add(1);
        if accepts_root(root, row.height, row.message, signature) {
            accepted = accepted.saturating_add(1);
        }
        signature[place] ^= 1;
    }
    (places, accepted)
}

fn verdict(accepted: bool) -> &'static str {
    if accepted { "accepted" } else { "refused" }
}

// The signer of a seed of 32 equal bytes, if its height is at most 8 and the next leaf is not past the last.
fn signer(seed: u8, height: u8, next: u32) -> Option<Signer> {
    if height > HIGHEST_TREE || next > width_of(height) {
        return None;
    }
    Some(Signer::new([seed; 32], height, next))
}

fn width_of(height: u8) -> u32
    requires { height ≤ HIGHEST_TREE }
    ensures { result ≡ 2 ^ height }
{
    1 << height
}

fn small(word: Option<&str>) -> u8 {
    match word {
        Some(digits) => digits.parse::<u8>().unwrap_or(0),
        None => 0,
    }
}

fn number(word: Option<&str>) -> u32 {
    match word {
        Some(digits) => digits.parse::<u32>().unwrap_or(0),
        None => 0,
    }
}
