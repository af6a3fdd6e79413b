//! Bytes as they are written in a reply: piece by piece, so that there is no second copy of them all.
#![tactic(auto, using(bl_syntax::proofs::BeginsWithLemmas::writing))]

ghost use Rattle.std.specs.Prelude.{◌≡◌, ◌≤◌, ◌++◌, codes, length, OnOk, OnErr};
ghost use Rattle.hex.specs.Hex.{encode_lower};
ghost use Rattle.bl_syntax.specs.BeginsWith.{BeginsWith};
ghost use Rattle.procap.specs.Procap.{procap_spelling};
ghost use Rattle.line_text.specs.HexWord.{hex_word};

use bl_syntax::decimal::put_text;
use bl_syntax::{Bytes, NoMemory};
use procap::{Procap, write_procap};
use std::alloc::Global;

/// How many bytes are written at a time.
const PIECE: usize = 256;

// Adds two digits for each of few bytes.
fn put_piece(out: &mut Bytes, bytes: &[u8]) -> Result<(), NoMemory>
    requires { length bytes.now ≤ 256 }
    ensures ok { OnOk result (out.new ≡ out.old ++ encode_lower bytes.now) }
    ensures err { OnErr result (out.new ≡ out.old) }
{
    let mut room = [0u8; 512];
    let digits = &mut room[..2 * bytes.len()];
    let encoded = hex::encode_to_slice(bytes, digits);
    prove!(encoded.is_ok());
    out.extend(digits)
}

// Adds two digits for each byte.
fn put_digits(out: &mut Bytes, bytes: &[u8]) -> Result<(), NoMemory>
    ensures ok { OnOk result (out.new ≡ out.old ++ encode_lower bytes.now) }
    ensures err { OnErr result (BeginsWith out.new out.old) }
{
    let mut rest = bytes;
    'pieces: while PIECE < rest.len() {
        let (piece, others) = rest.split_at(PIECE);
        put_piece(out, piece)?;
        rest = others;
    }
    put_piece(out, rest)
}

/// Writes words, and after them the word of hexadecimal for these bytes.
pub fn write_hex_text(out: &mut Bytes, words: &str, bytes: &[u8]) -> Result<(), NoMemory>
    ensures ok { OnOk result (out.new ≡ out.old ++ (words.now ++ hex_word bytes.now)) }
    ensures err { OnErr result (BeginsWith out.new out.old) }
{
    put_text(out, words)?;
    if bytes.is_empty() {
        return put_text(out, "-");
    }
    put_digits(out, bytes)
}

/// Writes the reply that shows a procap.
pub fn write_procap_text(alloc: Global, out: &mut Bytes, p: &Procap) -> Result<(), NoMemory>
    ensures ok { OnOk result (out.new ≡ out.old ++ (codes "ok procap " ++ hex_word (procap_spelling p.now))) }
    ensures err { OnErr result (BeginsWith out.new out.old) }
{
    let mut bytes = Bytes::new(alloc);
    write_procap(p, &mut bytes)?;
    write_hex_text(out, "ok procap ", bytes.as_slice())
}
