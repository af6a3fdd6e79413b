//! What an input comes to whose statements are to be signed.
#![tactic(auto, using(bl_syntax::proofs::BeginsWithLemmas::writing))]

ghost use Rattle.std.specs.Prelude.{◌≡◌, ◌≢◌, ◌≤◌, ◌++◌, ◌∷◌, ◌^◌, [], ℕ, List, codes, IfOk, OnOk, OnErr};
ghost use Rattle.bl_syntax.specs.declared.limits.TheConstants.{HIGHEST_TREE};
ghost use Rattle.line_text.specs.HexWord.{hex_word};
ghost use Rattle.line_text.specs.Lines.{lines_of};
ghost use Rattle.root_signing.specs.Signed.{ComesTo, SigningEnds, SignsLines, fault_line, root_line};

use crate::reading::read_seed;
use crate::signing::sign_lines;
use bl_syntax::decimal::put_text;
use bl_syntax::{Bytes, NoMemory};
use line_faults::{bad_line, has_long_line};
use line_forms::LineFault;
use line_text::{first_line, write_hex};
use merkle_sig::Signer;
use pcfs_ports::{Source, TakeFault, read_to_end};
use std::alloc::Global;

/// A line is too long.
const LINE_TOO_LONG: u8 = 2;

/// The input failed.
const READ_FAULT: u8 = 6;

/// The line of the seed is wrong.
const BAD_INPUT: u8 = 12;

/// The input is too long.
const TOO_LONG: u8 = 13;

/// What an input comes to: the status, and what is to be written.
#[derive(Debug, Drop)]
pub struct SigningEnd {
    pub status: u8,
    pub lines: Bytes,
}

// How many leaves a tree of this height has.
fn leaves_of(height: u8) -> u32
    requires { height ≤ HIGHEST_TREE }
    ensures { result ≡ 2 ^ height }
{
    1 << height
}

// Writes the line with a root.
fn put_root(alloc: Global, root: &[u8], out: &mut Bytes) -> Result<(), NoMemory>
    ensures { OnOk result (out.new ≡ out.old ++ (codes "root " ++ (hex_word root.now ++ 10 ∷ []))) }
{
    put_text(out, "root ")?;
    write_hex(alloc, root, out)?;
    out.push(b'\n')
}

// The end of an input that was not read to its end, or has a line that is too long.
fn unread_end(alloc: Global, status: u8, line: &str) -> Result<SigningEnd, NoMemory>
    ensures status { IfOk result (λ end. end.status ≡ status) }
    ensures lines { IfOk result (λ end. end.lines ≡ line.now) }
{
    let mut lines = Bytes::new(alloc);
    put_text(&mut lines, line)?;
    Ok(SigningEnd { status, lines })
}

// The end of a text whose first line is wrong; an error also if memory had run out, which is no fault of it.
fn bad_end(alloc: Global, fault: LineFault) -> Result<SigningEnd, NoMemory>
    ensures status { IfOk result (λ end. end.status ≡ 12) }
    ensures lines { IfOk result (λ end. end.lines ≡ fault_line 1 fault) }
    ensures not_memory { OnOk result (fault ≢ LineFault.NoMemory) }
{
    match fault {
        LineFault::NoMemory => Err(NoMemory),
        _ => {
            let lines = bad_line(alloc, 1, fault)?;
            Ok(SigningEnd {
                status: BAD_INPUT,
                lines,
            })
        }
    }
}

// The end of lines that are signed by the tree of this seed.
fn signed_end(
    alloc: Global,
    seed: [u8; 32],
    height: u8,
    from: u32,
    text: &[u8],
) -> Result<SigningEnd, NoMemory>
    requires low { height ≤ HIGHEST_TREE }
    requires within { from ≤ 2 ^ height }
    ensures { IfOk result (λ end. (written : List ℕ) × SignsLines seed height from 2 (lines_of text.now) end.status written
        × (end.lines ≡ root_line seed height ++ written)) }
{
    let mut signer = Signer::new(seed, height, from);
    let root = signer.root();
    let mut lines = Bytes::new(alloc);
    put_root(alloc, &root, &mut lines)?;
    let status = sign_lines(alloc, &mut signer, leaves_of(height), text, &mut lines)?;
    Ok(SigningEnd { status, lines })
}

// The end of a text with this first line and these others.
fn lines_end(
    alloc: Global,
    height: u8,
    from: u32,
    line: &[u8],
    others: &[u8],
) -> Result<SigningEnd, NoMemory>
    requires low { height ≤ HIGHEST_TREE }
    requires within { from ≤ 2 ^ height }
    ensures { IfOk result (λ end. ComesTo height from (line.now ∷ lines_of others.now) end.status end.lines) }
{
    match read_seed(alloc, line) {
        Ok(seed) => signed_end(alloc, seed, height, from, others),
        Err(fault) => bad_end(alloc, fault),
    }
}

// The end of a text.
fn text_end(alloc: Global, height: u8, from: u32, text: &[u8]) -> Result<SigningEnd, NoMemory>
    requires low { height ≤ HIGHEST_TREE }
    requires within { from ≤ 2 ^ height }
    ensures { IfOk result (λ end. ComesTo height from (lines_of text.now) end.status end.lines) }
{
    match first_line(text) {
        Some((line, others)) => lines_end(alloc, height, from, line, others),
        None => bad_end(alloc, LineFault::BadWord(0)),
    }
}

/// Reads the input to its end, and answers with the root of the tree of the seed in it and a line for each statement after it,
/// which registers it by a leaf: by the leaf `from` first, and by each once. The first line that is wrong, and the first for
/// which there is no leaf, ends it with a line of its own. Statuses: 2, a line is too long; 6, the input failed; 12, a line is
/// wrong; 13, the input has 1 GiB or more; 18, there is no leaf. At 2, 6 and 13 nothing is signed. After a read that failed
/// nothing is read, and if memory runs out no read has failed.
pub fn answer_signing<I: Source>(
    alloc: Global,
    height: u8,
    from: u32,
    input: &mut I,
) -> Result<SigningEnd, NoMemory>
    requires low { height ≤ HIGHEST_TREE }
    requires within { from ≤ 2 ^ height }
    ensures ends { IfOk result (λ end. SigningEnds height from (I.left input.old) (I.left input.new) (I.faults input.old) (I.faults input.new)
        (I.broken input.new) end.status end.lines) }
    ensures steady { OnErr result (I.faults input.new ≡ I.faults input.old) }
{
    let failed = unread_end(alloc, READ_FAULT, "readfault\n")?;
    let bytes = match read_to_end(alloc, input) {
        Ok(bytes) => bytes,
        Err(TakeFault::Failed) => return Ok(failed),
        Err(TakeFault::TooLong) => return unread_end(alloc, TOO_LONG, "toolong\n"),
        Err(TakeFault::NoMemory) => return Err(NoMemory),
    };
    if has_long_line(bytes.as_slice()) {
        return unread_end(alloc, LINE_TOO_LONG, "bad 3\n");
    }
    text_end(alloc, height, from, bytes.as_slice())
}
