//! A row: a kind of values, and words of bytes, which stand one after the other.

use crate::Stop;
use crate::kinds::{
    End, formula_end, grant_end, instance_end, name_end, procap_end, proof_end, statement_end,
    term_end, text_end, time_end,
};
use bl_syntax::{Bytes, CodecFault};
use proof_term::ProofFault;

/// Prints the row and what comes of it.
pub(crate) fn run_row<R: Print + AllocGlobal>(rt: &R, row: &str) -> Result<(), Stop> {
    println!(rt; "{row}")?;
    let kind = row.split(' ').nth(0).unwrap_or("");
    let mut bytes = Bytes::new(rt.alloc());
    for word in row.split(' ').skip(1) {
        let piece = bytes_of(rt, word)?;
        bytes.extend(piece.as_slice())?;
    }
    run_kind(rt, kind, bytes.as_slice())
}

// The bytes of a word of hexadecimal digits. After a `*` it says how many times they come.
fn bytes_of<R: AllocGlobal>(rt: &R, word: &str) -> Result<Vec<u8>, Stop> {
    match word.split_once('*') {
        None => Ok(hex::decode(rt.alloc(), word)?),
        Some((digits, times)) => {
            let once = hex::decode(rt.alloc(), digits)?;
            let mut all = Vec::new(rt.alloc());
            for _ in 0..times.parse::<u32>().unwrap_or(0) {
                all.extend_from_slice(once.as_slice())?;
            }
            Ok(all)
        }
    }
}

// Prints what reading the bytes as a value of this kind comes to.
fn run_kind<R: Print + AllocGlobal>(rt: &R, kind: &str, bytes: &[u8]) -> Result<(), Stop> {
    let alloc = rt.alloc();
    match kind {
        "name" => print_end(rt, name_end(alloc, bytes)),
        "text" => print_end(rt, text_end(alloc, bytes)),
        "time" => print_end(rt, time_end(alloc, bytes)),
        "term" => print_end(rt, term_end(alloc, bytes)),
        "formula" => print_end(rt, formula_end(alloc, bytes)),
        "instance" => print_end(rt, instance_end(alloc, bytes)),
        "statement" => print_end(rt, statement_end(alloc, bytes)),
        "grant" => print_end(rt, grant_end(alloc, bytes)),
        "procap" => print_end(rt, procap_end(alloc, bytes)),
        "proof" => print_proof_end(rt, proof_end(alloc, bytes)),
        _ => Err(Stop::Failed),
    }
}

// Prints how many bytes were read, and whether what was read has these bytes; or the first fault, in words.
fn print_end<R: Print>(rt: &R, end: Result<End, CodecFault>) -> Result<(), Stop> {
    match end {
        Ok(end) => print_read(rt, end),
        Err(CodecFault::NoMemory) => Err(Stop::NoMemory),
        Err(fault) => {
            println!(rt; "  {fault}")?;
            Ok(())
        }
    }
}

// The same of a proof.
fn print_proof_end<R: Print>(rt: &R, end: Result<End, ProofFault>) -> Result<(), Stop> {
    match end {
        Ok(end) => print_read(rt, end),
        Err(ProofFault::NoMemory) => Err(Stop::NoMemory),
        Err(fault) => {
            println!(rt; "  {fault}")?;
            Ok(())
        }
    }
}

// Prints how many bytes were read, and whether they are written again.
fn print_read<R: Print>(rt: &R, end: End) -> Result<(), Stop> {
    let End { count, is_written } = end;
    let how = if is_written { "both ways" } else { "one way" };
    println!(rt; "  {count} bytes, {how}")?;
    Ok(())
}
