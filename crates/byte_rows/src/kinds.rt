//! Values of each kind, read from bytes and written again.

use bl_codec::{read_formula, read_statement, write_formula, write_statement};
use bl_syntax::{
    Bytes, CodecFault, Formula, NoMemory, Term, instantiate, read_name, read_term, read_text,
    read_time, write_name, write_term, write_text, write_time,
};
use procap::{read_grant, read_procap, write_grant, write_procap};
use proof_term::{ProofFault, read_proof, write_proof};
use std::alloc::Global;

/// How many bytes were read, and whether what was read is written as these.
#[derive(Clone, Copy)]
pub(crate) struct End {
    pub(crate) count: usize,
    pub(crate) is_written: bool,
}

// The end of a reading of so many bytes, after what was read is written.
fn end_of(
    written: Result<(), NoMemory>,
    out: &Bytes,
    bytes: &[u8],
    count: usize,
) -> Result<End, CodecFault> {
    match written {
        Ok(()) => Ok(End {
            count,
            is_written: out.len() == count && bytes.starts_with(out.as_slice()),
        }),
        Err(_) => Err(CodecFault::NoMemory),
    }
}

pub(crate) fn name_end(alloc: Global, bytes: &[u8]) -> Result<End, CodecFault> {
    match read_name(bytes) {
        Ok((name, count)) => {
            let mut out = Bytes::new(alloc);
            let written = write_name(&name, &mut out);
            end_of(written, &out, bytes, count)
        }
        Err(fault) => Err(fault),
    }
}

pub(crate) fn text_end(alloc: Global, bytes: &[u8]) -> Result<End, CodecFault> {
    match read_text(bytes) {
        Ok((text, count)) => {
            let mut out = Bytes::new(alloc);
            let written = write_text(&text, &mut out);
            end_of(written, &out, bytes, count)
        }
        Err(fault) => Err(fault),
    }
}

pub(crate) fn time_end(alloc: Global, bytes: &[u8]) -> Result<End, CodecFault> {
    match read_time(bytes) {
        Ok((time, count)) => {
            let mut out = Bytes::new(alloc);
            let written = write_time(&time, &mut out);
            end_of(written, &out, bytes, count)
        }
        Err(fault) => Err(fault),
    }
}

pub(crate) fn term_end(alloc: Global, bytes: &[u8]) -> Result<End, CodecFault> {
    match read_term(bytes) {
        Ok((term, count)) => {
            let mut out = Bytes::new(alloc);
            let written = write_term(&term, &mut out);
            end_of(written, &out, bytes, count)
        }
        Err(fault) => Err(fault),
    }
}

pub(crate) fn formula_end(alloc: Global, bytes: &[u8]) -> Result<End, CodecFault> {
    match read_formula(alloc, bytes) {
        Ok(found) => {
            let mut out = Bytes::new(alloc);
            let written = write_formula(&found.0, &mut out);
            end_of(written, &out, bytes, found.1)
        }
        Err(fault) => Err(fault),
    }
}

pub(crate) fn statement_end(alloc: Global, bytes: &[u8]) -> Result<End, CodecFault> {
    match read_statement(alloc, bytes) {
        Ok((statement, count)) => {
            let mut out = Bytes::new(alloc);
            let written = write_statement(&statement, &mut out);
            end_of(written, &out, bytes, count)
        }
        Err(fault) => Err(fault),
    }
}

pub(crate) fn grant_end(alloc: Global, bytes: &[u8]) -> Result<End, CodecFault> {
    match read_grant(alloc, bytes) {
        Ok((grant, count)) => {
            let mut out = Bytes::new(alloc);
            let written = write_grant(&grant, &mut out);
            end_of(written, &out, bytes, count)
        }
        Err(fault) => Err(fault),
    }
}

pub(crate) fn procap_end(alloc: Global, bytes: &[u8]) -> Result<End, CodecFault> {
    match read_procap(alloc, bytes) {
        Ok(procap) => {
            let mut out = Bytes::new(alloc);
            let written = write_procap(&procap, &mut out);
            end_of(written, &out, bytes, bytes.len())
        }
        Err(fault) => Err(fault),
    }
}

pub(crate) fn proof_end(alloc: Global, bytes: &[u8]) -> Result<End, ProofFault> {
    match read_proof(alloc, bytes) {
        Ok((proof, count)) => {
            let mut out = Bytes::new(alloc);
            let written = write_proof(&proof, &mut out);
            Ok(end_of(written, &out, bytes, count)?)
        }
        Err(fault) => Err(fault),
    }
}

// Whether the formula with the term for its outermost variable is the wanted one.
fn is_instance(
    alloc: Global,
    body: &Formula,
    t: &Term,
    wanted: &Formula,
) -> Result<bool, CodecFault> {
    match instantiate(alloc, body, t) {
        Ok(instance) => Ok(instance.is_same(wanted)),
        Err(_) => Err(CodecFault::NoMemory),
    }
}

// Whether the formula that begins the bytes is the instance of another for the term.
fn instance_after(
    alloc: Global,
    body: &Formula,
    t: &Term,
    bytes: &[u8],
) -> Result<(bool, usize), CodecFault> {
    match read_formula(alloc, bytes) {
        Ok((wanted, count)) => match is_instance(alloc, body, t, &wanted) {
            Ok(is_same) => Ok((is_same, count)),
            Err(fault) => Err(fault),
        },
        Err(fault) => Err(fault),
    }
}

// The same for a term that begins the bytes.
fn instance_of(alloc: Global, body: &Formula, bytes: &[u8]) -> Result<(bool, usize), CodecFault> {
    let (t, of_term) = read_term(bytes)?;
    let (is_same, count) = instance_after(alloc, body, &t, bytes.get(of_term..).unwrap_or(&[]))?;
    Ok((is_same, count.saturating_add(of_term)))
}

/// A formula, a term, and a formula, which is written as the first is with the term for its outermost variable.
pub(crate) fn instance_end(alloc: Global, bytes: &[u8]) -> Result<End, CodecFault> {
    match read_formula(alloc, bytes) {
        Ok((body, of_body)) => {
            match instance_of(alloc, &body, bytes.get(of_body..).unwrap_or(&[])) {
                Ok((is_written, count)) => Ok(End {
                    count: count.saturating_add(of_body),
                    is_written,
                }),
                Err(fault) => Err(fault),
            }
        }
        Err(fault) => Err(fault),
    }
}
