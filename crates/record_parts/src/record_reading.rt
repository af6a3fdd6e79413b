//! Reading what was registered, withdrawn, issued and done.
//!
//! Each reader is one that formats with such parts are made of: it reads at the front of `bytes`, the rest of an input of
//! `input` bytes, and gives the value and the bytes after it, or the first fault.

ghost use Rattle.bl_syntax.specs.Codec.{GivesReadingOrReports};
ghost use Rattle.record_parts.specs.RecordReading.{registered_at, withdrawn_at, proved_at, issued_at, admitted_at, done_at, acted_at};

use crate::fields::{moment_field_at, sized_bytes_at};
use crate::operation_reading::operation_at;
use crate::parts::{numbers_at, procaps_at, sized_proof_at};
use bl_codec::statement_at;
use bl_syntax::fields::{name_at, u32_at};
use bl_syntax::{Bytes, CodecFault, Grant, Numbers, Principal, Sequence, Statement};
use file_world::Op;
use procap::{Procap, grant_at};
use proof_term::ProofTree;
use std::alloc::Global;

/// A statement, and its signature.
#[tactic(auto, using(bl_syntax::proofs::ReportsFaultLemmas::hands_on, bl_syntax::proofs::ReportsFaultLemmas::stops), unfolding(crate::specs::RecordReading::registered_at))]
pub fn registered_at(
    alloc: Global,
    input: usize,
    bytes: &[u8],
) -> Result<(Statement, Bytes, &[u8]), CodecFault>
    ensures { GivesReadingOrReports (λ x. ((x.0, x.1), x.2.now)) result (registered_at input bytes.now) }
{
    match statement_at(alloc, input, bytes) {
        Err(fault) => Err(fault),
        Ok((statement, rest)) => match sized_bytes_at(alloc, rest) {
            Err(fault) => Err(fault),
            Ok((signature, rest)) => Ok((statement, signature, rest)),
        },
    }
}

/// The number of a statement, and the signature of its withdrawal.
#[tactic(auto, using(bl_syntax::proofs::ReportsFaultLemmas::hands_on, bl_syntax::proofs::ReportsFaultLemmas::stops), unfolding(crate::specs::RecordReading::withdrawn_at))]
pub fn withdrawn_at(alloc: Global, bytes: &[u8]) -> Result<(u32, Bytes, &[u8]), CodecFault>
    ensures { GivesReadingOrReports (λ x. ((x.0, x.1), x.2.now)) result (withdrawn_at bytes.now) }
{
    match u32_at(bytes) {
        Err(fault) => Err(fault),
        Ok((number, rest)) => match sized_bytes_at(alloc, rest) {
            Err(fault) => Err(fault),
            Ok((signature, rest)) => Ok((number, signature, rest)),
        },
    }
}

/// A proof with its length, and what it grants.
#[tactic(auto, using(bl_syntax::proofs::ReportsFaultLemmas::hands_on, bl_syntax::proofs::ReportsFaultLemmas::stops), unfolding(crate::specs::RecordReading::proved_at))]
fn proved_at(
    alloc: Global,
    input: usize,
    bytes: &[u8],
) -> Result<(ProofTree, Grant, &[u8]), CodecFault>
    ensures { GivesReadingOrReports (λ x. ((x.0, x.1), x.2.now)) result (proved_at input bytes.now) }
{
    match sized_proof_at(alloc, input, bytes) {
        Err(fault) => Err(fault),
        Ok((proof, rest)) => match grant_at(alloc, input, rest) {
            Err(fault) => Err(fault),
            Ok((grant, rest)) => Ok((proof, grant, rest)),
        },
    }
}

/// The numbers of the statements that a proof cites, the proof, and what it grants.
#[tactic(auto, using(bl_syntax::proofs::ReportsFaultLemmas::hands_on, bl_syntax::proofs::ReportsFaultLemmas::stops), unfolding(crate::specs::RecordReading::issued_at))]
pub fn issued_at(
    alloc: Global,
    input: usize,
    bytes: &[u8],
) -> Result<(Numbers, ProofTree, Grant, &[u8]), CodecFault>
    ensures { GivesReadingOrReports (λ x. ((x.0, (x.1, x.2)), x.3.now)) result (issued_at input bytes.now) }
{
    match numbers_at(alloc, bytes) {
        Err(fault) => Err(fault),
        Ok((cited, rest)) => match proved_at(alloc, input, rest) {
            Err(fault) => Err(fault),
            Ok((proof, grant, rest)) => Ok((cited, proof, grant, rest)),
        },
    }
}

/// Under which procaps, and when.
#[tactic(auto, using(bl_syntax::proofs::ReportsFaultLemmas::hands_on, bl_syntax::proofs::ReportsFaultLemmas::stops), unfolding(crate::specs::RecordReading::admitted_at))]
fn admitted_at(
    alloc: Global,
    input: usize,
    bytes: &[u8],
) -> Result<(Sequence<Procap>, i64, &[u8]), CodecFault>
    ensures { GivesReadingOrReports (λ x. ((x.0, x.1), x.2.now)) result (admitted_at input bytes.now) }
{
    match procaps_at(alloc, input, bytes) {
        Err(fault) => Err(fault),
        Ok((procaps, rest)) => match moment_field_at(input, rest) {
            Err(fault) => Err(fault),
            Ok((moment, rest)) => Ok((procaps, moment, rest)),
        },
    }
}

/// What was done, under which procaps, and when.
#[tactic(auto, using(bl_syntax::proofs::ReportsFaultLemmas::hands_on, bl_syntax::proofs::ReportsFaultLemmas::stops), unfolding(crate::specs::RecordReading::done_at))]
fn done_at(
    alloc: Global,
    input: usize,
    bytes: &[u8],
) -> Result<(Op, Sequence<Procap>, i64, &[u8]), CodecFault>
    ensures { GivesReadingOrReports (λ x. ((x.0, (x.1, x.2)), x.3.now)) result (done_at input bytes.now) }
{
    match operation_at(alloc, input, bytes) {
        Err(fault) => Err(fault),
        Ok((op, rest)) => match admitted_at(alloc, input, rest) {
            Err(fault) => Err(fault),
            Ok((procaps, moment, rest)) => Ok((op, procaps, moment, rest)),
        },
    }
}

/// Who did what, under which procaps, and when.
#[tactic(auto, using(bl_syntax::proofs::ReportsFaultLemmas::hands_on, bl_syntax::proofs::ReportsFaultLemmas::stops), unfolding(crate::specs::RecordReading::acted_at))]
pub fn acted_at(
    alloc: Global,
    input: usize,
    bytes: &[u8],
) -> Result<(Principal, Op, Sequence<Procap>, i64, &[u8]), CodecFault>
    ensures { GivesReadingOrReports (λ x. ((x.0, (x.1, (x.2, x.3))), x.4.now)) result (acted_at input bytes.now) }
{
    match name_at(input, bytes) {
        Err(fault) => Err(fault),
        Ok((caller, rest)) => match done_at(alloc, input, rest) {
            Err(fault) => Err(fault),
            Ok((op, procaps, moment, rest)) => Ok((caller, op, procaps, moment, rest)),
        },
    }
}
