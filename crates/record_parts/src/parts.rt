//! Proofs with their length, and lists of parts, both ways.

ghost use Rattle.std.specs.Prelude.{◌≡◌, ◌↔◌, ◌≤◌, ◌-◌, ◌++◌, IsTrue, OnOk, OnErr, length};
ghost use Rattle.std.specs.List.{AllByRecursion, flat_map};
ghost use Rattle.bl_syntax.specs.BeginsWith.{BeginsWith};
ghost use Rattle.bl_syntax.specs.Codec.{GivesReadingOrReports};
ghost use Rattle.proof_term.specs.ProofSpelling.{IsSpellableProof};
ghost use Rattle.procap.specs.GrantSpelling.{list_spelling};
ghost use Rattle.procap.specs.Procap.{procap_spelling, IsSpellableProcap, procap_at};
ghost use Rattle.record_parts.specs.Fields.{u32_at};
ghost use Rattle.record_parts.specs.Parts.{many_at, list_at, of_proof, sized_proof_spelling, sized_proof_at};
ghost use Rattle.record_parts.specs.RecordSpelling.{cited_spelling, IsSpellableCited};

use bl_syntax::fields::{place, u32_at, u32_bytes};
use bl_syntax::{Bytes, CodecFault, NoMemory, Numbers, Sequence};
use procap::{Procap, procap_at, write_procap};
use proof_term::{ProofFault, ProofTree, proof_at, write_proof};
use std::alloc::Global;

/// So many procaps.
fn many_procaps_at(
    alloc: Global,
    count: u8,
    input: usize,
    bytes: &[u8],
) -> Result<(Sequence<Procap>, &[u8]), CodecFault>
    ensures { GivesReadingOrReports (λ x. (x.0, x.1.now)) result (many_at (procap_at input) count bytes.now) }
{
    let mut procaps = Sequence::new(alloc);
    procaps.reserve(count as usize)?;
    let mut rest = bytes;
    for _ in 0..count {
        match procap_at(alloc, input, rest) {
            Err(fault) => return Err(fault),
            Ok((procap, behind)) => {
                procaps.push(procap)?;
                rest = behind;
            }
        }
    }
    Ok((procaps, rest))
}

/// The number of procaps, and each.
#[tactic(auto, unfolding(crate::specs::Parts::list_at))]
pub(crate) fn procaps_at(
    alloc: Global,
    input: usize,
    bytes: &[u8],
) -> Result<(Sequence<Procap>, &[u8]), CodecFault>
    ensures { GivesReadingOrReports (λ x. (x.0, x.1.now)) result (list_at (procap_at input) bytes.now) }
{
    match bytes {
        [] => Err(CodecFault::Short),
        [count, rest @ ..] => many_procaps_at(alloc, *count, input, rest),
    }
}

/// So many numbers.
fn many_numbers_at(alloc: Global, count: u8, bytes: &[u8]) -> Result<(Numbers, &[u8]), CodecFault>
    ensures { GivesReadingOrReports (λ x. (x.0, x.1.now)) result (many_at u32_at count bytes.now) }
{
    let mut numbers = Sequence::new(alloc);
    numbers.reserve(count as usize)?;
    let mut rest = bytes;
    for _ in 0..count {
        match u32_at(rest) {
            Err(fault) => return Err(fault),
            Ok((number, behind)) => {
                numbers.push(number)?;
                rest = behind;
            }
        }
    }
    Ok((numbers, rest))
}

/// How many numbers there are, and each.
#[tactic(auto, unfolding(crate::specs::Parts::list_at))]
pub(crate) fn numbers_at(alloc: Global, bytes: &[u8]) -> Result<(Numbers, &[u8]), CodecFault>
    ensures { GivesReadingOrReports (λ x. (x.0, x.1.now)) result (list_at u32_at bytes.now) }
{
    match bytes {
        [] => Err(CodecFault::Short),
        [count, rest @ ..] => many_numbers_at(alloc, *count, rest),
    }
}

/// A proof's fault as one of the record.
fn of_proof(fault: ProofFault) -> CodecFault
    ensures { result ≡ of_proof fault }
{
    match fault {
        ProofFault::Short => CodecFault::Short,
        ProofFault::BadTag(at) => CodecFault::BadTag(at),
        ProofFault::TooLarge(at) | ProofFault::TooDeep(at) => CodecFault::TooLarge(at),
        ProofFault::BadTerm(fault) => fault,
        ProofFault::NoMemory => CodecFault::NoMemory,
    }
}

/// Whether what was read between the two has this length.
fn is_of_length(len: u32, rest: &[u8], behind: &[u8]) -> bool
    ensures { IsTrue result ↔ (length rest.now - length behind.now ≡ len) }
{
    place(rest.len(), behind) == len as usize
}

/// A proof with four bytes of length. Another length than the proof's has its fault at its first byte.
pub(crate) fn sized_proof_at(
    alloc: Global,
    input: usize,
    bytes: &[u8],
) -> Result<(ProofTree, &[u8]), CodecFault>
    ensures { GivesReadingOrReports (λ x. (x.0, x.1.now)) result (sized_proof_at input bytes.now) }
{
    match u32_at(bytes) {
        Err(fault) => Err(fault),
        Ok((len, rest)) => match proof_at(alloc, input, rest) {
            Err(fault) => Err(of_proof(fault)),
            Ok((proof, behind)) => {
                if is_of_length(len, rest, behind) {
                    Ok((proof, behind))
                } else {
                    Err(CodecFault::NotCanonical(place(input, bytes)))
                }
            }
        },
    }
}

/// Adds a proof with four bytes of length, or a front of them. The length is put in when it is known.
#[tactic(auto, unfolding(crate::specs::Parts::sized_proof_spelling))]
pub(crate) fn add_sized_proof(proof: &ProofTree, out: &mut Bytes) -> Result<(), NoMemory>
    ensures ok { OnOk result (out.new ≡ out.old ++ sized_proof_spelling proof.now) }
    ensures spelled { OnOk result (IsSpellableProof proof.now) }
    ensures err { OnErr result (BeginsWith out.new out.old) }
{
    let start = out.len();
    out.extend(&[0; 4])?;
    let from = out.len();
    write_proof(proof, out)?;
    let len = out.len() - from;
    out.overwrite(start, &u32_bytes(len as u32));
    Ok(())
}

/// Adds how many numbers there are, and each, or a front of them.
#[tactic(auto, using(bl_syntax::proofs::BeginsWithLemmas::writing))]
pub(crate) fn add_numbers(numbers: &[u32], out: &mut Bytes) -> Result<(), NoMemory>
    requires { length numbers.now ≤ 255 }
    ensures ok { OnOk result (out.new ≡ out.old ++ list_spelling cited_spelling numbers.now) }
    ensures spelled { OnOk result (AllByRecursion IsSpellableCited numbers.now) }
    ensures err { OnErr result (BeginsWith out.new out.old) }
{
    out.push(numbers.len() as u8)?;
    add_each_number(numbers, out)
}

/// Adds the bytes of each number, or a front of them.
#[tactic(auto, using(bl_syntax::proofs::BeginsWithLemmas::writing))]
fn add_each_number(numbers: &[u32], out: &mut Bytes) -> Result<(), NoMemory>
    ensures ok { OnOk result (out.new ≡ out.old ++ flat_map cited_spelling numbers.now) }
    ensures spelled { OnOk result (AllByRecursion IsSpellableCited numbers.now) }
    ensures err { OnErr result (BeginsWith out.new out.old) }
{
    match numbers {
        [] => Ok(()),
        [first, others @ ..] => {
            out.extend(&u32_bytes(*first))?;
            add_each_number(others, out)
        }
    }
}

/// Adds how many procaps there are, and each, or a front of them.
#[tactic(auto, using(bl_syntax::proofs::BeginsWithLemmas::writing))]
pub(crate) fn add_procaps(procaps: &[Procap], out: &mut Bytes) -> Result<(), NoMemory>
    requires { length procaps.now ≤ 255 }
    ensures ok { OnOk result (out.new ≡ out.old ++ list_spelling procap_spelling procaps.now) }
    ensures spelled { OnOk result (AllByRecursion IsSpellableProcap procaps.now) }
    ensures err { OnErr result (BeginsWith out.new out.old) }
{
    out.push(procaps.len() as u8)?;
    add_each_procap(procaps, out)
}

/// Adds the bytes of each procap, or a front of them.
#[tactic(auto, using(bl_syntax::proofs::BeginsWithLemmas::writing))]
fn add_each_procap(procaps: &[Procap], out: &mut Bytes) -> Result<(), NoMemory>
    ensures ok { OnOk result (out.new ≡ out.old ++ flat_map procap_spelling procaps.now) }
    ensures spelled { OnOk result (AllByRecursion IsSpellableProcap procaps.now) }
    ensures err { OnErr result (BeginsWith out.new out.old) }
{
    match procaps {
        [] => Ok(()),
        [first, others @ ..] => {
            write_procap(first, out)?;
            add_each_procap(others, out)
        }
    }
}
