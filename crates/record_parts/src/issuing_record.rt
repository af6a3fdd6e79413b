//! Issues kept as the bytes of their records.

ghost use Rattle.std.specs.Prelude.{◌≡◌, ◌≤◌, ◌↔◌, IfOk, IsTrue, drop, length, take};
ghost use Rattle.record_parts.specs.IssuingRecord.{cited_part, grant_part, has_number, is_plain, numbers_in, proved_part};
ghost use Rattle.record_parts.specs.RecordSpelling.{IsIssuing, IsSpellableIssued, issued_spelling, issuing_spelling};

use crate::grant_matching::is_grant_spelling;
use crate::parts::numbers_at;
use crate::record_reading::issued_at;
use crate::record_writing::write_issued;
use bl_syntax::fields::u32_at;
use bl_syntax::{Bytes, CodecFault, Grant, NoMemory, Numbers, Sequence, copy_bytes};
use procap::grant_at;
use proof_term::ProofTree;
use std::alloc::Global;
use std::marker::Model;

/// How many bytes are taken at once to write an issue; a longer one grows from there.
const COMMON_SIZE: usize = 256;

/// An issue: the numbers of the statements that a proof cites, the proof, and what it grants. It is kept as its canonical
/// bytes. Contracts see the issue.
#[derive(Debug, Drop)]
pub struct IssuingRecord {
    bytes: Bytes,
}

impl Model for IssuingRecord {
    ghost use Rattle.record_parts.specs.IssuingRecord.{issue_of, issuing_code, IsIssuingRecord};
    ghost use Rattle.record_parts.specs.RecordSpelling.{Issuing};

    ghost Value = { Issuing };

    ghost coded = { issuing_code };

    ghost view = { λ r. issue_of r.bytes };

    ghost invariant = { λ r. IsIssuingRecord (issue_of r.bytes) r.bytes };
}

// The bytes of an issue, in memory of their own.
fn bytes_of(
    alloc: Global,
    cited: &[u32],
    proof: &ProofTree,
    grant: &Grant,
) -> Result<Bytes, NoMemory>
    requires { length cited.now ≤ 255 }
    ensures same { IfOk result (λ bytes. bytes ≡ issued_spelling cited.now proof.now grant.now) }
    ensures spelled { IfOk result (λ _. IsSpellableIssued cited.now proof.now grant.now) }
{
    let mut written = Sequence::from_vec(Vec::with_capacity(alloc, COMMON_SIZE)?);
    write_issued(cited, proof, grant, &mut written)?;
    copy_bytes(alloc, written.as_slice())
}

// The first so many bytes, or all if there are fewer.
fn first_bytes(bytes: &[u8], count: usize) -> &[u8]
    ensures { result.now ≡ take count bytes.now }
{
    if bytes.len() < count {
        return bytes;
    }
    let (front, _) = bytes.split_at(count);
    front
}

// The bytes after the first so many; none if there are fewer.
fn bytes_after(bytes: &[u8], count: usize) -> &[u8]
    ensures { result.now ≡ drop count bytes.now }
{
    if bytes.len() < count {
        return &[];
    }
    let (_, rest) = bytes.split_at(count);
    rest
}

// The bytes of the numbers that are cited.
fn cited_part(bytes: &[u8]) -> &[u8]
    ensures { result.now ≡ cited_part bytes.now }
{
    match bytes {
        [] => &[],
        [count, rest @ ..] => first_bytes(rest, *count as usize * 4),
    }
}

// The bytes after the numbers that are cited: a proof with its length, and a grant.
fn proved_part(bytes: &[u8]) -> &[u8]
    ensures { result.now ≡ proved_part bytes.now }
{
    match bytes {
        [] => &[],
        [count, rest @ ..] => bytes_after(rest, *count as usize * 4),
    }
}

// The bytes of the grant. The proof is passed over by its length.
fn grant_part(bytes: &[u8]) -> &[u8]
    ensures { result.now ≡ grant_part bytes.now }
{
    match u32_at(proved_part(bytes)) {
        Err(_) => &[],
        Ok((len, rest)) => bytes_after(rest, len as usize),
    }
}

// Whether one of the numbers, of four bytes each, is this one.
#[tactic(auto, unfolding(crate::specs::IssuingRecord::numbers_in))]
fn has_number(number: u32, bytes: &[u8]) -> bool
    ensures { result ≡ has_number number (numbers_in bytes.now) }
{
    match bytes {
        [a, b, c, d, rest @ ..] => {
            u32::from_be_bytes([*a, *b, *c, *d]) == number || has_number(number, rest)
        }
        _ => false,
    }
}

impl IssuingRecord {
    /// The record of an issue that cites at most 255 statements, in memory of its own.
    #[tactic(auto, using(crate::proofs::IssuingRecordLemmas::recorded))]
    pub fn of(
        alloc: Global,
        cited: &[u32],
        proof: &ProofTree,
        grant: &Grant,
    ) -> Result<IssuingRecord, NoMemory>
        requires { length cited.now ≤ 255 }
        ensures { IfOk result (λ kept. kept ≡ (cited.now, (proof.now, grant.now))) }
    {
        Ok(IssuingRecord {
            bytes: bytes_of(alloc, cited, proof, grant)?,
        })
    }

    /// Its canonical bytes.
    pub fn bytes(&self) -> &[u8]
        ensures same { result.now ≡ issuing_spelling self.now }
        ensures spelled { IsIssuing self.now }
    {
        self.bytes.as_slice()
    }

    /// A record of the same issue, in memory of its own. Nothing is read.
    pub fn copy(&self, alloc: Global) -> Result<IssuingRecord, NoMemory>
        ensures { IfOk result (λ copied. copied ≡ self.now) }
    {
        Ok(IssuingRecord {
            bytes: self.bytes.copy(alloc)?,
        })
    }

    /// The numbers, the proof and the grant, in memory of their own. They are read anew at each call.
    pub fn parts(&self, alloc: Global) -> Result<(Numbers, ProofTree, Grant), NoMemory>
        ensures { IfOk result (λ parts. (parts.0, (parts.1, parts.2)) ≡ self.now) }
    {
        let bytes = self.bytes.as_slice();
        match issued_at(alloc, bytes.len(), bytes) {
            Ok((cited, proof, grant, _)) => Ok((cited, proof, grant)),
            Err(fault) => match fault {
                CodecFault::NoMemory => Err(NoMemory),
                _ => unreachable!(),
            },
        }
    }

    /// The numbers that it cites, in memory of their own. They are read anew at each call, and nothing else is.
    pub fn cited(&self, alloc: Global) -> Result<Numbers, NoMemory>
        ensures { IfOk result (λ numbers. numbers ≡ self.now.0) }
    {
        match numbers_at(alloc, self.bytes.as_slice()) {
            Ok((numbers, _)) => Ok(numbers),
            Err(fault) => match fault {
                CodecFault::NoMemory => Err(NoMemory),
                _ => unreachable!(),
            },
        }
    }

    /// Its grant, in memory of its own. It is read anew at each call, and nothing else is.
    pub fn grant(&self, alloc: Global) -> Result<Grant, NoMemory>
        ensures { IfOk result (λ grant. grant ≡ self.now.1.1) }
    {
        let bytes = grant_part(self.bytes.as_slice());
        match grant_at(alloc, bytes.len(), bytes) {
            Ok((grant, _)) => Ok(grant),
            Err(fault) => match fault {
                CodecFault::NoMemory => Err(NoMemory),
                _ => unreachable!(),
            },
        }
    }

    /// Whether its grant names no statements. Nothing but the grant's version is read.
    pub fn is_plain(&self) -> bool
        ensures { result ≡ is_plain self.now }
    {
        match grant_part(self.bytes.as_slice()) {
            [_, version, ..] => *version == 1,
            _ => false,
        }
    }

    /// Whether it has this grant. The bytes are compared, and none is read.
    pub fn is_grant(&self, grant: &Grant) -> bool
        ensures { IsTrue result ↔ (self.now.1.1 ≡ grant.now) }
    {
        is_grant_spelling(grant, grant_part(self.bytes.as_slice()))
    }

    /// Whether it cites the statement of that number. It takes no memory.
    pub fn cites(&self, number: u32) -> bool
        ensures { result ≡ has_number number self.now.0 }
    {
        has_number(number, cited_part(self.bytes.as_slice()))
    }

    /// The numbers that it cites, of four bytes each.
    pub fn cited_bytes(&self) -> &[u8]
        ensures { numbers_in result.now ≡ self.now.0 }
    {
        cited_part(self.bytes.as_slice())
    }
}
