//! Writing what was registered, withdrawn, issued and done. Each writer adds the one spelling of its value at the end, or nothing.

ghost use Rattle.std.specs.Prelude.{◌≡◌, ◌≤◌, ◌++◌, OnOk, OnErr, length};
ghost use Rattle.std.specs.List.{AllByRecursion};
ghost use Rattle.bl_syntax.specs.BeginsWith.{BeginsWith};
ghost use Rattle.bl_syntax.specs.TimeOrder.{IsMoment};
ghost use Rattle.procap.specs.GrantSpelling.{list_spelling};
ghost use Rattle.procap.specs.Procap.{procap_spelling, IsSpellableProcap};
ghost use Rattle.record_parts.specs.Fields.{FitsFourBytes, moment_spelling};
ghost use Rattle.record_parts.specs.OperationSpelling.{operation_spelling, IsSpellableOperation, HasFittingWords};
ghost use Rattle.record_parts.specs.RecordSpelling.{registered_spelling, IsSpellableRegistered, withdrawn_spelling, IsSpellableWithdrawn, issued_spelling, IsSpellableIssued, acted_spelling, IsSpellableActed};

use crate::fields::{put_moment, put_sized_bytes};
use crate::operation_writing::write_operation;
use crate::parts::{add_numbers, add_procaps, add_sized_proof};
use bl_codec::write_statement;
use bl_syntax::fields::u32_bytes;
use bl_syntax::{Bytes, Grant, NoMemory, Principal, Statement, write_name};
use file_world::Op;
use procap::{Procap, write_grant};
use proof_term::ProofTree;

/// Adds a statement, and its signature of fewer than 2^32 bytes.
pub fn write_registered(
    statement: &Statement,
    signature: &[u8],
    out: &mut Bytes,
) -> Result<(), NoMemory>
    requires { FitsFourBytes signature.now }
    ensures ok { OnOk result (out.new ≡ out.old ++ registered_spelling statement.now signature.now) }
    ensures spelled { OnOk result (IsSpellableRegistered statement.now signature.now) }
    ensures err { OnErr result (out.new ≡ out.old) }
{
    let len = out.len();
    let added = add_registered(statement, signature, out);
    if added.is_err() {
        out.truncate(len);
    }
    added
}

/// Adds a statement and its signature, or a front of them.
#[tactic(auto, using(bl_syntax::proofs::BeginsWithLemmas::writing), unfolding(crate::specs::RecordSpelling::registered_spelling))]
fn add_registered(statement: &Statement, signature: &[u8], out: &mut Bytes) -> Result<(), NoMemory>
    requires { FitsFourBytes signature.now }
    ensures ok { OnOk result (out.new ≡ out.old ++ registered_spelling statement.now signature.now) }
    ensures spelled { OnOk result (IsSpellableRegistered statement.now signature.now) }
    ensures err { OnErr result (BeginsWith out.new out.old) }
{
    write_statement(statement, out)?;
    put_sized_bytes(signature, out)
}

/// Adds the number of a statement, and the signature of its withdrawal, of fewer than 2^32 bytes.
pub fn write_withdrawn(number: u32, signature: &[u8], out: &mut Bytes) -> Result<(), NoMemory>
    requires { FitsFourBytes signature.now }
    ensures ok { OnOk result (out.new ≡ out.old ++ withdrawn_spelling number signature.now) }
    ensures spelled { OnOk result (IsSpellableWithdrawn number signature.now) }
    ensures err { OnErr result (out.new ≡ out.old) }
{
    let len = out.len();
    let added = add_withdrawn(number, signature, out);
    if added.is_err() {
        out.truncate(len);
    }
    added
}

/// Adds the number of a statement and the signature of its withdrawal, or a front of them.
#[tactic(auto, using(bl_syntax::proofs::BeginsWithLemmas::writing), unfolding(crate::specs::RecordSpelling::withdrawn_spelling))]
fn add_withdrawn(number: u32, signature: &[u8], out: &mut Bytes) -> Result<(), NoMemory>
    requires { FitsFourBytes signature.now }
    ensures ok { OnOk result (out.new ≡ out.old ++ withdrawn_spelling number signature.now) }
    ensures spelled { OnOk result (IsSpellableWithdrawn number signature.now) }
    ensures err { OnErr result (BeginsWith out.new out.old) }
{
    out.extend(&u32_bytes(number))?;
    put_sized_bytes(signature, out)
}

/// Adds the numbers of the statements that a proof cites, at most 255, the proof, and what it grants.
pub fn write_issued(
    cited: &[u32],
    proof: &ProofTree,
    grant: &Grant,
    out: &mut Bytes,
) -> Result<(), NoMemory>
    requires { length cited.now ≤ 255 }
    ensures ok { OnOk result (out.new ≡ out.old ++ issued_spelling cited.now proof.now grant.now) }
    ensures spelled { OnOk result (IsSpellableIssued cited.now proof.now grant.now) }
    ensures err { OnErr result (out.new ≡ out.old) }
{
    let len = out.len();
    let added = add_issued(cited, proof, grant, out);
    if added.is_err() {
        out.truncate(len);
    }
    added
}

/// Adds cited numbers, a proof and a grant, or a front of them.
#[tactic(auto, using(bl_syntax::proofs::BeginsWithLemmas::writing), unfolding(crate::specs::RecordSpelling::issued_spelling))]
fn add_issued(
    cited: &[u32],
    proof: &ProofTree,
    grant: &Grant,
    out: &mut Bytes,
) -> Result<(), NoMemory>
    requires { length cited.now ≤ 255 }
    ensures ok { OnOk result (out.new ≡ out.old ++ issued_spelling cited.now proof.now grant.now) }
    ensures spelled { OnOk result (IsSpellableIssued cited.now proof.now grant.now) }
    ensures err { OnErr result (BeginsWith out.new out.old) }
{
    add_numbers(cited, out)?;
    add_sized_proof(proof, out)?;
    write_grant(grant, out)
}

/// Adds who did what, under at most 255 procaps, and when. The operation's names have at most 255 bytes, and what it
/// writes fewer than 2^32; the moment lies in the range of moments.
pub fn write_acted(
    caller: &Principal,
    op: &Op,
    procaps: &[Procap],
    moment: i64,
    out: &mut Bytes,
) -> Result<(), NoMemory>
    requires words { HasFittingWords op.now }
    requires procaps { length procaps.now ≤ 255 }
    requires moment { IsMoment moment }
    ensures ok { OnOk result (out.new ≡ out.old ++ acted_spelling caller.now op.now procaps.now moment) }
    ensures spelled { OnOk result (IsSpellableActed caller.now op.now procaps.now moment) }
    ensures err { OnErr result (out.new ≡ out.old) }
{
    let len = out.len();
    let added = add_acted(caller, op, procaps, moment, out);
    if added.is_err() {
        out.truncate(len);
    }
    added
}

/// Adds who did what, under which procaps, and when, or a front of it.
#[tactic(auto, using(bl_syntax::proofs::BeginsWithLemmas::writing), unfolding(crate::specs::RecordSpelling::acted_spelling))]
fn add_acted(
    caller: &Principal,
    op: &Op,
    procaps: &[Procap],
    moment: i64,
    out: &mut Bytes,
) -> Result<(), NoMemory>
    requires words { HasFittingWords op.now }
    requires procaps { length procaps.now ≤ 255 }
    requires moment { IsMoment moment }
    ensures ok { OnOk result (out.new ≡ out.old ++ acted_spelling caller.now op.now procaps.now moment) }
    ensures spelled { OnOk result (IsSpellableActed caller.now op.now procaps.now moment) }
    ensures err { OnErr result (BeginsWith out.new out.old) }
{
    write_name(caller, out)?;
    add_done(op, procaps, moment, out)
}

/// Adds what was done, under which procaps, and when, or a front of it.
#[tactic(auto, using(bl_syntax::proofs::BeginsWithLemmas::writing))]
fn add_done(op: &Op, procaps: &[Procap], moment: i64, out: &mut Bytes) -> Result<(), NoMemory>
    requires words { HasFittingWords op.now }
    requires procaps { length procaps.now ≤ 255 }
    ensures ok { OnOk result (out.new ≡ out.old ++ (operation_spelling op.now ++ (list_spelling procap_spelling procaps.now ++ moment_spelling moment))) }
    ensures words { OnOk result (IsSpellableOperation op.now) }
    ensures procaps { OnOk result (AllByRecursion IsSpellableProcap procaps.now) }
    ensures err { OnErr result (BeginsWith out.new out.old) }
{
    write_operation(op, out)?;
    add_admitted(procaps, moment, out)
}

/// Adds under which procaps something was done, and when, or a front of it.
#[tactic(auto, using(bl_syntax::proofs::BeginsWithLemmas::writing))]
fn add_admitted(procaps: &[Procap], moment: i64, out: &mut Bytes) -> Result<(), NoMemory>
    requires { length procaps.now ≤ 255 }
    ensures ok { OnOk result (out.new ≡ out.old ++ (list_spelling procap_spelling procaps.now ++ moment_spelling moment)) }
    ensures spelled { OnOk result (AllByRecursion IsSpellableProcap procaps.now) }
    ensures err { OnErr result (BeginsWith out.new out.old) }
{
    add_procaps(procaps, out)?;
    put_moment(moment, out)
}
