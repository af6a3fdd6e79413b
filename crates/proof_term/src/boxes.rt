//! Proofs in memory of their own, made of a rule and the proofs of its premises. A proof and a term are large, so what
//! goes through proofs level by level holds boxes alone, and leaves it to these to make the proof that a box holds.

ghost use Rattle.std.specs.Prelude.{◌≡◌, IfOk};
ghost use Rattle.proof_term.specs.Proof.{proof_view, exists_r, forall_l, imp_l};
ghost use Rattle.proof_term.specs.Rules.{by_axiom, by_one, by_two};
ghost use Rattle.proof_term.specs.RuleKinds.{one_rule, two_rule};

use crate::kinds::{PlainOne, PlainTwo};
use crate::proof::Proof;
use crate::rule::Axiom;
use bl_syntax::{NoMemory, Term};
use std::alloc::Global;

/// The proof by a rule alone.
#[inline(never)]
pub fn by_axiom(alloc: Global, r: Axiom) -> Result<Box<Proof>, NoMemory>
    ensures { IfOk result (λ b. proof_view b.value ≡ by_axiom r) }
{
    Ok(Box::new(alloc, r.proof())?)
}

/// The proof by a rule that names no term, from the proof of its premise.
#[inline(never)]
pub fn by_one(alloc: Global, r: PlainOne, p: Box<Proof>) -> Result<Box<Proof>, NoMemory>
    ensures { IfOk result (λ b. proof_view b.value ≡ by_one (one_rule r) (proof_view p.value)) }
{
    Ok(Box::new(alloc, r.proof(p))?)
}

/// The proof by a rule that names no term, from the proofs of its premises.
#[inline(never)]
pub fn by_two(
    alloc: Global,
    r: PlainTwo,
    p: Box<Proof>,
    q: Box<Proof>,
) -> Result<Box<Proof>, NoMemory>
    ensures { IfOk result (λ b. proof_view b.value ≡ by_two (two_rule r) (proof_view p.value) (proof_view q.value)) }
{
    Ok(Box::new(alloc, r.proof(p, q))?)
}

/// The proof about one, from its instance at the term.
#[inline(never)]
pub fn by_witness(alloc: Global, t: &Term, p: Box<Proof>) -> Result<Box<Proof>, NoMemory>
    ensures { IfOk result (λ b. proof_view b.value ≡ exists_r t.now (proof_view p.value)) }
{
    Ok(Box::new(alloc, Proof::ExistsR(*t, p))?)
}

/// The proof that uses the instance at the term.
#[inline(never)]
pub fn by_instance(alloc: Global, h: u16, t: &Term, p: Box<Proof>) -> Result<Box<Proof>, NoMemory>
    ensures { IfOk result (λ b. proof_view b.value ≡ forall_l h t.now (proof_view p.value)) }
{
    Ok(Box::new(alloc, Proof::ForallL(h, *t, p))?)
}

/// The proof that uses an implication between two times.
#[inline(never)]
pub fn by_interval(
    alloc: Global,
    h: u16,
    t1: &Term,
    t2: &Term,
    p: Box<Proof>,
    q: Box<Proof>,
) -> Result<Box<Proof>, NoMemory>
    ensures { IfOk result (λ b. proof_view b.value ≡ imp_l h t1.now t2.now (proof_view p.value) (proof_view q.value)) }
{
    Ok(Box::new(alloc, Proof::ImpL(h, *t1, *t2, p, q))?)
}
