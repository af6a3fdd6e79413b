//! The writer of proofs.
#![tactic(auto, using(bl_syntax::proofs::BeginsWithLemmas::writing))]

ghost use Rattle.std.specs.Prelude.{◌≡◌, ◌++◌, ◌∷◌, OnOk, OnErr};
ghost use Rattle.bl_syntax.specs.BeginsWith.{BeginsWith};
ghost use Rattle.proof_term.specs.Proof.{proof_view};
ghost use Rattle.proof_term.specs.Limits.{HasTimesInRange};
ghost use Rattle.proof_term.specs.RuleTimes.{IsOneInRange, IsTwoInRange};
ghost use Rattle.proof_term.specs.ProofSpelling.{hypothesis, axiom_spelling, one_spelling, two_spelling, proof_spelling, IsSpellableHypothesis, IsSpellableAxiom, IsSpellableOne, IsSpellableTwo, NamesSpellable, IsSpellableProof};

use crate::proof::Proof;
use crate::rule::{Axiom, OnePremise, Parts, TwoPremises};
use crate::tree::ProofTree;
use bl_syntax::fields::u16_bytes;
use bl_syntax::{Bytes, NoMemory, write_term};

/// Adds the canonical bytes of a proof at the end, or nothing if there is no memory for them.
pub fn write_proof(p: &ProofTree, out: &mut Bytes) -> Result<(), NoMemory>
    ensures ok { OnOk result (out.new ≡ out.old ++ proof_spelling p.now) }
    ensures spelled { OnOk result (IsSpellableProof p.now) }
    ensures err { OnErr result (out.new ≡ out.old) }
{
    let len = out.len();
    let written = write_node(p.root(), out);
    if written.is_err() {
        out.truncate(len);
    }
    written
}

/// Adds the bytes of a proof, or a part of them if there is no memory. It calls itself as deep as the proof is.
fn write_node(p: &Proof, out: &mut Bytes) -> Result<(), NoMemory>
    requires { HasTimesInRange (proof_view p.now) }
    ensures ok { OnOk result (out.new ≡ out.old ++ proof_spelling (proof_view p.now)) }
    ensures names { OnOk result (NamesSpellable (proof_view p.now)) }
    ensures err { OnErr result (BeginsWith out.new out.old) }
{
    match Parts::of(p) {
        Parts::Axiom(r) => write_axiom(&r, out),
        Parts::One(r, q) => {
            write_one(&r, out)?;
            write_node(q, out)
        }
        Parts::Two(r, q, s) => {
            write_two(&r, out)?;
            write_node(q, out)?;
            write_node(s, out)
        }
    }
}

#[tactic(auto, using(bl_syntax::proofs::BeginsWithLemmas::writing), unfolding(crate::specs::ProofSpelling::axiom_spelling))]
fn write_axiom(r: &Axiom, out: &mut Bytes) -> Result<(), NoMemory>
    ensures ok { OnOk result (out.new ≡ out.old ++ axiom_spelling r.now) }
    ensures names { OnOk result (IsSpellableAxiom r.now) }
    ensures err { OnErr result (BeginsWith out.new out.old) }
{
    match r {
        Axiom::Init(h) => put_hypothesis(0x01, *h, out),
        Axiom::ConsR => out.push(0x02),
        Axiom::InterR => out.push(0x03),
        Axiom::TrueR => out.push(0x07),
        Axiom::FalseL(h) => put_hypothesis(0x15, *h, out),
    }
}

#[tactic(auto, using(bl_syntax::proofs::BeginsWithLemmas::writing), unfolding(crate::specs::ProofSpelling::one_spelling))]
fn write_one(r: &OnePremise, out: &mut Bytes) -> Result<(), NoMemory>
    requires { IsOneInRange r.now }
    ensures ok { OnOk result (out.new ≡ out.old ++ one_spelling r.now) }
    ensures names { OnOk result (IsSpellableOne r.now) }
    ensures err { OnErr result (BeginsWith out.new out.old) }
{
    match r {
        OnePremise::OrR1 => out.push(0x05),
        OnePremise::OrR2 => out.push(0x06),
        OnePremise::ImpR => out.push(0x08),
        OnePremise::ForallR => out.push(0x09),
        OnePremise::ExistsR(t) => {
            out.push(0x0a)?;
            write_term(t, out)
        }
        OnePremise::SaysR => out.push(0x0b),
        OnePremise::AtR => out.push(0x0c),
        OnePremise::ConsL(h) => put_hypothesis(0x11, *h, out),
        OnePremise::InterL(h) => put_hypothesis(0x12, *h, out),
        OnePremise::AndL(h) => put_hypothesis(0x13, *h, out),
        OnePremise::ForallL(h, t) => {
            put_hypothesis(0x17, *h, out)?;
            write_term(t, out)
        }
        OnePremise::ExistsL(h) => put_hypothesis(0x18, *h, out),
        OnePremise::SaysL(h) => put_hypothesis(0x19, *h, out),
        OnePremise::Claim(h) => put_hypothesis(0x1a, *h, out),
        OnePremise::AtL(h) => put_hypothesis(0x1b, *h, out),
    }
}

#[tactic(auto, using(bl_syntax::proofs::BeginsWithLemmas::writing), unfolding(crate::specs::ProofSpelling::two_spelling))]
fn write_two(r: &TwoPremises, out: &mut Bytes) -> Result<(), NoMemory>
    requires { IsTwoInRange r.now }
    ensures ok { OnOk result (out.new ≡ out.old ++ two_spelling r.now) }
    ensures names { OnOk result (IsSpellableTwo r.now) }
    ensures err { OnErr result (BeginsWith out.new out.old) }
{
    match r {
        TwoPremises::AndR => out.push(0x04),
        TwoPremises::OrL(h) => put_hypothesis(0x14, *h, out),
        TwoPremises::ImpL(h, t1, t2) => {
            put_hypothesis(0x16, *h, out)?;
            write_term(t1, out)?;
            write_term(t2, out)
        }
    }
}

/// Adds a tag and the number of a hypothesis.
fn put_hypothesis(tag: u8, h: u16, out: &mut Bytes) -> Result<(), NoMemory>
    ensures ok { OnOk result (out.new ≡ out.old ++ tag ∷ hypothesis h) }
    ensures named { IsSpellableHypothesis h }
    ensures err { OnErr result (BeginsWith out.new out.old) }
{
    out.push(tag)?;
    out.extend(&u16_bytes(h))
}
