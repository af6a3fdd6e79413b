//! The text that a proof is written as.
#![tactic(auto, using(bl_syntax::proofs::BeginsWithLemmas::writing))]

ghost use Rattle.std.specs.Prelude.{◌≡◌, ◌++◌, OnOk, OnErr};
ghost use Rattle.bl_syntax.specs.BeginsWith.{BeginsWith};
ghost use Rattle.proof_term.specs.Proof.{proof_view};
ghost use Rattle.proof_text.specs.Printed.{cited_text, term_field, axiom_text, one_text, two_text, proof_text};

use bl_syntax::decimal::{put_counted, put_text};
use bl_syntax::{Bytes, NoMemory, Term};
use bl_text::print_term;
use proof_term::{Axiom, OnePremise, Parts, Proof, ProofTree, TwoPremises};

/// Writes a proof, all of it or nothing. It calls itself as deep as the proof is.
pub fn print_proof(p: &ProofTree, out: &mut Bytes) -> Result<(), NoMemory>
    ensures ok { OnOk result (out.new ≡ out.old ++ proof_text p.now) }
    ensures err { OnErr result (out.new ≡ out.old) }
{
    let len = out.len();
    let written = write_proof(out, p.root());
    if written.is_err() {
        out.truncate(len);
    }
    written
}

fn write_proof(out: &mut Bytes, p: &Proof) -> Result<(), NoMemory>
    ensures ok { OnOk result (out.new ≡ out.old ++ proof_text (proof_view p.now)) }
    ensures err { OnErr result (BeginsWith out.new out.old) }
{
    match Parts::of(p) {
        Parts::Axiom(r) => write_axiom(out, &r),
        Parts::One(r, p) => {
            write_one(out, &r)?;
            write_proof(out, p)?;
            put_text(out, ")")
        }
        Parts::Two(r, p, q) => {
            write_two(out, &r)?;
            write_proof(out, p)?;
            put_text(out, ",")?;
            write_proof(out, q)?;
            put_text(out, ")")
        }
    }
}

fn write_axiom(out: &mut Bytes, r: &Axiom) -> Result<(), NoMemory>
    ensures ok { OnOk result (out.new ≡ out.old ++ axiom_text r.now) }
    ensures err { OnErr result (BeginsWith out.new out.old) }
{
    match r {
        Axiom::Init(h) => write_cited(out, "init(", *h, ")"),
        Axiom::ConsR => put_text(out, "consR"),
        Axiom::InterR => put_text(out, "interR"),
        Axiom::TrueR => put_text(out, "trueR"),
        Axiom::FalseL(h) => write_cited(out, "falseL(", *h, ")"),
    }
}

fn write_one(out: &mut Bytes, r: &OnePremise) -> Result<(), NoMemory>
    ensures ok { OnOk result (out.new ≡ out.old ++ one_text r.now) }
    ensures err { OnErr result (BeginsWith out.new out.old) }
{
    match r {
        OnePremise::OrR1 => put_text(out, "orR1("),
        OnePremise::OrR2 => put_text(out, "orR2("),
        OnePremise::ImpR => put_text(out, "impR("),
        OnePremise::ForallR => put_text(out, "forallR("),
        OnePremise::ExistsR(t) => {
            put_text(out, "existsR(")?;
            write_field(out, t)
        }
        OnePremise::SaysR => put_text(out, "saysR("),
        OnePremise::AtR => put_text(out, "atR("),
        OnePremise::ConsL(h) => write_cited(out, "consL(", *h, ","),
        OnePremise::InterL(h) => write_cited(out, "interL(", *h, ","),
        OnePremise::AndL(h) => write_cited(out, "andL(", *h, ","),
        OnePremise::ForallL(h, t) => {
            write_cited(out, "forallL(", *h, ",")?;
            write_field(out, t)
        }
        OnePremise::ExistsL(h) => write_cited(out, "existsL(", *h, ","),
        OnePremise::SaysL(h) => write_cited(out, "saysL(", *h, ","),
        OnePremise::Claim(h) => write_cited(out, "claim(", *h, ","),
        OnePremise::AtL(h) => write_cited(out, "atL(", *h, ","),
    }
}

fn write_two(out: &mut Bytes, r: &TwoPremises) -> Result<(), NoMemory>
    ensures ok { OnOk result (out.new ≡ out.old ++ two_text r.now) }
    ensures err { OnErr result (BeginsWith out.new out.old) }
{
    match r {
        TwoPremises::AndR => put_text(out, "andR("),
        TwoPremises::OrL(h) => write_cited(out, "orL(", *h, ","),
        TwoPremises::ImpL(h, from, to) => {
            write_cited(out, "impL(", *h, ",")?;
            write_field(out, from)?;
            write_field(out, to)
        }
    }
}

/// Writes a rule's name with its parenthesis, the number of the hypothesis, and the sign after it.
fn write_cited(out: &mut Bytes, name: &str, h: u16, sign: &str) -> Result<(), NoMemory>
    ensures ok { OnOk result (out.new ≡ out.old ++ cited_text name.now h sign.now) }
    ensures err { OnErr result (BeginsWith out.new out.old) }
{
    put_counted(out, name, u64::from(h))?;
    put_text(out, sign)
}

/// Writes a term before a further field.
fn write_field(out: &mut Bytes, t: &Term) -> Result<(), NoMemory>
    ensures ok { OnOk result (out.new ≡ out.old ++ term_field t.now) }
    ensures err { OnErr result (BeginsWith out.new out.old) }
{
    print_term(t, out)?;
    put_text(out, ",")
}
