//! The texts of proofs are read by recursive descent. It goes no deeper than there are levels. What
//! calls itself makes no proof and drops none, so that the deepest text takes little of the stack.

ghost use Rattle.std.specs.Prelude.{◌≡◌, ◌≤◌, length, Ok, Err, IfOk, IfErr, MatchResult};
ghost use Rattle.bl_tokens.specs.declared.faults.TextFault.{TextFault};
ghost use Rattle.bl_text.specs.Texts.{AreOneFault};
ghost use Rattle.proof_term.specs.Proof.{ProofView, proof_view};
ghost use Rattle.proof_term.specs.Rules.{by_axiom, by_one, by_two};
ghost use Rattle.proof_text.specs.Cursor.{cursor_after_sign};
ghost use Rattle.proof_text.specs.FirstFaults.{ProofHasFirstFault};
ghost use Rattle.proof_text.specs.Read.{ReadsProofText};
ghost use Rattle.proof_text.specs.Texts.{beginning, at_end, IsProofText, ProofTextFault};

use crate::cursor::{ProofCursor, cursor_after_sign, token_at};
use crate::heads::head;
use bl_syntax::limits::{MOST_PROOF_LEVELS, MOST_PROOF_NODES};
use bl_syntax::{NoMemory, Term};
use bl_tokens::{Sign, TextFault, Token};
use proof_term::{Axiom, OnePremise, Proof, ProofTree, Rule, TwoPremises};
use std::alloc::Global;

/// The proof that the text writes, of at most 4,096 rules and a depth of at most 200, or the first
/// fault of the text; or `NoMemory`.
pub fn parse_proof(alloc: Global, text: &[u8]) -> Result<ProofTree, TextFault>
    ensures read { IfOk result (IsProofText text.now) }
    ensures fault { IfErr result (ProofTextFault text.now) }
    ensures every_proof { (d : ProofView) → IsProofText text.now d
        → MatchResult result (λ p. p ≡ d) (λ e. e ≡ TextFault.NoMemory) }
    ensures every_fault { (e : TextFault) → ProofTextFault text.now e
        → MatchResult result (λ _. e ≡ TextFault.NoMemory) (λ d. AreOneFault d e) }
{
    read_proof(alloc, text)
}

fn read_proof(alloc: Global, text: &[u8]) -> Result<ProofTree, TextFault>
    ensures read { IfOk result (IsProofText text.now) }
    ensures fault { IfErr result (ProofTextFault text.now) }
{
    let (p, there) = proof_at(alloc, text, MOST_PROOF_LEVELS, beginning())?;
    at_end(text, there)?;
    match ProofTree::new(p) {
        Ok(tree) => Ok(tree),
        Err(_) => unreachable!(),
    }
}

/// The place of the first token.
fn beginning() -> ProofCursor
    ensures { result ≡ beginning }
{
    ProofCursor {
        from: 0,
        left: MOST_PROOF_NODES,
    }
}

/// Nothing stands there but spaces.
#[tactic(auto, unfolding(crate::specs::Texts::at_end))]
fn at_end(text: &[u8], here: ProofCursor) -> Result<(), TextFault>
    requires { here.from ≤ length text.now }
    ensures { result ≡ at_end text.now here }
{
    let token = token_at(text, here);
    match &token.token {
        Token::End => Ok(()),
        _ => Err(TextFault::Unexpected(token.at)),
    }
}

/// The proof by the rule alone.
#[inline(never)]
fn axiom_of(alloc: Global, r: Axiom) -> Result<Box<Proof>, NoMemory>
    ensures { IfOk result (λ made. proof_view made.value ≡ by_axiom r) }
{
    Ok(Box::new(alloc, r.proof())?)
}

/// The proof by the rule from that of its premise.
#[inline(never)]
fn one_of(alloc: Global, r: OnePremise, p: Box<Proof>) -> Result<Box<Proof>, NoMemory>
    ensures { IfOk result (λ made. proof_view made.value ≡ by_one r (proof_view p.value)) }
{
    Ok(Box::new(alloc, r.proof(p))?)
}

/// The proof by the rule from those of its premises.
#[inline(never)]
fn two_of(
    alloc: Global,
    r: TwoPremises,
    p: Box<Proof>,
    q: Box<Proof>,
) -> Result<Box<Proof>, NoMemory>
    ensures { IfOk result (λ made. proof_view made.value ≡ by_two r (proof_view p.value) (proof_view q.value)) }
{
    Ok(Box::new(alloc, r.proof(p, q))?)
}

/// The proof that was read, and what stands after the sign that follows it, if it is there.
#[inline(never)]
fn before_sign(
    text: &[u8],
    sign: Sign,
    p: Box<Proof>,
    here: ProofCursor,
) -> Result<(Box<Proof>, ProofCursor), TextFault>
    requires { here.from ≤ length text.now }
    ensures value { MatchResult result (λ r. cursor_after_sign text.now sign here ≡ Ok r.1) (λ e. cursor_after_sign text.now sign here ≡ Err e) }
    ensures same { IfOk result (λ r. proof_view r.0.value ≡ proof_view p.value) }
    ensures within { IfOk result (λ r. r.1.from ≤ length text.now) }
    ensures left { IfOk result (λ r. r.1.left ≡ here.left) }
{
    let there = cursor_after_sign(text, sign, here)?;
    Ok((p, there))
}

/// Drops what was read so far; the fault is the answer.
#[inline(never)]
fn refuse(_read: Box<Proof>, fault: TextFault) -> Result<(Box<Proof>, ProofCursor), TextFault>
    ensures { result ≡ Err fault }
{
    Err(fault)
}

/// The proof at that place, of at most so many levels, and what follows it.
fn proof_at(
    alloc: Global,
    text: &[u8],
    levels: u8,
    here: ProofCursor,
) -> Result<(Box<Proof>, ProofCursor), TextFault>
    requires { here.from ≤ length text.now }
    ensures read { IfOk result (λ r. ReadsProofText text.now levels here r.1 (proof_view r.0.value)) }
    ensures fault { IfErr result (λ e. ProofHasFirstFault text.now levels here e) }
{
    // Nothing uses it: a local of this type has the prover know terms here, else it refuses the function.
    let _known: Option<Term> = None;
    let (rule, first) = head(text, levels, here)?;
    match rule {
        Rule::Axiom(r) => Ok((axiom_of(alloc, r)?, first)),
        Rule::One(r) => {
            let (p, mid) = proof_at(alloc, text, levels - 1, first)?;
            let made = one_of(alloc, r, p)?;
            let (read, there) = before_sign(text, Sign::Close, made, mid)?;
            Ok((read, there))
        }
        Rule::Two(r) => {
            let (p, mid) = proof_at(alloc, text, levels - 1, first)?;
            let (kept, second) = before_sign(text, Sign::Comma, p, mid)?;
            match proof_at(alloc, text, levels - 1, second) {
                Ok((q, last)) => {
                    let made = two_of(alloc, r, kept, q)?;
                    let (read, there) = before_sign(text, Sign::Close, made, last)?;
                    Ok((read, there))
                }
                Err(fault) => refuse(kept, fault),
            }
        }
    }
}
