//! The reader of proofs.

ghost use Rattle.std.specs.Prelude.{◌≡◌, ◌≢◌, ◌<◌, ◌⊎◌, ℕ, true, false, OnOk, IfOk, IfErr};
ghost use Rattle.proof_term.specs.Proof.{proof_view};
ghost use Rattle.bl_syntax.specs.Reading.{place};
ghost use Rattle.proof_term.specs.ProofReading.{GivesProofReading, ReportsProofFault, is_right, is_left, right_rule_at, left_rule_at, interval_at, rule_at, rule_within, premises_at, proof_at, proof_reading};
ghost use Rattle.proof_term.specs.RuleKinds.{has_terms, plain_rule, termed_rule};
ghost use Rattle.proof_term.specs.NodeReading.{behind_tag};
ghost use Rattle.proof_term.specs.ProofCodec.{ReadsProofBytes};

use crate::boxes::{by_axiom, by_instance, by_interval, by_one, by_two, by_witness};
use crate::fault::ProofFault;
use crate::kinds::{Plain, PlainOne, PlainTwo, Termed};
use crate::proof::Proof;
use crate::rule::Axiom;
use crate::tree::ProofTree;
use bl_syntax::Term;
use bl_syntax::fields::{place, term_at, u16_at};
use bl_syntax::limits::{MOST_PROOF_LEVELS, MOST_PROOF_NODES};
use std::alloc::Global;

/// Reads a proof of at most 4,096 nodes and a depth of at most 200: the proof whose canonical bytes begin the input and
/// how many bytes it takes, or the first fault. Bytes may follow the proof.
pub fn read_proof(alloc: Global, bytes: &[u8]) -> Result<(ProofTree, usize), ProofFault>
    ensures exact { GivesProofReading (λ x. (x.0, x.1)) result (proof_reading bytes.now) }
    ensures front { ReadsProofBytes bytes.now result }
{
    match proof_at(
        alloc,
        MOST_PROOF_LEVELS,
        MOST_PROOF_NODES,
        bytes.len(),
        bytes,
    ) {
        Ok((root, _nodes_left, rest)) => Ok((
            ProofTree::keep(root),
            bytes.len().saturating_sub(rest.len()),
        )),
        Err(fault) => Err(fault),
    }
}

fn is_right(tag: u8) -> bool
    ensures { result ≡ is_right tag }
{
    1 <= tag && tag <= 12
}

fn is_left(tag: u8) -> bool
    ensures { result ≡ is_left tag }
{
    17 <= tag && tag <= 27
}

fn has_terms(tag: u8) -> bool
    ensures { result ≡ has_terms tag }
{
    tag == 0x0a || tag == 0x16 || tag == 0x17
}

/// The right rule with that tag, which stands at `start`, if it names no term.
#[tactic(auto, unfolding(crate::specs::ProofReading::right_rule_at))]
fn plain_right_rule_at(start: usize, tag: u8, rest: &[u8]) -> Result<(Plain, &[u8]), ProofFault>
    requires { tag ≢ 0x0a }
    ensures { (input : ℕ) → GivesProofReading (λ x. (plain_rule x.0, x.1.now)) result (right_rule_at input start tag rest.now) }
{
    match tag {
        0x01 => {
            let (h, rest) = u16_at(rest)?;
            Ok((Plain::Axiom(Axiom::Init(h)), rest))
        }
        0x02 => Ok((Plain::Axiom(Axiom::ConsR), rest)),
        0x03 => Ok((Plain::Axiom(Axiom::InterR), rest)),
        0x04 => Ok((Plain::Two(PlainTwo::AndR), rest)),
        0x05 => Ok((Plain::One(PlainOne::OrR1), rest)),
        0x06 => Ok((Plain::One(PlainOne::OrR2), rest)),
        0x07 => Ok((Plain::Axiom(Axiom::TrueR), rest)),
        0x08 => Ok((Plain::One(PlainOne::ImpR), rest)),
        0x09 => Ok((Plain::One(PlainOne::ForallR), rest)),
        0x0b => Ok((Plain::One(PlainOne::SaysR), rest)),
        0x0c => Ok((Plain::One(PlainOne::AtR), rest)),
        _ => Err(ProofFault::BadTag(start)),
    }
}

/// The left rule with that tag, which stands at `start`, if it names no term. Each names a hypothesis.
#[tactic(auto, unfolding(crate::specs::ProofReading::left_rule_at))]
fn plain_left_rule_at(start: usize, tag: u8, rest: &[u8]) -> Result<(Plain, &[u8]), ProofFault>
    requires one { tag ≢ 0x16 }
    requires other { tag ≢ 0x17 }
    ensures { (input : ℕ) → GivesProofReading (λ x. (plain_rule x.0, x.1.now)) result (left_rule_at input start tag rest.now) }
{
    if !is_left(tag) {
        return Err(ProofFault::BadTag(start));
    }
    let (h, rest) = u16_at(rest)?;
    match tag {
        0x11 => Ok((Plain::One(PlainOne::ConsL(h)), rest)),
        0x12 => Ok((Plain::One(PlainOne::InterL(h)), rest)),
        0x13 => Ok((Plain::One(PlainOne::AndL(h)), rest)),
        0x14 => Ok((Plain::Two(PlainTwo::OrL(h)), rest)),
        0x15 => Ok((Plain::Axiom(Axiom::FalseL(h)), rest)),
        0x18 => Ok((Plain::One(PlainOne::ExistsL(h)), rest)),
        0x19 => Ok((Plain::One(PlainOne::SaysL(h)), rest)),
        0x1a => Ok((Plain::One(PlainOne::Claim(h)), rest)),
        _ => Ok((Plain::One(PlainOne::AtL(h)), rest)),
    }
}

/// The rule with that tag, which stands at `start`, if it names no term.
#[tactic(auto, unfolding(crate::specs::ProofReading::rule_at))]
fn plain_rule_at(start: usize, tag: u8, rest: &[u8]) -> Result<(Plain, &[u8]), ProofFault>
    requires { has_terms tag ≡ false }
    ensures { (input : ℕ) → GivesProofReading (λ x. (plain_rule x.0, x.1.now)) result (rule_at input start tag rest.now) }
{
    if is_right(tag) {
        plain_right_rule_at(start, tag, rest)
    } else {
        plain_left_rule_at(start, tag, rest)
    }
}

/// The two times between which an implication is used.
#[inline(never)]
fn interval_at(input: usize, h: u16, bytes: &[u8]) -> Result<(Termed, &[u8]), ProofFault>
    ensures { GivesProofReading (λ x. (termed_rule x.0, x.1.now)) result (interval_at input h bytes.now) }
{
    match term_at(input, bytes) {
        Ok((t1, rest)) => match term_at(input, rest) {
            Ok((t2, rest)) => Ok((Termed::ImpL(h, t1, t2), rest)),
            Err(fault) => Err(ProofFault::from(fault)),
        },
        Err(fault) => Err(ProofFault::from(fault)),
    }
}

/// The left rule with that tag that names a hypothesis and terms.
#[tactic(auto, unfolding(crate::specs::ProofReading::left_rule_at))]
fn termed_left_rule_at(input: usize, tag: u8, rest: &[u8]) -> Result<(Termed, &[u8]), ProofFault>
    requires { (tag ≡ 0x16) ⊎ (tag ≡ 0x17) }
    ensures { (start : ℕ) → GivesProofReading (λ x. (termed_rule x.0, x.1.now)) result (left_rule_at input start tag rest.now) }
{
    let (h, rest) = u16_at(rest)?;
    if tag == 0x16 {
        interval_at(input, h, rest)
    } else {
        match term_at(input, rest) {
            Ok((t, rest)) => Ok((Termed::ForallL(h, t), rest)),
            Err(fault) => Err(ProofFault::from(fault)),
        }
    }
}

/// The rule with that tag that names terms.
#[tactic(auto, unfolding(crate::specs::ProofReading::rule_at, crate::specs::ProofReading::right_rule_at))]
fn termed_rule_at(input: usize, tag: u8, rest: &[u8]) -> Result<(Termed, &[u8]), ProofFault>
    requires { has_terms tag ≡ true }
    ensures { (start : ℕ) → GivesProofReading (λ x. (termed_rule x.0, x.1.now)) result (rule_at input start tag rest.now) }
{
    if tag == 0x0a {
        match term_at(input, rest) {
            Ok((t, rest)) => Ok((Termed::ExistsR(t), rest)),
            Err(fault) => Err(ProofFault::from(fault)),
        }
    } else {
        termed_left_rule_at(input, tag, rest)
    }
}

/// Puts the rule with that tag that names terms into its place, so that no caller holds it twice.
#[inline(never)]
fn termed_rule_into<'a>(
    input: usize,
    tag: u8,
    rest: &'a [u8],
    rule: &mut Termed,
) -> Result<&'a [u8], ProofFault>
    requires { has_terms tag ≡ true }
    ensures { (start : ℕ) → GivesProofReading (λ x. (termed_rule rule.new, x.now)) result (rule_at input start tag rest.now) }
{
    match termed_rule_at(input, tag, rest) {
        Ok((read, behind)) => {
            *rule = read;
            Ok(behind)
        }
        Err(fault) => Err(fault),
    }
}

/// The tag at the root of a proof of at most so many levels and nodes, and the bytes after it: the tag is tested
/// first, then the nodes, then the levels.
#[tactic(auto, unfolding(crate::specs::ProofReading::rule_within))]
fn tag_within(levels: u8, nodes: u16, input: usize, bytes: &[u8]) -> Result<(u8, &[u8]), ProofFault>
    ensures found { IfOk result (λ x. rule_within levels nodes input bytes.now ≡ rule_at input (place input bytes.now) x.0 x.1.now) }
    ensures fault { IfErr result (λ fault. ReportsProofFault fault (rule_within levels nodes input bytes.now)) }
    ensures room { OnOk result ((0 < levels) × (0 < nodes)) }
{
    match bytes {
        [] => Err(ProofFault::Short),
        [tag, rest @ ..] => {
            let start = place(input, bytes);
            if !is_right(*tag) && !is_left(*tag) {
                return Err(ProofFault::BadTag(start));
            }
            if nodes == 0 {
                return Err(ProofFault::TooLarge(start));
            }
            if levels == 0 {
                return Err(ProofFault::TooDeep(start));
            }
            Ok((*tag, rest))
        }
    }
}

// A function clears its locals when it begins, and a term is large: only the calls for rules with terms hold terms.

/// A proof of at most so many levels and nodes, how many nodes are left, and the bytes after it.
/// It calls itself no deeper than there are levels.
#[cycle(proofs)]
pub(crate) fn proof_at(
    alloc: Global,
    levels: u8,
    nodes: u16,
    input: usize,
    bytes: &[u8],
) -> Result<(Box<Proof>, u16, &[u8]), ProofFault>
    ensures { GivesProofReading (λ x. (proof_view x.0.value, (x.1, x.2.now))) result (proof_at levels nodes input bytes.now) }
{
    match tag_within(levels, nodes, input, bytes) {
        Ok((tag, rest)) => {
            let start = place(input, bytes);
            if has_terms(tag) {
                termed_at(alloc, levels - 1, nodes - 1, input, start, tag, rest)
            } else {
                plain_at(alloc, levels - 1, nodes - 1, input, start, tag, rest)
            }
        }
        Err(fault) => Err(fault),
    }
}

/// The proof whose root has that tag, at `start`, if its rule names no term.
#[cycle(proofs)]
fn plain_at(
    alloc: Global,
    levels: u8,
    nodes: u16,
    input: usize,
    start: usize,
    tag: u8,
    rest: &[u8],
) -> Result<(Box<Proof>, u16, &[u8]), ProofFault>
    requires { has_terms tag ≡ false }
    ensures { GivesProofReading (λ x. (proof_view x.0.value, (x.1, x.2.now))) result
        (behind_tag (λ left more. proof_at levels left input more) nodes input start tag rest.now) }
{
    match plain_rule_at(start, tag, rest) {
        Ok((rule, behind)) => plain_premises_at(alloc, levels, nodes, input, rule, behind),
        Err(fault) => Err(fault),
    }
}

/// The proof by the rule, whose premises are read.
#[cycle(proofs)]
fn plain_premises_at(
    alloc: Global,
    levels: u8,
    nodes: u16,
    input: usize,
    rule: Plain,
    bytes: &[u8],
) -> Result<(Box<Proof>, u16, &[u8]), ProofFault>
    ensures { GivesProofReading (λ x. (proof_view x.0.value, (x.1, x.2.now))) result
        (premises_at (λ left rest. proof_at levels left input rest) (plain_rule rule) nodes bytes.now) }
{
    match rule {
        Plain::Axiom(r) => Ok((by_axiom(alloc, r)?, nodes, bytes)),
        Plain::One(r) => {
            let (p, nodes, rest) = proof_at(alloc, levels, nodes, input, bytes)?;
            Ok((by_one(alloc, r, p)?, nodes, rest))
        }
        Plain::Two(r) => {
            let (p, nodes, rest) = proof_at(alloc, levels, nodes, input, bytes)?;
            let (q, nodes, rest) = proof_at(alloc, levels, nodes, input, rest)?;
            Ok((by_two(alloc, r, p, q)?, nodes, rest))
        }
    }
}

/// The proof whose root has that tag, at `start`, if its rule names terms.
#[inline(never)]
#[cycle(proofs)]
fn termed_at(
    alloc: Global,
    levels: u8,
    nodes: u16,
    input: usize,
    start: usize,
    tag: u8,
    rest: &[u8],
) -> Result<(Box<Proof>, u16, &[u8]), ProofFault>
    requires { has_terms tag ≡ true }
    ensures { GivesProofReading (λ x. (proof_view x.0.value, (x.1, x.2.now))) result
        (behind_tag (λ left more. proof_at levels left input more) nodes input start tag rest.now) }
{
    let mut rule = Termed::ExistsR(Term::Ctime);
    match termed_rule_into(input, tag, rest, &mut rule) {
        Ok(behind) => termed_premises_at(alloc, levels, nodes, input, &rule, behind),
        Err(fault) => Err(fault),
    }
}

/// The proof by the rule, whose premises are read.
#[cycle(proofs)]
fn termed_premises_at<'a>(
    alloc: Global,
    levels: u8,
    nodes: u16,
    input: usize,
    rule: &Termed,
    bytes: &'a [u8],
) -> Result<(Box<Proof>, u16, &'a [u8]), ProofFault>
    ensures { GivesProofReading (λ x. (proof_view x.0.value, (x.1, x.2.now))) result
        (premises_at (λ left rest. proof_at levels left input rest) (termed_rule rule.now) nodes bytes.now) }
{
    let (p, nodes, rest) = proof_at(alloc, levels, nodes, input, bytes)?;
    match rule {
        Termed::ExistsR(t) => Ok((by_witness(alloc, t, p)?, nodes, rest)),
        Termed::ForallL(h, t) => Ok((by_instance(alloc, *h, t, p)?, nodes, rest)),
        Termed::ImpL(h, t1, t2) => {
            let (q, nodes, rest) = proof_at(alloc, levels, nodes, input, rest)?;
            Ok((by_interval(alloc, *h, t1, t2, p, q)?, nodes, rest))
        }
    }
}
