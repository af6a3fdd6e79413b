//! The heads of proofs' texts: the rule and its fields before the proofs of its premises.

ghost use Rattle.std.specs.Prelude.{◌≡◌, ◌+◌, ◌≤◌, length, IfOk, OnOk};
ghost use Rattle.proof_text.specs.Read.{IsRuleInRange};
ghost use Rattle.proof_text.specs.Heads.{premise_head, finish_head, start_head, with_term, plain_head, with_instance, with_interval, citing_head, with_hypothesis, named_head, head};

use crate::cursor::{
    ProofCursor, cursor_after_sign, hypothesis_at, room, rule_at, take_rule, term_at, time_at,
};
use crate::names::{CitingRule, PlainRule, RuleName};
use bl_tokens::{Sign, TextFault};
use proof_term::{Axiom, OnePremise, Rule, TwoPremises};

/// The rule, and what stands after a comma.
#[tactic(auto, unfolding(crate::specs::Heads::premise_head))]
fn premise_head(
    text: &[u8],
    rule: Rule,
    here: ProofCursor,
) -> Result<(Rule, ProofCursor), TextFault>
    requires within { here.from ≤ length text.now }
    requires ranged { IsRuleInRange rule }
    ensures value { result ≡ premise_head text.now rule here }
    ensures within { IfOk result (λ r. r.1.from ≤ length text.now) }
    ensures ranged { IfOk result (λ r. IsRuleInRange r.0) }
    ensures left { IfOk result (λ r. r.1.left ≡ here.left) }
{
    let there = cursor_after_sign(text, Sign::Comma, here)?;
    Ok((rule, there))
}

/// The rule, and what stands after the parenthesis that closes.
#[tactic(auto, unfolding(crate::specs::Heads::finish_head))]
fn finish_head(text: &[u8], rule: Rule, here: ProofCursor) -> Result<(Rule, ProofCursor), TextFault>
    requires within { here.from ≤ length text.now }
    requires ranged { IsRuleInRange rule }
    ensures value { result ≡ finish_head text.now rule here }
    ensures within { IfOk result (λ r. r.1.from ≤ length text.now) }
    ensures ranged { IfOk result (λ r. IsRuleInRange r.0) }
    ensures left { IfOk result (λ r. r.1.left ≡ here.left) }
{
    let there = cursor_after_sign(text, Sign::Close, here)?;
    Ok((rule, there))
}

/// The rule, and what stands after the parenthesis that opens.
#[tactic(auto, unfolding(crate::specs::Heads::start_head))]
fn start_head(text: &[u8], rule: Rule, here: ProofCursor) -> Result<(Rule, ProofCursor), TextFault>
    requires within { here.from ≤ length text.now }
    requires ranged { IsRuleInRange rule }
    ensures value { result ≡ start_head text.now rule here }
    ensures within { IfOk result (λ r. r.1.from ≤ length text.now) }
    ensures ranged { IfOk result (λ r. IsRuleInRange r.0) }
    ensures left { IfOk result (λ r. r.1.left ≡ here.left) }
{
    let there = cursor_after_sign(text, Sign::Open, here)?;
    Ok((rule, there))
}

/// The rule `existsR`, which names a term.
#[tactic(auto, unfolding(crate::specs::Heads::with_term))]
fn with_term(text: &[u8], here: ProofCursor) -> Result<(Rule, ProofCursor), TextFault>
    requires { here.from ≤ length text.now }
    ensures value { result ≡ with_term text.now here }
    ensures within { IfOk result (λ r. r.1.from ≤ length text.now) }
    ensures ranged { IfOk result (λ r. IsRuleInRange r.0) }
    ensures left { IfOk result (λ r. r.1.left ≡ here.left) }
{
    let place = cursor_after_sign(text, Sign::Open, here)?;
    let (term, place) = term_at(text, place)?;
    premise_head(text, Rule::One(OnePremise::ExistsR(term)), place)
}

/// The fields of a rule that names no hypothesis.
#[tactic(auto, unfolding(crate::specs::Heads::plain_head))]
fn plain_head(
    text: &[u8],
    rule: PlainRule,
    here: ProofCursor,
) -> Result<(Rule, ProofCursor), TextFault>
    requires { here.from ≤ length text.now }
    ensures value { result ≡ plain_head text.now rule here }
    ensures within { IfOk result (λ r. r.1.from ≤ length text.now) }
    ensures ranged { IfOk result (λ r. IsRuleInRange r.0) }
    ensures left { IfOk result (λ r. r.1.left ≡ here.left) }
{
    match rule {
        PlainRule::ConsR => Ok((Rule::Axiom(Axiom::ConsR), here)),
        PlainRule::InterR => Ok((Rule::Axiom(Axiom::InterR), here)),
        PlainRule::TrueR => Ok((Rule::Axiom(Axiom::TrueR), here)),
        PlainRule::AndR => start_head(text, Rule::Two(TwoPremises::AndR), here),
        PlainRule::OrR1 => start_head(text, Rule::One(OnePremise::OrR1), here),
        PlainRule::OrR2 => start_head(text, Rule::One(OnePremise::OrR2), here),
        PlainRule::ImpR => start_head(text, Rule::One(OnePremise::ImpR), here),
        PlainRule::ForallR => start_head(text, Rule::One(OnePremise::ForallR), here),
        PlainRule::ExistsR => with_term(text, here),
        PlainRule::SaysR => start_head(text, Rule::One(OnePremise::SaysR), here),
        PlainRule::AtR => start_head(text, Rule::One(OnePremise::AtR), here),
    }
}

/// The rule `forallL`, which names a term after the hypothesis.
#[tactic(auto, unfolding(crate::specs::Heads::with_instance))]
fn with_instance(text: &[u8], h: u16, here: ProofCursor) -> Result<(Rule, ProofCursor), TextFault>
    requires { here.from ≤ length text.now }
    ensures value { result ≡ with_instance text.now h here }
    ensures within { IfOk result (λ r. r.1.from ≤ length text.now) }
    ensures ranged { IfOk result (λ r. IsRuleInRange r.0) }
    ensures left { IfOk result (λ r. r.1.left ≡ here.left) }
{
    let place = cursor_after_sign(text, Sign::Comma, here)?;
    let (term, place) = term_at(text, place)?;
    premise_head(text, Rule::One(OnePremise::ForallL(h, term)), place)
}

/// The rule `impL`, which names two times after the hypothesis.
#[tactic(auto, unfolding(crate::specs::Heads::with_interval))]
fn with_interval(text: &[u8], h: u16, here: ProofCursor) -> Result<(Rule, ProofCursor), TextFault>
    requires { here.from ≤ length text.now }
    ensures value { result ≡ with_interval text.now h here }
    ensures within { IfOk result (λ r. r.1.from ≤ length text.now) }
    ensures ranged { IfOk result (λ r. IsRuleInRange r.0) }
    ensures left { IfOk result (λ r. r.1.left ≡ here.left) }
{
    let place = cursor_after_sign(text, Sign::Comma, here)?;
    let (from, place) = time_at(text, place)?;
    let place = cursor_after_sign(text, Sign::Comma, place)?;
    let (to, place) = time_at(text, place)?;
    premise_head(text, Rule::Two(TwoPremises::ImpL(h, from, to)), place)
}

/// The fields after the hypothesis.
#[tactic(auto, unfolding(crate::specs::Heads::citing_head))]
fn citing_head(
    text: &[u8],
    rule: CitingRule,
    h: u16,
    here: ProofCursor,
) -> Result<(Rule, ProofCursor), TextFault>
    requires { here.from ≤ length text.now }
    ensures value { result ≡ citing_head text.now rule h here }
    ensures within { IfOk result (λ r. r.1.from ≤ length text.now) }
    ensures ranged { IfOk result (λ r. IsRuleInRange r.0) }
    ensures left { IfOk result (λ r. r.1.left ≡ here.left) }
{
    match rule {
        CitingRule::Init => finish_head(text, Rule::Axiom(Axiom::Init(h)), here),
        CitingRule::FalseL => finish_head(text, Rule::Axiom(Axiom::FalseL(h)), here),
        CitingRule::ConsL => premise_head(text, Rule::One(OnePremise::ConsL(h)), here),
        CitingRule::InterL => premise_head(text, Rule::One(OnePremise::InterL(h)), here),
        CitingRule::AndL => premise_head(text, Rule::One(OnePremise::AndL(h)), here),
        CitingRule::OrL => premise_head(text, Rule::Two(TwoPremises::OrL(h)), here),
        CitingRule::ImpL => with_interval(text, h, here),
        CitingRule::ForallL => with_instance(text, h, here),
        CitingRule::ExistsL => premise_head(text, Rule::One(OnePremise::ExistsL(h)), here),
        CitingRule::SaysL => premise_head(text, Rule::One(OnePremise::SaysL(h)), here),
        CitingRule::Claim => premise_head(text, Rule::One(OnePremise::Claim(h)), here),
        CitingRule::AtL => premise_head(text, Rule::One(OnePremise::AtL(h)), here),
    }
}

/// The fields of a rule that names a hypothesis first.
#[tactic(auto, unfolding(crate::specs::Heads::with_hypothesis))]
fn with_hypothesis(
    text: &[u8],
    rule: CitingRule,
    here: ProofCursor,
) -> Result<(Rule, ProofCursor), TextFault>
    requires { here.from ≤ length text.now }
    ensures value { result ≡ with_hypothesis text.now rule here }
    ensures within { IfOk result (λ r. r.1.from ≤ length text.now) }
    ensures ranged { IfOk result (λ r. IsRuleInRange r.0) }
    ensures left { IfOk result (λ r. r.1.left ≡ here.left) }
{
    let place = cursor_after_sign(text, Sign::Open, here)?;
    let (h, place) = hypothesis_at(text, place)?;
    citing_head(text, rule, h, place)
}

#[tactic(auto, unfolding(crate::specs::Heads::named_head))]
fn named_head(
    text: &[u8],
    name: RuleName,
    here: ProofCursor,
) -> Result<(Rule, ProofCursor), TextFault>
    requires { here.from ≤ length text.now }
    ensures value { result ≡ named_head text.now name here }
    ensures within { IfOk result (λ r. r.1.from ≤ length text.now) }
    ensures ranged { IfOk result (λ r. IsRuleInRange r.0) }
    ensures left { IfOk result (λ r. r.1.left ≡ here.left) }
{
    match name {
        RuleName::Plain(rule) => plain_head(text, rule, here),
        RuleName::Citing(rule) => with_hypothesis(text, rule, here),
    }
}

/// The rule at that place with its fields before the premises, if so many levels are left, and
/// what follows.
#[tactic(auto, unfolding(crate::specs::Heads::head))]
#[inline(never)]
pub fn head(text: &[u8], levels: u8, here: ProofCursor) -> Result<(Rule, ProofCursor), TextFault>
    requires { here.from ≤ length text.now }
    ensures value { result ≡ head text.now levels here }
    ensures within { IfOk result (λ r. r.1.from ≤ length text.now) }
    ensures ranged { IfOk result (λ r. IsRuleInRange r.0) }
    ensures left { IfOk result (λ r. r.1.left + 1 ≡ here.left) }
    ensures some { OnOk result (1 ≤ levels) }
{
    let (name, place) = rule_at(text, here)?;
    room(text, levels, here)?;
    named_head(text, name, take_rule(place))
}
