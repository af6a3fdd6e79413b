//! The names of rules.

ghost use Rattle.std.specs.Prelude.{◌≡◌};
ghost use Rattle.proof_text.specs.Rules.{plain_named, citing_named, rule_named};

/// A rule that names no hypothesis.
#[derive(Clone, Copy, Debug, PartialEq, Eq)]
pub enum PlainRule {
    ConsR,
    InterR,
    AndR,
    OrR1,
    OrR2,
    TrueR,
    ImpR,
    ForallR,
    ExistsR,
    SaysR,
    AtR,
}

/// A rule whose first field is the number of a hypothesis.
#[derive(Clone, Copy, Debug, PartialEq, Eq)]
pub enum CitingRule {
    Init,
    ConsL,
    InterL,
    AndL,
    OrL,
    FalseL,
    ImpL,
    ForallL,
    ExistsL,
    SaysL,
    Claim,
    AtL,
}

/// A rule, by its name.
#[derive(Clone, Copy, Debug, PartialEq, Eq)]
pub enum RuleName {
    Plain(PlainRule),
    Citing(CitingRule),
}

fn plain_named(word: &[u8]) -> Option<PlainRule>
    ensures { result ≡ plain_named word.now }
{
    if word == b"consR".as_slice() {
        Some(PlainRule::ConsR)
    } else if word == b"interR".as_slice() {
        Some(PlainRule::InterR)
    } else if word == b"andR".as_slice() {
        Some(PlainRule::AndR)
    } else if word == b"orR1".as_slice() {
        Some(PlainRule::OrR1)
    } else if word == b"orR2".as_slice() {
        Some(PlainRule::OrR2)
    } else if word == b"trueR".as_slice() {
        Some(PlainRule::TrueR)
    } else if word == b"impR".as_slice() {
        Some(PlainRule::ImpR)
    } else if word == b"forallR".as_slice() {
        Some(PlainRule::ForallR)
    } else if word == b"existsR".as_slice() {
        Some(PlainRule::ExistsR)
    } else if word == b"saysR".as_slice() {
        Some(PlainRule::SaysR)
    } else if word == b"atR".as_slice() {
        Some(PlainRule::AtR)
    } else {
        None
    }
}

fn citing_named(word: &[u8]) -> Option<CitingRule>
    ensures { result ≡ citing_named word.now }
{
    if word == b"init".as_slice() {
        Some(CitingRule::Init)
    } else if word == b"consL".as_slice() {
        Some(CitingRule::ConsL)
    } else if word == b"interL".as_slice() {
        Some(CitingRule::InterL)
    } else if word == b"andL".as_slice() {
        Some(CitingRule::AndL)
    } else if word == b"orL".as_slice() {
        Some(CitingRule::OrL)
    } else if word == b"falseL".as_slice() {
        Some(CitingRule::FalseL)
    } else if word == b"impL".as_slice() {
        Some(CitingRule::ImpL)
    } else if word == b"forallL".as_slice() {
        Some(CitingRule::ForallL)
    } else if word == b"existsL".as_slice() {
        Some(CitingRule::ExistsL)
    } else if word == b"saysL".as_slice() {
        Some(CitingRule::SaysL)
    } else if word == b"claim".as_slice() {
        Some(CitingRule::Claim)
    } else if word == b"atL".as_slice() {
        Some(CitingRule::AtL)
    } else {
        None
    }
}

/// The rule of that name.
#[tactic(auto, unfolding(crate::specs::Rules::rule_named))]
pub fn rule_named(word: &[u8]) -> Option<RuleName>
    ensures { result ≡ rule_named word.now }
{
    match plain_named(word) {
        Some(rule) => Some(RuleName::Plain(rule)),
        None => match citing_named(word) {
            Some(rule) => Some(RuleName::Citing(rule)),
            None => None,
        },
    }
}
