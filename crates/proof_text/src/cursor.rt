//! The parts of a proof's text that hold no proof themselves. Each is read in one way, and has one
//! first fault.

ghost use Rattle.std.specs.Prelude.{◌≡◌, ◌+◌, ◌≤◌, length, IfOk, OnOk, IsTrue};
ghost use Rattle.std.specs.List.{take_while};
ghost use Rattle.bl_syntax.specs.Terms.{HasTimeInRange};
ghost use Rattle.bl_tokens.specs.Classes.{is_in};
ghost use Rattle.bl_tokens.specs.Ranges.{IsTokenInRange};
ghost use Rattle.bl_tokens.specs.Tokens.{sized_lexeme, first_lexeme};
ghost use Rattle.bl_tokens.specs.declared.tokens.Token.{Token};
ghost use Rattle.proof_text.specs.Cursor.{cursor_at, first_byte, token_at, cursor_after_token, cursor_after_sign, term_at, time_at, hypothesis_at, is_letter, is_word_start, rule_at, room, take_rule};

use crate::names::{RuleName, rule_named};
use bl_syntax::byte_classes::{is_lower_case, is_upper_case};
use bl_syntax::{Sort, Term};
use bl_text::{Scope, require_sort, term_of};
use bl_tokens::{
    Class, Cursor, Sign, TextFault, digits_of, is_sign, run_len, smallest_numeral, token_from,
};

/// A place in a proof's text: the byte from which the next token is read, and how many rules are
/// left for the proof from there on.
#[derive(Clone, Copy, Debug)]
pub struct ProofCursor {
    pub from: usize,
    pub left: u16,
}

fn cursor_at(from: usize, left: u16) -> ProofCursor
    ensures { result ≡ cursor_at from left }
{
    ProofCursor { from, left }
}

/// The first byte that is no space.
fn first_byte(text: &[u8], here: ProofCursor) -> usize
    requires { here.from ≤ length text.now }
    ensures same { result ≡ first_byte text.now here }
    ensures within { result ≤ length text.now }
{
    here.from + run_len(Class::Space, &text[here.from..])
}

/// The token of formulas at that place.
pub fn token_at(text: &[u8], here: ProofCursor) -> Cursor
    requires { here.from ≤ length text.now }
    ensures same { result ≡ token_at text.now here }
    ensures within { result.end ≤ length text.now }
    ensures ranged { IsTokenInRange result.token }
    ensures left { result.left ≡ here.left }
{
    token_from(text, here.from, here.left)
}

fn cursor_after_token(token: &Cursor) -> ProofCursor
    ensures { result ≡ cursor_after_token token.now }
{
    cursor_at(token.end, token.left)
}

/// Whether the bytes begin with a sign of proofs. Where they do, no whole token has to be read.
fn has_sign_front(sign: Sign, bytes: &[u8]) -> bool
    ensures { IsTrue result → first_lexeme bytes.now ≡ sized_lexeme (Token.Sign sign) 1 }
{
    match bytes {
        [] => false,
        [first, ..] => match sign {
            Sign::Open => *first == b'(',
            Sign::Close => *first == b')',
            Sign::Comma => *first == b',',
            _ => false,
        },
    }
}

/// What stands after the sign, if it is there.
#[tactic(auto, unfolding(crate::specs::Cursor::cursor_after_sign))]
pub fn cursor_after_sign(
    text: &[u8],
    sign: Sign,
    here: ProofCursor,
) -> Result<ProofCursor, TextFault>
    requires { here.from ≤ length text.now }
    ensures value { result ≡ cursor_after_sign text.now sign here }
    ensures within { IfOk result (λ there. there.from ≤ length text.now) }
    ensures left { IfOk result (λ there. there.left ≡ here.left) }
{
    let at = first_byte(text, here);
    if has_sign_front(sign, &text[at..]) {
        return Ok(cursor_at(at + 1, here.left));
    }
    let token = token_at(text, here);
    if is_sign(sign, &token.token) {
        Ok(cursor_after_token(&token))
    } else {
        Err(TextFault::Unexpected(token.at))
    }
}

/// The term at that place, and what follows it.
#[tactic(auto, unfolding(crate::specs::Cursor::term_at))]
pub fn term_at(text: &[u8], here: ProofCursor) -> Result<(Term, ProofCursor), TextFault>
    requires { here.from ≤ length text.now }
    ensures value { result ≡ term_at text.now here }
    ensures within { IfOk result (λ r. r.1.from ≤ length text.now) }
    ensures ranged { IfOk result (λ r. HasTimeInRange r.0) }
    ensures left { IfOk result (λ r. r.1.left ≡ here.left) }
{
    let token = token_at(text, here);
    let term = term_of(&Scope::Outermost, &token)?;
    Ok((term, cursor_after_token(&token)))
}

/// The time at that place, and what follows it.
#[tactic(auto, unfolding(crate::specs::Cursor::time_at))]
pub fn time_at(text: &[u8], here: ProofCursor) -> Result<(Term, ProofCursor), TextFault>
    requires { here.from ≤ length text.now }
    ensures value { result ≡ time_at text.now here }
    ensures within { IfOk result (λ r. r.1.from ≤ length text.now) }
    ensures ranged { IfOk result (λ r. HasTimeInRange r.0) }
    ensures left { IfOk result (λ r. r.1.left ≡ here.left) }
{
    let token = token_at(text, here);
    let term = term_of(&Scope::Outermost, &token)?;
    require_sort(&Scope::Outermost, Sort::Time, token.at, &term)?;
    Ok((term, cursor_after_token(&token)))
}

/// The number of a hypothesis at that place, and what follows it.
#[tactic(auto, unfolding(crate::specs::Cursor::hypothesis_at))]
pub fn hypothesis_at(text: &[u8], here: ProofCursor) -> Result<(u16, ProofCursor), TextFault>
    requires { here.from ≤ length text.now }
    ensures value { result ≡ hypothesis_at text.now here }
    ensures within { IfOk result (λ r. r.1.from ≤ length text.now) }
    ensures left { IfOk result (λ r. r.1.left ≡ here.left) }
{
    let at = first_byte(text, here);
    let digits = digits_of(&text[at..]);
    match smallest_numeral(digits) {
        Some(number) => Ok((number, cursor_at(at + digits.len(), here.left))),
        None => Err(TextFault::Unexpected(at)),
    }
}

fn is_letter(byte: u8) -> bool
    ensures { result ≡ is_letter byte }
{
    is_lower_case(byte) || is_upper_case(byte)
}

fn is_word_start(bytes: &[u8]) -> bool
    ensures { result ≡ is_word_start bytes.now }
{
    match bytes {
        [] => false,
        [first, ..] => is_letter(*first),
    }
}

/// The letters, digits and `_` at the front.
fn word_of(bytes: &[u8]) -> &[u8]
    ensures same { result.now ≡ take_while (is_in Class.Word) bytes.now }
    ensures within { length result.now ≤ length bytes.now }
{
    &bytes[..run_len(Class::Word, bytes)]
}

/// The rule at that place, and what follows its name.
#[tactic(auto, unfolding(crate::specs::Cursor::rule_at))]
pub fn rule_at(text: &[u8], here: ProofCursor) -> Result<(RuleName, ProofCursor), TextFault>
    requires { here.from ≤ length text.now }
    ensures value { result ≡ rule_at text.now here }
    ensures within { IfOk result (λ r. r.1.from ≤ length text.now) }
    ensures left { IfOk result (λ r. r.1.left ≡ here.left) }
{
    let at = first_byte(text, here);
    if !is_word_start(&text[at..]) {
        return Err(TextFault::Unexpected(at));
    }
    let word = word_of(&text[at..]);
    match rule_named(word) {
        Some(rule) => Ok((rule, cursor_at(at + word.len(), here.left))),
        None => Err(TextFault::UnknownName(at)),
    }
}

/// Takes a rule, if one is left and so many levels.
#[tactic(auto, unfolding(crate::specs::Cursor::room))]
pub fn room(text: &[u8], levels: u8, here: ProofCursor) -> Result<(), TextFault>
    requires { here.from ≤ length text.now }
    ensures value { result ≡ room text.now levels here }
    ensures some { OnOk result ((1 ≤ here.left) × (1 ≤ levels)) }
{
    if 1 <= here.left && 1 <= levels {
        Ok(())
    } else {
        Err(TextFault::TooLarge(first_byte(text, here)))
    }
}

/// One rule fewer is left.
pub fn take_rule(here: ProofCursor) -> ProofCursor
    ensures { result ≡ take_rule here }
{
    cursor_at(here.from, here.left.saturating_sub(1))
}
