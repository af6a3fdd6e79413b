//! The tokens of a text. A token takes as many bytes as it can, and what is no token is a bad one
//! at its first byte.

ghost use Rattle.std.specs.Prelude.{◌≡◌, ◌+◌, ◌-◌, ◌≤◌, ◌<◌, ◌^◌, length, IsTrue, IfSome};
ghost use Rattle.std.specs.List.{list_all};
ghost use Rattle.bl_syntax.specs.Names.{is_digit};
ghost use Rattle.bl_tokens.specs.Dates.{has_date_front, has_time_of_day};
ghost use Rattle.bl_tokens.specs.Ranges.{IsTokenInRange};
ghost use Rattle.bl_tokens.specs.Tokens.{bad_lexeme, sized_lexeme, second_token, short_value, integer_lexeme, negative_lexeme, date_token, date_time_token, time_lexeme, digits_of, minus_lexeme, plus_lexeme, word_lexeme, variable_lexeme, file_lexeme, parameter_lexeme, text_lexeme, has_first_byte, short_sign, sign_lexeme, other_lexeme, first_lexeme, token_from, cursor_after, cursor_after_node, sign_code, word_code, is_sign, is_word};

use crate::classes::{Class, run_len};
use crate::dates::{date_second_at, day_second_at, has_date_front, has_time_of_day, second_within};
use crate::numerals::{digits_value, long_numeral, short_numeral};
use crate::words::word_token;
use bl_syntax::byte_classes::{is_digit, is_lower_case, is_upper_case};
use bl_syntax::{NodeId, Principal, Short, Sort, Term, Text, TimePoint, is_moment};

/// A word of the grammar.
#[derive(Clone, Copy, Debug, PartialEq, Eq)]
pub enum Keyword {
    Forall,
    Exists,
    Says,
    From,
    To,
    True,
    False,
    Inf,
}

/// A sign of the grammar.
#[derive(Clone, Copy, Debug, PartialEq, Eq)]
pub enum Sign {
    Open,
    Close,
    OpenInterval,
    CloseInterval,
    Comma,
    Colon,
    Dot,
    And,
    Or,
    Implies,
    UpTo,
    At,
}

/// A token.
#[derive(Clone, Copy, Debug)]
pub enum Token {
    /// The name of a principal or a predicate.
    Name(Principal),
    /// A word that is too long for a name.
    LongWord,
    Variable(Short<32>),
    /// A term without variables that is no principal.
    Constant(Term),
    /// A date that does not exist, or a second outside the range of moments.
    BadDate,
    SortName(Sort),
    Keyword(Keyword),
    Sign(Sign),
    /// The end of the text.
    End,
    /// Bytes that begin no token.
    Bad,
}

/// A token, and how many bytes it takes.
#[derive(Clone, Copy, Debug)]
pub struct Lexeme {
    pub token: Token,
    pub size: usize,
}

/// A place in a text: the token there, its first byte and where it ends, and how many nodes are
/// left for the formula from there on.
#[derive(Clone, Copy, Debug)]
pub struct Cursor {
    pub at: usize,
    pub token: Token,
    pub end: usize,
    pub left: u16,
}

fn bad_lexeme() -> Lexeme
    ensures { result ≡ bad_lexeme }
{
    sized_lexeme(Token::Bad, 0)
}

fn sized_lexeme(token: Token, size: usize) -> Lexeme
    ensures { result ≡ sized_lexeme token size }
{
    Lexeme { token, size }
}

fn second_token(second: i64) -> Token
    ensures same { result ≡ second_token second }
    ensures ranged { IsTokenInRange result }
{
    if is_moment(second) {
        Token::Constant(Term::Time(TimePoint::At(second)))
    } else {
        Token::BadDate
    }
}

fn integer_lexeme(digits: &[u8]) -> Lexeme
    requires { IsTrue (list_all is_digit digits.now) }
    ensures same { result ≡ integer_lexeme digits.now }
    ensures ranged { IsTokenInRange result.token }
{
    match short_value(digits) {
        Some(value) => sized_lexeme(second_token(value as i64), digits.len()),
        None => bad_lexeme(),
    }
}

fn negative_lexeme(digits: &[u8]) -> Lexeme
    requires { IsTrue (list_all is_digit digits.now) }
    ensures same { result ≡ negative_lexeme digits.now }
    ensures ranged { IsTokenInRange result.token }
{
    match short_value(digits) {
        Some(value) => sized_lexeme(second_token(-(value as i64)), digits.len() + 1),
        None => bad_lexeme(),
    }
}

/// The number that 1 to 18 digits write.
fn short_value(digits: &[u8]) -> Option<u64>
    requires { IsTrue (list_all is_digit digits.now) }
    ensures value { result ≡ short_value digits.now }
    ensures fits { IfSome result (λ n. n < 10 ^ 18) }
{
    if 1 <= digits.len() && digits.len() <= 18 {
        digits_value(digits)
    } else {
        None
    }
}

fn date_token(bytes: &[u8]) -> Token
    requires { IsTrue (has_date_front bytes.now) }
    ensures same { result ≡ date_token bytes.now }
    ensures ranged { IsTokenInRange result }
{
    match date_second_at(bytes) {
        Some(second) => second_token(second),
        None => Token::BadDate,
    }
}

fn date_time_token(bytes: &[u8]) -> Token
    requires date { IsTrue (has_date_front bytes.now) }
    requires time { IsTrue (has_time_of_day bytes.now) }
    ensures same { result ≡ date_time_token bytes.now }
    ensures ranged { IsTokenInRange result }
{
    match (date_second_at(bytes), day_second_at(bytes)) {
        (Some(date), Some(time)) => second_token(second_within(date, time)),
        _ => Token::BadDate,
    }
}

/// A time that begins with a digit.
fn time_lexeme(bytes: &[u8]) -> Lexeme
    ensures same { result ≡ time_lexeme bytes.now }
    ensures within { result.size ≤ length bytes.now }
    ensures ranged { IsTokenInRange result.token }
{
    if has_date_front(bytes) {
        if has_time_of_day(bytes) {
            sized_lexeme(date_time_token(bytes), 20)
        } else {
            sized_lexeme(date_token(bytes), 10)
        }
    } else {
        integer_lexeme(digits_of(bytes))
    }
}

/// The digits at the front.
pub fn digits_of(bytes: &[u8]) -> &[u8]
    ensures same { result.now ≡ digits_of bytes.now }
    ensures digits { IsTrue (list_all is_digit result.now) }
    ensures within { length result.now ≤ length bytes.now }
{
    &bytes[..run_len(Class::Digit, bytes)]
}

/// What begins with `-`, by what stands after it.
fn minus_lexeme(others: &[u8]) -> Lexeme
    ensures same { result ≡ minus_lexeme others.now }
    ensures within { result.size ≤ length others.now + 1 }
    ensures ranged { IsTokenInRange result.token }
{
    if others.starts_with(b"inf") {
        sized_lexeme(Token::Constant(Term::Time(TimePoint::NegInf)), 4)
    } else {
        negative_lexeme(digits_of(others))
    }
}

/// What begins with `+`, by what stands after it.
fn plus_lexeme(others: &[u8]) -> Lexeme
    ensures same { result ≡ plus_lexeme others.now }
    ensures within { result.size ≤ length others.now + 1 }
    ensures ranged { IsTokenInRange result.token }
{
    if others.starts_with(b"inf") {
        sized_lexeme(Token::Constant(Term::Time(TimePoint::PosInf)), 4)
    } else {
        bad_lexeme()
    }
}

/// What begins with a lower-case letter.
fn word_lexeme(bytes: &[u8]) -> Lexeme
    ensures same { result ≡ word_lexeme bytes.now }
    ensures within { result.size ≤ length bytes.now }
    ensures ranged { IsTokenInRange result.token }
{
    let word = &bytes[..run_len(Class::Name, bytes)];
    sized_lexeme(word_token(word), word.len())
}

/// What begins with an upper-case letter.
fn variable_lexeme(bytes: &[u8]) -> Lexeme
    ensures same { result ≡ variable_lexeme bytes.now }
    ensures within { result.size ≤ length bytes.now }
    ensures ranged { IsTokenInRange result.token }
{
    let name = &bytes[..run_len(Class::Word, bytes)];
    if name.len() <= 32 {
        sized_lexeme(Token::Variable(Short::new(name)), name.len())
    } else {
        bad_lexeme()
    }
}

/// What begins with `#`, by what stands after it.
fn file_lexeme(others: &[u8]) -> Lexeme
    ensures same { result ≡ file_lexeme others.now }
    ensures within { result.size ≤ length others.now + 1 }
    ensures ranged { IsTokenInRange result.token }
{
    let digits = digits_of(others);
    match long_numeral(digits) {
        Some(number) => sized_lexeme(
            Token::Constant(Term::File(NodeId(number))),
            digits.len() + 1,
        ),
        None => bad_lexeme(),
    }
}

/// What begins with `?`, by what stands after it.
fn parameter_lexeme(others: &[u8]) -> Lexeme
    ensures same { result ≡ parameter_lexeme others.now }
    ensures within { result.size ≤ length others.now + 1 }
    ensures ranged { IsTokenInRange result.token }
{
    let digits = digits_of(others);
    match short_numeral(digits) {
        Some(number) => sized_lexeme(Token::Constant(Term::Param(number)), digits.len() + 1),
        None => bad_lexeme(),
    }
}

/// What begins with `"`, by what stands after it.
fn text_lexeme(others: &[u8]) -> Lexeme
    ensures same { result ≡ text_lexeme others.now }
    ensures within { result.size ≤ length others.now + 1 }
    ensures ranged { IsTokenInRange result.token }
{
    let len = run_len(Class::Text, others);
    if has_first_byte(&others[len..], b'"') {
        match Text::new(&others[..len]) {
            Some(text) => sized_lexeme(Token::Constant(Term::Text(text)), len + 2),
            None => bad_lexeme(),
        }
    } else {
        bad_lexeme()
    }
}

fn has_first_byte(bytes: &[u8], byte: u8) -> bool
    ensures { result ≡ has_first_byte byte bytes.now }
{
    match bytes {
        [] => false,
        [first, ..] => *first == byte,
    }
}

/// A sign of one byte.
fn short_sign(first: u8) -> Option<Sign>
    ensures { result ≡ short_sign first }
{
    match first {
        b'(' => Some(Sign::Open),
        b')' => Some(Sign::Close),
        b'[' => Some(Sign::OpenInterval),
        b']' => Some(Sign::CloseInterval),
        b',' => Some(Sign::Comma),
        b':' => Some(Sign::Colon),
        b'.' => Some(Sign::Dot),
        b'&' => Some(Sign::And),
        b'|' => Some(Sign::Or),
        b'@' => Some(Sign::At),
        _ => None,
    }
}

/// What begins with another byte.
fn sign_lexeme(first: u8, others: &[u8]) -> Lexeme
    ensures same { result ≡ sign_lexeme first others.now }
    ensures within { result.size ≤ length others.now + 1 }
    ensures ranged { IsTokenInRange result.token }
{
    match short_sign(first) {
        Some(sign) => sized_lexeme(Token::Sign(sign), 1),
        None => {
            if first == b'=' && has_first_byte(others, b'>') {
                sized_lexeme(Token::Sign(Sign::Implies), 2)
            } else if first == b'<' && has_first_byte(others, b'=') {
                sized_lexeme(Token::Sign(Sign::UpTo), 2)
            } else {
                bad_lexeme()
            }
        }
    }
}

/// What begins with this byte and goes on with the others.
fn other_lexeme(first: u8, others: &[u8]) -> Lexeme
    ensures same { result ≡ other_lexeme first others.now }
    ensures within { result.size ≤ length others.now + 1 }
    ensures ranged { IsTokenInRange result.token }
{
    if first == b'-' {
        minus_lexeme(others)
    } else if first == b'+' {
        plus_lexeme(others)
    } else if first == b'#' {
        file_lexeme(others)
    } else if first == b'?' {
        parameter_lexeme(others)
    } else if first == b'"' {
        text_lexeme(others)
    } else {
        sign_lexeme(first, others)
    }
}

/// The token with which the bytes begin.
fn first_lexeme(bytes: &[u8]) -> Lexeme
    ensures same { result ≡ first_lexeme bytes.now }
    ensures within { result.size ≤ length bytes.now }
    ensures ranged { IsTokenInRange result.token }
{
    match bytes {
        [] => sized_lexeme(Token::End, 0),
        [first, others @ ..] => {
            if is_lower_case(*first) {
                word_lexeme(bytes)
            } else if is_upper_case(*first) {
                variable_lexeme(bytes)
            } else if is_digit(*first) {
                time_lexeme(bytes)
            } else {
                other_lexeme(*first, others)
            }
        }
    }
}

/// The first token from that byte of the text on, after spaces.
#[tactic(auto, unfolding(crate::specs::Tokens::token_from))]
pub fn token_from(text: &[u8], from: usize, left: u16) -> Cursor
    requires { from ≤ length text.now }
    ensures same { result ≡ token_from text.now from left }
    ensures within { result.end ≤ length text.now }
    ensures left { result.left ≡ left }
    ensures ranged { IsTokenInRange result.token }
{
    let at = from + run_len(Class::Space, &text[from..]);
    let found = first_lexeme(&text[at..]);
    Cursor {
        at,
        token: found.token,
        end: at + found.size,
        left,
    }
}

/// The place after a token that is no node of the formula.
#[tactic(auto, unfolding(crate::specs::Tokens::cursor_after))]
pub fn cursor_after(text: &[u8], here: &Cursor) -> Cursor
    requires { here.now.end ≤ length text.now }
    ensures same { result ≡ cursor_after text.now here.now }
    ensures within { result.end ≤ length text.now }
    ensures left { result.left ≡ here.now.left }
{
    token_from(text, here.end, here.left)
}

/// The place after a token that is a node of the formula.
#[tactic(auto, unfolding(crate::specs::Tokens::cursor_after_node))]
pub fn cursor_after_node(text: &[u8], here: &Cursor) -> Cursor
    requires { here.now.end ≤ length text.now }
    ensures same { result ≡ cursor_after_node text.now here.now }
    ensures within { result.end ≤ length text.now }
    ensures left { result.left ≡ here.now.left - 1 }
{
    token_from(text, here.end, here.left.saturating_sub(1))
}

fn sign_code(sign: Sign) -> u8
    ensures { result ≡ sign_code sign }
{
    match sign {
        Sign::Open => 0,
        Sign::Close => 1,
        Sign::OpenInterval => 2,
        Sign::CloseInterval => 3,
        Sign::Comma => 4,
        Sign::Colon => 5,
        Sign::Dot => 6,
        Sign::And => 7,
        Sign::Or => 8,
        Sign::Implies => 9,
        Sign::UpTo => 10,
        Sign::At => 11,
    }
}

fn word_code(word: Keyword) -> u8
    ensures { result ≡ word_code word }
{
    match word {
        Keyword::Forall => 0,
        Keyword::Exists => 1,
        Keyword::Says => 2,
        Keyword::From => 3,
        Keyword::To => 4,
        Keyword::True => 5,
        Keyword::False => 6,
        Keyword::Inf => 7,
    }
}

/// Whether the token is that sign.
#[tactic(auto, unfolding(crate::specs::Tokens::is_sign))]
pub fn is_sign(sign: Sign, token: &Token) -> bool
    ensures { result ≡ is_sign sign token.now }
{
    match token {
        Token::Sign(found) => sign_code(sign) == sign_code(*found),
        _ => false,
    }
}

/// Whether the token is that word.
#[tactic(auto, unfolding(crate::specs::Tokens::is_word))]
pub fn is_word(word: Keyword, token: &Token) -> bool
    ensures { result ≡ is_word word token.now }
{
    match token {
        Token::Keyword(found) => word_code(word) == word_code(*found),
        _ => false,
    }
}
