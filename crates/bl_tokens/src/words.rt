//! The words of a text: those that are reserved, and names.

ghost use Rattle.std.specs.Prelude.{◌≡◌, IfSome};
ghost use Rattle.bl_syntax.specs.Terms.{HasTimeInRange};
ghost use Rattle.bl_tokens.specs.Ranges.{IsTokenInRange};
ghost use Rattle.bl_tokens.specs.Words.{keyword, sort_named, constant_named, word_token};

use crate::tokens::{Keyword, Token};
use bl_syntax::{Perm, Principal, Sort, Term};

fn keyword(word: &[u8]) -> Option<Keyword>
    ensures { result ≡ keyword word.now }
{
    if word == b"forall".as_slice() {
        Some(Keyword::Forall)
    } else if word == b"exists".as_slice() {
        Some(Keyword::Exists)
    } else if word == b"says".as_slice() {
        Some(Keyword::Says)
    } else if word == b"from".as_slice() {
        Some(Keyword::From)
    } else if word == b"to".as_slice() {
        Some(Keyword::To)
    } else if word == b"true".as_slice() {
        Some(Keyword::True)
    } else if word == b"false".as_slice() {
        Some(Keyword::False)
    } else if word == b"inf".as_slice() {
        Some(Keyword::Inf)
    } else {
        None
    }
}

fn sort_named(word: &[u8]) -> Option<Sort>
    ensures { result ≡ sort_named word.now }
{
    if word == b"principal".as_slice() {
        Some(Sort::Principal)
    } else if word == b"file".as_slice() {
        Some(Sort::File)
    } else if word == b"perm".as_slice() {
        Some(Sort::Perm)
    } else if word == b"time".as_slice() {
        Some(Sort::Time)
    } else if word == b"text".as_slice() {
        Some(Sort::Text)
    } else {
        None
    }
}

fn constant_named(word: &[u8]) -> Option<Term>
    ensures same { result ≡ constant_named word.now }
    ensures ranged { IfSome result HasTimeInRange }
{
    if word == b"ctime".as_slice() {
        Some(Term::Ctime)
    } else if word == b"read".as_slice() {
        Some(Term::Perm(Perm::Read))
    } else if word == b"write".as_slice() {
        Some(Term::Perm(Perm::Write))
    } else if word == b"execute".as_slice() {
        Some(Term::Perm(Perm::Execute))
    } else if word == b"identity".as_slice() {
        Some(Term::Perm(Perm::Identity))
    } else if word == b"govern".as_slice() {
        Some(Term::Perm(Perm::Govern))
    } else {
        None
    }
}

/// The token that a run of lower-case letters, digits and `_` is.
pub fn word_token(word: &[u8]) -> Token
    ensures same { result ≡ word_token word.now }
    ensures ranged { IsTokenInRange result }
{
    if let Some(found) = keyword(word) {
        return Token::Keyword(found);
    }
    if let Some(sort) = sort_named(word) {
        return Token::SortName(sort);
    }
    if let Some(constant) = constant_named(word) {
        return Token::Constant(constant);
    }
    match Principal::new(word) {
        Some(name) => Token::Name(name),
        None => Token::LongWord,
    }
}
