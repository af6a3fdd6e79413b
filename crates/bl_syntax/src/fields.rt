//! Single fields of canonical bytes, both ways, for the formats that are made of them.
//!
//! Each reader reads at the front of `bytes`, the rest of an input of `input` bytes, and gives the value
//! and the bytes after it, or the first fault. None of them takes memory.

ghost use Rattle.std.specs.Prelude.{◌≡◌, ◌++◌, OnOk, OnErr};
ghost use Rattle.std.specs.Int.{w16, w32, w64, to_be_bytes, cast_unsigned};
ghost use Rattle.bl_syntax.specs.Spelling.{permission_code, sort_code};
ghost use Rattle.bl_syntax.specs.FormulaReading.{is_formula_tag};
ghost use Rattle.bl_syntax.specs.Reading.{GivesReading, place, number_at, with_length_at, word_at, name_at, predicate_at, text_at, moment_at, time_at, permission_of, permission_at, sort_of, sort_at, field_at, term_at};

use crate::codec_fault::CodecFault;
use crate::limits::{LONGEST_TEXT, LONGEST_WORD};
use crate::lists::{Bytes, NoMemory};
use crate::names::{Principal, Text, Word};
use crate::terms::{NodeId, Perm, Sort, Term, TimePoint};
use crate::time::is_moment;
use byteorder::{BigEndian, ByteOrder};

/// How many bytes of the input stand before its rest.
pub fn place(input: usize, rest: &[u8]) -> usize
    ensures { result ≡ place input rest.now }
{
    input.saturating_sub(rest.len())
}

/// A big-endian number of two bytes.
pub fn u16_at(bytes: &[u8]) -> Result<(u16, &[u8]), CodecFault>
    ensures { GivesReading (λ x. (x.0, x.1.now)) result (number_at w16 bytes.now) }
{
    if bytes.len() < 2 {
        return Err(CodecFault::Short);
    }
    let (front, rest) = bytes.split_at(2);
    let number = u16::from_be_bytes([front[0], front[1]]);
    Ok((number, rest))
}

/// A big-endian number of four bytes.
pub fn u32_at(bytes: &[u8]) -> Result<(u32, &[u8]), CodecFault>
    ensures { GivesReading (λ x. (x.0, x.1.now)) result (number_at w32 bytes.now) }
{
    if bytes.len() < 4 {
        return Err(CodecFault::Short);
    }
    let (front, rest) = bytes.split_at(4);
    let number = u32::from_be_bytes([front[0], front[1], front[2], front[3]]);
    Ok((number, rest))
}

/// A big-endian number of eight bytes.
pub fn u64_at(bytes: &[u8]) -> Result<(u64, &[u8]), CodecFault>
    ensures { GivesReading (λ x. (x.0, x.1.now)) result (number_at w64 bytes.now) }
{
    if bytes.len() < 8 {
        return Err(CodecFault::Short);
    }
    let (front, rest) = bytes.split_at(8);
    let number = u64::from_be_bytes([
        front[0], front[1], front[2], front[3], front[4], front[5], front[6], front[7],
    ]);
    Ok((number, rest))
}

/// A length byte from `least` to `most`, and that many bytes.
#[tactic(auto, unfolding(crate::specs::Reading::with_length_at))]
pub fn with_length_at(
    least: u8,
    most: u8,
    input: usize,
    bytes: &[u8],
) -> Result<(&[u8], &[u8]), CodecFault>
    ensures { GivesReading (λ x. (x.0.now, x.1.now)) result (with_length_at least most input bytes.now) }
{
    match bytes {
        [] => Err(CodecFault::Short),
        [len, rest @ ..] => {
            if *len < least {
                return Err(CodecFault::NotCanonical(place(input, bytes)));
            }
            if most < *len {
                return Err(CodecFault::NotCanonical(place(input, bytes)));
            }
            let len = *len as usize;
            if rest.len() < len {
                return Err(CodecFault::Short);
            }
            Ok(rest.split_at(len))
        }
    }
}

/// A principal's name with its length byte.
#[tactic(auto, unfolding(crate::specs::Reading::word_at))]
pub fn name_at(input: usize, bytes: &[u8]) -> Result<(Principal, &[u8]), CodecFault>
    ensures { GivesReading (λ x. (x.0, x.1.now)) result (name_at input bytes.now) }
{
    let (name, rest) = with_length_at(1, LONGEST_WORD as u8, input, bytes)?;
    match Principal::new(name) {
        Some(principal) => Ok((principal, rest)),
        None => Err(CodecFault::NotCanonical(place(input, bytes))),
    }
}

/// A predicate's name with its length byte.
#[tactic(auto, unfolding(crate::specs::Reading::word_at))]
pub fn predicate_at(input: usize, bytes: &[u8]) -> Result<(Word, &[u8]), CodecFault>
    ensures { GivesReading (λ x. (x.0, x.1.now)) result (predicate_at input bytes.now) }
{
    let (name, rest) = with_length_at(1, LONGEST_WORD as u8, input, bytes)?;
    match Word::new(name) {
        Some(word) => Ok((word, rest)),
        None => Err(CodecFault::NotCanonical(place(input, bytes))),
    }
}

/// A text constant with its length byte.
#[tactic(auto, unfolding(crate::specs::Reading::word_at))]
pub fn text_at(input: usize, bytes: &[u8]) -> Result<(Text, &[u8]), CodecFault>
    ensures { GivesReading (λ x. (x.0, x.1.now)) result (text_at input bytes.now) }
{
    let (bytes_of_text, rest) = with_length_at(0, LONGEST_TEXT as u8, input, bytes)?;
    match Text::new(bytes_of_text) {
        Some(text) => Ok((text, rest)),
        None => Err(CodecFault::NotCanonical(place(input, bytes))),
    }
}

/// The second of a point in time that begins at `start`.
#[tactic(auto, unfolding(crate::specs::Reading::moment_at))]
fn moment_at(start: usize, bytes: &[u8]) -> Result<(TimePoint, &[u8]), CodecFault>
    ensures { GivesReading (λ x. (x.0, x.1.now)) result (moment_at start bytes.now) }
{
    let (number, rest) = u64_at(bytes)?;
    let second = number.cast_signed();
    if is_moment(second) {
        Ok((TimePoint::At(second), rest))
    } else {
        Err(CodecFault::NotCanonical(start))
    }
}

/// A point in time.
#[tactic(auto, unfolding(crate::specs::Reading::time_at))]
pub fn time_at(input: usize, bytes: &[u8]) -> Result<(TimePoint, &[u8]), CodecFault>
    ensures { GivesReading (λ x. (x.0, x.1.now)) result (time_at input bytes.now) }
{
    match bytes {
        [] => Err(CodecFault::Short),
        [0, rest @ ..] => Ok((TimePoint::NegInf, rest)),
        [1, rest @ ..] => moment_at(place(input, bytes), rest),
        [2, rest @ ..] => Ok((TimePoint::PosInf, rest)),
        [_, ..] => Err(CodecFault::NotCanonical(place(input, bytes))),
    }
}

/// Whether it is the tag of a formula.
pub fn is_formula_tag(tag: u8) -> bool
    ensures { result ≡ is_formula_tag tag }
{
    16 <= tag && tag <= 29
}

fn permission_of(code: u8) -> Option<Perm>
    ensures { result ≡ permission_of code }
{
    match code {
        1 => Some(Perm::Read),
        2 => Some(Perm::Write),
        3 => Some(Perm::Execute),
        4 => Some(Perm::Identity),
        5 => Some(Perm::Govern),
        _ => None,
    }
}

/// A permission.
#[tactic(auto, unfolding(crate::specs::Reading::coded_at))]
pub fn permission_at(input: usize, bytes: &[u8]) -> Result<(Perm, &[u8]), CodecFault>
    ensures { GivesReading (λ x. (x.0, x.1.now)) result (permission_at input bytes.now) }
{
    match bytes {
        [] => Err(CodecFault::Short),
        [code, rest @ ..] => match permission_of(*code) {
            Some(permission) => Ok((permission, rest)),
            None => Err(CodecFault::BadTag(place(input, bytes))),
        },
    }
}

fn sort_of(code: u8) -> Option<Sort>
    ensures { result ≡ sort_of code }
{
    match code {
        1 => Some(Sort::Principal),
        2 => Some(Sort::File),
        3 => Some(Sort::Perm),
        4 => Some(Sort::Time),
        5 => Some(Sort::Text),
        _ => None,
    }
}

/// A sort.
#[tactic(auto, unfolding(crate::specs::Reading::coded_at))]
pub fn sort_at(input: usize, bytes: &[u8]) -> Result<(Sort, &[u8]), CodecFault>
    ensures { GivesReading (λ x. (x.0, x.1.now)) result (sort_at input bytes.now) }
{
    match bytes {
        [] => Err(CodecFault::Short),
        [code, rest @ ..] => match sort_of(*code) {
            Some(sort) => Ok((sort, rest)),
            None => Err(CodecFault::BadTag(place(input, bytes))),
        },
    }
}

/// The field of a term with that tag, which begins at `start`.
#[tactic(auto, unfolding(crate::specs::Reading::field_at))]
fn field_at(input: usize, start: usize, tag: u8, rest: &[u8]) -> Result<(Term, &[u8]), CodecFault>
    ensures { GivesReading (λ x. (x.0, x.1.now)) result (field_at input start tag rest.now) }
{
    match tag {
        1 => match name_at(input, rest) {
            Ok((name, rest)) => Ok((Term::Prin(name), rest)),
            Err(fault) => Err(fault),
        },
        2 => {
            let (number, rest) = u64_at(rest)?;
            Ok((Term::File(NodeId(number)), rest))
        }
        3 => {
            let (permission, rest) = permission_at(input, rest)?;
            Ok((Term::Perm(permission), rest))
        }
        4 => {
            let (point, rest) = time_at(input, rest)?;
            Ok((Term::Time(point), rest))
        }
        5 => match text_at(input, rest) {
            Ok((text, rest)) => Ok((Term::Text(text), rest)),
            Err(fault) => Err(fault),
        },
        6 => Ok((Term::Ctime, rest)),
        7 => {
            let (number, rest) = u32_at(rest)?;
            Ok((Term::Param(number), rest))
        }
        8 => {
            let (number, rest) = u32_at(rest)?;
            Ok((Term::Bound(number), rest))
        }
        _ => Err(CodecFault::BadTag(start)),
    }
}

/// A term.
#[tactic(auto, unfolding(crate::specs::Reading::term_at))]
pub fn term_at(input: usize, bytes: &[u8]) -> Result<(Term, &[u8]), CodecFault>
    ensures { GivesReading (λ x. (x.0, x.1.now)) result (term_at input bytes.now) }
{
    match bytes {
        [] => Err(CodecFault::Short),
        [tag, rest @ ..] => field_at(input, place(input, bytes), *tag, rest),
    }
}

/// The byte of a permission.
pub fn permission_code(permission: Perm) -> u8
    ensures { result ≡ permission_code permission }
{
    match permission {
        Perm::Read => 1,
        Perm::Write => 2,
        Perm::Execute => 3,
        Perm::Identity => 4,
        Perm::Govern => 5,
    }
}

/// The byte of a sort.
pub fn sort_code(sort: Sort) -> u8
    ensures { result ≡ sort_code sort }
{
    match sort {
        Sort::Principal => 1,
        Sort::File => 2,
        Sort::Perm => 3,
        Sort::Time => 4,
        Sort::Text => 5,
    }
}

/// The two bytes of a number, the highest first.
pub fn u16_bytes(number: u16) -> [u8; 2]
    ensures { result ≡ to_be_bytes w16 number }
{
    let mut bytes = [0; 2];
    BigEndian::write_u16(&mut bytes, number);
    bytes
}

/// The four bytes of a number, the highest first.
pub fn u32_bytes(number: u32) -> [u8; 4]
    ensures { result ≡ to_be_bytes w32 number }
{
    let mut bytes = [0; 4];
    BigEndian::write_u32(&mut bytes, number);
    bytes
}

/// The eight bytes of a number, the highest first.
pub fn u64_bytes(number: u64) -> [u8; 8]
    ensures { result ≡ to_be_bytes w64 number }
{
    let mut bytes = [0; 8];
    BigEndian::write_u64(&mut bytes, number);
    bytes
}

/// The eight bytes of a second in two's complement, the highest first.
pub fn second_bytes(second: i64) -> [u8; 8]
    ensures { result ≡ to_be_bytes w64 (cast_unsigned w64 second) }
{
    let mut bytes = [0; 8];
    BigEndian::write_i64(&mut bytes, second);
    bytes
}

/// Adds the bytes of both parts, or nothing.
pub fn put(front: &[u8], rest: &[u8], out: &mut Bytes) -> Result<(), NoMemory>
    ensures ok { OnOk result (out.new ≡ out.old ++ (front.now ++ rest.now)) }
    ensures err { OnErr result (out.new ≡ out.old) }
{
    let len = out.len();
    out.extend(front)?;
    let added = out.extend(rest);
    if added.is_err() {
        out.truncate(len);
    }
    added
}
