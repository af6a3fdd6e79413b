//! The canonical bytes of terms, and of a proof that a search found. They are read again by `proof_term`.

use bl_syntax::{Bytes, NoMemory, Perm, Term, TimePoint};
use proof_draft::{Rule, Term as Code};
use proof_term::{ProofFault, ProofTree, read_proof};
use search_core::Piece;
use std::alloc::Global;

// Adds a text after its length.
fn put_short(out: &mut Bytes, tag: u8, text: &[u8]) -> Result<(), NoMemory> {
    out.push(tag)?;
    out.push(u8::try_from(text.len()).unwrap_or(0))?;
    out.extend(text)
}

fn put_time(out: &mut Bytes, point: TimePoint) -> Result<(), NoMemory> {
    match point {
        TimePoint::NegInf => out.extend(&[4, 0]),
        TimePoint::At(second) => {
            out.extend(&[4, 1])?;
            out.extend(&second.to_be_bytes())
        }
        TimePoint::PosInf => out.extend(&[4, 2]),
    }
}

fn perm_code(perm: Perm) -> u8 {
    match perm {
        Perm::Read => 1,
        Perm::Write => 2,
        Perm::Execute => 3,
        Perm::Identity => 4,
        Perm::Govern => 5,
    }
}

/// Adds the bytes of a term.
pub fn put_term(out: &mut Bytes, term: &Term) -> Result<(), NoMemory> {
    match term {
        Term::Prin(name) => put_short(out, 1, name.bytes()),
        Term::File(number) => {
            out.push(2)?;
            out.extend(&number.0.to_be_bytes())
        }
        Term::Perm(perm) => out.extend(&[3, perm_code(*perm)]),
        Term::Time(point) => put_time(out, *point),
        Term::Text(text) => put_short(out, 5, text.bytes()),
        Term::Ctime => out.push(6),
        Term::Param(number) => {
            out.push(7)?;
            out.extend(&number.to_be_bytes())
        }
        Term::Bound(number) => {
            out.push(8)?;
            out.extend(&number.to_be_bytes())
        }
    }
}

fn tag_of(rule: Rule) -> u8 {
    match rule {
        Rule::Init => 0x01,
        Rule::ConsR => 0x02,
        Rule::InterR => 0x03,
        Rule::AndR => 0x04,
        Rule::OrR1 => 0x05,
        Rule::OrR2 => 0x06,
        Rule::TrueR => 0x07,
        Rule::ImpR => 0x08,
        Rule::ForallR => 0x09,
        Rule::ExistsR => 0x0a,
        Rule::SaysR => 0x0b,
        Rule::AtR => 0x0c,
        Rule::ConsL => 0x11,
        Rule::InterL => 0x12,
        Rule::AndL => 0x13,
        Rule::OrL => 0x14,
        Rule::FalseL => 0x15,
        Rule::ImpL => 0x16,
        Rule::ForallL => 0x17,
        Rule::ExistsL => 0x18,
        Rule::SaysL => 0x19,
        Rule::Claim => 0x1a,
        Rule::AtL => 0x1b,
    }
}

fn put_code(out: &mut Bytes, code: Code, constants: &[Term]) -> Result<(), NoMemory> {
    match code {
        Code::Constant(number) => match constants.get(number) {
            Some(term) => put_term(out, term),
            None => Ok(()),
        },
        Code::Ctime => out.push(6),
        Code::Parameter(number) => {
            out.push(7)?;
            out.extend(&u32::try_from(number).unwrap_or(u32::MAX).to_be_bytes())
        }
        Code::Bound(_) | Code::Variable(_) => Ok(()),
    }
}

fn put_piece(out: &mut Bytes, piece: &Piece, constants: &[Term]) -> Result<(), NoMemory> {
    match piece {
        Piece::Rule(rule) => out.push(tag_of(*rule)),
        Piece::Hypothesis(number) => {
            out.extend(&u16::try_from(*number).unwrap_or(u16::MAX).to_be_bytes())
        }
        Piece::Term(code) => put_code(out, *code, constants),
    }
}

/// The proof of these pieces; none if it is over the limits of proofs.
pub fn proof_of(
    alloc: Global,
    pieces: &Vec<Piece>,
    constants: &[Term],
) -> Result<Option<ProofTree>, NoMemory> {
    let mut bytes = Bytes::new(alloc);
    for piece in pieces {
        put_piece(&mut bytes, piece, constants)?;
    }
    match read_proof(alloc, bytes.as_slice()) {
        Ok((proof, _)) => Ok(Some(proof)),
        Err(ProofFault::NoMemory) => Err(NoMemory),
        Err(_) => Ok(None),
    }
}
