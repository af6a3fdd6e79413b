//! The numbers of the withdrawn statements, with which an image ends, both ways, and the marks that they leave.

ghost use Rattle.std.specs.Prelude.{◌≡◌, ◌<◌, ◌^◌, ◌+◌, ◌++◌, OnOk, OnErr, length};
ghost use Rattle.std.specs.List.{flat_map};
ghost use Rattle.bl_syntax.specs.BeginsWith.{BeginsWith};
ghost use Rattle.bl_syntax.specs.Reading.{GivesReading};
ghost use Rattle.bl_syntax.specs.Codec.{GivesReadingOrReports};
ghost use Rattle.policy_statement.specs.Withdrawal.{marked, withdrawn_from};
ghost use Rattle.record_parts.specs.RecordSpelling.{cited_spelling};
ghost use Rattle.checkpoint_image.specs.Chain.{chain_at};
ghost use Rattle.checkpoint_image.specs.WithdrawnNumbers.{marked_all, withdrawn_numbers_spelling, withdrawn_number_at, number_left, withdrawn_numbers_at, number_if};

use bl_syntax::fields::{place, u32_at, u32_bytes};
use bl_syntax::{Bytes, CodecFault, NoMemory, Numbers, Sequence};
use policy_statement::Registered;
use std::alloc::Global;

/// A number that passes the previous one, and is at most this one.
#[tactic(auto, unfolding(crate::specs::WithdrawnNumbers::withdrawn_number_at))]
fn withdrawn_number_at(
    most: usize,
    previous: u32,
    input: usize,
    bytes: &[u8],
) -> Result<(u32, &[u8]), CodecFault>
    ensures { GivesReading (λ x. (x.0, x.1.now)) result (withdrawn_number_at most previous input bytes.now) }
{
    let (number, rest) = u32_at(bytes)?;
    if previous < number && number as usize <= most {
        Ok((number, rest))
    } else {
        Err(CodecFault::NotCanonical(place(input, bytes)))
    }
}

/// So many numbers.
fn many_withdrawn_numbers_at(
    alloc: Global,
    most: usize,
    count: u32,
    input: usize,
    bytes: &[u8],
) -> Result<(Numbers, &[u8]), CodecFault>
    ensures { GivesReadingOrReports (λ x. (x.0, x.1.now)) result (chain_at (λ before. withdrawn_number_at most before input) number_left count 0 bytes.now) }
{
    let mut numbers = Sequence::new(alloc);
    let mut previous = 0;
    let mut rest = bytes;
    for _ in 0..count {
        match withdrawn_number_at(most, previous, input, rest) {
            Err(fault) => return Err(fault),
            Ok((number, behind)) => {
                previous = number;
                numbers.push(number)?;
                rest = behind;
            }
        }
    }
    Ok((numbers, rest))
}

/// How many numbers there are, and each: they rise, and none is above this one.
#[tactic(auto, using(bl_syntax::proofs::ReportsFaultLemmas::stops), unfolding(crate::specs::Chain::long_list_at))]
pub(crate) fn withdrawn_numbers_at(
    alloc: Global,
    most: usize,
    input: usize,
    bytes: &[u8],
) -> Result<(Numbers, &[u8]), CodecFault>
    ensures { GivesReadingOrReports (λ x. (x.0, x.1.now)) result (withdrawn_numbers_at most input bytes.now) }
{
    match u32_at(bytes) {
        Err(fault) => Err(fault),
        Ok((count, rest)) => many_withdrawn_numbers_at(alloc, most, count, input, rest),
    }
}

// Withdraws the entry of the number; nothing, if there is none.
fn mark(entries: &mut Vec<Registered>, number: u32)
    ensures { entries.new.items ≡ marked entries.old.items number }
{
    if number == 0 {
        return;
    }
    mark_at(entries, number as usize - 1);
}

// Withdraws the entry at the place; nothing, if there is none.
#[tactic(auto, using(crate::proofs::WithdrawnLemmas::marked_at, crate::proofs::WithdrawnLemmas::marked_beyond))]
fn mark_at(entries: &mut Vec<Registered>, place: usize)
    ensures { entries.new.items ≡ marked entries.old.items (place + 1) }
{
    let within = place < entries.len();
    if within {
        entries[place].withdraw();
    }
}

/// Withdraws the entries of these numbers.
pub(crate) fn mark_all(entries: &mut Vec<Registered>, numbers: &[u32])
    ensures { entries.new.items ≡ marked_all entries.old.items numbers.now }
{
    for number in numbers {
        mark(entries, *number);
    }
}

// How many of these were withdrawn.
fn count_withdrawn(statements: &[Registered]) -> u32
    requires { length statements.now < 2 ^ 32 }
    ensures { result ≡ length (withdrawn_from 1 statements.now) }
{
    let mut count = 0;
    for entry in statements {
        count = counted(count, entry);
    }
    count
}

// One more if the entry was withdrawn.
fn counted(count: u32, entry: &Registered) -> u32
    requires { count + 1 < 2 ^ 32 }
    ensures { result ≡ count + length (number_if 0 entry.now) }
{
    if entry.is_withdrawn() {
        count + 1
    } else {
        count
    }
}

/// Adds how many of the statements were withdrawn, fewer than 2^32, and the number of each.
pub fn write_withdrawn_numbers(statements: &[Registered], out: &mut Bytes) -> Result<(), NoMemory>
    requires { length statements.now < 2 ^ 32 }
    ensures ok { OnOk result (out.new ≡ out.old ++ withdrawn_numbers_spelling statements.now) }
    ensures err { OnErr result (out.new ≡ out.old) }
{
    let len = out.len();
    let added = add_withdrawn_numbers(statements, out);
    if added.is_err() {
        out.truncate(len);
    }
    added
}

// Adds these, or a front of them.
#[tactic(auto, using(bl_syntax::proofs::BeginsWithLemmas::writing))]
fn add_withdrawn_numbers(statements: &[Registered], out: &mut Bytes) -> Result<(), NoMemory>
    requires { length statements.now < 2 ^ 32 }
    ensures ok { OnOk result (out.new ≡ out.old ++ withdrawn_numbers_spelling statements.now) }
    ensures err { OnErr result (BeginsWith out.new out.old) }
{
    out.extend(&u32_bytes(count_withdrawn(statements)))?;
    add_each_number(statements, out)
}

// Adds the number of each of the statements that was withdrawn, or a front of them.
#[tactic(auto, using(bl_syntax::proofs::BeginsWithLemmas::writing))]
fn add_each_number(statements: &[Registered], out: &mut Bytes) -> Result<(), NoMemory>
    requires { length statements.now < 2 ^ 32 }
    ensures ok { OnOk result (out.new ≡ out.old ++ flat_map cited_spelling (withdrawn_from 1 statements.now)) }
    ensures err { OnErr result (BeginsWith out.new out.old) }
{
    let mut number = 0;
    for entry in statements {
        number += 1;
        add_number(number, entry, out)?;
    }
    Ok(())
}

// Adds the number of an entry, if it was withdrawn.
fn add_number(number: u32, entry: &Registered, out: &mut Bytes) -> Result<(), NoMemory>
    ensures ok { OnOk result (out.new ≡ out.old ++ flat_map cited_spelling (number_if number entry.now)) }
    ensures err { OnErr result (out.new ≡ out.old) }
{
    if entry.is_withdrawn() {
        out.extend(&u32_bytes(number))
    } else {
        Ok(())
    }
}
