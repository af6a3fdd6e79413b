//! The image and the records of an area in its bytes.

ghost use Rattle.std.specs.Prelude.{◌≡◌, ◌≢◌, ◌+◌, ◌-◌, ◌<◌, ◌≤◌, IfOk, IfErr, MatchOption, length, take, drop, get_or};
ghost use Rattle.std.specs.Int.{w32, from_be_bytes};
ghost use Rattle.journal_core.specs.Area.{area_limit, area_bytes, IsArea, IsFront, HasNoBase};
ghost use Rattle.journal_core.specs.ScanView.{all_bytes_at};
ghost use Rattle.journal_core.specs.Reports.{BaseEndsAt, RecordEndsAt, NoRecordAt, RecordsEndAt};
ghost use Rattle.journal_core.specs.Faults.{BrokeAt, IsReported, IsFrontReported};

use crate::area::MAGIC;
use crate::contents::{Scan, Span};
use crate::generation::{is_open, number_at};
use crate::scan::ScanFault;
use bl_syntax::limits::{MOST_AREA_BYTES, MOST_EVENTS};
use bl_syntax::{Bytes, NoMemory, Sequence};
use std::alloc::Global;

// MOST_AREA_BYTES as a length.
const LIMIT: usize = MOST_AREA_BYTES as usize;

// The number of four bytes from `at` on.
fn length_at(bytes: &[u8], at: usize) -> u32
    requires { at + 4 ≤ length bytes.now }
    ensures { result ≡ from_be_bytes w32 (take 4 (drop at bytes.now)) }
{
    let field = &bytes[at..at + 4];
    u32::from_be_bytes([field[0], field[1], field[2], field[3]])
}

// The generation of an open area, and where its image ends.
fn find_base(bytes: &[u8]) -> Option<(u64, usize)>
    requires { get_or bytes.now 0 0 ≡ 1 }
    ensures { MatchOption result (HasNoBase bytes.now) (λ base. BaseEndsAt bytes.now base.0 base.1) }
{
    if bytes.len() < 24 || &bytes[1..8] != MAGIC.as_slice() {
        return None;
    }
    let generation = number_at(bytes, 8);
    if generation == 0 || MOST_EVENTS < generation {
        return None;
    }
    let len = number_at(bytes, 16);
    if MOST_AREA_BYTES - 25 < len || ((bytes.len() - 24) as u64) < len {
        return None;
    }
    Some((generation, 24 + len as usize))
}

// Where the record ends whose open gate stands at `gate`.
fn find_record(bytes: &[u8], gate: usize) -> Option<usize>
    requires is_open { get_or bytes.now gate 0 ≡ 1 }
    requires within { gate < area_limit }
    ensures { MatchOption result (NoRecordAt bytes.now gate) (λ end. RecordEndsAt bytes.now gate end) }
{
    if bytes.len() < gate + 5 {
        return None;
    }
    let end = gate + 5 + length_at(bytes, gate + 1) as usize;
    if LIMIT <= end || bytes.len() < end {
        return None;
    }
    Some(end)
}

// The whole records from `from` on, and where the last of them ends.
fn whole_records(
    alloc: Global,
    bytes: &[u8],
    from: usize,
) -> Result<(Sequence<Span>, usize), NoMemory>
    requires high { from < area_limit }
    requires within { from ≤ length bytes.now }
    ensures ok { IfOk result (λ found. RecordsEndAt bytes.now from (all_bytes_at bytes.now found.0) found.1) }
    ensures last { IfOk result (λ found. get_or bytes.now found.1 0 ≡ 1 → NoRecordAt bytes.now found.1) }
{
    let mut places = Sequence::new(alloc);
    let mut end = from;
    while is_open(bytes, end) {
        match find_record(bytes, end) {
            Some(to) => {
                let place = Span {
                    from: (end + 5) as u32,
                    to: to as u32,
                };
                places.push(place)?;
                end = to;
            }
            None => return Ok((places, end)),
        }
    }
    Ok((places, end))
}

// The records from `from` on, and where they end.
fn find_records(
    alloc: Global,
    bytes: &[u8],
    from: usize,
) -> Result<(Sequence<Span>, usize), ScanFault>
    requires high { from < area_limit }
    requires within { from ≤ length bytes.now }
    ensures ok { IfOk result (λ found. RecordsEndAt bytes.now from (all_bytes_at bytes.now found.0) found.1) }
    ensures shut { IfOk result (λ found. get_or bytes.now found.1 0 ≢ 1) }
    ensures broken { IfErr result (λ fault. BrokeAt fault bytes.now from) }
{
    match whole_records(alloc, bytes, from) {
        Ok((places, end)) => {
            if is_open(bytes, end) {
                Err(ScanFault::Broken(places.len() as u64 + 1))
            } else {
                Ok((places, end))
            }
        }
        Err(_) => Err(ScanFault::NoMemory),
    }
}

/// What the bytes of an area hold, and where they end.
pub fn find_contents(alloc: Global, bytes: Bytes) -> Result<(Scan, usize), ScanFault>
    ensures ok { IfOk result (λ found. IsArea bytes found.0.generation found.0.image found.0.payloads) }
    ensures end { IfOk result (λ found. found.1 ≡ length (area_bytes found.0.generation found.0.image found.0.payloads)) }
    ensures err { IfErr result (λ fault. IsReported fault bytes) }
{
    let area = bytes.as_slice();
    if !is_open(area, 0) {
        return Err(ScanFault::Closed);
    }
    let Some((generation, from)) = find_base(area) else {
        return Err(ScanFault::Broken(0));
    };
    match find_records(alloc, area, from) {
        Ok((payloads, end)) => {
            let image = Span {
                from: 24,
                to: from as u32,
            };
            let scan = Scan {
                bytes,
                generation,
                image,
                payloads,
            };
            Ok((scan, end))
        }
        Err(fault) => Err(fault),
    }
}

/// The image and the whole records at the front of the bytes of an area, which may break after them.
pub fn find_front(alloc: Global, bytes: Bytes) -> Result<Scan, ScanFault>
    ensures ok { IfOk result (λ found. IsFront bytes found.generation found.image found.payloads) }
    ensures err { IfErr result (λ fault. IsFrontReported fault bytes) }
{
    let area = bytes.as_slice();
    if !is_open(area, 0) {
        return Err(ScanFault::Closed);
    }
    let Some((generation, from)) = find_base(area) else {
        return Err(ScanFault::Broken(0));
    };
    match whole_records(alloc, area, from) {
        Ok((payloads, _)) => {
            let image = Span {
                from: 24,
                to: from as u32,
            };
            Ok(Scan {
                bytes,
                generation,
                image,
                payloads,
            })
        }
        Err(_) => Err(ScanFault::NoMemory),
    }
}
