//! Areas, as they are made, added to and scanned.

use bl_syntax::{Bytes, Numbers};
use journal_core::{Area, AreaFault, ScanFault, frame, peek};
use pcfs_ports::{Failed, MemoryDisk};
use std::alloc::Global;

// A disk in memory with these bytes, whose calls with these numbers fail.
fn disk_of(alloc: Global, bytes: &[u8], failing: &[u32]) -> Option<MemoryDisk> {
    let bytes = Bytes::from_vec(bytes.to_vec(alloc).ok()?);
    let failing = Numbers::from_vec(failing.to_vec(alloc).ok()?);
    MemoryDisk::new(alloc, bytes, failing).ok()
}

// Formats a disk as an area with that image.
fn format_area(
    alloc: Global,
    disk: MemoryDisk,
    image: &[u8],
) -> Result<Area<MemoryDisk>, AreaFault> {
    match Area::format(alloc, disk, 1, image) {
        Ok(area) => Ok(area),
        Err((fault, _disk)) => Err(fault),
    }
}

// Appends `first`, and gives the disk back.
fn append_first(alloc: Global, area: Area<MemoryDisk>) -> Result<MemoryDisk, AreaFault> {
    let mut area = area;
    match frame(alloc, b"first") {
        Ok(framed) => match area.append(&framed) {
            Ok(()) => Ok(area.into_disk()),
            Err(fault) => Err(fault),
        },
        Err(_) => Err(AreaFault::NoMemory),
    }
}

// The disk of an area with one record, over what a disk had.
fn new_area_disk(alloc: Global, bytes: &[u8], failing: &[u32]) -> Result<MemoryDisk, AreaFault> {
    match disk_of(alloc, bytes, failing) {
        Some(disk) => match format_area(alloc, disk, b"image") {
            Ok(area) => append_first(alloc, area),
            Err(fault) => Err(fault),
        },
        None => Err(AreaFault::NoMemory),
    }
}

// Whether a disk has these bytes, after how many calls, and what a peek gives.
fn inspect(disk: MemoryDisk, bytes: &[u8]) -> (bool, usize, Result<Option<u64>, Failed>) {
    let mut disk = disk;
    let is_spelled = disk.image() == bytes;
    (is_spelled, disk.made().len(), peek(&mut disk))
}

// The generation of a disk's area, how many payloads it has, and whether image and first payload are
// these.
fn scan_disk(alloc: Global, disk: MemoryDisk) -> Result<(u64, usize, bool, bool), ScanFault> {
    match Area::scan(alloc, disk) {
        Ok((_area, scan)) => {
            let is_image = scan.image() == b"image".as_slice();
            let is_first = scan.count() > 0 && scan.payload(0) == b"first".as_slice();
            Ok((scan.generation(), scan.count(), is_image, is_first))
        }
        Err((fault, _disk)) => Err(fault),
    }
}

// What a scan of these bytes reports.
fn scan_bytes(
    alloc: Global,
    bytes: &[u8],
    failing: &[u32],
) -> Result<(u64, usize, bool, bool), ScanFault> {
    match disk_of(alloc, bytes, failing) {
        Some(disk) => scan_disk(alloc, disk),
        None => Err(ScanFault::NoMemory),
    }
}

// An area with an image and one record.
const AREA: &[u8] =
    b"\x01PCFS\0\0\x01\0\0\0\0\0\0\0\x01\0\0\0\0\0\0\0\x05image\x01\0\0\0\x05first\0";

#[test]
fn an_area_is_formatted_and_appended_to(rt: HostRuntime) {
    let old = b"\x01old, and shorter than the area";
    let disk = new_area_disk(rt.alloc(), old, &[]).map(|disk| inspect(disk, AREA));
    assert_eq!(rt; disk, Ok((true, 10, Ok(Some(1)))));
}

#[test]
fn an_area_is_scanned(rt: HostRuntime) {
    assert_eq!(rt; scan_bytes(rt.alloc(), AREA, &[]), Ok((1, 1, true, true)));
}

// The bytes of a new area with an image of 65 bytes, as a fresh one has.
#[test]
fn a_fresh_area_has_ninety_bytes(rt: HostRuntime) {
    let mut bytes = [7u8; 90];
    bytes[..24].copy_from_slice(
        b"\x01\x50\x43\x46\x53\0\0\x01\0\0\0\0\0\0\0\x01\0\0\0\0\0\0\0\x41",
    );
    bytes[89] = 0;
    let alloc = rt.alloc();
    let area = match disk_of(alloc, &[], &[]) {
        Some(disk) => format_area(alloc, disk, &[7; 65]),
        None => Err(AreaFault::NoMemory),
    };
    let disk = area.map(|area| inspect(area.into_disk(), &bytes));
    assert_eq!(rt; disk, Ok((true, 6, Ok(Some(1)))));
}

#[test]
fn a_scan_reports_the_first_record_that_is_cut(rt: HostRuntime) {
    let cases: [(&[u8], Result<(u64, usize, bool, bool), ScanFault>); 9] = [
        (b"", Err(ScanFault::Closed)),
        (b"\0PCFS", Err(ScanFault::Closed)),
        (b"\x01", Err(ScanFault::Broken(0))),
        (
            b"\x01PCFS\0\0\x01\0\0\0\0\0\0\0\0\0\0\0\0\0\0\0\0\0",
            Err(ScanFault::Broken(0)),
        ),
        (
            b"\x01PCFS\0\0\x01\0\0\0\0\0\0\0\x01\0\0\0\0\0\0\0\x01",
            Err(ScanFault::Broken(0)),
        ),
        (
            b"\x01PCFS\0\0\x01\0\0\0\0\0\0\0\x01\0\0\0\0\0\0\0\0",
            Ok((1, 0, false, false)),
        ),
        (
            b"\x01PCFS\0\0\x01\0\0\0\0\0\0\0\x01\0\0\0\0\0\0\0\0\x01\0\0\0",
            Err(ScanFault::Broken(1)),
        ),
        (
            b"\x01PCFS\0\0\x01\0\0\0\0\0\0\0\x01\0\0\0\0\0\0\0\0\x01\0\0\0\0",
            Ok((1, 1, false, false)),
        ),
        (
            b"\x01PCFS\0\0\x01\0\0\0\0\0\0\0\x01\0\0\0\0\0\0\0\0\x01\0\0\0\x02AB\x01\0\0\0\x02C",
            Err(ScanFault::Broken(2)),
        ),
    ];
    for (bytes, expected) in cases {
        assert_eq!(rt; scan_bytes(rt.alloc(), bytes, &[]), expected);
    }
}

#[test]
fn each_fault_of_a_disk_is_reported(rt: HostRuntime) {
    for call in 0..10u32 {
        let fault = new_area_disk(rt.alloc(), &[], &[call]).err();
        assert_eq!(rt; fault, Some(AreaFault::Disk));
    }
    for call in 0..3u32 {
        assert_eq!(rt; scan_bytes(rt.alloc(), AREA, &[call]), Err(ScanFault::Disk));
    }
    assert_eq!(rt; scan_bytes(rt.alloc(), AREA, &[3]), Ok((1, 1, true, true)));
}
