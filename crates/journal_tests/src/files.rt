//! Areas on a file, which is opened again and again.

use file_disk::FileDisk;
use journal_core::{Area, frame};
use pcfs_ports::Disk;
use std::alloc::Global;
use std::fs;
use std::test::Fail;

const FOLDER: &str = "folder_of_the_journal_test";

const PATH: &str = "folder_of_the_journal_test/area";

// Appends a record; whether that was done.
fn append_record<D: Disk>(alloc: Global, area: &mut Area<D>, payload: &[u8]) -> bool {
    if payload.len() >= 100 {
        return false;
    }
    match frame(alloc, payload) {
        Ok(framed) => area.append(&framed) == Ok(()),
        Err(_) => false,
    }
}

// Makes an area with one record on a disk; whether that was done.
fn start_area<D: Disk + Drop>(alloc: Global, disk: D, first: &[u8]) -> bool {
    match Area::format(alloc, disk, 1, b"image") {
        Ok(made) => {
            let mut area = made;
            append_record(alloc, &mut area, first)
        }
        Err(_) => false,
    }
}

// Scans the area of a disk and appends one more record; whether that was done, and the area had so many
// records, of which this one was the last.
fn resume_area<D: Disk + Drop>(
    alloc: Global,
    disk: D,
    count: usize,
    last: &[u8],
    next: &[u8],
) -> bool {
    match Area::scan(alloc, disk) {
        Ok((found, scan)) => {
            let mut area = found;
            let is_image = scan.image() == b"image".as_slice();
            let is_last = count > 0 && scan.count() == count && scan.payload(count - 1) == last;
            is_image && is_last && append_record(alloc, &mut area, next)
        }
        Err(_) => false,
    }
}

#[test]
fn records_on_a_file_outlive_its_disk(rt: HostRuntime) -> Result<(), Fail> {
    let _ = fs::remove_dir_all(&rt, FOLDER);
    fs::create_dir(&rt, FOLDER)?;
    let alloc = rt.alloc();
    let is_started = start_area(alloc, FileDisk::new(&rt, PATH), b"first");
    let goes_on_once = resume_area(alloc, FileDisk::new(&rt, PATH), 1, b"first", b"second");
    let goes_on_twice = resume_area(alloc, FileDisk::new(&rt, PATH), 2, b"second", b"third");
    fs::remove_dir_all(&rt, FOLDER)?;
    assert!(rt; is_started && goes_on_once && goes_on_twice);
    Ok(())
}
