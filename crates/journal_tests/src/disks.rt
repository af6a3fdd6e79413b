//! What a disk does with its file.

use file_disk::{FileDisk, remove_mark};
use pcfs_ports::{Disk, Failed};
use std::fs;
use std::os::unix::fs::{MetadataExt, symlink};
use std::test::Fail;

const FOLDER: &str = "folder_of_the_file_disk_test";

const PATH: &str = "folder_of_the_file_disk_test/area";

const OTHER: &str = "folder_of_the_file_disk_test/other";

// Whether a file that is not there reads as empty, and a sync of it does nothing.
fn is_absent<D: Disk>(disk: &mut D) -> bool {
    let mut buf = [7u8; 8];
    disk.read(0, &mut buf) == Ok(0) && disk.len() == Ok(0) && disk.sync() == Ok(())
}

// Whether writes past the end and over it are kept, and read back; an empty one too.
fn has_kept_writes<D: Disk>(disk: &mut D) -> bool {
    let mut buf = [7u8; 8];
    disk.write_at(2, b"cde") == Ok(())
        && disk.sync() == Ok(())
        && disk.write_at(4, b"E") == Ok(())
        && disk.write_at(6, b"") == Ok(())
        && disk.sync() == Ok(())
        && disk.len() == Ok(6)
        && disk.read(1, &mut buf) == Ok(5)
        && &buf[..5] == b"\0cdE\0".as_slice()
}

// Whether each kind of call fails.
fn fails<D: Disk>(disk: &mut D) -> bool {
    let mut buf = [7u8; 8];
    disk.read(0, &mut buf) == Err(Failed)
        && disk.len() == Err(Failed)
        && disk.write_at(0, b"a") == Err(Failed)
        && disk.sync() == Err(Failed)
}

// Whether the disk has these bytes.
fn has<D: Disk>(disk: &mut D, bytes: &[u8]) -> bool {
    let mut buf = [7u8; 16];
    match disk.read(0, &mut buf) {
        Ok(count) => &buf[..count] == bytes,
        Err(_) => false,
    }
}

#[test]
fn a_file_is_made_by_the_first_write_and_one_disk_has_it(rt: HostRuntime) -> Result<(), Fail> {
    let _ = fs::remove_dir_all(&rt, FOLDER);
    fs::create_dir(&rt, FOLDER)?;
    let mut disk = FileDisk::new(&rt, PATH);
    let is_absent = is_absent(&mut disk) && !fs::exists(&rt, PATH)?;
    let is_kept = has_kept_writes(&mut disk);
    let is_private = fs::metadata(&rt, PATH)?.mode() & 0o777 == 0o600;
    let is_held = fails(&mut FileDisk::new(&rt, PATH));
    fs::hard_link(&rt, PATH, OTHER)?;
    let is_held_by_any_name = fails(&mut FileDisk::new(&rt, OTHER));
    drop(disk);
    let is_found = has(&mut FileDisk::new(&rt, OTHER), b"\0\0cdE\0");
    fs::remove_dir_all(&rt, FOLDER)?;
    assert!(rt; is_absent && is_kept && is_private && is_held && is_held_by_any_name && is_found);
    Ok(())
}

#[test]
fn what_is_no_file_of_its_own_fails_every_call(rt: HostRuntime) -> Result<(), Fail> {
    let folder = "second_folder_of_the_file_disk_test";
    let link = "second_folder_of_the_file_disk_test/link";
    let _ = fs::remove_dir_all(&rt, folder);
    fs::create_dir(&rt, folder)?;
    symlink(&rt, "nowhere", link)?;
    let is_link_refused = fails(&mut FileDisk::new(&rt, link));
    let is_folder_refused = fails(&mut FileDisk::new(&rt, folder));
    let is_device_refused = fails(&mut FileDisk::new(&rt, "/dev/null"));
    let mut lost = FileDisk::new(&rt, "no_folder_of_the_test/file");
    let is_lost_refused = is_absent(&mut lost)
        && lost.write_at(0, b"a") == Err(Failed)
        && fails(&mut lost);
    fs::remove_dir_all(&rt, folder)?;
    assert!(rt; is_link_refused && is_folder_refused && is_device_refused && is_lost_refused);
    Ok(())
}

#[test]
fn a_mark_refuses_all_but_the_remedy(rt: HostRuntime) -> Result<(), Fail> {
    let folder = "third_folder_of_the_file_disk_test";
    let path = "third_folder_of_the_file_disk_test/area";
    let mark = "third_folder_of_the_file_disk_test/mark";
    let _ = fs::remove_dir_all(&rt, folder);
    fs::create_dir(&rt, folder)?;
    fs::write(&rt, path, "bytes")?;
    let is_usable = has(&mut FileDisk::marked(&rt, path, mark, false), b"bytes");
    fs::write(&rt, mark, "")?;
    let is_refused = fails(&mut FileDisk::marked(&rt, path, mark, false));
    let is_remedied = has(&mut FileDisk::marked(&rt, path, mark, true), b"bytes");
    remove_mark(&rt, mark)?;
    remove_mark(&rt, mark)?;
    let is_usable_again = has(&mut FileDisk::marked(&rt, path, mark, false), b"bytes");
    fs::remove_dir_all(&rt, folder)?;
    assert!(rt; is_usable && is_refused && is_remedied && is_usable_again);
    Ok(())
}
