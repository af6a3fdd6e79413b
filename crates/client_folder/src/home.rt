//! The user's own folder, which nobody else may read: who logs in where, the statements, and the wallet of procaps.

use crate::local_files::{PRIVATE, drawn_digits, is_there, keep_private, read_text, write_private};
use crate::messages::{ended, joined, system_fault};
use crate::system::System;
use bl_syntax::{Bytes, NoMemory};
use client_home::{
    Login, Numbered, Pass, Statements, Unfinished, Wallet, key_in, login_text, put_all, read_login,
    read_statements, read_unfinished, read_wallet, statements_text, without,
};
use client_words::{BAD_LINE, NO_FILE, NO_LOGIN, Stop};
use std::alloc::Global;
use std::env;
use std::fs::{self, DirBuilder, File, OpenOptions};
use std::io::{self, ErrorKind};
use std::os::unix::fs::{DirBuilderExt, OpenOptionsExt, PermissionsExt};

/// The mode of the folder.
const FOLDER_MODE: u32 = 0o700;

/// The fewest letters of a word that is taken for a key instead of its file.
const KEY_LETTERS: usize = 16;

/// The folder.
#[derive(Drop)]
pub struct Home {
    folder: String,
}

// The value of a variable of the environment; none if it is not there, or is empty.
fn variable<R: System>(rt: &R, name: &str) -> Option<String> {
    match env::var(rt, name) {
        Ok(value) => if value.is_empty() { None } else { Some(value) },
        Err(_) => None,
    }
}

// The folder that is used if none is named.
fn usual_folder<R: System>(rt: &R) -> Result<String, Stop> {
    let alloc = rt.alloc();
    match variable(rt, "XDG_CONFIG_HOME") {
        Some(base) => return Ok(joined(alloc, &[base.as_str(), "/pcfs-client"])?),
        None => {}
    }
    match variable(rt, "HOME") {
        Some(base) => Ok(joined(alloc, &[base.as_str(), "/.config/pcfs-client"])?),
        None => Err(ended(
            alloc,
            NO_FILE,
            &["the environment has no HOME; name the folder by --home DIR"],
        )),
    }
}

// The second now.
fn now<R: System>(rt: &R) -> i64 {
    match rt.since_1970() {
        Ok(time) => match i64::try_from(time.as_secs()) {
            Ok(second) => second,
            Err(_) => i64::MAX,
        },
        Err(_) => 0,
    }
}

fn make_folder<R: System>(rt: &R, folder: &str) -> io::Result<()> {
    match folder.rsplit_once('/') {
        Some((parent, _)) => if !parent.is_empty() {
            fs::create_dir_all(rt, parent)?
        },
        None => {}
    }
    let mut builder = DirBuilder::new();
    builder.mode(FOLDER_MODE);
    match builder.create(rt, folder) {
        Ok(()) => Ok(()),
        Err(fault) if fault.kind() == ErrorKind::AlreadyExists => keep_private(
            rt,
            folder,
            FOLDER_MODE,
        ),
        Err(fault) => Err(fault),
    }
}

fn open_lock<R: System>(rt: &R, path: &str) -> io::Result<File> {
    let mut options = OpenOptions::new();
    options.read(true).write(true).create(true).mode(PRIVATE);
    let file = options.open(rt, path)?;
    file.lock()?;
    Ok(file)
}

fn bad_line<R: System>(rt: &R, parts: &[&str], place: usize, words: &str) -> Stop {
    match bad_line_words(rt, parts, place, words) {
        Ok(words) => Stop::Ended(BAD_LINE, words),
        Err(_) => Stop::NoMemory,
    }
}

fn bad_line_words<R: System>(
    rt: &R,
    parts: &[&str],
    place: usize,
    words: &str,
) -> Result<String, NoMemory> {
    let mut text = joined(rt.alloc(), parts)?;
    write!(text, " line {place}: ")?;
    text.push_str(words)?;
    Ok(text)
}

/// The lines of a list of statements.
pub fn statements_in<R: System>(rt: &R, path: &str) -> Result<Statements, Stop> {
    let text = read_text(rt, path, "statements")?;
    match read_statements(rt.alloc(), text.as_str())? {
        Ok(list) => Ok(list),
        Err(place) => Err(bad_line(
            rt,
            &["statements ", path],
            place,
            "wanted a number, a space and a statement, as 1 admin says .., or a line register SIGNATURE STATEMENT",
        )),
    }
}

fn is_hex(word: &str) -> bool {
    KEY_LETTERS <= word.len()
        && word.as_bytes().iter().all(|byte| b'0' <= *byte && *byte <= b'9'
            || b'a' <= *byte && *byte <= b'f'
            || b'A' <= *byte && *byte <= b'F')
}

// Tests that nobody else may read the file with a key.
fn test_key_file<R: System>(rt: &R, path: &str) -> Result<(), Stop> {
    let alloc = rt.alloc();
    let found = match fs::metadata(rt, path) {
        Ok(found) => found,
        Err(fault) => {
            if is_hex(path) {
                return Err(ended(
                    alloc,
                    NO_FILE,
                    &[
                        "the key is read from a file, and --key names it; words of a command are seen by all users of the machine",
                    ],
                ));
            }
            let what = joined(alloc, &["key ", path])?;
            return Err(system_fault(alloc, NO_FILE, what.as_str(), &fault));
        }
    };
    if found.is_file() && found.permissions().mode() & crate::local_files::OTHERS != 0 {
        return Err(ended(
            alloc,
            NO_FILE,
            &[
                "key ",
                path,
                ": others may read it; do first: chmod 600 ",
                path,
            ],
        ));
    }
    Ok(())
}

/// The key of a name: from a file with hexadecimal digits, or a line `key NAME HEX`, which nobody else may read.
pub fn read_key<R: System>(rt: &R, path: &str, name: &str) -> Result<Bytes, Stop> {
    test_key_file(rt, path)?;
    let text = read_text(rt, path, "key")?;
    match key_in(rt.alloc(), text.as_str(), name)? {
        Some(key) => Ok(key),
        None => Err(ended(
            rt.alloc(),
            BAD_LINE,
            &[
                "key ",
                path,
                ": no line has a key of ",
                name,
                ": wanted two hexadecimal digits a byte, alone or as key ",
                name,
                " HEX",
            ],
        )),
    }
}

// The path from the root.
fn whole_path<R: System>(rt: &R, path: &str) -> Result<String, Stop> {
    let alloc = rt.alloc();
    if path.starts_with('/') {
        return Ok(joined(alloc, &[path])?);
    }
    match env::current_dir(rt) {
        Ok(folder) => {
            let folder = folder.to_string_lossy();
            Ok(joined(alloc, &[folder, "/", path])?)
        }
        Err(fault) => Err(system_fault(alloc, NO_FILE, path, &fault)),
    }
}

// Writes a note and locks it before it takes its name.
fn write_note<R: System>(rt: &R, new: &str, path: &str, text: &str) -> io::Result<File> {
    let _ = fs::remove_file(rt, new);
    let file = open_lock(rt, new)?;
    fs::write(rt, new, text)?;
    fs::rename(rt, new, path)?;
    Ok(file)
}

// Tests that the login's file can hold the path.
fn test_path(alloc: Global, path: &str) -> Result<(), Stop> {
    if path
        .as_bytes()
        .iter()
        .all(|byte| b' ' <= *byte && *byte <= b'~')
    {
        return Ok(());
    }
    Err(ended(
        alloc,
        NO_FILE,
        &[
            "key ",
            path,
            ": the path has bytes that are no ASCII text on one line",
        ],
    ))
}

impl Home {
    /// The folder that is named, or that of the environment, or the usual one.
    pub fn new<R: System>(rt: &R, named: Option<&str>) -> Result<Home, Stop> {
        let folder = match named {
            Some(folder) => joined(rt.alloc(), &[folder])?,
            None => match variable(rt, "PCFS_CLIENT_HOME") {
                Some(folder) => folder,
                None => usual_folder(rt)?,
            },
        };
        Ok(Home { folder })
    }

    /// The folder's path.
    pub fn folder(&self) -> &str {
        self.folder.as_str()
    }

    // The path of a file in the folder.
    fn path<R: System>(&self, rt: &R, name: &str) -> Result<String, NoMemory> {
        joined(rt.alloc(), &[self.folder.as_str(), "/", name])
    }

    // One program at a time changes the files: the one that holds this.
    fn lock<R: System>(&self, rt: &R) -> Result<File, Stop> {
        match make_folder(rt, self.folder.as_str()) {
            Ok(()) => {}
            Err(fault) => return Err(system_fault(
                rt.alloc(),
                NO_FILE,
                self.folder.as_str(),
                &fault,
            )),
        }
        let path = self.path(rt, "lock")?;
        match open_lock(rt, path.as_str()) {
            Ok(file) => Ok(file),
            Err(fault) => Err(system_fault(rt.alloc(), NO_FILE, path.as_str(), &fault)),
        }
    }

    /// The login that is kept; none if there is none.
    pub fn kept_login<R: System>(&self, rt: &R) -> Result<Option<Login>, Stop> {
        let path = self.path(rt, "login")?;
        if !is_there(rt, path.as_str())? {
            return Ok(None);
        }
        let text = read_text(rt, path.as_str(), "login")?;
        match read_login(rt.alloc(), text.as_str())? {
            Some(login) => Ok(Some(login)),
            None => Err(ended(
                rt.alloc(),
                BAD_LINE,
                &[
                    "login ",
                    path.as_str(),
                    ": is none that this client wrote; do anew: pcfs-client login",
                ],
            )),
        }
    }

    /// Who logs in, where, and the file with the key.
    pub fn login<R: System>(&self, rt: &R) -> Result<Login, Stop> {
        match self.kept_login(rt)? {
            Some(login) => Ok(login),
            None => Err(ended(
                rt.alloc(),
                NO_LOGIN,
                &["no login yet; do first: pcfs-client login NAME --key FILE --statements FILE"],
            )),
        }
    }

    /// Keeps a login.
    pub fn keep_login<R: System>(
        &self,
        rt: &R,
        server: &str,
        name: &str,
        key: &str,
    ) -> Result<(), Stop> {
        let key = whole_path(rt, key)?;
        test_path(rt.alloc(), key.as_str())?;
        let _lock = self.lock(rt)?;
        let text = login_text(rt.alloc(), server, name, key.as_str())?;
        let path = self.path(rt, "login")?;
        write_private(rt, path.as_str(), text.as_str(), true)
    }

    /// The user's list of statements, by rising numbers.
    pub fn statements<R: System>(&self, rt: &R) -> Result<Vec<Numbered>, Stop> {
        let path = self.path(rt, "statements")?;
        if !is_there(rt, path.as_str())? {
            return Ok(Vec::new(rt.alloc()));
        }
        let list = statements_in(rt, path.as_str())?;
        Ok(list.numbered)
    }

    /// Adds these to the list, where they count as standing, and takes those of these numbers out.
    pub fn add_statements<R: System>(
        &self,
        rt: &R,
        more: &[Numbered],
        dropped: &[u32],
    ) -> Result<(), Stop> {
        let _lock = self.lock(rt)?;
        let mut list = self.statements(rt)?;
        put_all(rt.alloc(), &mut list, more)?;
        let kept = without(rt.alloc(), list.as_slice(), dropped)?;
        let text = statements_text(rt.alloc(), kept.as_slice())?;
        let path = self.path(rt, "statements")?;
        write_private(rt, path.as_str(), text.as_str(), true)?;
        let mut wallet = self.wallet(rt)?;
        let before = wallet.gone.len();
        for one in more {
            wallet.forget_number(one.number);
        }
        if wallet.gone.len() < before {
            self.write_wallet(rt, &wallet)?;
        }
        Ok(())
    }

    /// The wallet.
    pub fn wallet<R: System>(&self, rt: &R) -> Result<Wallet, Stop> {
        let path = self.path(rt, "procaps")?;
        if !is_there(rt, path.as_str())? {
            return Ok(Wallet::new(rt.alloc()));
        }
        match keep_private(rt, path.as_str(), PRIVATE) {
            Ok(()) => {}
            Err(fault) => return Err(system_fault(rt.alloc(), NO_FILE, path.as_str(), &fault)),
        }
        let text = read_text(rt, path.as_str(), "procaps")?;
        match read_wallet(rt.alloc(), text.as_str())? {
            Ok(wallet) => Ok(wallet),
            Err(place) => Err(bad_line(
                rt,
                &["procaps ", path.as_str()],
                place,
                "is none that this client wrote; remove it",
            )),
        }
    }

    // Writes the wallet; what is lost of it is won anew.
    fn write_wallet<R: System>(&self, rt: &R, wallet: &Wallet) -> Result<(), Stop> {
        let text = wallet.text(rt.alloc(), now(rt))?;
        let path = self.path(rt, "procaps")?;
        write_private(rt, path.as_str(), text.as_str(), false)
    }

    /// Adds a procap to the wallet as it is now.
    pub fn add_pass<R: System>(&self, rt: &R, pass: &Pass) -> Result<Wallet, Stop> {
        let _lock = self.lock(rt)?;
        let mut wallet = self.wallet(rt)?;
        wallet.add(rt.alloc(), pass)?;
        self.write_wallet(rt, &wallet)?;
        Ok(wallet)
    }

    /// Takes the procap of this word out of the wallet as it is now.
    pub fn remove_pass<R: System>(&self, rt: &R, word: &str) -> Result<Wallet, Stop> {
        let _lock = self.lock(rt)?;
        let mut wallet = self.wallet(rt)?;
        wallet.remove(word);
        self.write_wallet(rt, &wallet)?;
        Ok(wallet)
    }

    /// Notes in the wallet as it is now that a statement does not stand any more at a server.
    pub fn note_gone<R: System>(&self, rt: &R, server: &str, number: u32) -> Result<Wallet, Stop> {
        let _lock = self.lock(rt)?;
        let mut wallet = self.wallet(rt)?;
        wallet.note_gone(rt.alloc(), server, number)?;
        self.write_wallet(rt, &wallet)?;
        Ok(wallet)
    }

    /// Forgets which statements do not stand at a server.
    pub fn forget_gone<R: System>(&self, rt: &R, server: &str) -> Result<(), Stop> {
        let _lock = self.lock(rt)?;
        let mut wallet = self.wallet(rt)?;
        wallet.forget_server(server);
        self.write_wallet(rt, &wallet)
    }

    /// Throws the wallet away.
    pub fn clear<R: System>(&self, rt: &R) -> Result<(), Stop> {
        let _lock = self.lock(rt)?;
        self.write_wallet(rt, &Wallet::new(rt.alloc()))
    }

    /// Notes a file that has a name of its own until it takes another. Whoever holds the file that is returned is at work on it.
    pub fn note_unfinished<R: System>(
        &self,
        rt: &R,
        unfinished: &Unfinished,
    ) -> Result<(File, String), Stop> {
        let alloc = rt.alloc();
        let _lock = self.lock(rt)?;
        let digits = drawn_digits(rt)?;
        let name = joined(alloc, &["unfinished.", digits.as_str()])?;
        let path = self.path(rt, name.as_str())?;
        let new = self.path(rt, "note.new")?;
        let text = unfinished.text(alloc)?;
        match write_note(rt, new.as_str(), path.as_str(), text.as_str()) {
            Ok(file) => Ok((file, path)),
            Err(fault) => Err(system_fault(alloc, NO_FILE, path.as_str(), &fault)),
        }
    }

    /// The paths of the notes of files that have a name of their own.
    pub fn notes<R: System>(&self, rt: &R) -> Result<Vec<String>, Stop> {
        let alloc = rt.alloc();
        let mut paths = Vec::new(alloc);
        let listing = match fs::read_dir(rt, self.folder.as_str()) {
            Ok(listing) => listing,
            Err(fault) if fault.kind() == ErrorKind::NotFound => return Ok(paths),
            Err(fault) => return Err(system_fault(alloc, NO_FILE, self.folder.as_str(), &fault)),
        };
        for entry in listing {
            match entry {
                Ok(entry) => if entry.file_name().starts_with("unfinished.") {
                    paths.push(self.path(rt, entry.file_name())?)?;
                },
                Err(_) => {}
            }
        }
        Ok(paths)
    }
}

fn try_lock<R: System>(rt: &R, path: &str) -> Option<File> {
    let mut options = OpenOptions::new();
    options.read(true).write(true);
    match options.open(rt, path) {
        Ok(file) => match file.try_lock() {
            Ok(()) => Some(file),
            Err(_) => None,
        },
        Err(_) => None,
    }
}

/// The file of a note, if nobody is at work on it any more; whoever holds the file that is returned is.
pub fn unfinished_in<R: System>(rt: &R, path: &str) -> Result<Option<(File, Unfinished)>, Stop> {
    let file = match try_lock(rt, path) {
        Some(file) => file,
        None => return Ok(None),
    };
    let text = read_text(rt, path, "note")?;
    match read_unfinished(rt.alloc(), text.as_str())? {
        Some(unfinished) => Ok(Some((file, unfinished))),
        None => Ok(None),
    }
}

/// The second now.
pub fn second_now<R: System>(rt: &R) -> i64 {
    now(rt)
}
