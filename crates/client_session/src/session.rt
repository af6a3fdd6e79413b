//! A session: lines sent, and a reply read for each.

ghost use Rattle.std.specs.Prelude.{◌≤◌, IfOk, length};

use crate::dialer::Dialer;
use crate::fault::{Fault, broken, broken_by, no_server};
use crate::greeting::nonce_of;
use crate::inbox::Inbox;
use crate::lines::login_line;
use bl_syntax::{Bytes, NoMemory, Principal};
use client_replies::failing;
use client_words::{NO_LOGIN, NO_SERVER, Stop, put_quoted};
use std::alloc::{AllocError, Global};
use std::io::{ErrorKind, Read, Write};

/// The most bytes of a reply: a directory of 16,384 names has fewer.
const LONGEST: usize = 4_194_304;

/// The most letters of a greeting that are shown.
const MOST_SHOWN: usize = 40;

/// How many bytes are read at once.
const PIECE: usize = 65_536;

/// How long to wait before each try to take a session up again but the first, in milliseconds.
const PAUSES: [u64; 5] = [100, 500, 1000, 3000, 8000];

/// The replies to lines; and whether some of these may have been done before, in a session that broke off.
#[derive(Drop)]
pub struct Replies {
    pub lines: Vec<String>,
    pub again: bool,
}

/// A user's session with a server. It begins with its first line.
#[derive(Drop)]
pub struct Session<D: Dialer + Drop> {
    alloc: Global,
    dialer: D,
    server: String,
    name: Principal,
    key: Bytes,
    seconds: String,
    link: Option<D::Link>,
    inbox: Inbox,
    piece: Vec<u8>,
    began: bool,
}

// Whether a reply may hold these bytes: they are printed signs of ASCII, or spaces.
fn is_printed(bytes: &[u8]) -> bool {
    bytes.iter().all(|byte| b' ' <= *byte && *byte <= b'~')
}

// What is read next; an end of the connection is a fault.
fn read_some<L: Read>(
    alloc: Global,
    link: &mut L,
    buffer: &mut [u8],
    seconds: &str,
) -> Result<usize, Fault>
    ensures { IfOk result (λ n. n ≤ length buffer.new) }
{
    for _ in 0..u64::MAX {
        match link.read(buffer) {
            Ok(0) => return Err(broken(alloc, "the server closed the connection")),
            Ok(count) => return Ok(count),
            Err(fault) if fault.kind() == ErrorKind::Interrupted => {}
            Err(fault) => return Err(broken_by(
                alloc,
                &fault,
                "no reply within ",
                seconds,
                " seconds (a server has 64 sessions at once, and others wait)",
            )),
        }
    }
    Err(broken(alloc, "the server closed the connection"))
}

// Sends all of these bytes.
fn send_all<L: Write>(
    alloc: Global,
    link: &mut L,
    bytes: &[u8],
    seconds: &str,
) -> Result<(), Fault> {
    match link.write_all(bytes) {
        Ok(()) => Ok(()),
        Err(fault) => Err(broken_by(
            alloc,
            &fault,
            "nothing was taken within ",
            seconds,
            " seconds",
        )),
    }
}

// The bytes of the lines, each with its end.
fn joined(alloc: Global, lines: &[Bytes]) -> Result<Bytes, NoMemory> {
    let mut all = Bytes::new(alloc);
    for line in lines {
        all.extend(line.as_slice())?;
        all.push(b'\n')?;
    }
    Ok(all)
}

fn greets_otherwise(alloc: Global, server: &str, line: &str) -> Result<Stop, AllocError> {
    let mut words = String::from_str(alloc, server)?;
    words.push_str(" greets with ")?;
    let shown: String = line.chars().take(MOST_SHOWN).collect(alloc)?;
    put_quoted(&mut words, shown.as_str())?;
    words.push_str(": it is no PCFS")?;
    Ok(Stop::Ended(NO_SERVER, words))
}

fn no_login(alloc: Global, server: &str, name: &Principal) -> Result<Stop, AllocError> {
    let mut words = String::from_str(alloc, server)?;
    words.push_str(" does not accept the login of ")?;
    match std::str::from_utf8(name.bytes()) {
        Ok(name) => words.push_str(name)?,
        Err(_) => {}
    }
    words.push_str(": is it the right key, and does the server have it?")?;
    Ok(Stop::Ended(NO_LOGIN, words))
}

fn or_no_memory(stop: Result<Stop, AllocError>) -> Stop {
    match stop {
        Ok(stop) => stop,
        Err(_) => Stop::NoMemory,
    }
}

impl<D: Dialer + Drop> Session<D> {
    /// A session of this name, with its key, at a server. `seconds` says how long a reply may take, as the user wrote it.
    pub fn new(
        alloc: Global,
        dialer: D,
        server: String,
        name: Principal,
        key: Bytes,
        seconds: String,
    ) -> Session<D> {
        Session {
            alloc,
            dialer,
            server,
            name,
            key,
            seconds,
            link: None,
            inbox: Inbox::new(alloc),
            piece: Vec::new(alloc),
            began: false,
        }
    }

    /// The server's address.
    pub fn server(&self) -> &str {
        self.server.as_str()
    }

    /// Who logs in.
    pub fn name(&self) -> Principal {
        self.name
    }

    /// The key.
    pub fn key(&self) -> &[u8] {
        self.key.as_slice()
    }

    /// What connects.
    pub fn dialer(&self) -> &D {
        &self.dialer
    }

    // Ends the connection. A reply that nobody has read is none to the next line.
    fn close(&mut self) {
        self.link = None;
        self.inbox.clear();
    }

    // Reads once.
    fn fill(&mut self) -> Result<(), Fault> {
        if self.piece.is_empty() {
            self.piece.resize(PIECE, 0)?;
        }
        let count = match &mut self.link {
            Some(link) => read_some(
                self.alloc,
                link,
                self.piece.as_mut_slice(),
                self.seconds.as_str(),
            )?,
            None => return Err(broken(self.alloc, "the server closed the connection")),
        };
        match self.piece.get(..count) {
            Some(read) => self.inbox.add(read)?,
            None => {}
        }
        Ok(())
    }

    // The next line of the server, as bytes.
    fn next_line(&mut self) -> Result<Bytes, Fault> {
        for _ in 0..u64::MAX {
            match self.inbox.take_line(self.alloc)? {
                Some(line) => return Ok(line),
                None => {}
            }
            if self.inbox.len() > LONGEST {
                break;
            }
            self.fill()?;
        }
        Err(Fault::Stop(no_server(
            self.alloc,
            self.server.as_str(),
            " sends a line without an end",
            ": it is no PCFS",
        )))
    }

    // The next line of the server.
    fn line(&mut self) -> Result<String, Fault> {
        let line = self.next_line()?;
        if is_printed(line.as_slice()) {
            match std::str::from_utf8(line.as_slice()) {
                Ok(text) => return Ok(String::from_str(self.alloc, text)?),
                Err(_) => {}
            }
        }
        Err(Fault::Stop(no_server(
            self.alloc,
            self.server.as_str(),
            " sends bytes that no reply has",
            ": it is no PCFS",
        )))
    }

    fn send(&mut self, bytes: &[u8]) -> Result<(), Fault> {
        match &mut self.link {
            Some(link) => send_all(self.alloc, link, bytes, self.seconds.as_str()),
            None => Err(broken(self.alloc, "the server closed the connection")),
        }
    }

    // A new connection.
    fn dial(&mut self) -> Result<(), Fault> {
        self.close();
        match self.dialer.dial() {
            Ok(link) => {
                self.link = Some(link);
                Ok(())
            }
            Err(fault) => Err(broken_by(
                self.alloc,
                &fault,
                "no connection within ",
                self.seconds.as_str(),
                " seconds",
            )),
        }
    }

    // A new connection, greeted and logged in.
    fn connect(&mut self) -> Result<(), Fault> {
        self.dial()?;
        let hello = self.line()?;
        let nonce = match nonce_of(self.alloc, hello.as_bytes())? {
            Some(nonce) => nonce,
            None => return Err(Fault::Stop(or_no_memory(greets_otherwise(
                self.alloc,
                self.server.as_str(),
                hello.as_str(),
            )))),
        };
        let mut login = login_line(self.alloc, &self.name, self.key.as_slice(), &nonce)?;
        login.push(b'\n')?;
        self.send(login.as_slice())?;
        let reply = self.line()?;
        if reply.as_str() == "ok" {
            return Ok(());
        }
        match failing(self.alloc, reply.as_str()) {
            Some(stop) => Err(Fault::Stop(stop)),
            None => Err(Fault::Stop(or_no_memory(no_login(
                self.alloc,
                self.server.as_str(),
                &self.name,
            )))),
        }
    }

    fn broken_off(&self, before: &str, after: &str, fault: &str) -> Stop {
        let mut words = String::new(self.alloc);
        let server = self.server.as_str();
        match write!(words, "{before}{server}{after}{fault}") {
            Ok(()) => Stop::Ended(NO_SERVER, words),
            Err(_) => Stop::NoMemory,
        }
    }

    /// The first connection. If there is none, nothing is tried again.
    pub fn begin(&mut self) -> Result<(), Stop> {
        match self.connect() {
            Ok(()) => {
                self.began = true;
                Ok(())
            }
            Err(Fault::Broken(fault)) => {
                self.close();
                Err(self.broken_off("no session with ", ": ", fault.as_str()))
            }
            Err(Fault::Stop(stop)) => {
                self.close();
                Err(stop)
            }
        }
    }

    // Sends the lines, and reads a reply for each.
    fn exchange(&mut self, lines: &[Bytes]) -> Result<Vec<String>, Fault> {
        let all = joined(self.alloc, lines)?;
        self.send(all.as_slice())?;
        let mut replies = Vec::new(self.alloc);
        for _ in lines {
            replies.push(self.line()?)?;
        }
        Ok(replies)
    }

    // The same, after the session was taken up again if it had broken off. The lines may have been done before from then on that
    // some of them were sent.
    fn attempt(&mut self, lines: &[Bytes], again: &mut bool) -> Result<Vec<String>, Fault> {
        if self.link.is_none() {
            self.connect()?;
            self.remark_taken_up();
        }
        match self.exchange(lines) {
            Ok(replies) => Ok(replies),
            Err(Fault::Broken(fault)) => {
                *again = true;
                Err(Fault::Broken(fault))
            }
            Err(Fault::Stop(stop)) => Err(Fault::Stop(stop)),
        }
    }

    fn remark_taken_up(&self) {
        let mut words = String::new(self.alloc);
        let server = self.server.as_str();
        match write!(words, "the session with {server} was taken up again") {
            Ok(()) => self.dialer.remark(words.as_str()),
            Err(_) => {}
        }
    }

    // The replies, if none of them means an end.
    fn unless_failing(&self, lines: Vec<String>, again: bool) -> Result<Replies, Stop> {
        for line in &lines {
            match failing(self.alloc, line.as_str()) {
                Some(stop) => return Err(stop),
                None => {}
            }
        }
        Ok(Replies { lines, again })
    }

    /// The replies to these lines, which are sent at once.
    pub fn ask_all(&mut self, lines: &[Bytes]) -> Result<Replies, Stop> {
        if !self.began {
            self.begin()?;
        }
        let mut again = false;
        for pause in PAUSES {
            match self.attempt(lines, &mut again) {
                Ok(replies) => return self.unless_failing(replies, again),
                Err(Fault::Broken(_)) => self.close(),
                Err(Fault::Stop(stop)) => {
                    self.close();
                    return Err(stop);
                }
            }
            self.dialer.pause(pause);
        }
        match self.attempt(lines, &mut again) {
            Ok(replies) => self.unless_failing(replies, again),
            Err(Fault::Broken(fault)) => {
                self.close();
                Err(self.broken_off(
                    "the session with ",
                    " broke off, and cannot be taken up again: ",
                    fault.as_str(),
                ))
            }
            Err(Fault::Stop(stop)) => {
                self.close();
                Err(stop)
            }
        }
    }
}
