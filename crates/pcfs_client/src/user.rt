//! The user's session, wallet and list of statements, for one command.

use crate::dialing::TcpDialer;
use bl_syntax::{Bytes, Goal, NoMemory, NodeId, Numbers, Principal};
use client_folder::home::{Home, second_now};
use client_folder::local_files::drawn_digits;
use client_folder::messages::{ended, joined, remark};
use client_home::{Numbered, Unfinished, Wallet};
use client_prover::{Answer, Listed, Wanted, cites_of, prove};
use client_session::{Dialer, Replies, Session};
use client_tree::{Change, Ports, Proof, Span};
use client_words::{BAD_LINE, NO_FILE, Name, Place, Stop};
use proof_verifier::Cite;
use std::fs::{self, File};

/// How many bytes one line reads or writes.
const PIECE: u64 = 65_536;

/// A line on the terminal that says how much is done, for what takes more than one piece.
#[derive(Drop)]
pub struct Progress {
    pub what: String,
    pub total: u64,
    pub is_shown: bool,
}

/// A note of a file that has a name of its own, which is kept as long as it is at work on it.
#[derive(Drop)]
pub struct Note {
    pub path: String,
    pub file: File,
}

/// The user, for one command.
#[derive(Drop)]
pub struct User<'a> {
    pub rt: &'a HostRuntime,
    pub home: Home,
    pub session: Session<TcpDialer<'a>>,
    pub list: Vec<Numbered>,
    pub is_watched: bool,
    pub progress: Option<Progress>,
    pub note: Option<Note>,
}

// The statements of the list whose numbers are none of these.
fn listed<'b>(
    rt: &HostRuntime,
    list: &'b [Numbered],
    without: &[u32],
) -> Result<Vec<Listed<'b>>, NoMemory> {
    let mut all = Vec::new(rt.alloc());
    for one in list {
        if !without.contains(&one.number) {
            all.push(Listed {
                number: one.number,
                text: one.text.as_str(),
            })?;
        }
    }
    Ok(all)
}

fn no_statement(rt: &HostRuntime, number: u32) -> Stop {
    let mut words = String::new(rt.alloc());
    match write!(
        words,
        "your list of statements: {number} is no statement; drop it: pcfs-client statements --drop {number}"
    ) {
        Ok(()) => Stop::Ended(BAD_LINE, words),
        Err(_) => Stop::NoMemory,
    }
}

fn cites(rt: &HostRuntime, list: &[Numbered], without: &[u32]) -> Result<Vec<Cite>, Stop> {
    let chosen = listed(rt, list, without)?;
    match cites_of(rt.alloc(), chosen.as_slice())? {
        Ok(cites) => Ok(cites),
        Err(number) => Err(no_statement(rt, number)),
    }
}

impl<'a> User<'a> {
    /// A proof of the goal for that time, or for now, from the statements of the list without these.
    pub fn search(&self, goal: Goal, without: &[u32], span: Option<Span>) -> Result<Answer, Stop> {
        let alloc = self.rt.alloc();
        let cites = cites(self.rt, self.list.as_slice(), without)?;
        if cites.is_empty() {
            return Ok(Answer::NotFound(joined(
                alloc,
                &["there is no statement in your list; take some in: pcfs-client statements FILE"],
            )?));
        }
        let now = second_now(self.rt);
        let wanted = match span {
            Some(span) => Wanted {
                goal,
                from: span.from,
                to: span.to,
            },
            None => Wanted {
                goal,
                from: now,
                to: now,
            },
        };
        Ok(prove(alloc, cites.as_slice(), &wanted)?)
    }

    fn show(&self, progress: &Progress, done: u64) {
        let what = progress.what.as_str();
        let total = progress.total;
        let _ = match done.saturating_mul(100).checked_div(total) {
            Some(part) => eprint!(self.rt; "\r{what}: {done} of {total} bytes, {part} %\x1b[K"),
            None => eprint!(self.rt; "\r{what}: {done} bytes\x1b[K"),
        };
    }

    /// Shows from now on how much is done.
    pub fn begin_progress(&mut self, what: String, total: u64) {
        self.progress = Some(Progress {
            what,
            total,
            is_shown: false,
        });
    }

    /// Takes the line away that says how much is done.
    pub fn end_progress(&mut self) {
        match &self.progress {
            Some(progress) if progress.is_shown => {
                let _ = eprint!(self.rt; "\r\x1b[K");
            }
            _ => {}
        }
        self.progress = None;
    }
}

impl<'a> Ports for User<'a> {
    fn ask(&mut self, lines: &[Bytes]) -> Result<Replies, Stop> {
        self.session.ask_all(lines)
    }

    fn prove(&mut self, goal: Goal, without: &[u32], span: Option<Span>) -> Result<Proof, Stop> {
        match self.search(goal, without, span)? {
            Answer::Found(line, proved) => Ok(Proof::Found(
                line,
                proved.numbers.copy(self.rt.alloc())?,
            )),
            Answer::NotFound(words) => Ok(Proof::NotFound(words)),
        }
    }

    fn change(&mut self, change: Change<'_>) -> Result<Wallet, Stop> {
        match change {
            Change::Add(pass) => self.home.add_pass(self.rt, pass),
            Change::Remove(word) => self.home.remove_pass(self.rt, word),
            Change::Gone(number) => self.home.note_gone(self.rt, self.session.server(), number),
        }
    }

    fn is_listed(&self, number: u32) -> bool {
        self.list.iter().any(|one| one.number == number)
    }

    fn server(&self) -> &str {
        self.session.server()
    }

    fn who(&self) -> Principal {
        self.session.name()
    }

    fn now(&self) -> i64 {
        second_now(self.rt)
    }

    fn pause(&self, milliseconds: u64) {
        self.session.dialer().pause(milliseconds);
    }

    fn new_name(&mut self, front: &str) -> Result<Name, Stop> {
        let alloc = self.rt.alloc();
        let digits = drawn_digits(self.rt)?;
        let word = joined(alloc, &[front, digits.as_str()])?;
        match Name::new(alloc, word.as_str())? {
            Some(name) => Ok(name),
            None => Err(ended(alloc, NO_FILE, &[word.as_str(), ": is no name"])),
        }
    }

    fn remark(&self, words: &str) {
        remark(self.rt, self.is_watched, words);
    }

    fn show_progress(&mut self, done: u64) {
        if !self.is_watched {
            return;
        }
        let whole = match &self.progress {
            Some(progress) => if progress.total == 0 {
                done
            } else {
                progress.total
            },
            None => return,
        };
        if whole < PIECE {
            return;
        }
        match &self.progress {
            Some(progress) => self.show(progress, done),
            None => {}
        }
        match &mut self.progress {
            Some(progress) => progress.is_shown = true,
            None => {}
        }
    }

    fn note_hidden(&mut self, directory: NodeId, hidden: &Place, node: NodeId) -> Result<(), Stop> {
        let alloc = self.rt.alloc();
        let unfinished = Unfinished {
            server: String::from_str(alloc, self.session.server())?,
            who: self.session.name(),
            directory,
            node,
            path: hidden.shown(alloc)?,
        };
        let (file, path) = self.home.note_unfinished(self.rt, &unfinished)?;
        self.note = Some(Note { path, file });
        Ok(())
    }

    fn forget_hidden(&mut self) {
        match &self.note {
            Some(note) => {
                let _ = fs::remove_file(self.rt, note.path.as_str());
            }
            None => {}
        }
        self.note = None;
    }
}
