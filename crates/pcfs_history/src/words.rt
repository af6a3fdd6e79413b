//! What the words of the command ask for.

use bl_syntax::byte_classes::is_digit;
use bl_syntax::decimal::put_text;
use bl_syntax::{Bytes, NoMemory, NodeId, Perm, Principal, TimePoint};
use bl_text::parse_time;
use history_table::Filter;
use std::alloc::Global;

/// A permission on a node.
#[derive(Clone, Copy)]
pub struct Question {
    pub file: NodeId,
    pub permission: Perm,
}

/// What is asked of a history.
#[derive(Clone, Copy)]
pub enum Asked {
    /// Its events.
    Events,
    /// Which issues would admit their principals to that.
    WhoMay(Question),
    /// Which issues rest on the statement of that number.
    RestsOn(u32),
}

/// What is asked for.
#[derive(Drop)]
pub struct Task {
    pub areas: Vec<String>,
    pub filter: Filter,
    pub json: bool,
    pub asked: Asked,
    /// The second for which it is asked who may; now, if there is none.
    pub at: Option<i64>,
    pub secrets: Option<String>,
}

/// A word that is wrong: what it was to be, and the word, if there is one.
#[derive(Drop)]
pub struct WordFault {
    pub wanted: &'static str,
    pub word: Option<String>,
}

/// What the words ask for.
#[derive(Drop)]
pub enum Wish {
    Write(Task),
    Help,
    Version,
    Bad(WordFault),
}

/// What becomes of an option.
#[derive(Drop)]
enum Taken {
    /// It was taken, with so many words after it.
    Words(usize),
    Help,
    Version,
    /// This was to stand after it.
    Lacks(&'static str),
    Unknown,
}

fn copied(alloc: Global, word: &str) -> Result<String, NoMemory> {
    match String::from_str(alloc, word) {
        Ok(word) => Ok(word),
        Err(_) => Err(NoMemory),
    }
}

fn number_of(word: &str) -> Option<u64> {
    if word.is_empty() || !word.as_bytes().iter().all(|byte| is_digit(*byte)) {
        return None;
    }
    match word.parse::<u64>() {
        Ok(number) => Some(number),
        Err(_) => None,
    }
}

fn statement_of(word: Option<&String>) -> Option<u32> {
    let word = match word {
        Some(word) => word.as_str(),
        None => return None,
    };
    match number_of(word) {
        Some(number) => match u32::try_from(number) {
            Ok(number) => Some(number),
            Err(_) => None,
        },
        None => None,
    }
}

fn second_of(word: Option<&String>) -> Option<i64> {
    let word = match word {
        Some(word) => word.as_str(),
        None => return None,
    };
    match parse_time(word.as_bytes()) {
        Ok(TimePoint::At(second)) => Some(second),
        _ => None,
    }
}

fn file_of(word: Option<&String>) -> Option<NodeId> {
    let word = match word {
        Some(word) => word.as_str(),
        None => return None,
    };
    match word.strip_prefix("#") {
        Some(digits) => match number_of(digits) {
            Some(number) => Some(NodeId(number)),
            None => None,
        },
        None => None,
    }
}

fn perm_of(word: Option<&String>) -> Option<Perm> {
    let word = match word {
        Some(word) => word.as_str(),
        None => return None,
    };
    if word == "read" {
        return Some(Perm::Read);
    }
    if word == "write" {
        return Some(Perm::Write);
    }
    if word == "execute" {
        return Some(Perm::Execute);
    }
    if word == "identity" {
        return Some(Perm::Identity);
    }
    if word == "govern" {
        Some(Perm::Govern)
    } else {
        None
    }
}

// Which time an option sets.
#[derive(Clone, Copy)]
enum Which {
    From,
    To,
    At,
}

fn take_time(task: &mut Task, which: Which, word: Option<&String>) -> Taken {
    match second_of(word) {
        Some(second) => {
            match which {
                Which::From => task.filter.from = Some(second),
                Which::To => task.filter.to = Some(second),
                Which::At => task.at = Some(second),
            }
            Taken::Words(1)
        }
        None => Taken::Lacks("a second or a date after --from, --to and --at"),
    }
}

fn take_file(task: &mut Task, word: Option<&String>) -> Taken {
    match file_of(word) {
        Some(file) => {
            task.filter.file = Some(file);
            Taken::Words(1)
        }
        None => Taken::Lacks("a node after --file, as #1"),
    }
}

fn take_who(task: &mut Task, word: Option<&String>) -> Taken {
    let who = match word {
        Some(word) => Principal::new(word.as_bytes()),
        None => None,
    };
    match who {
        Some(who) => {
            task.filter.who = Some(who);
            Taken::Words(1)
        }
        None => Taken::Lacks("a principal after --who"),
    }
}

fn take_question(task: &mut Task, file: Option<&String>, permission: Option<&String>) -> Taken {
    match file_of(file) {
        Some(file) => match perm_of(permission) {
            Some(permission) => {
                task.asked = Asked::WhoMay(Question { file, permission });
                Taken::Words(2)
            }
            None => Taken::Lacks(
                "read, write, execute, identity or govern after the node of --who-may",
            ),
        },
        None => Taken::Lacks("a node after --who-may, as #1"),
    }
}

fn take_statement(task: &mut Task, word: Option<&String>) -> Taken {
    match statement_of(word) {
        Some(statement) => {
            task.asked = Asked::RestsOn(statement);
            Taken::Words(1)
        }
        None => Taken::Lacks("the number of a statement after --rests-on"),
    }
}

fn take_secrets(alloc: Global, task: &mut Task, word: Option<&String>) -> Result<Taken, NoMemory> {
    match word {
        Some(path) => {
            task.secrets = Some(copied(alloc, path.as_str())?);
            Ok(Taken::Words(1))
        }
        None => Ok(Taken::Lacks("a file after --secrets")),
    }
}

// Takes an option, with the words after it if it has some.
fn take_option(
    alloc: Global,
    task: &mut Task,
    option: &str,
    first: Option<&String>,
    second: Option<&String>,
) -> Result<Taken, NoMemory> {
    if option == "--file" {
        return Ok(take_file(task, first));
    }
    if option == "--who" {
        return Ok(take_who(task, first));
    }
    if option == "--from" {
        return Ok(take_time(task, Which::From, first));
    }
    if option == "--to" {
        return Ok(take_time(task, Which::To, first));
    }
    if option == "--at" {
        return Ok(take_time(task, Which::At, first));
    }
    if option == "--json" {
        task.json = true;
        return Ok(Taken::Words(0));
    }
    if option == "--who-may" {
        return Ok(take_question(task, first, second));
    }
    if option == "--rests-on" {
        return Ok(take_statement(task, first));
    }
    if option == "--secrets" {
        return take_secrets(alloc, task, first);
    }
    if option == "--help" {
        return Ok(Taken::Help);
    }
    if option == "--version" {
        Ok(Taken::Version)
    } else {
        Ok(Taken::Unknown)
    }
}

fn is_option(word: &str) -> bool {
    word.starts_with("--")
}

fn nothing_asked(alloc: Global) -> Task {
    Task {
        areas: Vec::new(alloc),
        filter: Filter {
            file: None,
            who: None,
            from: None,
            to: None,
        },
        json: false,
        asked: Asked::Events,
        at: None,
        secrets: None,
    }
}

/// What the words ask for. They are without the program's name.
pub fn wish_of(alloc: Global, words: &Vec<String>) -> Result<Wish, NoMemory> {
    let mut task = nothing_asked(alloc);
    let mut passed = 0usize;
    for (place, word) in words.as_slice().iter().enumerate() {
        if 0 < passed {
            passed -= 1;
            continue;
        }
        if !is_option(word.as_str()) {
            task.areas.push(copied(alloc, word.as_str())?)?;
            continue;
        }
        let first = words.get(place + 1);
        let second = words.get(place + 2);
        match take_option(alloc, &mut task, word.as_str(), first, second)? {
            Taken::Words(more) => passed = more,
            Taken::Help => return Ok(Wish::Help),
            Taken::Version => return Ok(Wish::Version),
            Taken::Lacks(wanted) => return Ok(Wish::Bad(WordFault { wanted, word: None })),
            Taken::Unknown => return Ok(Wish::Bad(WordFault {
                wanted: "an option of --help",
                word: Some(copied(alloc, word.as_str())?),
            })),
        }
    }
    if task.areas.is_empty() {
        return Ok(Wish::Bad(WordFault {
            wanted: "an area: a folder, or a file",
            word: None,
        }));
    }
    Ok(Wish::Write(task))
}

/// Writes which word is wrong, and how.
pub fn put_word_fault(out: &mut Bytes, fault: &WordFault) -> Result<(), NoMemory> {
    put_text(out, "pcfs-history: ")?;
    match &fault.word {
        Some(word) => {
            put_text(out, word.as_str())?;
            put_text(out, ": ")?;
        }
        None => {}
    }
    put_text(out, "wanted ")?;
    put_text(out, fault.wanted)
}
