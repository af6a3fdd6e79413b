//! What the words of the command ask for.

use bl_syntax::{Goal, NoMemory, NodeId, Perm, Principal};
use line_words::numerals;
use std::alloc::Global;

/// The steps, if the words name none.
const STEPS: u64 = 200_000;

/// A search that is asked for, in words that stay where they are.
#[derive(Clone, Copy)]
pub struct Task<'a> {
    pub statements: &'a str,
    pub goal: Goal,
    pub at: Option<i64>,
    pub until: Option<i64>,
    pub any: bool,
    pub facts: Option<&'a str>,
    pub known: bool,
    pub steps: u64,
}

/// What is wrong with the words.
#[derive(Clone, Copy)]
pub enum WordFault<'a> {
    /// This was to stand there.
    Lacks(&'static str),
    /// This word was to be something else.
    Wrong(&'a str, &'static str),
}

/// What the words ask for.
#[derive(Clone, Copy)]
pub enum Wish<'a> {
    Prove(Task<'a>),
    Help,
    Version,
    Bad(WordFault<'a>),
}

/// What the words say, as far as they were read.
#[derive(Drop)]
struct Given<'a> {
    plain: Vec<&'a str>,
    at: Option<i64>,
    until: Option<i64>,
    any: bool,
    facts: Option<&'a str>,
    known: bool,
    steps: u64,
}

/// What becomes of an option.
#[derive(Clone, Copy)]
enum Taken {
    /// It was taken, with so many words after it.
    Words(usize),
    Help,
    Version,
    /// This was to stand after it.
    Lacks(&'static str),
    Unknown,
}

impl<'a> Given<'a> {
    // Nothing was read.
    fn new(alloc: Global) -> Given<'a> {
        Given {
            plain: Vec::new(alloc),
            at: None,
            until: None,
            any: false,
            facts: None,
            known: false,
            steps: STEPS,
        }
    }
}

fn second_of(word: Option<&String>) -> Option<i64> {
    numerals::second(word?.as_str().as_bytes())
}

fn file_of(word: &str) -> Option<NodeId> {
    numerals::file(word.as_bytes())
}

fn perm_of(word: &str) -> Option<Perm> {
    match word {
        "read" => Some(Perm::Read),
        "write" => Some(Perm::Write),
        "execute" => Some(Perm::Execute),
        "identity" => Some(Perm::Identity),
        "govern" => Some(Perm::Govern),
        _ => None,
    }
}

fn steps_of(word: Option<&String>) -> Option<u64> {
    numerals::long_number(word?.as_str().as_bytes())
}

fn take_time(time: &mut Option<i64>, word: Option<&String>) -> Taken {
    match second_of(word) {
        Some(second) => {
            *time = Some(second);
            Taken::Words(1)
        }
        None => Taken::Lacks("a second or a date after --at and --until"),
    }
}

fn take_facts<'a>(given: &mut Given<'a>, word: Option<&'a String>) -> Taken {
    match word {
        Some(path) => {
            given.facts = Some(path.as_str());
            Taken::Words(1)
        }
        None => Taken::Lacks("a file after --facts"),
    }
}

fn take_steps(steps: &mut u64, word: Option<&String>) -> Taken {
    match steps_of(word) {
        Some(number) => {
            *steps = number;
            Taken::Words(1)
        }
        None => Taken::Lacks("a number after --steps"),
    }
}

fn take_mark(mark: &mut bool) -> Taken {
    *mark = true;
    Taken::Words(0)
}

// Takes an option, with the word after it if it has one.
fn take_option<'a>(given: &mut Given<'a>, option: &str, word: Option<&'a String>) -> Taken {
    match option {
        "--at" => take_time(&mut given.at, word),
        "--until" => take_time(&mut given.until, word),
        "--facts" => take_facts(given, word),
        "--steps" => take_steps(&mut given.steps, word),
        "--any" => take_mark(&mut given.any),
        "--known" => take_mark(&mut given.known),
        "--help" => Taken::Help,
        "--version" => Taken::Version,
        _ => Taken::Unknown,
    }
}

// Takes a word, with the one after it if that belongs to it.
fn take_word<'a>(
    given: &mut Given<'a>,
    word: &'a str,
    next: Option<&'a String>,
) -> Result<Taken, NoMemory> {
    if word.starts_with("--") {
        return Ok(take_option(given, word, next));
    }
    given.plain.push(word)?;
    Ok(Taken::Words(0))
}

// With which wish the words end at this one, if they do.
fn wish_at<'a>(word: &'a str, taken: Taken) -> Option<Wish<'a>> {
    match taken {
        Taken::Words(_) => None,
        Taken::Help => Some(Wish::Help),
        Taken::Version => Some(Wish::Version),
        Taken::Lacks(wanted) => Some(Wish::Bad(WordFault::Lacks(wanted))),
        Taken::Unknown => Some(Wish::Bad(WordFault::Wrong(word, "an option of --help"))),
    }
}

// How many words after this one belong to it.
fn passed_after(taken: Taken) -> usize {
    match taken {
        Taken::Words(more) => more,
        _ => 0,
    }
}

// Reads the words. Returns the wish with which they end before their last, if they do.
fn read_words<'a>(
    words: &'a Vec<String>,
    given: &mut Given<'a>,
) -> Result<Option<Wish<'a>>, NoMemory> {
    let mut passed = 0usize;
    for (place, word) in words.as_slice().iter().enumerate() {
        if 0 < passed {
            passed -= 1;
            continue;
        }
        let word = word.as_str();
        let taken = take_word(given, word, words.get(place + 1))?;
        if let Some(wish) = wish_at(word, taken) {
            return Ok(Some(wish));
        }
        passed = passed_after(taken);
    }
    Ok(None)
}

// The goal of these words.
fn goal_of<'a>(who: &'a str, file: &'a str, perm: &'a str) -> Result<Goal, WordFault<'a>> {
    let whom = Principal::new(who.as_bytes());
    match (whom, file_of(file), perm_of(perm)) {
        (Some(who), Some(file), Some(perm)) => Ok(Goal { who, file, perm }),
        (None, _, _) => Err(WordFault::Wrong(who, "a principal")),
        (_, None, _) => Err(WordFault::Wrong(file, "a node, as #1")),
        _ => Err(WordFault::Wrong(perm, "read, write, execute, identity or govern")),
    }
}

// The task for a goal from the statements in a file.
fn task_for<'a>(given: &Given<'a>, statements: &'a str, goal: Goal) -> Task<'a> {
    Task {
        statements,
        goal,
        at: given.at,
        until: given.until,
        any: given.any,
        facts: given.facts,
        known: given.known,
        steps: given.steps,
    }
}

// The task of these words.
fn task_of<'a>(given: &Given<'a>) -> Wish<'a> {
    match given.plain.as_slice() {
        [statements, who, file, perm] => match goal_of(who, file, perm) {
            Ok(goal) => Wish::Prove(task_for(given, statements, goal)),
            Err(fault) => Wish::Bad(fault),
        },
        _ => Wish::Bad(WordFault::Lacks("four words: STATEMENTS WHO FILE PERMISSION")),
    }
}

/// What the words ask for. They are without the program's name.
pub fn wish_of<'a>(alloc: Global, words: &'a Vec<String>) -> Result<Wish<'a>, NoMemory> {
    let mut given = Given::new(alloc);
    match read_words(words, &mut given) {
        Ok(Some(wish)) => Ok(wish),
        Ok(None) => Ok(task_of(&given)),
        Err(refused) => Err(refused),
    }
}
