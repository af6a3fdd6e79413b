//! The wallet: procaps that were won, and statements that do not stand any more.

use crate::passes::Pass;
use crate::words::{copied, is_word};
use bl_syntax::{Goal, NoMemory, NodeId, Numbers, Perm, Principal};
use client_replies::permission_name;
use client_words::{counting_number, statement_number};
use line_words::procap_of_hex;
use std::alloc::Global;

/// How long a procap that ended stays in the wallet, in seconds.
const DAY: i64 = 86_400;

/// A statement that does not stand any more at a server.
#[derive(Drop)]
pub struct Gone {
    pub server: String,
    pub number: u32,
}

/// The procaps that were won, and the statements that do not stand any more.
#[derive(Drop)]
pub struct Wallet {
    pub passes: Vec<Pass>,
    pub gone: Vec<Gone>,
}

fn permission_named(word: &str) -> Option<Perm> {
    for permission in [
        Perm::Read,
        Perm::Write,
        Perm::Execute,
        Perm::Identity,
        Perm::Govern,
    ] {
        if word == permission_name(permission) {
            return Some(permission);
        }
    }
    None
}

// The numbers with commas between them; none for `-`.
fn numbers_of(alloc: Global, word: &str) -> Result<Option<Numbers>, NoMemory> {
    let mut numbers = Numbers::new(alloc);
    if word == "-" {
        return Ok(Some(numbers));
    }
    for digits in word.split(',') {
        match statement_number(digits.as_bytes()) {
            Some(number) => numbers.push(number)?,
            None => return Ok(None),
        }
    }
    Ok(Some(numbers))
}

fn goal_of(who: &str, permission: &str, node: &str) -> Option<Goal> {
    let who = Principal::new(who.as_bytes())?;
    let perm = permission_named(permission)?;
    let file = NodeId(counting_number(node.strip_prefix('#')?.as_bytes())?);
    Some(Goal { who, file, perm })
}

// The procap of a line, after its first word.
fn pass_in(alloc: Global, rest: &str) -> Result<Option<Pass>, NoMemory> {
    let words: Vec<&str> = rest.split(' ').collect(alloc)?;
    let (server, who, permission, node, numbers, path, word) = match words.as_slice() {
        [server, who, permission, node, numbers, path, word] => {
            (*server, *who, *permission, *node, *numbers, *path, *word)
        }
        _ => return Ok(None),
    };
    let goal = match goal_of(who, permission, node) {
        Some(goal) => goal,
        None => return Ok(None),
    };
    let numbers = match numbers_of(alloc, numbers)? {
        Some(numbers) => numbers,
        None => return Ok(None),
    };
    let procap = match procap_of_hex(alloc, word.as_bytes())? {
        Some(procap) => procap,
        None => return Ok(None),
    };
    if !is_word(server) || !is_word(path) {
        return Ok(None);
    }
    Ok(Some(Pass {
        server: copied(alloc, server)?,
        goal,
        numbers,
        path: copied(alloc, path)?,
        word: copied(alloc, word)?,
        procap,
    }))
}

fn gone_in(alloc: Global, rest: &str) -> Result<Option<Gone>, NoMemory> {
    match rest.split_once(' ') {
        Some((server, digits)) => match statement_number(digits.as_bytes()) {
            Some(number) if is_word(server) => Ok(Some(Gone {
                server: copied(alloc, server)?,
                number,
            })),
            _ => Ok(None),
        },
        None => Ok(None),
    }
}

// Takes a line into the wallet; false if it is none.
fn take_line(alloc: Global, wallet: &mut Wallet, line: &str) -> Result<bool, NoMemory> {
    match line.strip_prefix("procap ") {
        Some(rest) => match pass_in(alloc, rest)? {
            Some(pass) => {
                wallet.passes.push(pass)?;
                return Ok(true);
            }
            None => return Ok(false),
        },
        None => {}
    }
    match line.strip_prefix("gone ") {
        Some(rest) => match gone_in(alloc, rest)? {
            Some(gone) => {
                wallet.gone.push(gone)?;
                Ok(true)
            }
            None => Ok(false),
        },
        None => Ok(false),
    }
}

/// The wallet of a text; or the number of its first line that is none.
pub fn read_wallet(alloc: Global, text: &str) -> Result<Result<Wallet, usize>, NoMemory> {
    let mut wallet = Wallet::new(alloc);
    let mut place = 0usize;
    for line in text.lines() {
        place = place.saturating_add(1);
        if !take_line(alloc, &mut wallet, line)? {
            return Ok(Err(place));
        }
    }
    Ok(Ok(wallet))
}

fn put_numbers(text: &mut String, numbers: &[u32]) -> Result<(), NoMemory> {
    if numbers.is_empty() {
        text.push('-')?;
    }
    let mut between = "";
    for number in numbers {
        let number = *number;
        write!(text, "{between}{number}")?;
        between = ",";
    }
    Ok(())
}

fn put_pass(text: &mut String, pass: &Pass) -> Result<(), NoMemory> {
    let server = pass.server.as_str();
    let node = pass.goal.file.0;
    let permission = permission_name(pass.goal.perm);
    let who = match std::str::from_utf8(pass.goal.who.bytes()) {
        Ok(who) => who,
        Err(_) => "",
    };
    write!(text, "procap {server} {who} {permission} #{node} ")?;
    put_numbers(text, pass.numbers.as_slice())?;
    let path = pass.path.as_str();
    let word = pass.word.as_str();
    write!(text, " {path} {word}")?;
    text.push('\n')?;
    Ok(())
}

impl Wallet {
    /// The empty wallet. It takes no memory.
    pub fn new(alloc: Global) -> Wallet {
        Wallet {
            passes: Vec::new(alloc),
            gone: Vec::new(alloc),
        }
    }

    /// The text of the wallet, without procaps that ended more than a day before this second.
    pub fn text(&self, alloc: Global, now: i64) -> Result<String, NoMemory> {
        let mut text = String::new(alloc);
        for gone in &self.gone {
            let server = gone.server.as_str();
            let number = gone.number;
            write!(text, "gone {server} {number}")?;
            text.push('\n')?;
        }
        for pass in &self.passes {
            if !pass.is_ended(now.saturating_sub(DAY)) {
                put_pass(&mut text, pass)?;
            }
        }
        Ok(text)
    }

    /// Adds a procap, if it is not there.
    pub fn add(&mut self, alloc: Global, pass: &Pass) -> Result<(), NoMemory> {
        for one in &self.passes {
            if one.word.as_str() == pass.word.as_str()
                && one.server.as_str() == pass.server.as_str()
            {
                return Ok(());
            }
        }
        self.passes.push(pass.copy(alloc)?)?;
        Ok(())
    }

    /// Takes the procap of this word out.
    pub fn remove(&mut self, word: &str) {
        match self.passes.iter().position(|one| one.word.as_str() == word) {
            Some(place) => {
                let _ = self.passes.remove(place);
            }
            None => {}
        }
    }

    /// Whether the statement of this number does not stand any more at this server.
    pub fn is_gone(&self, server: &str, number: u32) -> bool {
        self.gone.iter().any(|one| one.number == number && one.server.as_str() == server)
    }

    /// Notes that the statement of this number does not stand any more at this server.
    pub fn note_gone(&mut self, alloc: Global, server: &str, number: u32) -> Result<(), NoMemory> {
        if self.is_gone(server, number) {
            return Ok(());
        }
        self.gone.push(Gone {
            server: copied(alloc, server)?,
            number,
        })?;
        Ok(())
    }

    /// The statements that do not stand any more, without those of this server.
    pub fn forget_server(&mut self, server: &str) {
        self.gone.retain(|one| !(one.server.as_str() == server));
    }

    /// The same, without those of this number.
    pub fn forget_number(&mut self, number: u32) {
        self.gone.retain(|one| !(one.number == number));
    }
}
