//! The command of a case: its words, and how it has to end.

use crate::case::RowFault;
use bl_syntax::Bytes;
use bl_syntax::decimal::put_counted;
use std::alloc::Global;

/// Adds the words of a text.
pub fn add_words(alloc: Global, text: &str, words: &mut Vec<String>) -> Result<(), RowFault> {
    for word in text.split(' ') {
        words.push(word.to_string(alloc)?)?;
    }
    Ok(())
}

/// What rows say of the command.
#[derive(Drop)]
pub struct Command {
    words: Vec<String>,
    status: u8,
    told: Bytes,
}

impl Command {
    /// No row says anything of it.
    pub fn new(alloc: Global) -> Command {
        Command {
            words: Vec::new(alloc),
            status: 0,
            told: Bytes::new(alloc),
        }
    }

    /// Adds its words.
    pub fn add_words(&mut self, alloc: Global, words: &str) -> Result<(), RowFault> {
        add_words(alloc, words, &mut self.words)
    }

    /// Sets the status that it has to end with.
    pub fn set_status(&mut self, number: &str) -> Result<(), RowFault> {
        match number.parse::<u8>() {
            Ok(status) => {
                self.status = status;
                Ok(())
            }
            Err(_) => Err(RowFault::BadRow),
        }
    }

    /// Adds a line that it has to write.
    pub fn add_told(&mut self, line: &str) -> Result<(), RowFault> {
        self.told.extend(line.as_bytes())?;
        self.told.push(b'\n')?;
        Ok(())
    }

    // If no row says its words, it serves so many connections.
    fn add_serving(&mut self, alloc: Global, count: u64) -> Result<(), RowFault> {
        if !self.words.is_empty() {
            return Ok(());
        }
        let words = format!(in alloc; "serve 4040 {count}")?;
        self.add_words(alloc, words.as_str())
    }

    // If no row says what it has to write, that is how many were served, at status 0.
    fn add_served(&mut self, count: u64) -> Result<(), RowFault> {
        if self.status != 0 || !self.told.as_slice().is_empty() {
            return Ok(());
        }
        put_counted(&mut self.told, "served ", count)?;
        self.told.push(b'\n')?;
        Ok(())
    }

    /// Adds what no row says: with so many connections, that these are served.
    pub fn complete(&mut self, alloc: Global, count: u64) -> Result<(), RowFault> {
        self.add_serving(alloc, count)?;
        self.add_served(count)
    }

    /// Its words.
    pub fn words(&self) -> &Vec<String> {
        &self.words
    }

    /// Whether it has to end so.
    pub fn ends_with(&self, status: u8, told: &[u8]) -> bool {
        self.status == status && self.told.as_slice() == told
    }
}
