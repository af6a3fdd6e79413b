//! The calls of a command's ports that fail.

use crate::case::RowFault;
use bl_syntax::Numbers;
use std::alloc::Global;

/// For the listener, the nonces, both disks and the command's own output, the numbers of their calls that fail. They count from 0.
#[derive(Drop)]
pub struct Plans {
    pub net: Numbers,
    pub nonces: Numbers,
    pub a: Numbers,
    pub b: Numbers,
    pub output: Numbers,
}

// Sets the numbers to those of the words.
fn set_numbers(words: &str, numbers: &mut Numbers) -> Result<(), RowFault> {
    numbers.clear();
    for word in words.split(' ') {
        match word.parse::<u32>() {
            Ok(number) => numbers.push(number)?,
            Err(_) => return Err(RowFault::BadRow),
        }
    }
    Ok(())
}

impl Plans {
    /// No call fails.
    pub fn new(alloc: Global) -> Plans {
        Plans {
            net: Numbers::new(alloc),
            nonces: Numbers::new(alloc),
            a: Numbers::new(alloc),
            b: Numbers::new(alloc),
            output: Numbers::new(alloc),
        }
    }

    /// Sets which calls of a port fail: its name, and numbers.
    pub fn set(&mut self, text: &str) -> Result<(), RowFault> {
        let (port, words) = text.split_once(' ').ok_or(RowFault::BadRow)?;
        match port {
            "net" => set_numbers(words, &mut self.net),
            "nonces" => set_numbers(words, &mut self.nonces),
            "a" => set_numbers(words, &mut self.a),
            "b" => set_numbers(words, &mut self.b),
            "output" => set_numbers(words, &mut self.output),
            _ => Err(RowFault::BadRow),
        }
    }
}
