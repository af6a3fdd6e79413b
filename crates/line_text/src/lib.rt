//! The lines of a text, the words of a line, words of hexadecimal, and the greeting of a session.
//!
//! A text falls into its lines, and a line into its first word and what stands after it, in one way. A word of
//! hexadecimal is read exactly if it is the one that is written for some bytes, and gives these bytes.
#![tactic(auto)]

mod greeting;
mod hex_word;
mod lines;
mod words;

pub use greeting::greeting_line;
pub use hex_word::{read_hex, write_hex};
pub use lines::first_line;
pub use words::{rest_after, split_word, word_before};
