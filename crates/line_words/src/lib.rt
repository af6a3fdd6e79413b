//! The words of a line, with their places, and what a word of each kind writes.
//!
//! A line falls into words in one way. A word of a kind is read exactly if it is in the grammar of the kind, and gives
//! the one value that it writes; of a row of words the first that is not of its kind is reported with its place.
#![tactic(auto)]

mod arguments;
mod cited;
mod cutting;
mod fault;
mod kinds;
pub mod laws;
mod named;
pub mod numerals;
mod procap_word;
mod reading;

pub use arguments::Arguments;
pub use cutting::first_word;
pub use fault::WordFault;
pub use kinds::WordKind;
pub use named::{principal, signature_hex};
pub use procap_word::{ProcapWord, ProcapWords, procap_of_hex};
pub use reading::{after_words, read_words};
