//! The tokens of texts of the authorization logic, and texts of points in time.
//!
//! A token takes as many bytes as it can. What is no token is a bad one at its first byte.
#![tactic(auto)]

mod classes;
mod dates;
mod faults;
mod numerals;
mod times;
mod tokens;
mod words;

pub use classes::{Class, run_len};
pub use faults::TextFault;
pub use numerals::smallest_numeral;
pub use times::parse_time;
pub use tokens::{
    Cursor, Keyword, Lexeme, Sign, Token, cursor_after, cursor_after_node, digits_of, is_sign,
    is_word, token_from,
};
