//! What a user keeps: who logs in where, the list of statements, and the wallet of procaps, each as the text of a file.
#![tactic(auto)]

mod key_file;
mod login;
mod passes;
mod statements;
mod unfinished;
mod wallet;
mod words;

pub use key_file::key_in;
pub use login::{Login, login_text, read_login};
pub use passes::Pass;
pub use statements::{
    Numbered, Statements, put_all, read_statements, signed_text, statements_text, without,
};
pub use unfinished::{Unfinished, read_unfinished};
pub use wallet::{Gone, Wallet, read_wallet};
