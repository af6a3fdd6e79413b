//! What the words of a command line ask for.

use bl_syntax::Perm;
use client_words::Timeout;

/// The options that each command takes.
#[derive(Drop)]
pub struct Options {
    pub server: Option<String>,
    pub key: Option<String>,
    pub home: Option<String>,
    pub timeout: Timeout,
}

/// What is to be signed for others to bring.
#[derive(Drop)]
pub enum Signing {
    /// This statement.
    Statement(String),
    /// The withdrawal of the statement of this number and text.
    Withdrawal(u32, String),
    /// A login by this name under this nonce, in hexadecimal.
    Login(String, String),
}

/// A command.
#[derive(Drop)]
pub enum Command {
    Login {
        name: String,
        statements: Option<String>,
    },
    Ls {
        paths: Vec<String>,
        long: bool,
        all: bool,
    },
    Cat {
        paths: Vec<String>,
    },
    Get {
        path: String,
        file: Option<String>,
    },
    Put {
        file: String,
        path: Option<String>,
        attributes: Vec<String>,
        in_place: bool,
    },
    Mkdir {
        paths: Vec<String>,
    },
    Mv {
        path: String,
        new: String,
    },
    Rm {
        paths: Vec<String>,
    },
    Stat {
        paths: Vec<String>,
    },
    Attr {
        path: String,
        name: String,
        value: Option<String>,
        delete: bool,
    },
    Chown {
        principal: String,
        path: String,
    },
    Register {
        text: Option<String>,
        file: Option<String>,
        signer: Option<String>,
    },
    Withdraw {
        number: u32,
        text: Option<String>,
        signer: Option<String>,
    },
    Statements {
        file: Option<String>,
        dropped: Vec<u32>,
    },
    Prove {
        permission: Perm,
        path: String,
        at: Option<String>,
        until: Option<String>,
        line: Option<String>,
    },
    Procaps {
        clear: bool,
    },
    Sign {
        what: Signing,
    },
    Show {
        procap: String,
        secrets: Option<String>,
    },
}

/// What is asked for.
#[derive(Drop)]
pub enum Asked {
    /// A command with its options.
    Run(Options, Command),
    /// This text, of `--help` or `--version`.
    Text(String),
    /// Nothing: the words are wrong, as this says.
    Wrong(String),
}
