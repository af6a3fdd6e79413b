//! What the words ask for.

use crate::fault_words::fault_words;
use crate::given::{Asked, Command, Options, Signing};
use crate::grammar::commands;
use bl_syntax::byte_classes::is_digit;
use bl_syntax::{NoMemory, Perm, Principal};
use clap::ArgMatches;
use clap::error::ErrorKind;
use client_words::{Timeout, put_quoted, statement_number};
use std::alloc::{AllocError, AllocFailed, Global};

/// How many bytes a nonce has in hexadecimal.
const NONCE_DIGITS: usize = 32;

/// Why there is no command.
#[derive(Drop)]
enum Fault {
    Wrong(String),
    NoMemory,
}

impl From<AllocError> for Fault {
    fn from(_refused: AllocError) -> Fault {
        Fault::NoMemory
    }
}

impl From<NoMemory> for Fault {
    fn from(_refused: NoMemory) -> Fault {
        Fault::NoMemory
    }
}

impl<T: Drop> From<AllocFailed<T>> for Fault {
    fn from(_refused: AllocFailed<T>) -> Fault {
        Fault::NoMemory
    }
}

fn wrong(alloc: Global, words: &str) -> Fault {
    match String::from_str(alloc, words) {
        Ok(words) => Fault::Wrong(words),
        Err(_) => Fault::NoMemory,
    }
}

fn wrong_word(alloc: Global, before: &str, word: &str, after: &str) -> Fault {
    match wrong_word_text(alloc, before, word, after) {
        Ok(words) => Fault::Wrong(words),
        Err(_) => Fault::NoMemory,
    }
}

fn wrong_word_text(
    alloc: Global,
    before: &str,
    word: &str,
    after: &str,
) -> Result<String, AllocError> {
    let mut text = String::from_str(alloc, before)?;
    put_quoted(&mut text, word)?;
    text.push_str(after)?;
    Ok(text)
}

fn text_given(alloc: Global, given: &ArgMatches<'_>, name: &str) -> Result<String, Fault> {
    let word = match given.get_str(name) {
        Some(word) => word,
        None => "",
    };
    Ok(String::from_str(alloc, word)?)
}

fn may_be_given(
    alloc: Global,
    given: &ArgMatches<'_>,
    name: &str,
) -> Result<Option<String>, Fault> {
    match given.get_str(name) {
        Some(word) => Ok(Some(String::from_str(alloc, word)?)),
        None => Ok(None),
    }
}

fn texts_given(alloc: Global, given: &ArgMatches<'_>, name: &str) -> Result<Vec<String>, Fault> {
    let mut texts = Vec::new(alloc);
    match given.get_strs(name) {
        Some(words) => {
            for word in words {
                texts.push(String::from_str(alloc, word)?)?;
            }
        }
        None => {}
    }
    Ok(texts)
}

// The number of a statement that is given.
fn number_given(alloc: Global, word: &str) -> Result<u32, Fault> {
    match statement_number(word.as_bytes()) {
        Some(number) => Ok(number),
        None => Err(wrong_word(alloc, "", word, " is no number of a statement")),
    }
}

fn permission_named(word: &str) -> Perm {
    if word == "read" {
        Perm::Read
    } else if word == "write" {
        Perm::Write
    } else if word == "execute" {
        Perm::Execute
    } else if word == "identity" {
        Perm::Identity
    } else {
        Perm::Govern
    }
}

fn put_command(alloc: Global, given: &ArgMatches<'_>) -> Result<Command, Fault> {
    Ok(Command::Put {
        file: text_given(alloc, given, "FILE")?,
        path: may_be_given(alloc, given, "PATH")?,
        attributes: texts_given(alloc, given, "attr")?,
        in_place: given.get_flag("in-place"),
    })
}

fn attr_command(alloc: Global, given: &ArgMatches<'_>) -> Result<Command, Fault> {
    let value = may_be_given(alloc, given, "VALUE")?;
    let delete = given.get_flag("delete");
    if delete && value.is_some() {
        return Err(wrong(alloc, "attr: --delete takes no value"));
    }
    Ok(Command::Attr {
        path: text_given(alloc, given, "PATH")?,
        name: text_given(alloc, given, "NAME")?,
        value,
        delete,
    })
}

fn file_command(
    alloc: Global,
    name: &str,
    given: &ArgMatches<'_>,
) -> Result<Option<Command>, Fault> {
    if name == "ls" {
        return Ok(Some(Command::Ls {
            paths: texts_given(alloc, given, "PATH")?,
            long: given.get_flag("long"),
            all: given.get_flag("all"),
        }));
    }
    if name == "cat" {
        return Ok(Some(Command::Cat {
            paths: texts_given(alloc, given, "PATH")?,
        }));
    }
    if name == "get" {
        return Ok(Some(Command::Get {
            path: text_given(alloc, given, "PATH")?,
            file: may_be_given(alloc, given, "FILE")?,
        }));
    }
    if name == "put" {
        return Ok(Some(put_command(alloc, given)?));
    }
    if name == "mkdir" {
        return Ok(Some(Command::Mkdir {
            paths: texts_given(alloc, given, "PATH")?,
        }));
    }
    Ok(None)
}

fn node_command(
    alloc: Global,
    name: &str,
    given: &ArgMatches<'_>,
) -> Result<Option<Command>, Fault> {
    if name == "mv" {
        return Ok(Some(Command::Mv {
            path: text_given(alloc, given, "PATH")?,
            new: text_given(alloc, given, "NEW")?,
        }));
    }
    if name == "rm" {
        return Ok(Some(Command::Rm {
            paths: texts_given(alloc, given, "PATH")?,
        }));
    }
    if name == "stat" {
        return Ok(Some(Command::Stat {
            paths: texts_given(alloc, given, "PATH")?,
        }));
    }
    if name == "attr" {
        return Ok(Some(attr_command(alloc, given)?));
    }
    if name == "chown" {
        return Ok(Some(Command::Chown {
            principal: text_given(alloc, given, "PRINCIPAL")?,
            path: text_given(alloc, given, "PATH")?,
        }));
    }
    Ok(None)
}

fn withdraw_command(alloc: Global, given: &ArgMatches<'_>) -> Result<Command, Fault> {
    let number = text_given(alloc, given, "NUMBER")?;
    Ok(Command::Withdraw {
        number: number_given(alloc, number.as_str())?,
        text: may_be_given(alloc, given, "STATEMENT")?,
        signer: may_be_given(alloc, given, "signer")?,
    })
}

fn statements_command(alloc: Global, given: &ArgMatches<'_>) -> Result<Command, Fault> {
    let mut dropped = Vec::new(alloc);
    let words = texts_given(alloc, given, "drop")?;
    for word in &words {
        dropped.push(number_given(alloc, word.as_str())?)?;
    }
    Ok(Command::Statements {
        file: may_be_given(alloc, given, "FILE")?,
        dropped,
    })
}

fn prove_command(alloc: Global, given: &ArgMatches<'_>) -> Result<Command, Fault> {
    let permission = text_given(alloc, given, "PERMISSION")?;
    Ok(Command::Prove {
        permission: permission_named(permission.as_str()),
        path: text_given(alloc, given, "PATH")?,
        at: may_be_given(alloc, given, "at")?,
        until: may_be_given(alloc, given, "until")?,
        line: may_be_given(alloc, given, "line")?,
    })
}

fn is_nonce(word: &str) -> bool {
    let bytes = word.as_bytes();
    bytes.len() == NONCE_DIGITS
        && bytes
            .iter()
            .all(|byte| is_digit(*byte) || b'a' <= *byte && *byte <= b'f')
}

fn copied(alloc: Global, word: &String) -> Result<String, Fault> {
    Ok(String::from_str(alloc, word.as_str())?)
}

// What is to be signed; none if these are not its words.
fn signing_of(alloc: Global, what: &str, words: &[String]) -> Result<Option<Signing>, Fault> {
    match words {
        [text] => {
            if what == "statement" {
                return Ok(Some(Signing::Statement(copied(alloc, text)?)));
            }
            Ok(None)
        }
        [first, second] => {
            if what == "withdrawal" {
                let number = number_given(alloc, first.as_str())?;
                return Ok(Some(Signing::Withdrawal(number, copied(alloc, second)?)));
            }
            let is_name = Principal::new(first.as_bytes()).is_some();
            if what == "login" && is_name && is_nonce(second.as_str()) {
                return Ok(Some(Signing::Login(copied(alloc, first)?, copied(alloc, second)?)));
            }
            Ok(None)
        }
        _ => Ok(None),
    }
}

fn sign_command(alloc: Global, given: &ArgMatches<'_>) -> Result<Command, Fault> {
    let what = text_given(alloc, given, "WHAT")?;
    let words = texts_given(alloc, given, "WORD")?;
    match signing_of(alloc, what.as_str(), words.as_slice())? {
        Some(what) => Ok(Command::Sign { what }),
        None => Err(wrong(
            alloc,
            "sign: wanted statement TEXT, withdrawal NUMBER TEXT, or login NAME NONCE",
        )),
    }
}

fn policy_command(
    alloc: Global,
    name: &str,
    given: &ArgMatches<'_>,
) -> Result<Option<Command>, Fault> {
    if name == "register" {
        return Ok(Some(Command::Register {
            text: may_be_given(alloc, given, "STATEMENT")?,
            file: may_be_given(alloc, given, "file")?,
            signer: may_be_given(alloc, given, "signer")?,
        }));
    }
    if name == "withdraw" {
        return Ok(Some(withdraw_command(alloc, given)?));
    }
    if name == "statements" {
        return Ok(Some(statements_command(alloc, given)?));
    }
    if name == "prove" {
        return Ok(Some(prove_command(alloc, given)?));
    }
    Ok(None)
}

fn other_command(alloc: Global, name: &str, given: &ArgMatches<'_>) -> Result<Command, Fault> {
    if name == "login" {
        return Ok(Command::Login {
            name: text_given(alloc, given, "NAME")?,
            statements: may_be_given(alloc, given, "statements")?,
        });
    }
    if name == "procaps" {
        return Ok(Command::Procaps {
            clear: given.get_flag("clear"),
        });
    }
    if name == "sign" {
        return sign_command(alloc, given);
    }
    Ok(Command::Show {
        procap: text_given(alloc, given, "HEX")?,
        secrets: may_be_given(alloc, given, "secrets")?,
    })
}

fn command_named(alloc: Global, name: &str, given: &ArgMatches<'_>) -> Result<Command, Fault> {
    match file_command(alloc, name, given)? {
        Some(command) => return Ok(command),
        None => {}
    }
    match node_command(alloc, name, given)? {
        Some(command) => return Ok(command),
        None => {}
    }
    match policy_command(alloc, name, given)? {
        Some(command) => Ok(command),
        None => other_command(alloc, name, given),
    }
}

fn timeout_given(alloc: Global, given: &ArgMatches<'_>) -> Result<Timeout, Fault> {
    let word = match given.get_str("timeout") {
        Some(word) => word,
        None => "30",
    };
    match Timeout::of(alloc, word)? {
        Some(timeout) => Ok(timeout),
        None => Err(wrong_word(
            alloc,
            "argument --timeout: invalid seconds value: ",
            word,
            "; see pcfs-client --help",
        )),
    }
}

fn options_given(alloc: Global, given: &ArgMatches<'_>) -> Result<Options, Fault> {
    Ok(Options {
        server: may_be_given(alloc, given, "server")?,
        key: may_be_given(alloc, given, "key")?,
        home: may_be_given(alloc, given, "home")?,
        timeout: timeout_given(alloc, given)?,
    })
}

fn run_of(alloc: Global, matches: &ArgMatches<'_>) -> Result<Asked, Fault> {
    match matches.subcommand() {
        Some((name, given)) => Ok(Asked::Run(
            options_given(alloc, given)?,
            command_named(alloc, name, given)?,
        )),
        None => Err(wrong(alloc, "the following arguments are required: COMMAND")),
    }
}

// What `clap` says of words that it does not take, or that ask for its texts.
fn clap_answer(alloc: Global, error: clap::Error) -> Result<Asked, NoMemory> {
    match error.kind() {
        ErrorKind::OutOfMemory => Err(NoMemory),
        ErrorKind::DisplayHelp | ErrorKind::DisplayVersion => {
            Ok(Asked::Text(error.to_string(alloc)?))
        }
        _ => Ok(Asked::Wrong(fault_words(alloc, &error)?)),
    }
}

/// What the words ask for. They are without the program's name.
pub fn asked_of(alloc: Global, words: &Vec<String>) -> Result<Asked, NoMemory> {
    let program = commands(alloc)?;
    match program.try_get_matches_from(words.as_slice()) {
        Ok(matches) => match run_of(alloc, &matches) {
            Ok(asked) => Ok(asked),
            Err(Fault::Wrong(words)) => Ok(Asked::Wrong(words)),
            Err(Fault::NoMemory) => Err(NoMemory),
        },
        Err(error) => clap_answer(alloc, error),
    }
}
