//! The commands and their words, for `clap`.

use clap::{Arg, ArgAction, Command};
use std::alloc::{AllocError, Global};

const ABOUT: &str =
    "Files on a PCFS server, by their paths. Paths begin with / or with a node, as /notes/today or #7/today.";

const ENDING: &str = "Begin with: pcfs-client login NAME --key FILE --statements FILE
Status: 0 done; 1 no right to it; 2 refused as things are (no such file, it exists, ..); 3 wrong words; 4 a file of this machine
cannot be used; 5 a line of a file is wrong; 6 the output failed; 7 no server, or none that speaks as PCFS; 8 no login;
9 the server is full or fails; 130 interrupted. The manual page has more: man pcfs-client";

/// The permissions, by their names.
const PERMISSIONS: [&str; 5] = ["read", "write", "execute", "identity", "govern"];

const SIGNED: [&str; 3] = ["statement", "withdrawal", "login"];

// A word that has to stand there.
fn word<'a>(alloc: Global, name: &'a str, help: &'a str) -> Arg<'a> {
    Arg::new(alloc, name)
        .value_name(name)
        .help(help)
        .action(ArgAction::Set)
        .required(true)
}

// A word that may stand there.
fn may_follow<'a>(alloc: Global, name: &'a str, help: &'a str) -> Arg<'a> {
    Arg::new(alloc, name)
        .value_name(name)
        .help(help)
        .action(ArgAction::Set)
}

// Words, at least one.
fn some_words<'a>(alloc: Global, name: &'a str, help: &'a str) -> Arg<'a> {
    Arg::new(alloc, name)
        .value_name(name)
        .help(help)
        .action(ArgAction::Append)
        .num_args(1..)
        .required(true)
}

// `--NAME` with a value.
fn option<'a>(alloc: Global, name: &'a str, value: &'a str, help: &'a str) -> Arg<'a> {
    Arg::new(alloc, name)
        .long(name)
        .value_name(value)
        .help(help)
        .action(ArgAction::Set)
}

// `--NAME`, or `-N`.
fn flag<'a>(alloc: Global, name: &'a str, short: char, help: &'a str) -> Arg<'a> {
    Arg::new(alloc, name)
        .long(name)
        .short(short)
        .help(help)
        .action(ArgAction::SetTrue)
}

fn long_flag<'a>(alloc: Global, name: &'a str, help: &'a str) -> Arg<'a> {
    Arg::new(alloc, name)
        .long(name)
        .help(help)
        .action(ArgAction::SetTrue)
}

fn login<'a>(alloc: Global) -> Result<Command<'a>, AllocError> {
    Command::new(alloc, "login")
        .about("tries a login, and keeps who you are, the key's file and your list of statements")
        .arg(word(alloc, "NAME", "who you are"))?
        .arg(option(
            alloc,
            "statements",
            "FILE",
            "lines N STATEMENT with the server's numbers, or signed lines register ..",
        ))
}

fn ls<'a>(alloc: Global) -> Result<Command<'a>, AllocError> {
    let paths = Arg::new(alloc, "PATH")
        .value_name("PATH")
        .action(ArgAction::Append)
        .num_args(0..);
    Command::new(alloc, "ls")
        .about("lists directories")
        .arg(paths)?
        .arg(flag(alloc, "long", 'l', "with the numbers of the nodes"))?
        .arg(flag(alloc, "all", 'a', "names that begin with . too"))
}

fn cat<'a>(alloc: Global) -> Result<Command<'a>, AllocError> {
    Command::new(alloc, "cat")
        .about("writes files to the output")
        .arg(some_words(alloc, "PATH", "files of the server"))
}

fn get<'a>(alloc: Global) -> Result<Command<'a>, AllocError> {
    Command::new(alloc, "get")
        .about("copies a file of the server to this machine")
        .arg(word(alloc, "PATH", "the file of the server"))?
        .arg(may_follow(
            alloc,
            "FILE",
            "by default of the same name, here; - is the output",
        ))
}

fn put<'a>(alloc: Global) -> Result<Command<'a>, AllocError> {
    let attributes = option(
        alloc,
        "attr",
        "NAME=VALUE",
        "an attribute that the new file has before it takes the name",
    );
    Command::new(alloc, "put")
        .about("copies a file of this machine to the server: a new file, which then takes the name")
        .arg(word(alloc, "FILE", "- is the input"))?
        .arg(may_follow(
            alloc,
            "PATH",
            "by default of the same name, in /; with / at its end it is a directory",
        ))?
        .arg(attributes.action(ArgAction::Append))?
        .arg(long_flag(
            alloc,
            "in-place",
            "writes over the file that is there, which keeps node, owner and attributes",
        ))
}

fn mkdir<'a>(alloc: Global) -> Result<Command<'a>, AllocError> {
    Command::new(alloc, "mkdir")
        .about("makes directories")
        .arg(some_words(alloc, "PATH", "the new directories"))
}

fn mv<'a>(alloc: Global) -> Result<Command<'a>, AllocError> {
    Command::new(alloc, "mv")
        .about("moves or renames a file or directory")
        .arg(word(alloc, "PATH", "what is moved"))?
        .arg(word(
            alloc,
            "NEW",
            "with / at its end the directory to move it into",
        ))
}

fn rm<'a>(alloc: Global) -> Result<Command<'a>, AllocError> {
    Command::new(alloc, "rm")
        .about("removes files, and directories without names")
        .arg(some_words(alloc, "PATH", "what is removed"))
}

fn stat<'a>(alloc: Global) -> Result<Command<'a>, AllocError> {
    Command::new(alloc, "stat")
        .about("tells node, kind and size, and what you may do")
        .arg(some_words(alloc, "PATH", "files or directories"))
}

fn attr<'a>(alloc: Global) -> Result<Command<'a>, AllocError> {
    Command::new(alloc, "attr")
        .about("shows, sets or removes an attribute")
        .arg(word(alloc, "PATH", "the file or directory"))?
        .arg(word(alloc, "NAME", "the attribute"))?
        .arg(may_follow(alloc, "VALUE", "what it is set to"))?
        .arg(flag(alloc, "delete", 'd', "removes it"))
}

fn chown<'a>(alloc: Global) -> Result<Command<'a>, AllocError> {
    Command::new(alloc, "chown")
        .about("gives a file or directory to another owner")
        .arg(word(alloc, "PRINCIPAL", "the new owner"))?
        .arg(word(alloc, "PATH", "the file or directory"))
}

fn register<'a>(alloc: Global) -> Result<Command<'a>, AllocError> {
    let text = may_follow(alloc, "STATEMENT", "what is said")
        .required_unless_present("file")?
        .conflicts_with("file")?;
    Command::new(alloc, "register")
        .about("signs a statement and registers it, or brings lines that others signed")
        .arg(text)?
        .arg(option(
            alloc,
            "file",
            "FILE",
            "statements, or lines register SIGNATURE STATEMENT; - is the input",
        ))?
        .arg(signer(alloc))
}

fn signer<'a>(alloc: Global) -> Arg<'a> {
    option(
        alloc,
        "signer",
        "FILE",
        "the file with the key of who says it, if that is not you",
    )
}

fn withdraw<'a>(alloc: Global) -> Result<Command<'a>, AllocError> {
    Command::new(alloc, "withdraw")
        .about("takes a statement back that you said")
        .arg(word(alloc, "NUMBER", "its number at the server"))?
        .arg(may_follow(alloc, "STATEMENT", "its text, if it is not in your list"))?
        .arg(signer(alloc))
}

fn statements<'a>(alloc: Global) -> Result<Command<'a>, AllocError> {
    let dropped = option(alloc, "drop", "N", "takes these out of the list");
    Command::new(alloc, "statements")
        .about("shows your list of statements, or takes in more")
        .arg(may_follow(
            alloc,
            "FILE",
            "lines N STATEMENT, with the server's numbers",
        ))?
        .arg(dropped.action(ArgAction::Append).num_args(1..))
}

fn prove<'a>(alloc: Global) -> Result<Command<'a>, AllocError> {
    let permission = word(alloc, "PERMISSION", "the permission").value_parser(
        PERMISSIONS.as_slice(),
    );
    let at = option(
        alloc,
        "at",
        "T",
        "it has to hold at this second or date; else now",
    );
    let until = option(alloc, "until", "T", "and on to this one");
    Command::new(alloc, "prove")
        .about("wins a procap by a proof from your statements")
        .arg(permission)?
        .arg(word(alloc, "PATH", "the file or directory"))?
        .arg(at.allow_negative_numbers(true))?
        .arg(until.allow_negative_numbers(true))?
        .arg(option(
            alloc,
            "line",
            "LINE",
            "the line verify .. of a proof that you have, and no prover is asked",
        ))
}

fn procaps<'a>(alloc: Global) -> Result<Command<'a>, AllocError> {
    Command::new(alloc, "procaps")
        .about("shows the procaps that you have, and until when")
        .arg(long_flag(alloc, "clear", "throws all of them away"))
}

fn sign<'a>(alloc: Global) -> Result<Command<'a>, AllocError> {
    let what = word(alloc, "WHAT", "what is signed").value_parser(SIGNED.as_slice());
    Command::new(alloc, "sign")
        .about(
            "prints a signed line for others to bring: statement TEXT, withdrawal NUMBER TEXT, login NAME NONCE",
        )
        .arg(what)?
        .arg(some_words(alloc, "WORD", "its words"))
}

fn show<'a>(alloc: Global) -> Result<Command<'a>, AllocError> {
    Command::new(alloc, "show")
        .about("prints what the bytes of a procap grant")
        .arg(word(alloc, "HEX", "the bytes, in hexadecimal"))?
        .arg(option(
            alloc,
            "secrets",
            "FILE",
            "tests the seal by the server's secrets file",
        ))
}

// The program with the options that each command takes, before or after its name.
fn program<'a>(alloc: Global) -> Result<Command<'a>, AllocError> {
    let server = option(
        alloc,
        "server",
        "HOST:PORT",
        "another server than that of the login (without one: 127.0.0.1:4040)",
    );
    let key = option(
        alloc,
        "key",
        "FILE",
        "the file with your key, which nobody else may read",
    );
    let home = option(
        alloc,
        "home",
        "DIR",
        "the folder of the login, the statements and the procaps",
    );
    let timeout = option(
        alloc,
        "timeout",
        "SECONDS",
        "how long a reply may take; else 30",
    );
    Command::new(alloc, "pcfs-client")
        .about(ABOUT)
        .after_help(ENDING)
        .version("0.2")
        .subcommand_value_name("COMMAND")
        .disable_help_subcommand(true)
        .subcommand_required(true)
        .no_binary_name(true)
        .arg(server.global(true))?
        .arg(key.global(true))?
        .arg(home.global(true))?
        .arg(timeout.global(true))
}

fn with_files<'a>(alloc: Global, before: Command<'a>) -> Result<Command<'a>, AllocError> {
    before
        .subcommand(ls(alloc)?)?
        .subcommand(cat(alloc)?)?
        .subcommand(get(alloc)?)?
        .subcommand(put(alloc)?)?
        .subcommand(mkdir(alloc)?)?
        .subcommand(mv(alloc)?)?
        .subcommand(rm(alloc)?)?
        .subcommand(stat(alloc)?)?
        .subcommand(attr(alloc)?)?
        .subcommand(chown(alloc)?)
}

fn with_policies<'a>(alloc: Global, before: Command<'a>) -> Result<Command<'a>, AllocError> {
    before
        .subcommand(register(alloc)?)?
        .subcommand(withdraw(alloc)?)?
        .subcommand(statements(alloc)?)?
        .subcommand(prove(alloc)?)?
        .subcommand(procaps(alloc)?)?
        .subcommand(sign(alloc)?)?
        .subcommand(show(alloc)?)
}

/// The program with its commands.
pub fn commands<'a>(alloc: Global) -> Result<Command<'a>, AllocError> {
    let first = program(alloc)?.subcommand(login(alloc)?)?;
    let files = with_files(alloc, first)?;
    with_policies(alloc, files)
}
