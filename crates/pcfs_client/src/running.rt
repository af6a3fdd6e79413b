//! A command, from its words to its end.

use crate::describing::name_text;
use crate::dialing::{TcpDialer, address_of};
use crate::files::{Shown, cat, get, ls, put_file};
use crate::nodes::{attr, chown, mkdir, mv, principal_of, rm, stat};
use crate::others::{show, sign};
use crate::policies::{Proving, bring_signed, procaps, prove, register, statements, withdraw};
use crate::user::User;
use bl_syntax::Principal;
use client_commands::{Command, Options};
use client_folder::home::{Home, read_key, statements_in, unfinished_in};
use client_folder::messages::{ended, joined, put_line};
use client_home::{Login, Statements, Unfinished, signed_text};
use client_session::Session;
use client_tree::{Client, Spot, unlink};
use client_words::{BAD_LINE, BAD_WORDS, Place, Stop};
use std::fs;
use std::time::Duration;

/// The server, if none is named.
const DEFAULT_SERVER: &str = "127.0.0.1:4040";

fn text<'b>(word: &'b Option<String>) -> Option<&'b str> {
    match word {
        Some(word) => Some(word.as_str()),
        None => None,
    }
}

fn session_at<'a>(
    rt: &'a HostRuntime,
    options: &Options,
    server: &str,
    name: Principal,
    key: &str,
    is_watched: bool,
) -> Result<Session<TcpDialer<'a>>, Stop> {
    let alloc = rt.alloc();
    let (host, port) = match address_of(server) {
        Some(parts) => parts,
        None => return Err(ended(
            alloc,
            BAD_WORDS,
            &[server, " is no HOST:PORT, as 127.0.0.1:4040"],
        )),
    };
    let key = read_key(rt, key, name_text(&name))?;
    let dialer = TcpDialer {
        rt,
        host: joined(alloc, &[host])?,
        port,
        timeout: Duration::from_millis(options.timeout.milliseconds),
        is_watched,
    };
    Ok(Session::new(
        alloc,
        dialer,
        joined(alloc, &[server])?,
        name,
        key,
        joined(alloc, &[options.timeout.shown.as_str()])?,
    ))
}

// The server of the login before; and the file with its key, if it is this user's.
fn kept_parts<'b>(
    before: &'b Option<Login>,
    who: &Principal,
) -> (Option<&'b str>, Option<&'b str>) {
    match before {
        Some(login) => {
            let key = if login.name.is_same(who) {
                Some(login.key.as_str())
            } else {
                None
            };
            (Some(login.server.as_str()), key)
        }
        None => (None, None),
    }
}

// Takes a list of statements into the user's own, and brings its signed lines.
fn take_in<'a>(
    rt: &HostRuntime,
    home: &Home,
    session: &mut Session<TcpDialer<'a>>,
    given: &Statements,
) -> Result<(), Stop> {
    home.add_statements(rt, given.numbered.as_slice(), &[])?;
    for line in &given.signed {
        let said = match signed_text(line.as_str()) {
            Some(said) => said,
            None => "",
        };
        let _ = bring_signed(rt, home, session, line.as_str(), said)?;
    }
    Ok(())
}

// Tries a login, keeps it, and takes a list of statements in.
fn begin_login(
    rt: &HostRuntime,
    home: &Home,
    session: &mut Session<TcpDialer<'_>>,
    name: &str,
    key: &str,
    given: &Option<Statements>,
) -> Result<(), Stop> {
    session.begin()?;
    home.keep_login(rt, session.server(), name, key)?;
    home.forget_gone(rt, session.server())?;
    match given {
        Some(given) => take_in(rt, home, session, given),
        None => Ok(()),
    }
}

fn put_login(rt: &HostRuntime, name: &str, server: &str, count: usize) -> Result<(), Stop> {
    let alloc = rt.alloc();
    let plural = if count == 1 { "" } else { "s" };
    let words = format!(in alloc;
        "{name} can log in at {server}, and has {count} statement{plural}"
    )?;
    put_line(rt, words.as_str())
}

// The login before. A file of it that this client did not write counts as none: it is written anew.
fn former_login(rt: &HostRuntime, home: &Home) -> Result<Option<Login>, Stop> {
    match home.kept_login(rt) {
        Ok(kept) => Ok(kept),
        Err(stop) => if stop.status() == BAD_LINE {
            Ok(None)
        } else {
            Err(stop)
        },
    }
}

// Tries the login, and keeps it for the commands that follow.
fn login(
    rt: &HostRuntime,
    home: &Home,
    options: &Options,
    name: &str,
    list: Option<&str>,
    is_watched: bool,
) -> Result<(), Stop> {
    let before = former_login(rt, home)?;
    let who = principal_of(rt, name)?;
    let (kept_server, kept_key) = kept_parts(&before, &who);
    let key = match text(&options.key).or(kept_key) {
        Some(key) => key,
        None => return Err(ended(
            rt.alloc(),
            BAD_WORDS,
            &["login: --key FILE is missing, the file with your key"],
        )),
    };
    let server = text(&options.server)
        .or(kept_server)
        .unwrap_or(DEFAULT_SERVER);
    let given = match list {
        Some(path) => Some(statements_in(rt, path)?),
        None => None,
    };
    let mut session = session_at(rt, options, server, who, key, is_watched)?;
    begin_login(rt, home, &mut session, name, key, &given)?;
    let count = home.statements(rt)?.len();
    put_login(rt, name, server, count)
}

// The user's client, for one command.
fn client_of<'a>(
    rt: &'a HostRuntime,
    home: Home,
    options: &Options,
    is_watched: bool,
) -> Result<Client<User<'a>>, Stop> {
    let login = home.login(rt)?;
    let server = text(&options.server).unwrap_or(login.server.as_str());
    let key = text(&options.key).unwrap_or(login.key.as_str());
    let session = session_at(rt, options, server, login.name, key, is_watched)?;
    let list = home.statements(rt)?;
    let wallet = home.wallet(rt)?;
    let user = User {
        rt,
        home,
        session,
        list,
        is_watched,
        progress: None,
        note: None,
    };
    Ok(Client::new(rt.alloc(), user, wallet))
}

fn remove_unfinished<'a>(
    client: &mut Client<User<'a>>,
    unfinished: &Unfinished,
) -> Result<(), Stop> {
    let alloc = client.alloc;
    let place = Place::of(alloc, unfinished.path.as_str())?;
    let parent = place.parent(alloc)?;
    match place.last() {
        Some(name) => {
            let spot = Spot {
                directory: unfinished.directory,
                parent: &parent,
                name,
            };
            unlink(client, &spot, unfinished.node)
        }
        None => Ok(()),
    }
}

// Removes the file of a note, if nobody is at work on it any more, and then the note. A file that is not there any more counts as
// removed.
fn clear_note<'a>(client: &mut Client<User<'a>>, path: &str) -> Result<(), Stop> {
    let rt = client.ports.rt;
    let (_file, unfinished) = match unfinished_in(rt, path)? {
        Some(found) => found,
        None => return Ok(()),
    };
    let is_mine = unfinished.who.is_same(&client.ports.session.name());
    if !is_mine || !(unfinished.server.as_str() == client.ports.session.server()) {
        return Ok(());
    }
    match remove_unfinished(client, &unfinished) {
        Ok(()) => {}
        Err(Stop::Refused(_)) => {}
        Err(stop) => return Err(stop),
    }
    let _ = fs::remove_file(rt, path);
    Ok(())
}

/// Removes what commands left that were ended in the middle. A file that may not be removed is left with its note.
pub fn clear_unfinished(rt: &HostRuntime, options: &Options) -> Result<(), Stop> {
    let home = Home::new(rt, text(&options.home))?;
    let notes = home.notes(rt)?;
    if notes.is_empty() {
        return Ok(());
    }
    let mut client = client_of(rt, home, options, false)?;
    for path in &notes {
        match clear_note(&mut client, path.as_str()) {
            Ok(()) => {}
            Err(stop) => if !stop.is_no_right() {
                return Err(stop);
            },
        }
    }
    Ok(())
}

// A command for files.
fn run_files<'a>(client: &mut Client<User<'a>>, command: &Command) -> Result<(), Stop> {
    match command {
        Command::Ls { paths, long, all } => ls(
            client,
            paths.as_slice(),
            Shown {
                long: *long,
                all: *all,
            },
        ),
        Command::Cat { paths } => cat(client, paths.as_slice()),
        Command::Get { path, file } => get(client, path.as_str(), text(file)),
        Command::Put {
            file,
            path,
            attributes,
            in_place,
        } => put_file(
            client,
            file.as_str(),
            text(path),
            attributes.as_slice(),
            *in_place,
        ),
        Command::Mkdir { paths } => mkdir(client, paths.as_slice()),
        _ => run_nodes(client, command),
    }
}

// A command for names, attributes and owners.
fn run_nodes<'a>(client: &mut Client<User<'a>>, command: &Command) -> Result<(), Stop> {
    match command {
        Command::Mv { path, new } => mv(client, path.as_str(), new.as_str()),
        Command::Rm { paths } => rm(client, paths.as_slice()),
        Command::Stat { paths } => stat(client, paths.as_slice()),
        Command::Attr {
            path,
            name,
            value,
            delete,
        } => attr(client, path.as_str(), name.as_str(), text(value), *delete),
        Command::Chown { principal, path } => chown(client, principal.as_str(), path.as_str()),
        _ => run_policies(client, command),
    }
}

// A command for statements and procaps.
fn run_policies<'a>(client: &mut Client<User<'a>>, command: &Command) -> Result<(), Stop> {
    match command {
        Command::Register {
            text: said,
            file,
            signer,
        } => register(client, text(said), text(file), text(signer)),
        Command::Withdraw {
            number,
            text: said,
            signer,
        } => withdraw(client, *number, text(said), text(signer)),
        Command::Prove {
            permission,
            path,
            at,
            until,
            line,
        } => prove(
            client,
            *permission,
            path.as_str(),
            Proving {
                at: text(at),
                until: text(until),
                line: text(line),
            },
        ),
        _ => Ok(()),
    }
}

/// Does what is asked for.
pub fn run(
    rt: &HostRuntime,
    options: &Options,
    command: &Command,
    is_watched: bool,
) -> Result<(), Stop> {
    let home = Home::new(rt, text(&options.home))?;
    match command {
        Command::Login { name, statements } => login(
            rt,
            &home,
            options,
            name.as_str(),
            text(statements),
            is_watched,
        ),
        Command::Statements { file, dropped } => {
            statements(rt, &home, text(file), dropped.as_slice())
        }
        Command::Procaps { clear } => procaps(rt, &home, *clear),
        Command::Sign { what } => sign(rt, text(&options.key), what),
        Command::Show { procap, secrets } => show(rt, procap.as_str(), text(secrets)),
        _ => {
            let mut client = client_of(rt, home, options, is_watched)?;
            run_files(&mut client, command)
        }
    }
}
