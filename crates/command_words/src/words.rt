//! What the words of a command ask for.

ghost use Rattle.std.specs.Prelude.{◌≡◌, MatchOption, IfOk};
ghost use Rattle.clap.specs.Words.{found_of, rows_of, subcommand_rows_of};
ghost use Rattle.command_words.specs.Tasks.{AreKnown, AsksFor, Finds, IsTaskOf};

use crate::commands::program;
use crate::given::{
    audit_task, export_task, load_task, modes_task, rootsign_task, script_task, serve_task,
    serve9_task,
};
use bl_syntax::NoMemory;
use clap::ArgMatches;
use clap::error::ErrorKind;
use std::alloc::Global;

/// What the words of a command ask for.
#[derive(Clone, Copy, Debug, PartialEq, Eq)]
pub enum Task {
    /// A script over a store in memory.
    Script,
    /// A script over the areas.
    Stored,
    /// A store in the first area.
    Init,
    /// A checkpoint of the store in the areas.
    Checkpoint,
    /// An audit of the history in the areas, at once or in so many pieces.
    Audit(Option<usize>),
    /// The events of the history in the areas as messages, from this number on.
    Export(u64),
    /// Events in messages, which the store in the areas takes.
    Follow,
    /// An inquiry.
    Check,
    /// So many rounds of the script that is generated from this seed.
    Load(u64, u64),
    /// The statements of a table of modes, from this second to that one.
    Modes(u64, u64),
    /// The statements in an input, signed by a tree of hashes of this height, from this leaf on.
    RootSign(u8, u32),
    /// Sessions over the areas on this port, for so many connections.
    Serve(u16, u64),
    /// 9P2000 over the areas on this port, for so many connections.
    Serve9(u16, u64),
}

// What the command of this name asks for; none if there is no such command, or a number that is given to it is not one.
fn task_named(name: &str, given: &ArgMatches<'_>) -> Option<Task>
    ensures { MatchOption result ((task : Task) → IsTaskOf name.now (rows_of (found_of given.now))
        task → ⊥) (IsTaskOf name.now (rows_of (found_of given.now))) }
{
    if name == "script" {
        return script_task(given);
    }
    if name == "init" {
        return Some(Task::Init);
    }
    if name == "checkpoint" {
        return Some(Task::Checkpoint);
    }
    if name == "audit" {
        return audit_task(given);
    }
    if name == "export" {
        return export_task(given);
    }
    if name == "follow" {
        return Some(Task::Follow);
    }
    if name == "check" {
        return Some(Task::Check);
    }
    if name == "load" {
        return load_task(given);
    }
    if name == "modes" {
        return modes_task(given);
    }
    if name == "rootsign" {
        return rootsign_task(given);
    }
    if name == "serve" {
        return serve_task(given);
    }
    if name == "serve9" {
        return serve9_task(given);
    }
    None
}

// What the command that was found asks for.
fn task_in(matches: &ArgMatches<'_>) -> Option<Task>
    ensures { MatchOption result ((task : Task) → Finds (subcommand_rows_of matches.now) task → ⊥) (Finds (subcommand_rows_of matches.now)) }
{
    match matches.subcommand() {
        Some((name, given)) => task_named(name, given),
        None => None,
    }
}

/// What the words ask for; none if they are no command. They are without the program's name.
pub fn task_of(alloc: Global, words: &Vec<String>) -> Result<Option<Task>, NoMemory>
    ensures { IfOk result (λ asked. MatchOption asked (AreKnown words.now.items → ⊥) (AsksFor words.now.items)) }
{
    let command = match program(alloc) {
        Ok(command) => command,
        Err(_) => return Err(NoMemory),
    };
    match command.try_get_matches_from(words.as_slice()) {
        Ok(matches) => Ok(task_in(&matches)),
        Err(error) => match error.kind() {
            ErrorKind::OutOfMemory => Err(NoMemory),
            _ => Ok(None),
        },
    }
}
