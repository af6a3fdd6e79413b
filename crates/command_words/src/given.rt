//! What is given to a command, as `clap` found it.

ghost use Rattle.std.specs.Prelude.{◌≡◌, ◌≤◌, ◌^◌, ℕ, codes, MatchOption};
ghost use Rattle.clap.specs.Words.{found_of, rows_of};
ghost use Rattle.command_words.specs.CommandWords.{GivesNumber};
ghost use Rattle.command_words.specs.Tasks.{IsTaskOf};
ghost use Rattle.command_words.specs.declared.words.Task.{Task};

use crate::words::Task;
use bl_syntax::limits::{HIGHEST_TREE, LAST_MOMENT, MOST_EVENTS};
use clap::ArgMatches;
use generated_script::MOST_ROUNDS;
use line_words::numerals::long_number;

/// The most pieces of an audit.
pub const MOST_PIECES: u64 = 64;

/// The last second of a table of modes.
pub const LAST_SECOND: u64 = LAST_MOMENT as u64;

/// The greatest height of a tree of hashes.
pub const MOST_HEIGHT: u64 = HIGHEST_TREE as u64;

/// The greatest port.
pub const LAST_PORT: u64 = 65_535;

/// The most connections.
pub const MOST_CONNECTIONS: u64 = 1_000_000;

// The number in this range that is given under that name.
fn number_given(given: &ArgMatches<'_>, name: &str, least: u64, most: u64) -> Option<u64>
    ensures { MatchOption result ((n : ℕ) → GivesNumber least most name.now
        (rows_of (found_of given.now)) n → ⊥)
        (GivesNumber least most name.now (rows_of (found_of given.now))) }
{
    let text = match given.get_str(name) {
        Some(text) => text,
        None => return None,
    };
    let number = match long_number(text.as_bytes()) {
        Some(number) => number,
        None => return None,
    };
    if number < least {
        return None;
    }
    if number <= most { Some(number) } else { None }
}

/// What a script is asked for.
pub fn script_task(given: &ArgMatches<'_>) -> Option<Task>
    ensures { MatchOption result ((task : Task) →
        IsTaskOf (codes "script") (rows_of (found_of given.now)) task → ⊥)
        (IsTaskOf (codes "script") (rows_of (found_of given.now))) }
{
    match given.get_str("stored") {
        Some(text) => {
            if text == "true" {
                return Some(Task::Stored);
            }
            Some(Task::Script)
        }
        None => Some(Task::Script),
    }
}

/// What an audit is asked for; none if its pieces are no such number.
pub fn audit_task(given: &ArgMatches<'_>) -> Option<Task>
    ensures { MatchOption result ((task : Task) →
        IsTaskOf (codes "audit") (rows_of (found_of given.now)) task → ⊥)
        (IsTaskOf (codes "audit") (rows_of (found_of given.now))) }
{
    match given.get_str("pieces") {
        Some(_text) => {}
        None => return Some(Task::Audit(None)),
    }
    match number_given(given, "pieces", 1, MOST_PIECES) {
        Some(pieces) => Some(Task::Audit(Some(pieces as usize))),
        None => None,
    }
}

/// From which event on messages are asked for; none if the word is no such number.
pub fn export_task(given: &ArgMatches<'_>) -> Option<Task>
    ensures { MatchOption result ((task : Task) →
        IsTaskOf (codes "export") (rows_of (found_of given.now)) task → ⊥)
        (IsTaskOf (codes "export") (rows_of (found_of given.now))) }
{
    match number_given(given, "from", 1, MOST_EVENTS) {
        Some(from) => Some(Task::Export(from)),
        None => None,
    }
}

/// What a large run is asked for; none if its words are no such numbers.
pub fn load_task(given: &ArgMatches<'_>) -> Option<Task>
    ensures { MatchOption result ((task : Task) →
        IsTaskOf (codes "load") (rows_of (found_of given.now)) task → ⊥)
        (IsTaskOf (codes "load") (rows_of (found_of given.now))) }
{
    match number_given(given, "rounds", 0, MOST_ROUNDS) {
        Some(rounds) => match number_given(given, "seed", 0, u64::MAX) {
            Some(seed) => Some(Task::Load(rounds, seed)),
            None => None,
        },
        None => None,
    }
}

/// What a table of modes is asked for: its statements hold from one second to another; none if the words are no such numbers.
pub fn modes_task(given: &ArgMatches<'_>) -> Option<Task>
    ensures { MatchOption result ((task : Task) →
        IsTaskOf (codes "modes") (rows_of (found_of given.now)) task → ⊥)
        (IsTaskOf (codes "modes") (rows_of (found_of given.now))) }
{
    match number_given(given, "from", 0, LAST_SECOND) {
        Some(from) => match number_given(given, "to", 0, LAST_SECOND) {
            Some(to) => Some(Task::Modes(from, to)),
            None => None,
        },
        None => None,
    }
}

// How many leaves a tree of this height has.
fn leaves_of(height: u64) -> u64
    requires { height ≤ MOST_HEIGHT }
    ensures leaves { result ≡ 2 ^ height }
    ensures few { result ≤ 256 }
{
    1 << height
}

/// What signing by a tree of hashes is asked for; none if its words are no such numbers.
pub fn rootsign_task(given: &ArgMatches<'_>) -> Option<Task>
    ensures { MatchOption result ((task : Task) →
        IsTaskOf (codes "rootsign") (rows_of (found_of given.now)) task → ⊥)
        (IsTaskOf (codes "rootsign") (rows_of (found_of given.now))) }
{
    match number_given(given, "height", 0, MOST_HEIGHT) {
        Some(height) => match number_given(given, "from", 0, leaves_of(height)) {
            Some(from) => Some(Task::RootSign(height as u8, from as u32)),
            None => None,
        },
        None => None,
    }
}

/// What serving is asked for; none if its words are no such numbers.
pub fn serve_task(given: &ArgMatches<'_>) -> Option<Task>
    ensures { MatchOption result ((task : Task) →
        IsTaskOf (codes "serve") (rows_of (found_of given.now)) task → ⊥)
        (IsTaskOf (codes "serve") (rows_of (found_of given.now))) }
{
    match number_given(given, "port", 1, LAST_PORT) {
        Some(port) => match number_given(given, "count", 1, MOST_CONNECTIONS) {
            Some(count) => Some(Task::Serve(port as u16, count)),
            None => None,
        },
        None => None,
    }
}

/// What serving 9P2000 is asked for; none if its words are no such numbers.
pub fn serve9_task(given: &ArgMatches<'_>) -> Option<Task>
    ensures { MatchOption result ((task : Task) →
        IsTaskOf (codes "serve9") (rows_of (found_of given.now)) task → ⊥)
        (IsTaskOf (codes "serve9") (rows_of (found_of given.now))) }
{
    match number_given(given, "port", 1, LAST_PORT) {
        Some(port) => match number_given(given, "count", 1, MOST_CONNECTIONS) {
            Some(count) => Some(Task::Serve9(port as u16, count)),
            None => None,
        },
        None => None,
    }
}
