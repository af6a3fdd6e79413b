//! What two sessions do at the same time, each in a thread of its own: one has turns, and withdraws a statement, while a proof of
//! the other is checked; the clock is read in the turn, after the wait for it; and both make a hundred files. And that connections
//! from memory, which the listener tells, add nothing if they say nothing.
//!
//! For each case it prints that it agrees, or that it differs, and it ends with status 1 if any differs. A session waits for
//! the other for a number of looks, so the program ends even if the other never comes so far.
#![tactic(auto)]

mod cases;
mod connection;
mod held;
mod listed;
mod meeting;
mod pair;
mod setting;

use cases::{clock_is_read_in_the_turn, two_hundred_files_are_made};
use held::{proof_is_checked_outside_turns, withdrawn_meanwhile_is_absent};
use listed::silence_adds_nothing;
use setting::Setting;
use std::process::ExitCode;

// Prints whether the case of this name agrees, and returns whether it does.
fn print_agrees<R: Print>(rt: &R, name: &str, agrees: bool) -> bool {
    let word = if agrees { "agrees" } else { "differs" };
    match println!(rt; "{word}: {name}") {
        Ok(()) => agrees,
        Err(_) => false,
    }
}

fn main(rt: HostRuntime) -> ExitCode {
    let Some(setting) = Setting::new(rt.alloc()) else {
        return ExitCode::from(9);
    };
    let is_held = proof_is_checked_outside_turns(&rt, &setting);
    let is_held = print_agrees(&rt, "a proof is checked while another has turns", is_held);
    let is_absent = withdrawn_meanwhile_is_absent(&rt, &setting);
    let is_absent = print_agrees(
        &rt,
        "a statement is withdrawn while a proof from it is checked",
        is_absent,
    );
    let is_late = clock_is_read_in_the_turn(&rt, &setting);
    let is_late = print_agrees(&rt, "the clock is read after the wait", is_late);
    let are_made = two_hundred_files_are_made(&rt, &setting);
    let are_made = print_agrees(&rt, "two hundred files", are_made);
    let is_silent = silence_adds_nothing(&rt, &setting);
    let is_silent = print_agrees(
        &rt,
        "two connections that say nothing add nothing",
        is_silent,
    );
    if is_held && is_absent && is_late && are_made && is_silent {
        ExitCode::from(0)
    } else {
        ExitCode::from(1)
    }
}
