//! Two users who make files at the same time, over `pcfs_run::run`.

use crate::connection::{Speeches, TwoConnections};
use crate::meeting::{BOTH_ARE_IN, FIRST_IS_AT_HAND, Meeting};
use crate::setting::{Setting, speeches_of};
use bl_syntax::{Bytes, Numbers};
use pcfs_ports::{MemoryDisk, MemorySink};
use pcfs_top::run::Ended;
use std::alloc::Global;
use std::io::Eprint;
use std::sync::Wait;
use std::thread::Threads;

// What a case gives and wants.
struct Case {
    script: &'static str,
    bob_writes: &'static str,
    files_each: u32,
    bob_awaits: usize,
    holds_clock: bool,
    nodes: usize,
    found: &'static str,
}

/// The procap by which alice writes in the root, of the first issue.
pub const ALICE_WRITES: &str =
    "470205616c696365000000000000000102000001000000015c17fc1140a5e342973cb964bae1b0eedecb5b0d8e5a22660367385b4264fe25";

/// The clock is read for alice's operation until bob has asked for his, which is allowed from second 200 on.
const LATE: Case = Case {
    script: "at 100
register - admin says may(alice,#1,write) from -inf to +inf
verify alice #1 write 1 saysR(claim(0,init(1)))
register - admin says may(bob,#1,write) from 200 to +inf
verify bob #1 write 2 saysR(claim(0,init(1)))
",
    bob_writes: "470203626f6200000000000000010201040100000000000000c806000100000002ade37b377b42a05bbca54b40952345b59568f11a41009a49ea9b33a68a60caf5",
    files_each: 1,
    bob_awaits: FIRST_IS_AT_HAND,
    holds_clock: true,
    nodes: 2,
    found: "ok
denied 1 principal at 6
ok
ok node #4
ok statement 3
ok issue 3 time 0 state 0
ok list ",
};

/// Both make a hundred files each, once both have logged in.
const MANY: Case = Case {
    script: "at 100
register - admin says may(alice,#1,write) from -inf to +inf
verify alice #1 write 1 saysR(claim(0,init(1)))
register - admin says may(bob,#1,write) from -inf to +inf
verify bob #1 write 2 saysR(claim(0,init(1)))
",
    bob_writes: "470203626f6200000000000000010200000100000002be87b0564a321b39fc1d685d3ca0e2bd0f94ec35f41654673fdc4d0480a0bb50",
    files_each: 100,
    bob_awaits: BOTH_ARE_IN,
    holds_clock: false,
    nodes: 200,
    found: "ok
denied 1 principal at 204
ok
ok node #202
ok statement 3
ok issue 3 time 0 state 0
ok list ",
};

// What a script says at last: it finds the number of events, the number of the next node, and all nodes by their names.
const CHECKS: &str = "as carol
do create #1 last @1
as alice
do create #1 last @1
register - admin says may(alice,#1,read) from -inf to +inf
verify alice #1 read 3 saysR(claim(0,init(1)))
do list #1 @3
";

// Adds the line of a user who makes this file.
fn add_making(
    alloc: Global,
    letter: &str,
    number: u32,
    procap: &str,
    text: &mut Bytes,
) -> Option<()> {
    let line = format!(in alloc; "do create #1 {letter}{number} {procap}\n").ok()?;
    text.extend(line.as_bytes()).ok()
}

// Adds the lines of a user who makes so many files.
fn add_all_making(
    alloc: Global,
    letter: &str,
    procap: &str,
    count: u32,
    text: &mut Bytes,
) -> Option<()> {
    for number in 0..count {
        add_making(alloc, letter, number, procap, text)?;
    }
    Some(())
}

// The lines of a user who makes so many files, with names that begin with this letter.
fn making(alloc: Global, letter: &str, procap: &str, count: u32) -> Option<Bytes> {
    let mut text = Bytes::new(alloc);
    match add_all_making(alloc, letter, procap, count, &mut text) {
        Some(()) => Some(text),
        None => None,
    }
}

// Whether the last script found so many events and files.
fn is_found(case: &Case, found: &[u8]) -> bool {
    let numbers = found.iter().filter(|byte| **byte == b'#').count();
    found.starts_with(case.found.as_bytes()) && numbers == case.nodes.saturating_add(2)
}

// Whether the last script finds what it has to on the disks.
fn is_kept<R: Threads + Wait + Sync>(
    rt: &R,
    alloc: Global,
    setting: &Setting,
    case: &Case,
    disks: Ended<MemoryDisk>,
) -> Option<bool> {
    let mut output = MemorySink::new(alloc, Numbers::new(alloc));
    match setting.add_script(rt, alloc, CHECKS, &mut output, disks) {
        Some(_) => Some(is_found(case, output.held())),
        None => None,
    }
}

// Serves both over new disks, and runs the last script. Returns whether all is as wanted.
fn serve_and_look<R: Threads + Wait + Sync + Eprint>(
    rt: &R,
    alloc: Global,
    setting: &Setting,
    case: &Case,
    meeting: &Meeting,
    speeches: Speeches<'_>,
) -> Option<bool> {
    let disks = setting.set_up(rt, alloc, case.script)?;
    let mut net = TwoConnections::new(meeting, speeches);
    let (disks, is_served) = setting.serve(rt, alloc, meeting, &mut net, disks)?;
    let is_kept = is_kept(rt, alloc, setting, case, disks)?;
    let went_well = meeting.went_well(case.nodes.saturating_add(2), case.nodes);
    Some(is_served && went_well && is_kept)
}

// Whether all is as wanted at this meeting.
fn meet<R: Threads + Wait + Sync + Eprint>(
    rt: &R,
    alloc: Global,
    setting: &Setting,
    case: &Case,
    meeting: &Meeting,
) -> Option<bool> {
    let alice = making(alloc, "a", ALICE_WRITES, case.files_each)?;
    match making(alloc, "b", case.bob_writes, case.files_each) {
        Some(bob) => {
            let speeches = speeches_of(alice.as_slice(), case.bob_awaits, bob.as_slice());
            serve_and_look(rt, alloc, setting, case, meeting, speeches)
        }
        None => None,
    }
}

// Whether all of the case is as wanted; none if there is no memory.
fn agrees<R: Threads + Wait + Sync + Eprint>(
    rt: &R,
    alloc: Global,
    setting: &Setting,
    case: &Case,
) -> Option<bool> {
    let meeting = Meeting::new(alloc, case.nodes.saturating_add(2), case.holds_clock)?;
    meet(rt, alloc, setting, case, &meeting)
}

/// Whether an operation that waits for its turn is decided at the moment of the turn.
pub fn clock_is_read_in_the_turn<R: Threads + Wait + Sync + AllocGlobal + Eprint>(
    rt: &R,
    setting: &Setting,
) -> bool {
    agrees(rt, rt.alloc(), setting, &LATE) == Some(true)
}

/// Whether of two users who make a hundred files each, each is told two hundred times a node of its own, and all are kept.
pub fn two_hundred_files_are_made<R: Threads + Wait + Sync + AllocGlobal + Eprint>(
    rt: &R,
    setting: &Setting,
) -> bool {
    agrees(rt, rt.alloc(), setting, &MANY) == Some(true)
}
