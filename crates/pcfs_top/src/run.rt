//! A run of the program: its words, its input and its output and its disks, and the status that it ends with.

ghost use Rattle.std.specs.Prelude.{◌≡◌, ◌≤◌, ℕ, List, Bool, Option, String, IfOk, IfSome, MatchOption};
ghost use Rattle.std.specs.declared.alloc.Global.{Global};
ghost use Rattle.pcfs_ports.specs.Disk.{IsPinned};
ghost use Rattle.pcfs_session.specs.ScriptEnds.{with_line_end};
ghost use Rattle.command_words.specs.Tasks.{AreKnown, AsksFor, IsFit};
ghost use Rattle.command_words.specs.declared.words.Task.TheVariants.{Stored, Init, Checkpoint, Audit, Export, Follow};
ghost use Rattle.pcfs_top.specs.Run.{EndsWith, TellsCheckpoint, TellsUnopened, TellsUnmade, damaged_text};
ghost use Rattle.pcfs_top.specs.Ports.{ports_beside, ports_of, rests_of};

use bl_syntax::decimal::put_counted;
use bl_syntax::{Bytes, NoMemory};
use command_words::{Task, task_of};
use export_run::export_history;
use follow_run::{follow_over, number_of};
use op_gate::Damage;
use pcfs_ports::{Disk, Sink, Source};
use pcfs_secrets::Secrets;
use pcfs_store::{CheckpointReply, FormatFault, format_store};
use pcfs_tools::answering::{DISK_FAULT, DONE, OUT_OF_MEMORY, run_over, write_last_line};
use pcfs_tools::{audit_history, inquire, load, run_in_memory, sign_statements, state_table};
use recover::{OpenFault, open_store};
use std::alloc::Global;
use std::sync::Wait;
use std::thread::Threads;

/// The words ask for nothing that there is.
const USAGE: u8 = 1;

/// The newest area is damaged.
const DAMAGED: u8 = 3;

/// Neither area is open.
const NO_STORE: u8 = 4;

/// An area is open.
const ALREADY_STORE: u8 = 10;

/// The checkpoint does not fit.
const FULL: u8 = 14;

/// How a run ended: its status, and the disks as they came back.
#[derive(Debug, Drop)]
pub struct Ended<D> {
    pub status: u8,
    pub a: D,
    pub b: D,
}

// The line that reports the damage of a record.
fn damaged_line(alloc: Global, record_number: u64, damage: Damage) -> Result<Bytes, NoMemory>
    ensures { IfOk result (λ line. line ≡ with_line_end (damaged_text record_number damage)) }
{
    let mut line = Bytes::new(alloc);
    put_counted(&mut line, "damaged ", record_number)?;
    put_counted(&mut line, " ", number_of(damage))?;
    line.push(b'\n')?;
    Ok(line)
}

// Writes the line that reports the damage of a record, and returns the status to end with.
fn write_damage<O: Sink>(alloc: Global, output: &mut O, record_number: u64, damage: Damage) -> u8
    ensures { TellsUnopened (OpenFault.Damaged record_number damage) (O.held output.old)
        (O.faults output.old) result (O.held output.new) (O.faults output.new) (O.broken output.new) }
{
    match damaged_line(alloc, record_number, damage) {
        Ok(line) => write_last_line(output, line.as_slice(), DAMAGED),
        Err(_) => OUT_OF_MEMORY,
    }
}

/// Writes why no store was opened, and returns the status to end with.
pub fn write_unopened<O: Sink>(alloc: Global, output: &mut O, fault: OpenFault) -> u8
    ensures { TellsUnopened fault (O.held output.old) (O.faults output.old) result (O.held output.new) (O.faults output.new) (O.broken output.new) }
{
    match fault {
        OpenFault::NoStore => write_last_line(output, b"nostore\n", NO_STORE),
        OpenFault::Damaged(number, damage) => write_damage(alloc, output, number, damage),
        OpenFault::Disk => write_last_line(output, b"stopped\n", DISK_FAULT),
        OpenFault::NoMemory => OUT_OF_MEMORY,
    }
}

// Runs the script in the input over the store on the disks. By the order of the code each reply is written before the
// next line is answered.
fn run_stored<I: Source, O: Sink, D: Disk>(
    alloc: Global,
    secrets: &Secrets,
    input: &mut I,
    output: &mut O,
    a: D,
    b: D,
) -> Ended<D>
    ensures { (words : List (String Global)) → AsksFor words Stored →
        EndsWith secrets.now words
        (rests_of (IsPinned D.clock D.left_since D.image) a b result.a result.b)
        (ports_of I.left I.faults I.broken O.held O.faults O.broken D.image D.faults input.old output.old a b)
        (ports_of I.left I.faults I.broken O.held O.faults O.broken D.image D.faults input.new output.new result.a result.b)
        result.status }
{
    let ring = match secrets.ring.copy(alloc) {
        Ok(ring) => ring,
        Err(_) => return Ended {
            status: OUT_OF_MEMORY,
            a,
            b,
        },
    };
    match open_store(alloc, a, b, secrets.seal_key.as_slice(), ring) {
        Ok(store) => {
            store.lemma_is_store();
            let (status, store) = run_over(alloc, store, input, 1, output);
            store.lemma_is_store();
            let (a, b) = store.into_disks();
            Ended { status, a, b }
        }
        Err((fault, a, b)) => Ended {
            status: write_unopened(alloc, output, fault),
            a,
            b,
        },
    }
}

// Writes what a checkpoint answered, and returns the status to end with.
fn write_checkpoint<O: Sink>(output: &mut O, reply: CheckpointReply) -> u8
    ensures { TellsCheckpoint reply (O.held output.old) (O.faults output.old) result (O.held output.new) (O.faults output.new) (O.broken output.new) }
{
    match reply {
        CheckpointReply::Checkpointed => write_last_line(output, b"ok checkpoint\n", DONE),
        CheckpointReply::Full => write_last_line(output, b"full\n", FULL),
        CheckpointReply::Stopped => write_last_line(output, b"stopped\n", DISK_FAULT),
        CheckpointReply::NoMemory => OUT_OF_MEMORY,
    }
}

// Makes a checkpoint of the store on the disks.
fn checkpoint_stored<O: Sink, D: Disk>(
    alloc: Global,
    secrets: &Secrets,
    output: &mut O,
    a: D,
    b: D,
) -> Ended<D>
    ensures { (words : List (String Global)) (left : Option (List ℕ)) (read_faults : ℕ) (read_broken : Bool) →
        AsksFor words Checkpoint →
        EndsWith secrets.now words
        (rests_of (IsPinned D.clock D.left_since D.image) a b result.a result.b)
        (ports_beside left read_faults read_broken O.held O.faults O.broken D.image D.faults output.old a b)
        (ports_beside left read_faults read_broken O.held O.faults O.broken D.image D.faults output.new result.a result.b)
        result.status }
{
    let ring = match secrets.ring.copy(alloc) {
        Ok(ring) => ring,
        Err(_) => return Ended {
            status: OUT_OF_MEMORY,
            a,
            b,
        },
    };
    match open_store(alloc, a, b, secrets.seal_key.as_slice(), ring) {
        Ok(mut store) => {
            store.lemma_is_store();
            let reply = store.checkpoint(alloc, 0);
            let status = write_checkpoint(output, reply);
            let (first_after, second_after) = store.into_disks();
            Ended {
                status,
                a: first_after,
                b: second_after,
            }
        }
        Err((fault, a, b)) => Ended {
            status: write_unopened(alloc, output, fault),
            a,
            b,
        },
    }
}

// Audits the history of the store on the disks, which stay as they are.
fn audit_stored<R: Threads + Sync, O: Sink, D: Disk>(
    rt: &R,
    alloc: Global,
    secrets: &Secrets,
    pieces: Option<usize>,
    output: &mut O,
    a: D,
    b: D,
) -> Ended<D>
    requires some { IfSome pieces (λ n. 1 ≤ n) }
    ensures { (words : List (String Global)) (left : Option (List ℕ)) (read_faults : ℕ) (read_broken : Bool) →
        AsksFor words (Audit pieces) →
        EndsWith secrets.now words
        (rests_of (IsPinned D.clock D.left_since D.image) a b result.a result.b)
        (ports_beside left read_faults read_broken O.held O.faults O.broken D.image D.faults output.old a b)
        (ports_beside left read_faults read_broken O.held O.faults O.broken D.image D.faults output.new result.a result.b)
        result.status }
{
    let ring = match secrets.ring.copy(alloc) {
        Ok(ring) => ring,
        Err(_) => return Ended {
            status: OUT_OF_MEMORY,
            a,
            b,
        },
    };
    match open_store(alloc, a, b, secrets.seal_key.as_slice(), ring) {
        Ok(store) => {
            store.lemma_is_store();
            let status = audit_history(rt, alloc, secrets, store.gate().history(), pieces, output);
            let (first, second) = store.into_disks();
            Ended {
                status,
                a: first,
                b: second,
            }
        }
        Err((fault, a, b)) => Ended {
            status: write_unopened(alloc, output, fault),
            a,
            b,
        },
    }
}

// Writes the messages of the events of the store on the disks, from that number on. The disks stay as they are.
fn export_stored<O: Sink, D: Disk>(
    alloc: Global,
    secrets: &Secrets,
    from: u64,
    output: &mut O,
    a: D,
    b: D,
) -> Ended<D>
    ensures { (words : List (String Global)) (left : Option (List ℕ)) (read_faults : ℕ) (read_broken : Bool) →
        AsksFor words (Export from) →
        EndsWith secrets.now words
        (rests_of (IsPinned D.clock D.left_since D.image) a b result.a result.b)
        (ports_beside left read_faults read_broken O.held O.faults O.broken D.image D.faults output.old a b)
        (ports_beside left read_faults read_broken O.held O.faults O.broken D.image D.faults output.new result.a result.b)
        result.status }
{
    let ring = match secrets.ring.copy(alloc) {
        Ok(ring) => ring,
        Err(_) => return Ended {
            status: OUT_OF_MEMORY,
            a,
            b,
        },
    };
    match open_store(alloc, a, b, secrets.seal_key.as_slice(), ring) {
        Ok(store) => {
            store.lemma_is_store();
            let status = export_history(alloc, store.gate().history(), from, output);
            let (first, second) = store.into_disks();
            Ended {
                status,
                a: first,
                b: second,
            }
        }
        Err((fault, a, b)) => Ended {
            status: write_unopened(alloc, output, fault),
            a,
            b,
        },
    }
}

// Takes the events in the messages of the input by the store on the disks. By the order of the code a line is written for
// each message before the next one is taken.
fn follow_stored<I: Source, O: Sink, D: Disk>(
    alloc: Global,
    secrets: &Secrets,
    input: &mut I,
    output: &mut O,
    a: D,
    b: D,
) -> Ended<D>
    ensures { (words : List (String Global)) → AsksFor words Follow →
        EndsWith secrets.now words
        (rests_of (IsPinned D.clock D.left_since D.image) a b result.a result.b)
        (ports_of I.left I.faults I.broken O.held O.faults O.broken D.image D.faults input.old output.old a b)
        (ports_of I.left I.faults I.broken O.held O.faults O.broken D.image D.faults input.new output.new result.a result.b)
        result.status }
{
    let ring = match secrets.ring.copy(alloc) {
        Ok(ring) => ring,
        Err(_) => return Ended {
            status: OUT_OF_MEMORY,
            a,
            b,
        },
    };
    match open_store(alloc, a, b, secrets.seal_key.as_slice(), ring) {
        Ok(store) => {
            store.lemma_is_store();
            let (status, store) = follow_over(alloc, store, input, output);
            store.lemma_is_store();
            let (first, second) = store.into_disks();
            Ended {
                status,
                a: first,
                b: second,
            }
        }
        Err((fault, a, b)) => Ended {
            status: write_unopened(alloc, output, fault),
            a,
            b,
        },
    }
}

// Writes why no store was made, and returns the status to end with.
fn write_unmade<O: Sink>(output: &mut O, fault: FormatFault) -> u8
    ensures { TellsUnmade fault (O.held output.old) (O.faults output.old) result (O.held output.new) (O.faults output.new) (O.broken output.new) }
{
    match fault {
        FormatFault::AlreadyStore => write_last_line(output, b"exists\n", ALREADY_STORE),
        FormatFault::Disk => write_last_line(output, b"stopped\n", DISK_FAULT),
        FormatFault::NoMemory => OUT_OF_MEMORY,
    }
}

// Makes a store before its first event on the first disk.
fn init<O: Sink, D: Disk>(alloc: Global, secrets: &Secrets, output: &mut O, a: D, b: D) -> Ended<D>
    ensures { (words : List (String Global)) (left : Option (List ℕ)) (read_faults : ℕ) (read_broken : Bool) →
        AsksFor words Init →
        EndsWith secrets.now words
        (rests_of (IsPinned D.clock D.left_since D.image) a b result.a result.b)
        (ports_beside left read_faults read_broken O.held O.faults O.broken D.image D.faults output.old a b)
        (ports_beside left read_faults read_broken O.held O.faults O.broken D.image D.faults output.new result.a result.b)
        result.status }
{
    let ring = match secrets.ring.copy(alloc) {
        Ok(ring) => ring,
        Err(_) => return Ended {
            status: OUT_OF_MEMORY,
            a,
            b,
        },
    };
    match format_store(alloc, a, b, secrets.seal_key.as_slice(), ring) {
        Ok(store) => {
            let (a, b) = store.into_disks();
            Ended {
                status: write_last_line(output, b"ok\n", DONE),
                a,
                b,
            }
        }
        Err((fault, a, b)) => Ended {
            status: write_unmade(output, fault),
            a,
            b,
        },
    }
}

// Does what was asked for.
fn run_task<R: Threads + Wait + Sync, I: Source, O: Sink, D: Disk>(
    rt: &R,
    alloc: Global,
    task: Task,
    secrets: &Secrets,
    input: &mut I,
    output: &mut O,
    a: D,
    b: D,
) -> Ended<D>
    requires fit { IsFit task }
    ensures { (words : List (String Global)) → AsksFor words task →
        EndsWith secrets.now words
        (rests_of (IsPinned D.clock D.left_since D.image) a b result.a result.b)
        (ports_of I.left I.faults I.broken O.held O.faults O.broken D.image D.faults input.old output.old a b)
        (ports_of I.left I.faults I.broken O.held O.faults O.broken D.image D.faults input.new output.new result.a result.b)
        result.status }
{
    match task {
        Task::Script => Ended {
            status: run_in_memory(alloc, secrets, input, output),
            a,
            b,
        },
        Task::Stored => run_stored(alloc, secrets, input, output, a, b),
        Task::Init => init(alloc, secrets, output, a, b),
        Task::Checkpoint => checkpoint_stored(alloc, secrets, output, a, b),
        Task::Audit(pieces) => audit_stored(rt, alloc, secrets, pieces, output, a, b),
        Task::Export(from) => export_stored(alloc, secrets, from, output, a, b),
        Task::Follow => follow_stored(alloc, secrets, input, output, a, b),
        Task::Check => Ended {
            status: inquire(alloc, input, output),
            a,
            b,
        },
        Task::Load(rounds, seed) => Ended {
            status: load(alloc, rounds, seed, output),
            a,
            b,
        },
        Task::Modes(from, to) => Ended {
            status: state_table(alloc, from, to, input, output),
            a,
            b,
        },
        Task::RootSign(height, from) => Ended {
            status: sign_statements(alloc, height, from, input, output),
            a,
            b,
        },
        Task::Serve(_, _) => Ended {
            status: write_last_line(output, b"usage\n", USAGE),
            a,
            b,
        },
        Task::Serve9(_, _) => Ended {
            status: write_last_line(output, b"usage\n", USAGE),
            a,
            b,
        },
    }
}

/// Does what words ask for that were read; none if they are no command. What needs more ports than a run without
/// connections is no command here.
pub fn run_asked<R: Threads + Wait + Sync, I: Source, O: Sink, D: Disk>(
    rt: &R,
    alloc: Global,
    asked: Option<Task>,
    secrets: &Secrets,
    input: &mut I,
    output: &mut O,
    a: D,
    b: D,
) -> Ended<D>
    requires fit { IfSome asked IsFit }
    ensures { (words : List (String Global)) →
        MatchOption asked (AreKnown words → ⊥) (AsksFor words) →
        EndsWith secrets.now words
        (rests_of (IsPinned D.clock D.left_since D.image) a b result.a result.b)
        (ports_of I.left I.faults I.broken O.held O.faults O.broken D.image D.faults input.old output.old a b)
        (ports_of I.left I.faults I.broken O.held O.faults O.broken D.image D.faults input.new output.new result.a result.b)
        result.status }
{
    match asked {
        Some(task) => run_task(rt, alloc, task, secrets, input, output, a, b),
        None => Ended {
            status: write_last_line(output, b"usage\n", USAGE),
            a,
            b,
        },
    }
}

/// Runs the program: with the word `script` the lines of the input are answered over a store in memory, with
/// `script --stored` over the one on the disks; with `init` a store is made on the first disk, and with `checkpoint` the state
/// of the one on the disks is written as the image of a new area on the disk that does not count. With `audit` the history of
/// the one on the disks is audited, with `audit --pieces N` in so many pieces; with `export FROM` the messages of its events
/// from that number on are written; with `follow` it takes the events in the messages of the input, and a line is written for
/// each: `kept`, `known`, `damaged` or `full` with the message's number, or `missing` with the next one; with `check` the
/// inquiry in the input is answered; with `load N S` the script that so many rounds and that seed generate is run over a store in memory; with
/// `modes FROM TO` the lines are written that register the statements of the table of modes in the input from one second to
/// another; with `rootsign H FROM` the root of the tree of height H of the seed in the input is written, and the lines that
/// register the statements after it by its leaves from FROM on, each once. Procaps are sealed under the key of the secrets, and
/// statements are accepted whose signature their ring accepts.
///
/// Returns the disks and the status to end with: 0, all is done, and of `init` the last line is `ok`, of `checkpoint`
/// `ok checkpoint`; 1, the words are others, and the last line is `usage`; 2, a line has more than 262,144 bytes: `bad 3`; 3,
/// the newest area is damaged, and the last line is `damaged` with the number of the record and the cause; 4, neither area is
/// open: `nostore`; 5, a disk failed: `stopped`; 6, the input failed: `readfault`; 7, the output failed, and may lack any of
/// its end; 9, memory ran out, without a last line, but a script in memory may have `stopped` for its last reply then; 10, an
/// area is open already: `exists`; 11, the report of the audit has a row; 12, a line of the inquiry or of `rootsign` is
/// wrong: `line` with its number, `bad`, and the fault; 13, the input has 1 GiB or more: `toolong`; 14, the image of a
/// checkpoint does not fit into an area, or there is no next generation: `full`; 15, a line of the table of modes is wrong:
/// `line` with its number, and `mode 1` or `mode 2`, or its statements are more than 4,096: `mode 3`; 16, at a place of the
/// input no message stands, or it ends within one: `frame` with the place; 17, the event of that number is in the base alone:
/// `gone` with the base's count; 18, there is no leaf for a statement: `leaves` with their count. At 2, 5, 6, 13 and 16 the
/// replies of a script to the lines before, and the lines for the messages before, come before that line, and at 12 and 18
/// what `rootsign` wrote of the lines before.
///
/// At 7 and 9 the output of a script over the areas has the replies to all lines that were done, but perhaps that to the
/// last, and so has that of one in memory at 9; at 7 it may lack 65,535 bytes before that one too.
///
/// Nothing is written after a write that failed, and nothing is read after a read that failed. No call of a disk failed,
/// unless `stopped` is the last line or reply, or was to be at 7.
pub fn run_alone<R: Threads + Wait + Sync, I: Source, O: Sink, D: Disk>(
    rt: &R,
    alloc: Global,
    words: &Vec<String>,
    secrets: &Secrets,
    input: &mut I,
    output: &mut O,
    a: D,
    b: D,
) -> Ended<D>
    ensures { EndsWith secrets.now words.now.items
        (rests_of (IsPinned D.clock D.left_since D.image) a b result.a result.b)
        (ports_of I.left I.faults I.broken O.held O.faults O.broken D.image D.faults input.old output.old a b)
        (ports_of I.left I.faults I.broken O.held O.faults O.broken D.image D.faults input.new output.new result.a result.b)
        result.status }
{
    match task_of(alloc, words) {
        Ok(asked) => run_asked(rt, alloc, asked, secrets, input, output, a, b),
        Err(_) => Ended {
            status: OUT_OF_MEMORY,
            a,
            b,
        },
    }
}
