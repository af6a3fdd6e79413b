//! A case that is run: the operator's script, the command with the connections, and the script that looks at what is kept.

use crate::board::Outcome;
use crate::case::{Case, RowFault};
use crate::command::add_words;
use crate::connection::RowListener;
use bl_syntax::{Bytes, Numbers, copy_bytes, copy_numbers};
use pcfs_ports::{ListNonces, MemoryDisk, MemorySink, MemorySource};
use pcfs_run::run;
use pcfs_secrets::Secrets;
use pcfs_top::run::{Ended, run_alone};
use std::alloc::Global;
use std::io::Eprint;
use std::sync::Wait;
use std::thread::Threads;

/// How a case ended.
#[derive(Drop)]
pub struct CaseEnd {
    /// How the connections did.
    pub outcome: Outcome,
    /// The command ended as it has to.
    pub is_served: bool,
    /// What the script that came then was told.
    pub found: Bytes,
}

// Two disks.
#[derive(Drop)]
struct Disks {
    a: MemoryDisk,
    b: MemoryDisk,
}

// The ports of the command beside its disks and its clock.
#[derive(Drop)]
struct Ports<'b> {
    input: MemorySource,
    output: MemorySink,
    nonces: ListNonces,
    net: RowListener<'b>,
}

// These words.
fn words_of(alloc: Global, words: &str) -> Result<Vec<String>, RowFault> {
    let mut own = Vec::new(alloc);
    match add_words(alloc, words, &mut own) {
        Ok(()) => Ok(own),
        Err(fault) => Err(fault),
    }
}

// The same numbers.
fn numbers_of(alloc: Global, numbers: &Numbers) -> Result<Numbers, RowFault> {
    Ok(copy_numbers(alloc, numbers.as_slice())?)
}

// A disk in memory with these bytes, of which these calls fail.
fn failing_disk(alloc: Global, image: &[u8], failing: Numbers) -> Result<MemoryDisk, RowFault> {
    match copy_bytes(alloc, image) {
        Ok(bytes) => Ok(MemoryDisk::new(alloc, bytes, failing)?),
        Err(_) => Err(RowFault::NoMemory),
    }
}

// A disk in memory with these bytes, of which these calls fail.
fn disk_of(alloc: Global, image: &[u8], failing: &Numbers) -> Result<MemoryDisk, RowFault> {
    let failing = numbers_of(alloc, failing)?;
    failing_disk(alloc, image, failing)
}

// Two disks with these bytes, of which these calls fail.
fn disks_of(
    alloc: Global,
    a: &[u8],
    b: &[u8],
    fails_a: &Numbers,
    fails_b: &Numbers,
) -> Result<Disks, RowFault> {
    let a = disk_of(alloc, a, fails_a)?;
    match disk_of(alloc, b, fails_b) {
        Ok(b) => Ok(Disks { a, b }),
        Err(fault) => Err(fault),
    }
}

// Two disks with these bytes.
fn sound_disks(alloc: Global, a: &[u8], b: &[u8]) -> Result<Disks, RowFault> {
    let none = Numbers::new(alloc);
    disks_of(alloc, a, b, &none, &none)
}

// Runs a command over the disks with this input.
fn run_command<R: Threads + Wait + Sync>(
    rt: &R,
    alloc: Global,
    words: &Vec<String>,
    secrets: &Secrets,
    input: Bytes,
    output: &mut MemorySink,
    disks: Disks,
) -> Disks {
    let mut input = MemorySource::new(alloc, input, Numbers::new(alloc));
    let Disks { a, b } = disks;
    let Ended { status: _, a, b } = run_alone(rt, alloc, words, secrets, &mut input, output, a, b);
    Disks { a, b }
}

// Runs the command of these words over the disks with this input.
fn run_words<R: Threads + Wait + Sync>(
    rt: &R,
    alloc: Global,
    words: &str,
    secrets: &Secrets,
    input: Bytes,
    output: &mut MemorySink,
    disks: Disks,
) -> Result<Disks, RowFault> {
    match words_of(alloc, words) {
        Ok(words) => Ok(run_command(rt, alloc, &words, secrets, input, output, disks)),
        Err(fault) => Err(fault),
    }
}

// New disks after `init`.
fn new_store<R: Threads + Wait + Sync>(
    rt: &R,
    alloc: Global,
    secrets: &Secrets,
) -> Result<Disks, RowFault> {
    let disks = sound_disks(alloc, &[], &[])?;
    let mut output = MemorySink::new(alloc, Numbers::new(alloc));
    let input = Bytes::new(alloc);
    run_words(rt, alloc, "init", secrets, input, &mut output, disks)
}

// The disks after this script.
fn script_over<R: Threads + Wait + Sync>(
    rt: &R,
    alloc: Global,
    secrets: &Secrets,
    script: &Bytes,
    output: &mut MemorySink,
    disks: Disks,
) -> Result<Disks, RowFault> {
    match script.copy(alloc) {
        Ok(script) => run_words(rt, alloc, "script --stored", secrets, script, output, disks),
        Err(_) => Err(RowFault::NoMemory),
    }
}

// The disks after the operator's script.
fn set_up<R: Threads + Wait + Sync>(
    rt: &R,
    alloc: Global,
    secrets: &Secrets,
    script: &Bytes,
) -> Result<Disks, RowFault> {
    let disks = new_store(rt, alloc, secrets)?;
    let mut output = MemorySink::new(alloc, Numbers::new(alloc));
    script_over(rt, alloc, secrets, script, &mut output, disks)
}

// What the script of a case is told that opens disks with the bytes of these.
fn found_by<R: Threads + Wait + Sync>(
    rt: &R,
    alloc: Global,
    secrets: &Secrets,
    checks: &Bytes,
    disks: &Ended<MemoryDisk>,
) -> Result<Bytes, RowFault> {
    let disks = sound_disks(alloc, disks.a.image(), disks.b.image())?;
    let mut output = MemorySink::new(alloc, Numbers::new(alloc));
    match script_over(rt, alloc, secrets, checks, &mut output, disks) {
        Ok(_) => Ok(copy_bytes(alloc, output.held())?),
        Err(fault) => Err(fault),
    }
}

// What the command writes to.
fn output_of(alloc: Global, case: &Case) -> Result<MemorySink, RowFault> {
    let failing = numbers_of(alloc, &case.plans.output)?;
    Ok(MemorySink::new(alloc, failing))
}

// The nonces of the connections.
fn nonces_of(alloc: Global, case: &Case) -> Result<ListNonces, RowFault> {
    let failing = numbers_of(alloc, &case.plans.nonces)?;
    match case.nonces.copy(alloc) {
        Ok(nonces) => Ok(ListNonces::new(alloc, nonces, failing)),
        Err(_) => Err(RowFault::NoMemory),
    }
}

// The connections of the board.
fn net_of<'b>(alloc: Global, case: &'b Case) -> Result<RowListener<'b>, RowFault> {
    let failing = numbers_of(alloc, &case.plans.net)?;
    Ok(RowListener::new(&case.board, case.connections, failing))
}

// The ports of the command, of which these are made.
fn ports_with<'b>(
    alloc: Global,
    case: &'b Case,
    output: MemorySink,
    nonces: ListNonces,
) -> Result<Ports<'b>, RowFault> {
    match net_of(alloc, case) {
        Ok(net) => Ok(Ports {
            input: MemorySource::new(alloc, Bytes::new(alloc), Numbers::new(alloc)),
            output,
            nonces,
            net,
        }),
        Err(fault) => Err(fault),
    }
}

// The ports of the command.
fn ports_of<'b>(alloc: Global, case: &'b Case) -> Result<Ports<'b>, RowFault> {
    let output = output_of(alloc, case)?;
    match nonces_of(alloc, case) {
        Ok(nonces) => ports_with(alloc, case, output, nonces),
        Err(fault) => Err(fault),
    }
}

// Runs the command over these ports and disks.
fn serve_over<R: Threads + Wait + Sync + Eprint>(
    rt: &R,
    alloc: Global,
    secrets: &Secrets,
    case: &Case,
    ports: &mut Ports<'_>,
    disks: Disks,
) -> Ended<MemoryDisk> {
    let Disks { a, b } = disks;
    run(
        rt,
        alloc,
        case.command.words(),
        secrets,
        &mut ports.input,
        &mut ports.output,
        a,
        b,
        &case.board.clock,
        &mut ports.net,
        &mut ports.nonces,
    )
}

// Runs the command over these disks. Returns how it left them, and whether it ended as it has to.
fn serve_on<R: Threads + Wait + Sync + Eprint>(
    rt: &R,
    alloc: Global,
    secrets: &Secrets,
    case: &Case,
    disks: Disks,
) -> Result<(Ended<MemoryDisk>, bool), RowFault> {
    match ports_of(alloc, case) {
        Ok(mut ports) => {
            let ended = serve_over(rt, alloc, secrets, case, &mut ports, disks);
            let is_served = case.command.ends_with(ended.status, ports.output.held());
            Ok((ended, is_served))
        }
        Err(fault) => Err(fault),
    }
}

// Runs the command, which gives the connections of the board sessions over disks with the bytes of these. Returns how it left
// its disks, and whether it ended as it has to.
fn serve<R: Threads + Wait + Sync + Eprint>(
    rt: &R,
    alloc: Global,
    secrets: &Secrets,
    case: &Case,
    made: &Disks,
) -> Result<(Ended<MemoryDisk>, bool), RowFault> {
    let plans = &case.plans;
    let disks = disks_of(alloc, made.a.image(), made.b.image(), &plans.a, &plans.b)?;
    serve_on(rt, alloc, secrets, case, disks)
}

// Runs the command with the connections over disks with the bytes of these, and the script that looks at what is kept.
fn serve_and_look<R: Threads + Wait + Sync + Eprint>(
    rt: &R,
    alloc: Global,
    secrets: &Secrets,
    case: &Case,
    made: &Disks,
) -> Result<CaseEnd, RowFault> {
    let (disks, is_served) = serve(rt, alloc, secrets, case, made)?;
    match found_by(rt, alloc, secrets, &case.checks, &disks) {
        Ok(found) => Ok(CaseEnd {
            outcome: case.board.outcome(),
            is_served,
            found,
        }),
        Err(fault) => Err(fault),
    }
}

// Runs the case under these secrets.
fn run_under<R: Threads + Wait + Sync + Eprint>(
    rt: &R,
    alloc: Global,
    secrets: &Secrets,
    case: &Case,
) -> Result<CaseEnd, RowFault> {
    let made = set_up(rt, alloc, secrets, &case.script)?;
    serve_and_look(rt, alloc, secrets, case, &made)
}

/// Runs the case.
pub fn run_case<R: Threads + Wait + Sync + Eprint>(
    rt: &R,
    alloc: Global,
    case: &Case,
) -> Result<CaseEnd, RowFault> {
    match Secrets::parse(alloc, case.secrets.as_slice()) {
        Ok(secrets) => run_under(rt, alloc, &secrets, case),
        Err(_) => Err(RowFault::BadRow),
    }
}
