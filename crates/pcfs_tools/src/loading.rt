//! A large run: a generated script over a store in memory, and how many replies of each kind it had.

ghost use Rattle.std.specs.Prelude.{◌≡◌, ◌≤◌, ◌<◌, ◌+◌, ◌-◌, ◌^◌, ◌++◌, ◌⊎◌, [], ℕ, List, None, IfOk, OnOk, length, if◌then◌else◌};
ghost use Rattle.generated_script.specs.declared.script.TheConstants.{MOST_ROUNDS};
ghost use Rattle.line_text.specs.Lines.{lines_of};
ghost use Rattle.pcfs_session.specs.ScriptContext.{first_asker};
ghost use Rattle.pcfs_session.specs.InterpreterView.{standing_over};
ghost use Rattle.pcfs_session.specs.ScriptEnds.{with_line_end};
ghost use Rattle.pcfs_session.specs.ScriptRun.{IsLawfulStanding, script_pass};
ghost use Rattle.pcfs_tools.specs.LastLine.{Wrote, WroteNothing};
ghost use Rattle.pcfs_tools.specs.Load.{IsLoaded, IsRunThrough, begins_with_word, count_of, load_secrets, summary_of, summary_text};

use crate::answering::{DONE, OUT_OF_MEMORY, run_over, write_last_line};
use crate::memory::{ENOUGH, memory_store};
use bl_syntax::decimal::put_counted;
use bl_syntax::{Bytes, NoMemory, Numbers, Principal};
use generated_script::generated_script;
use line_text::first_line;
use line_words::first_word;
use pcfs_ports::{Disk, MemorySink, MemorySource, Sink};
use pcfs_secrets::Secrets;
use pcfs_store::Store;
use policy_statement::Keyring;
use std::alloc::Global;

/// The key of the seal in a large run.
const SEAL_KEY: u8 = 2;

/// The key of `admin` in a large run.
const ADMIN_KEY: u8 = 1;

// The secrets of a large run: the key of the seal is one byte, and `admin` has a key of another one.
fn load_secrets(alloc: Global) -> Result<Secrets, NoMemory>
    ensures { IfOk result (λ secrets. secrets ≡ load_secrets) }
{
    let mut seal_key = Bytes::new(alloc);
    seal_key.push(SEAL_KEY)?;
    let mut ring = Keyring::new(alloc);
    match ring.add(Principal::new(b"admin").unwrap(), &[ADMIN_KEY]) {
        Ok(()) => Ok(Secrets { seal_key, ring }),
        Err(_) => Err(NoMemory),
    }
}

// Whether this is the first word of the reply.
fn begins_with_word(reply: &[u8], word: &str) -> bool
    ensures { result ≡ begins_with_word word.now reply.now }
{
    let (first, _) = first_word(reply);
    first == word.as_bytes()
}

// The count with one more, if there is one more to count.
fn counted(count: usize, is_one: bool) -> usize
    requires { count < 2 ^ 64 - 1 }
    ensures { result ≡ (if is_one then count + 1 else count) }
{
    if is_one { count + 1 } else { count }
}

// How many replies there are.
fn reply_count(replies: &[u8]) -> usize
    ensures { result ≡ length (lines_of replies.now) }
{
    let mut count = 0;
    let mut rest = replies;
    while let Some((_, others)) = first_line(rest) {
        count += 1;
        rest = others;
    }
    count
}

// How many of the replies begin with this word.
fn count_of(replies: &[u8], word: &str) -> usize
    ensures { result ≡ count_of word.now (lines_of replies.now) }
{
    let mut count = 0;
    let mut rest = replies;
    while let Some((reply, others)) = first_line(rest) {
        count = counted(count, begins_with_word(reply, word));
        rest = others;
    }
    count
}

// Writes how many lines there are, how many of each kind, and the number of the last event.
fn put_summary(
    out: &mut Bytes,
    lines: u64,
    done: u64,
    denied: u64,
    refused: u64,
    others: u64,
    events: u64,
) -> Result<(), NoMemory>
    ensures { OnOk result (out.new ≡ out.old ++ summary_of lines done denied refused others events) }
{
    put_counted(out, "lines ", lines)?;
    put_counted(out, " ok ", done)?;
    put_counted(out, " denied ", denied)?;
    put_counted(out, " refused ", refused)?;
    put_counted(out, " other ", others)?;
    put_counted(out, " events ", events)
}

// The line that tells how many replies there are of each kind, and the number of the last event.
fn summary(alloc: Global, replies: &[u8], events: u64) -> Result<Bytes, NoMemory>
    ensures { IfOk result (λ line. line ≡ with_line_end (summary_text (lines_of replies.now) events)) }
{
    let all = reply_count(replies);
    let done = count_of(replies, "ok");
    let denied = count_of(replies, "denied");
    let refused = count_of(replies, "refused");
    let others = all
        .saturating_sub(done)
        .saturating_sub(denied)
        .saturating_sub(refused);
    let mut line = Bytes::new(alloc);
    put_summary(
        &mut line,
        all as u64,
        done as u64,
        denied as u64,
        refused as u64,
        others as u64,
        events,
    )?;
    line.push(b'\n')?;
    Ok(line)
}

// Runs the script over the store, writes its replies, and returns the status that it ends with, and the number of the last
// event.
fn run_bytes<D: Disk + Drop>(
    alloc: Global,
    store: Store<D>,
    script: Bytes,
    output: &mut MemorySink,
) -> (u8, u64)
    requires lawful { IsLawfulStanding (standing_over store None (first_asker script_pass)) }
    requires running { store.stop ≡ None }
    ensures { (told : List ℕ) → output.old.held ≡ [] → result.0 ≡ 0 →
        told ≡ summary_text (lines_of output.new.held) result.1 →
        IsRunThrough (standing_over store None (first_asker script_pass)) script told }
{
    let mut input = MemorySource::new(alloc, script, Numbers::new(alloc));
    let (status, after) = run_over(alloc, store, &mut input, ENOUGH, output);
    (status, after.gate().history().count())
}

// Runs the script over the store, and returns the line that tells of it; out of memory also if it was not run to its end,
// since all ports are in memory.
fn run_script<D: Disk + Drop>(
    alloc: Global,
    store: Store<D>,
    script: Bytes,
) -> Result<Bytes, NoMemory>
    requires lawful { IsLawfulStanding (standing_over store None (first_asker script_pass)) }
    requires running { store.stop ≡ None }
    ensures { IfOk result (λ line. (told : List ℕ) × (line ≡ with_line_end told)
        × IsRunThrough (standing_over store None (first_asker script_pass)) script told) }
{
    let mut output = MemorySink::new(alloc, Numbers::new(alloc));
    let (status, events) = run_bytes(alloc, store, script, &mut output);
    if status == DONE {
        summary(alloc, output.held(), events)
    } else {
        Err(NoMemory)
    }
}

// Runs the generated script over a store in memory, and returns the line that tells of it.
fn run_generated(alloc: Global, rounds: u64, seed: u64) -> Result<Bytes, NoMemory>
    requires { rounds ≤ MOST_ROUNDS }
    ensures { IfOk result (λ line. (told : List ℕ) × (line ≡ with_line_end told) × IsLoaded rounds seed told) }
{
    let script = generated_script(alloc, rounds, seed)?;
    let secrets = load_secrets(alloc)?;
    match memory_store(alloc, &secrets) {
        Ok(store) => run_script(alloc, store, script),
        Err(refused) => Err(refused),
    }
}

/// Runs the script that so many rounds and this seed generate over a store in memory, writes how many replies of each kind
/// it had, and returns the status to end with.
pub fn load<O: Sink>(alloc: Global, rounds: u64, seed: u64, output: &mut O) -> u8
    requires { rounds ≤ MOST_ROUNDS }
    ensures { ((told : List ℕ) × IsLoaded rounds seed told × Wrote 0 told (O.held output.old)
        (O.faults output.old) result (O.held output.new) (O.faults output.new) (O.broken output.new))
        ⊎ WroteNothing (O.held output.old) (O.faults output.old) result (O.held output.new) (O.faults output.new) }
{
    match run_generated(alloc, rounds, seed) {
        Ok(line) => write_last_line(output, line.as_slice(), DONE),
        Err(_) => OUT_OF_MEMORY,
    }
}
