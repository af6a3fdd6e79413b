//! What each case begins with: keys, the words of commands, what two users say, and disks after an operator's script; and what
//! it does with them.

use crate::connection::{Speech, Speeches};
use crate::meeting::BOTH_ARE_IN;
use bl_syntax::{Bytes, Numbers, copy_bytes};
use pcfs_ports::{Clock, ListNonces, Listener, MemoryDisk, MemorySink, MemorySource};
use pcfs_run::run;
use pcfs_secrets::Secrets;
use pcfs_top::run::{Ended, run_alone};
use std::alloc::Global;
use std::io::Eprint;
use std::sync::Wait;
use std::thread::Threads;

const SECRETS: &str = "seal 6f6e65\nkey admin 61\nkey alice 62\nkey bob 63\n";

/// How alice logs in, over a nonce of zeros.
pub const ALICE: &str =
    "login alice cf6ed2b39a698aba8a337f2f4397c514edf2fd860a90dad7a5b7177ce7aa8fee\n";

/// How bob logs in, over a nonce of zeros.
const BOB: &str = "login bob 8c747c2e83ff4cc228462cb3a09e77c1bc7df6397add9e18ea6c2d031f1735ce\n";

// The words of commands. The one that serves serves two connections.
#[derive(Drop)]
struct Words {
    init: Vec<String>,
    script: Vec<String>,
    serve: Vec<String>,
}

/// Keys, and the words of commands.
#[derive(Drop)]
pub struct Setting {
    pub secrets: Secrets,
    words: Words,
}

// These bytes; none if there is no memory.
fn bytes_of(alloc: Global, text: &[u8]) -> Option<Bytes> {
    copy_bytes(alloc, text).ok()
}

// Adds these words; none if there is no memory.
fn add_words(alloc: Global, words: &str, own: &mut Vec<String>) -> Option<()> {
    for word in words.split(' ') {
        own.push(word.to_string(alloc).ok()?).ok()?;
    }
    Some(())
}

// These words.
fn words_of(alloc: Global, words: &str) -> Option<Vec<String>> {
    let mut own = Vec::new(alloc);
    match add_words(alloc, words, &mut own) {
        Some(()) => Some(own),
        None => None,
    }
}

// The words of all commands, of which these are the first.
fn words_with(alloc: Global, init: Vec<String>, script: Vec<String>) -> Option<Words> {
    match words_of(alloc, "serve 4040 2") {
        Some(serve) => Some(Words {
            init,
            script,
            serve,
        }),
        None => None,
    }
}

// The words of all commands.
fn all_words(alloc: Global) -> Option<Words> {
    let init = words_of(alloc, "init")?;
    match words_of(alloc, "script --stored") {
        Some(script) => words_with(alloc, init, script),
        None => None,
    }
}

// Two empty disks.
fn new_disks(alloc: Global) -> Option<Ended<MemoryDisk>> {
    let a = MemoryDisk::new(alloc, Bytes::new(alloc), Numbers::new(alloc)).ok()?;
    match MemoryDisk::new(alloc, Bytes::new(alloc), Numbers::new(alloc)) {
        Ok(b) => Some(Ended { status: 0, a, b }),
        Err(_) => None,
    }
}

/// What alice says, and what bob says at this stage.
pub fn speeches_of<'b>(alice: &'b [u8], awaits: usize, bob: &'b [u8]) -> Speeches<'b> {
    Speeches {
        first: Speech {
            login: ALICE.as_bytes(),
            awaits: BOTH_ARE_IN,
            rest: alice,
        },
        second: Speech {
            login: BOB.as_bytes(),
            awaits,
            rest: bob,
        },
    }
}

impl Setting {
    /// None if there is no memory.
    pub fn new(alloc: Global) -> Option<Setting> {
        let words = all_words(alloc)?;
        match Secrets::parse(alloc, SECRETS.as_bytes()) {
            Ok(secrets) => Some(Setting { secrets, words }),
            Err(_) => None,
        }
    }

    // The disks after a command over these with this input.
    fn run_command<R: Threads + Wait + Sync>(
        &self,
        rt: &R,
        alloc: Global,
        words: &Vec<String>,
        input: Bytes,
        output: &mut MemorySink,
        disks: Ended<MemoryDisk>,
    ) -> Ended<MemoryDisk> {
        let mut input = MemorySource::new(alloc, input, Numbers::new(alloc));
        let Ended { status: _, a, b } = disks;
        run_alone(rt, alloc, words, &self.secrets, &mut input, output, a, b)
    }

    /// The disks after a script over these; none if there is no memory.
    pub fn add_script<R: Threads + Wait + Sync>(
        &self,
        rt: &R,
        alloc: Global,
        script: &str,
        output: &mut MemorySink,
        disks: Ended<MemoryDisk>,
    ) -> Option<Ended<MemoryDisk>> {
        match bytes_of(alloc, script.as_bytes()) {
            Some(script) => Some(self.run_command(
                rt,
                alloc,
                &self.words.script,
                script,
                output,
                disks,
            )),
            None => None,
        }
    }

    /// New disks after an operator's script; none if there is no memory.
    pub fn set_up<R: Threads + Wait + Sync>(
        &self,
        rt: &R,
        alloc: Global,
        script: &str,
    ) -> Option<Ended<MemoryDisk>> {
        let disks = new_disks(alloc)?;
        let mut output = MemorySink::new(alloc, Numbers::new(alloc));
        let none = Bytes::new(alloc);
        let disks = self.run_command(rt, alloc, &self.words.init, none, &mut output, disks);
        self.add_script(rt, alloc, script, &mut output, disks)
    }

    // Serves two connections with these nonces over the disks. Returns the disks, and whether two were served.
    fn serve_with<R: Threads + Wait + Sync + Eprint, C: Clock + Sync, L: Listener + Sync>(
        &self,
        rt: &R,
        alloc: Global,
        clock: &C,
        net: &mut L,
        nonces: Bytes,
        disks: Ended<MemoryDisk>,
    ) -> (Ended<MemoryDisk>, bool) {
        let mut none = MemorySource::new(alloc, Bytes::new(alloc), Numbers::new(alloc));
        let mut output = MemorySink::new(alloc, Numbers::new(alloc));
        let mut nonces = ListNonces::new(alloc, nonces, Numbers::new(alloc));
        let Ended { status: _, a, b } = disks;
        let ended = run(
            rt,
            alloc,
            &self.words.serve,
            &self.secrets,
            &mut none,
            &mut output,
            a,
            b,
            clock,
            net,
            &mut nonces,
        );
        let is_served = ended.status == 0 && output.held() == b"served 2\n".as_slice();
        (ended, is_served)
    }

    /// Serves two connections, whose nonces are zeros, over the disks. Returns the disks, and whether two were served; none if
    /// there is no memory.
    pub fn serve<R: Threads + Wait + Sync + Eprint, C: Clock + Sync, L: Listener + Sync>(
        &self,
        rt: &R,
        alloc: Global,
        clock: &C,
        net: &mut L,
        disks: Ended<MemoryDisk>,
    ) -> Option<(Ended<MemoryDisk>, bool)> {
        match bytes_of(alloc, &[0; 32]) {
            Some(nonces) => Some(self.serve_with(rt, alloc, clock, net, nonces, disks)),
            None => None,
        }
    }
}
