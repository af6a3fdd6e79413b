//! A session whose checker waits until another session has made a file.
//!
//! If a proof were checked under the lock, the other session would have no turn, and the checker would wait in vain. If the
//! other session withdraws what the proof cites before it makes its file, nothing is issued.

ghost use Rattle.std.specs.Prelude.{◌≡◌, [], None, IfSome};
ghost use Rattle.std.specs.List.{AllByRecursion};
ghost use Rattle.journal_records.specs.EventSpelling.{IsReadEvent};

use crate::connection::{Hearer, Speaker, Speech, Speeches};
use crate::meeting::{FIRST_IS_AT_HAND, Meeting, SECOND_WAS_TOLD};
use crate::pair::{Errand, both_at_once};
use crate::setting::{Setting, speeches_of};
use bl_syntax::Goal;
use pcfs_ports::{Disk, MemoryDisk};
use pcfs_store::Store;
use pcfs_top::run::Ended;
use policy_statement::Keyring;
use proof_term::ProofTree;
use proof_verifier::{CheckFault, Checked, Cites, check};
use recover::open_store;
use session_lines::Checker;
use session_service::{SessionEnd, serve_session_with};
use shared_store::OpenedStore;
use std::alloc::Global;
use std::sync::Wait;
use std::thread::Threads;
use tree_lock::{Doorman, Pass, Recorded, TreeLock};

const SET_UP: &str = "at 100
register - admin says may(alice,#1,write) from -inf to +inf
register - admin says may(bob,#1,write) from -inf to +inf
verify bob #1 write 2 saysR(claim(0,init(1)))
";

// What alice asks: a proof.
const PROVING: &str = "verify alice #1 write 1 saysR(claim(0,init(1)))\n";

// What bob asks: a file.
const MAKING: &str =
    "do create #1 made 470203626f6200000000000000010200000100000002be87b0564a321b39fc1d685d3ca0e2bd0f94ec35f41654673fdc4d0480a0bb50\n";

// What bob asks: that the statement which alice's proof cites is withdrawn, by the signature of who said it; and a file.
const WITHDRAWING: &str =
    "withdraw 1 6913177a6c16f1e3c2c4885cb4b6bff1a84f0f7e358882d156f676a359937b4f
do create #1 made 470203626f6200000000000000010200000100000002be87b0564a321b39fc1d685d3ca0e2bd0f94ec35f41654673fdc4d0480a0bb50
";

// Checks a proof once the other session was told that its file was made.
#[derive(Drop)]
struct WaitingChecker<'a> {
    meeting: &'a Meeting,
}

impl<'a> Checker for WaitingChecker<'a> {
    fn check(
        &mut self,
        alloc: Global,
        cited: &Cites,
        goal: &Goal,
        proof: &ProofTree,
    ) -> Result<Checked, CheckFault> {
        self.meeting.advance();
        self.meeting.wait_for(SECOND_WAS_TOLD);
        check(alloc, cited, goal, proof)
    }
}

// A session.
#[derive(Drop)]
struct Talk<'a, V: Recorded> {
    alloc: Global,
    lock: &'a TreeLock<V>,
    pass: Pass<V>,
    meeting: &'a Meeting,
    speech: Speech<'a>,
}

impl<'a, R: Wait, D: Disk + Send> Errand<R> for Talk<'a, OpenedStore<D>> {
    ghost use Rattle.std.specs.Prelude.{◌≡◌};

    ghost ready = { λ it. it.pass.lock ≡ it.lock.now };

    fn go(self, rt: &R) -> bool {
        let Talk {
            alloc,
            lock,
            mut pass,
            meeting,
            speech,
        } = self;
        let end = serve_session_with(
            rt,
            alloc,
            lock,
            &mut pass,
            &mut Speaker::new(meeting, speech),
            &mut Hearer::new(meeting),
            meeting,
            [0; 16],
            &mut WaitingChecker { meeting },
        );
        end == SessionEnd::Done
    }
}

// Opens the store on the disks under this ring; none if that fails.
fn open_under(
    alloc: Global,
    seal_key: &[u8],
    ring: Keyring,
    disks: Ended<MemoryDisk>,
) -> Option<Store<MemoryDisk>>
    ensures running { IfSome result (λ store. store.stop ≡ None) }
    ensures unsettled { IfSome result (λ store. store.checkpoints ≡ []) }
    ensures each { IfSome result (λ store. AllByRecursion IsReadEvent store.events) }
{
    let Ended { status: _, a, b } = disks;
    match open_store(alloc, a, b, seal_key, ring) {
        Ok(store) => Some(store),
        Err(_) => None,
    }
}

// Opens the store on the disks; none if that fails.
fn open(alloc: Global, setting: &Setting, disks: Ended<MemoryDisk>) -> Option<Store<MemoryDisk>>
    ensures running { IfSome result (λ store. store.stop ≡ None) }
    ensures unsettled { IfSome result (λ store. store.checkpoints ≡ []) }
    ensures each { IfSome result (λ store. AllByRecursion IsReadEvent store.events) }
{
    match setting.secrets.ring.copy(alloc) {
        Ok(ring) => open_under(alloc, setting.secrets.seal_key.as_slice(), ring, disks),
        Err(_) => None,
    }
}

// Whether both sessions under the lock came to their ends, each in a thread of its own.
fn talk_under<R: Threads + Wait + Sync, D: Disk + Send>(
    rt: &R,
    alloc: Global,
    lock: &TreeLock<OpenedStore<D>>,
    door: &mut Doorman<OpenedStore<D>>,
    meeting: &Meeting,
    speeches: Speeches<'_>,
) -> bool
    requires lock { door.old.lock ≡ lock.now }
    requires unmade { door.old.made ≡ 0 }
{
    let first = Talk {
        alloc,
        lock,
        pass: lock.pass(door),
        meeting,
        speech: speeches.first,
    };
    let second = Talk {
        alloc,
        lock,
        pass: lock.pass(door),
        meeting,
        speech: speeches.second,
    };
    both_at_once(rt, first, second)
}

// Whether both sessions over the store came to their ends.
fn talk_at_once<R: Threads + Wait + Sync, D: Disk + Send + Drop>(
    rt: &R,
    alloc: Global,
    meeting: &Meeting,
    speeches: Speeches<'_>,
    store: Store<D>,
) -> bool
    requires running { store.stop ≡ None }
    requires each { AllByRecursion IsReadEvent store.events }
    requires unsettled { store.checkpoints ≡ [] }
{
    let opened = OpenedStore::new(store);
    match TreeLock::new(alloc, opened) {
        Ok((lock, mut door)) => talk_under(rt, alloc, &lock, &mut door, meeting, speeches),
        Err(_) => false,
    }
}

// Whether both sessions over the disks came to their ends.
fn talk_over<R: Threads + Wait + Sync>(
    rt: &R,
    alloc: Global,
    setting: &Setting,
    meeting: &Meeting,
    speeches: Speeches<'_>,
    disks: Ended<MemoryDisk>,
) -> bool {
    match open(alloc, setting, disks) {
        Some(store) => talk_at_once(rt, alloc, meeting, speeches, store),
        None => false,
    }
}

// Whether all is as wanted at this meeting, and so many are told that statement 1 is absent.
fn meet<R: Threads + Wait + Sync>(
    rt: &R,
    alloc: Global,
    setting: &Setting,
    meeting: &Meeting,
    speeches: Speeches<'_>,
    absences: usize,
) -> Option<bool> {
    let disks = setting.set_up(rt, alloc, SET_UP)?;
    let ended = talk_over(rt, alloc, setting, meeting, speeches, disks);
    Some(ended && meeting.went_well(4, 1) && meeting.absences() == absences)
}

// Whether all is as wanted, and so many were told that statement 1 is absent, if bob asks this; none if there is no memory.
fn agrees<R: Threads + Wait + Sync>(
    rt: &R,
    alloc: Global,
    setting: &Setting,
    asked: &str,
    absences: usize,
) -> Option<bool> {
    let meeting = Meeting::new(alloc, 3, false)?;
    let speeches = speeches_of(PROVING.as_bytes(), FIRST_IS_AT_HAND, asked.as_bytes());
    meet(rt, alloc, setting, &meeting, speeches, absences)
}

/// Whether one session has a turn while the proof of another is checked.
pub fn proof_is_checked_outside_turns<R: Threads + Wait + Sync + AllocGlobal>(
    rt: &R,
    setting: &Setting,
) -> bool {
    agrees(rt, rt.alloc(), setting, MAKING, 0) == Some(true)
}

/// Whether nothing is issued by a proof from a statement that is withdrawn while it is checked.
pub fn withdrawn_meanwhile_is_absent<R: Threads + Wait + Sync + AllocGlobal>(
    rt: &R,
    setting: &Setting,
) -> bool {
    agrees(rt, rt.alloc(), setting, WITHDRAWING, 1) == Some(true)
}
