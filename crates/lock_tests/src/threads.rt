//! Passes that count, each in a thread of its own.
ghost use Rattle.std.specs.Prelude.{◌≡◌, ℕ, ◌≤◌, ◌+◌, true, [], ◌++◌, length, vec_len, All, IfSome};
ghost use Rattle.lock_tests.specs.Counting.{count_so_far, HasCounted, HaveCounted, IsNewPass};
ghost use Rattle.tree_lock.specs.Entries.{of_number};

use crate::log::{Log, Note};
use std::alloc::Global;
use std::sync::Wait;
use std::thread::{Threads, map_vec};
use tree_lock::{Doorman, Pass, TreeLock};

/// Counts, in a turn for each number, and says whether there was memory for all.
pub fn take_turns<R: Wait>(
    rt: &R,
    lock: &TreeLock<Log>,
    mut pass: Pass<Log>,
    count: u64,
) -> (Pass<Log>, bool)
    requires { pass.lock ≡ lock.now }
    ensures pass { (result.0.lock ≡ pass.lock) × (result.0.number ≡ pass.number) }
    ensures own { result.1 ≡ true → result.0.own ≡ pass.own ++ count_so_far pass.number count }
{
    for number in 0..count {
        if !lock.turn(rt, &mut pass, Note { number }) {
            return (pass, false);
        }
    }
    (pass, true)
}

// So many new passes. `None` if memory runs out.
fn new_passes(
    alloc: Global,
    lock: &TreeLock<Log>,
    door: &mut Doorman<Log>,
    passes: u32,
) -> Option<Vec<Pass<Log>>>
    requires { (door.old.lock ≡ lock.now) × (door.old.made ≡ 0) × (door.old.retired ≡ []) }
    ensures passes { IfSome result (λ v. All (IsNewPass lock.now) v.items) }
    ensures door { IfSome result (λ _. (door.new.lock ≡ lock.now) × (door.new.made ≡ passes) × (door.new.retired ≡ [])) }
{
    let mut all = Vec::new(alloc);
    for _ in 0..passes {
        all.push(lock.pass(door)).ok()?;
    }
    Some(all)
}

// Takes passes in that have counted, and says whether each had memory for all.
fn retire_all(
    lock: &TreeLock<Log>,
    door: &mut Doorman<Log>,
    mut turned: Vec<(Pass<Log>, bool)>,
    count: u64,
) -> bool
    requires door { (door.old.lock ≡ lock.now) × (door.old.retired ≡ []) }
    requires turned { All (HasCounted lock.now count) turned.items }
    ensures { result ≡ true →
        (door.new.lock ≡ lock.now) × (door.new.made ≡ door.old.made) × HaveCounted count door.new.retired × (length door.new.retired ≡ vec_len turned) }
{
    let _ = count;
    while let Some((pass, done)) = turned.pop() {
        if !done {
            return false;
        }
        lock.retire(door, pass);
    }
    true
}

/// So many passes count, each in a thread of its own. In the log are then, under each pass's number, the numbers from 0 on,
/// in order and each once. `None` if memory runs out.
pub fn count_in_threads<R: Threads + Wait + Sync>(
    rt: &R,
    alloc: Global,
    passes: u32,
    count: u64,
) -> Option<Log>
    ensures { IfSome result (λ log. (n : ℕ) → 1 ≤ n → n ≤ passes → of_number n log.notes.items ≡ count_so_far n count) }
{
    let (lock, mut door) = TreeLock::new(alloc, Log::new(alloc)).ok()?;
    let all = new_passes(alloc, &lock, &mut door, passes)?;
    let shared = &lock;
    let turned = map_vec(
        rt,
        all,
        &|pass: Pass<Log>| -> (Pass<Log>, bool)
            requires { pass.lock ≡ shared.now }
            ensures pass { (result.0.lock ≡ pass.lock) × (result.0.number ≡ pass.number) }
            ensures own { result.1 ≡ true →
                result.0.own ≡ pass.own ++ count_so_far pass.number count }
        { take_turns(rt, shared, pass, count) },
    )
    .ok()?;
    if !retire_all(&lock, &mut door, turned, count) || door.out() > 0 {
        return None;
    }
    Some(lock.close(door))
}
