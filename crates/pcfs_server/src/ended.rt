//! Which threads have ended.

use std::alloc::{AllocError, Global};
use std::sync::{Condvar, Mutex, Wait};

/// The keys of the threads that have ended and were not joined yet.
///
/// A thread reports its key as the last thing that it does. Who waits for one sleeps until then.
#[derive(Drop)]
pub(crate) struct EndedThreads {
    keys: Mutex<Vec<usize>>,
    bell: Condvar,
}

impl EndedThreads {
    pub(crate) fn new(alloc: Global) -> EndedThreads {
        EndedThreads {
            keys: Mutex::new(Vec::new(alloc)),
            bell: Condvar::new(),
        }
    }

    /// Takes the room for so many keys together.
    pub(crate) fn reserve<R: Wait>(&self, rt: &R, count: usize) -> Result<(), AllocError> {
        let mut keys = self.keys.lock(rt);
        let more = count.saturating_sub(keys.len());
        keys.reserve(more)
    }

    /// Tells that the thread of this key has ended. There is room for its key.
    pub(crate) fn report<R: Wait>(&self, rt: &R, key: usize) {
        let mut keys = self.keys.lock(rt);
        let _ = keys.push(key);
        drop(keys);
        self.bell.notify_one();
    }

    /// Takes the key of a thread that has ended. With `waits` it waits until there is one.
    pub(crate) fn take<R: Wait>(&self, rt: &R, waits: bool) -> Option<usize> {
        let keys = self.keys.lock(rt);
        let mut keys = if waits {
            self.bell.wait_while(rt, keys, |keys| keys.is_empty())
        } else {
            keys
        };
        keys.pop()
    }

    /// Forgets a key that was reported.
    pub(crate) fn forget<R: Wait>(&self, rt: &R, key: usize) {
        let mut keys = self.keys.lock(rt);
        keys.retain(|other| *other != key);
    }
}
