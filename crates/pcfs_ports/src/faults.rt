//! Faults: the one error of a port, and the calls of a port in memory that are to fail.

ghost use Rattle.std.specs.Prelude.{◌≡◌, ◌≤◌, ◌↔◌, IsTrue};
ghost use Rattle.pcfs_ports.specs.Calls.{no_calls, no_fused_calls, FailsNext, after_call, after_failed_call};

use bl_syntax::Numbers;
use std::alloc::Global;
use std::marker::Model;

/// The one fault of a port.
#[derive(Clone, Copy, Debug, PartialEq, Eq)]
pub struct Failed;

/// Counts the calls of a port in memory, and knows which of them are to fail.
#[derive(Debug, Drop)]
pub struct CallPlan {
    failing: Numbers,
    // The number from which on all calls fail.
    fuse: Option<u64>,
    made: u64,
    faults: u64,
    // Whether the last call failed.
    broken: bool,
}

impl Model for CallPlan {
    ghost use Rattle.pcfs_ports.specs.Calls.{CallPlanView};

    ghost Value = { CallPlanView };

    ghost view = { λ s. record { failing = s.failing; fuse = s.fuse; made = s.made; faults = s.faults; broken = s.broken } };
}

impl CallPlan {
    /// No call was made.
    pub fn new(failing: Numbers) -> CallPlan
        ensures { result ≡ no_calls failing }
    {
        CallPlan {
            failing,
            fuse: None,
            made: 0,
            faults: 0,
            broken: false,
        }
    }

    /// No call was made, and all fail from this number on. It takes no memory.
    pub fn fused(alloc: Global, first: u64) -> CallPlan
        ensures { result ≡ no_fused_calls first }
    {
        CallPlan {
            failing: Numbers::new(alloc),
            fuse: Some(first),
            made: 0,
            faults: 0,
            broken: false,
        }
    }

    /// Whether the next call is to fail.
    pub fn is_next_to_fail(&self) -> bool
        ensures { IsTrue result ↔ FailsNext self.now }
    {
        let next = self.made;
        if self.fuse.is_some_and(|first| first <= next) {
            return true;
        }
        self.failing
            .as_slice()
            .iter()
            .any(|number| u64::from(*number) == next)
    }

    /// Counts a call.
    pub fn count(&mut self)
        ensures { self.new ≡ after_call self.old }
    {
        self.made = self.made.saturating_add(1);
        self.broken = false;
    }

    /// Counts a call that fails.
    pub fn count_failed(&mut self)
        ensures counted { self.new ≡ after_failed_call self.old }
        ensures never_falls { self.old.faults ≤ self.new.faults }
    {
        self.made = self.made.saturating_add(1);
        self.faults = self.faults.saturating_add(1);
        self.broken = true;
    }
}
