//! How far two sessions have come, and what they were told.

ghost use Rattle.bl_syntax.specs.TimeOrder.{IsMoment};

use pcfs_ports::{Clock, SetClock};
use std::alloc::Global;
use std::sync::atomic::{AtomicBool, AtomicUsize, Ordering};
use std::{str, thread};

/// How often somebody looks whether it is so far, before they give up.
const LOOKS: u32 = 20_000_000;

/// Both have logged in.
pub const BOTH_ARE_IN: usize = 2;

/// The first has asked.
const FIRST_HAS_ASKED: usize = 3;

/// What the first has asked is at hand: its proof is checked, or the clock is read in its turn.
pub const FIRST_IS_AT_HAND: usize = 4;

/// The second has asked.
const SECOND_HAS_ASKED: usize = 5;

/// The second was told that its file was made.
pub const SECOND_WAS_TOLD: usize = 6;

/// What two sessions share. It is their clock as well.
#[derive(Drop)]
pub struct Meeting {
    clock: SetClock,
    holds_clock: bool,
    stage: AtomicUsize,
    is_in_vain: AtomicBool,
    replies: AtomicUsize,
    absences: AtomicUsize,
    nodes: Vec<AtomicBool>,
    is_wrong: AtomicBool,
}

// Adds that of so many nodes none was told.
fn add_untold(count: usize, nodes: &mut Vec<AtomicBool>) -> Option<()> {
    for _ in 0..count {
        nodes.push(AtomicBool::new(false)).ok()?;
    }
    Some(())
}

// That of so many nodes none was told.
fn untold(alloc: Global, count: usize) -> Option<Vec<AtomicBool>> {
    let mut nodes = Vec::new(alloc);
    match add_untold(count, &mut nodes) {
        Some(()) => Some(nodes),
        None => None,
    }
}

impl Meeting {
    /// Nobody has logged in, and it is second 100. Nodes below this number can be told. If `holds_clock`, reading the clock takes
    /// the first one's operation so long that the second asks meanwhile, and then it is second 200.
    pub fn new(alloc: Global, node_count: usize, holds_clock: bool) -> Option<Meeting> {
        match untold(alloc, node_count) {
            Some(nodes) => Some(Meeting {
                clock: SetClock::new(100),
                holds_clock,
                stage: AtomicUsize::new(0),
                is_in_vain: AtomicBool::new(false),
                replies: AtomicUsize::new(0),
                absences: AtomicUsize::new(0),
                nodes,
                is_wrong: AtomicBool::new(false),
            }),
            None => None,
        }
    }

    /// It is one stage further.
    pub fn advance(&self) {
        self.stage.fetch_add(1, Ordering::SeqCst);
    }

    /// Waits until it is so far, or gives up.
    pub fn wait_for(&self, stage: usize) {
        for _ in 0..LOOKS {
            if stage <= self.stage.load(Ordering::SeqCst) {
                return;
            }
            thread::yield_now();
        }
        self.is_in_vain.store(true, Ordering::SeqCst);
    }

    // Notes that this node was told, which nobody was told before.
    fn note_node(&self, text: &str) {
        let node = match text.parse::<usize>() {
            Ok(number) => self.nodes.get(number),
            Err(_) => None,
        };
        match node {
            Some(is_told) => {
                if is_told.swap(true, Ordering::SeqCst) {
                    self.is_wrong.store(true, Ordering::SeqCst);
                }
            }
            None => self.is_wrong.store(true, Ordering::SeqCst),
        }
    }

    /// Notes what somebody is told.
    pub fn note_reply(&self, reply: &str) {
        if reply.starts_with("ok") {
            self.replies.fetch_add(1, Ordering::SeqCst);
        }
        if reply.trim_end() == "absent 1" {
            self.absences.fetch_add(1, Ordering::SeqCst);
        }
        if let Some(text) = reply.strip_prefix("ok node #") {
            self.note_node(text.trim_end());
            self.advance();
        }
    }

    /// How many were told that statement 1 is absent.
    pub fn absences(&self) -> usize {
        self.absences.load(Ordering::SeqCst)
    }

    // How many nodes were told.
    fn noted_count(&self) -> usize {
        self.nodes
            .iter()
            .filter(|is_told| is_told.load(Ordering::SeqCst))
            .count()
    }

    /// Whether nobody waited in vain, so many replies were `ok`, and each of so many nodes from 2 on, and no other, was told once.
    pub fn went_well(&self, replies: usize, nodes: usize) -> bool {
        let is_wrong = self.is_wrong.load(Ordering::SeqCst);
        let is_in_vain = self.is_in_vain.load(Ordering::SeqCst);
        let replied = self.replies.load(Ordering::SeqCst);
        !is_wrong && !is_in_vain && replied == replies && self.noted_count() == nodes
    }
}

impl Clock for Meeting {
    ghost gives = { λ _ second. IsMoment second };

    fn now(&self) -> i64 {
        let second = self.clock.now();
        if self.holds_clock && self.stage.load(Ordering::SeqCst) == FIRST_HAS_ASKED {
            self.advance();
            self.wait_for(SECOND_HAS_ASKED);
            for _ in 0..5_000u32 {
                thread::yield_now();
            }
            self.clock.set(200);
        }
        second
    }
}
