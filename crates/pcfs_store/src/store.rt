//! The store.

ghost use Rattle.std.specs.Prelude.{◌≡◌, ◌≢◌, ◌↔◌, ◌<◌, ◌≤◌, [], Some, None, IsSome, IsTrue, length, is_some};
ghost use Rattle.bl_syntax.specs.declared.limits.TheConstants.{MOST_EVENTS};
ghost use Rattle.journal_core.specs.Area.{area_bytes, IsGeneration};
ghost use Rattle.checkpoint.specs.Writing.{IsWrittenImageOf};
ghost use Rattle.pcfs_store.specs.Image.{IsImageOf};
ghost use Rattle.pcfs_store.specs.StoredHistory.{payloads_of, AreSpellable};

use crate::checkpoints::{Checkpoint, move_area};
use crate::keeping::{keep_pending, unprepared};
use crate::opened::{Opened, opened_with};
use crate::reply::{Admitted, CheckpointReply, StoreReply};
use access_history::StepRequest;
use bl_syntax::limits::MOST_EVENTS;
use bl_syntax::{Bytes, NoMemory};
use checkpoint::state_image;
use journal_core::{Area, AreaFault};
use journal_records::Event;
use op_gate::{Decision, Gate};
use pcfs_ports::Disk;
use std::alloc::Global;
use std::marker::Model;

/// A history on two disks: its area is on the one of them that counts, which is closed at every moment, and the history is
/// in memory too. By the order of the code a step costs, beside its decision, two syncs if it keeps an event.
#[derive(Drop)]
pub struct Store<D: Disk> {
    active: Area<D>,
    other: D,
    second_active: bool,
    generation: u64,
    /// The image with which the store was opened, for contracts alone.
    opened: Opened,
    gate: Gate,
    checkpoints: Vec<Checkpoint>,
    stop: Option<u64>,
}

impl<D: Disk> Model for Store<D> {
    ghost use Rattle.pcfs_store.specs.StoreView.{StoreView};
    ghost use Rattle.pcfs_store.specs.StoreCode.{store_code};

    ghost Value = { StoreView D };

    ghost coded = { store_code D.code };

    ghost use Rattle.pcfs_store.specs.Inside.{store_of, IsKeeping};

    ghost view = { λ s. store_of s.active s.other s.second_active s.generation s.opened.value s.gate s.checkpoints.items s.stop };

    ghost invariant = { λ s. IsKeeping s.active s.other s.second_active s.generation s.opened.value s.gate s.checkpoints.items s.stop };
}

impl<D: Disk> Store<D> {
    ghost use Rattle.std.specs.Prelude.{Option, List, ℕ, IfOk};
    ghost use Rattle.pcfs_ports.specs.Disk.{IsPinned};
    ghost use Rattle.bl_syntax.specs.TimeOrder.{IsMoment};
    ghost use Rattle.access_history.specs.WellFormed.{IsWellFormed};
    ghost use Rattle.pcfs_store.specs.StoreView.{IsStore, first_disk, second_disk, body_of, state_of_store};
    ghost use Rattle.pcfs_store.specs.Ready.{IsReady, IsCurrent, Keeps, IsAtRest, StopsLeave, StopsNow, SurvivesStopAt, SurvivesCheckpoint};
    ghost use Rattle.pcfs_store.specs.Steps.{Steps, LeavesStep};
    ghost use Rattle.pcfs_store.specs.Admitting.{Admits, LeavesAdmitting, Admitting};
    ghost use Rattle.pcfs_store.specs.Checkpoints.{MakesCheckpoint, IsNewestCheckpoint, Checkpoints};
    ghost use Rattle.pcfs_store.specs.Newest.{SurvivesWholeClosed, NewestBegins};

    /// A store over what was read of two disks. The area is the one that counts, the second exactly if `second_active`; it
    /// has that generation, this image, which is one of the gate's base, and the records of its events. It takes no memory.
    pub fn from_scan(
        alloc: Global,
        active: Area<D>,
        other: D,
        second_active: bool,
        generation: u64,
        image: &[u8],
        gate: Gate,
    ) -> Store<D>
        requires generated { IsGeneration generation }
        requires image { IsImageOf gate.base image.now }
        requires spelled { AreSpellable gate.events }
        requires used { active.end ≡ length (area_bytes generation image.now (payloads_of gate.events)) }
        requires nothing_pending { gate.pending ≡ None }
        ensures { result ≡ record {
          active = active.disk;
          other = other;
          second_active = second_active;
          generation = generation;
          used = active.end;
          key = gate.key;
          ring = gate.ring;
          base = gate.base;
          opened = image.now;
          events = gate.events;
          checkpoints = [];
          stop = None;
          met = None;
        } }
    {
        Store {
            active,
            other,
            second_active,
            generation,
            opened: opened_with(image),
            gate,
            checkpoints: Vec::new(alloc),
            stop: None,
        }
    }

    /// What a store keeps at every moment.
    pub fn lemma_is_store(&self)
        ensures { IsStore self.now }
    {
        let _ = &self.gate;
    }

    /// Whether a disk failed. Then every step answers `Stopped`.
    pub fn is_stopped(&self) -> bool
        ensures { IsTrue result ↔ IsSome self.now.stop }
    {
        self.stop.is_some()
    }

    /// The gate, with the history. If a disk failed in a step, the event that the step was keeping is pending. That nothing
    /// else is has no clause.
    pub fn gate(&self) -> &Gate
        ensures { result.now ≡ record { key = self.now.key; ring = self.now.ring; base = self.now.base; events = self.now.events; pending = self.now.met } }
    {
        &self.gate
    }

    /// The disks, in the order in which they were given.
    pub fn into_disks(self) -> (D, D)
        ensures first { result.0 ≡ first_disk self }
        ensures second { result.1 ≡ second_disk self }
    {
        let disk = self.active.into_disk();
        if self.second_active {
            (self.other, disk)
        } else {
            (disk, self.other)
        }
    }

    /// Answers the request at the moment that the clock shows, in whole seconds from 1970-01-01T00:00:00Z. What the answer
    /// keeps carries the number `pass`; it is on the disk before this returns.
    ///
    /// `Full` comes exactly if the answer's event does not fit. `Stopped` comes if a disk failed in an earlier step, and then
    /// no disk is touched; or if it fails in this one, and only if its count of faults rose. After these and `NoMemory` the
    /// history is as it was, and after `Full` and `NoMemory` so are the disks. If an event is kept, no call of the disk failed.
    pub fn step(&mut self, alloc: Global, pass: u64, request: StepRequest, clock: i64) -> StoreReply
        requires in_range { IsMoment clock }
        requires well_formed { IsWellFormed request }
        ensures answer { Steps D.faults self.old pass clock request result self.new }

        // The store stays ready unless a disk fails in this step, and keeps its history even then.
        ensures ready { IsReady D.clock D.left_since D.image self.old →
            result ≢ StoreReply.Stopped → IsReady D.clock D.left_since D.image self.new }
        ensures keeps { Keeps D.clock D.left_since D.image self.old →
            Keeps D.clock D.left_since D.image self.new }
        ensures current { IsCurrent D.clock D.left_since D.image self.old →
            result ≢ StoreReply.Stopped → IsCurrent D.clock D.left_since D.image self.new }

        // After an event that is kept a store is ready, also if its area lacked its closed gate before, or something was pending on it.
        ensures makes_ready { IsCurrent D.clock D.left_since D.image self.old →
            length self.old.events < length self.new.events → (active other : List ℕ) →
            D.image self.old.active ≡ Some active → D.image self.old.other ≡ Some other →
            IsPinned D.clock D.left_since D.image self.old.other →
            IsReady D.clock D.left_since D.image self.new }

        // Of a ready store a crash at any moment leaves the history as it was, or with the one event that the answer keeps.
        ensures any_moment { IsReady D.clock D.left_since D.image self.old →
            StopsLeave D.clock D.left_since D.image self.old self.new (LeavesStep self.old pass clock request) }

        // After a fault of a disk both remain possible: with the event that the answer keeps, and without it; in an area of the
        // same generation, on the same disk.
        ensures met { IsReady D.clock D.left_since D.image self.old → result ≡ StoreReply.Stopped →
            StopsNow D.clock D.left_since D.image self.new
            (SurvivesStopAt self.old.base self.old.events self.old.generation self.old.second_active self.new.met) }

        // If the area lacked its closed gate and nothing was pending, its history still begins an area of
        // the same generation on the same disk; what follows it there is left open.
        ensures met_at_rest { IsAtRest D.clock D.left_since D.image self.old →
            result ≡ StoreReply.Stopped →
            StopsNow D.clock D.left_since D.image self.new
            (NewestBegins self.old.generation self.old.second_active (body_of self.old)) }

        ensures first_told { is_some (D.image (first_disk self.new)) ≡ is_some (D.image (first_disk self.old)) }
        ensures second_told { is_some (D.image (second_disk self.new)) ≡ is_some (D.image (second_disk self.old)) }
        ensures first_never_falls { D.faults (first_disk self.old) ≤ D.faults (first_disk self.new) }
        ensures second_never_falls { D.faults (second_disk self.old) ≤ D.faults (second_disk self.new) }
    {
        if self.stop.is_some() {
            return StoreReply::Stopped;
        }
        match self.gate.decide(alloc, pass, request, clock) {
            Decision::Answer(reply) => StoreReply::Step(reply),
            Decision::Keep(reply) => {
                match keep_pending(alloc, &mut self.active, &mut self.gate) {
                    Ok(()) => StoreReply::Step(reply),
                    Err(AreaFault::AreaFull) => StoreReply::Full,
                    Err(AreaFault::NoMemory) => StoreReply::NoMemory,
                    Err(AreaFault::Disk) => {
                        self.stop = Some(pass);
                        StoreReply::Stopped
                    }
                }
            }
            Decision::NoMemory => StoreReply::NoMemory,
        }
    }

    /// Keeps an event that came from outside, exactly if it may come next and fits: it is tested as if it came now, an
    /// operation at its own moment, and it is on the disk before this returns. Otherwise its first damage is reported.
    ///
    /// `Full` comes exactly if it may come next and does not fit. `Stopped` comes if a disk failed in an earlier call, and
    /// then no disk is touched; or if it fails in this one, and only if its count of faults rose. After `Damaged`,
    /// `Full` and `NoMemory` all is as it was.
    pub fn admit(&mut self, alloc: Global, event: Event) -> Admitted
        ensures answer { Admits D.faults self.old event result self.new }

        // The store stays ready unless a disk fails now, and keeps its history even then.
        ensures ready { IsReady D.clock D.left_since D.image self.old →
            result ≢ Admitted.Stopped → IsReady D.clock D.left_since D.image self.new }
        ensures keeps { Keeps D.clock D.left_since D.image self.old →
            Keeps D.clock D.left_since D.image self.new }
        ensures current { IsCurrent D.clock D.left_since D.image self.old →
            result ≢ Admitted.Stopped → IsCurrent D.clock D.left_since D.image self.new }

        // After an event that is kept a store is ready, also if its area lacked its closed gate before, or something was pending on it.
        ensures makes_ready { IsCurrent D.clock D.left_since D.image self.old →
            length self.old.events < length self.new.events → (active other : List ℕ) →
            D.image self.old.active ≡ Some active → D.image self.old.other ≡ Some other →
            IsPinned D.clock D.left_since D.image self.old.other →
            IsReady D.clock D.left_since D.image self.new }

        // Of a ready store a crash at any moment leaves the history as it was, or with the event if it may come next.
        ensures any_moment { IsReady D.clock D.left_since D.image self.old →
            StopsLeave D.clock D.left_since D.image self.old self.new (LeavesAdmitting self.old event) }

        // After a fault of a disk both remain possible: with the event, and without it; in an area of the same generation, on the
        // same disk.
        ensures met { IsReady D.clock D.left_since D.image self.old → result ≡ Admitted.Stopped →
            StopsNow D.clock D.left_since D.image self.new
            (SurvivesStopAt self.old.base self.old.events self.old.generation self.old.second_active self.new.met) }

        // If the area lacked its closed gate and nothing was pending, its history still begins an area of
        // the same generation on the same disk; what follows it there is left open.
        ensures met_at_rest { IsAtRest D.clock D.left_since D.image self.old →
            result ≡ Admitted.Stopped →
            StopsNow D.clock D.left_since D.image self.new
            (NewestBegins self.old.generation self.old.second_active (body_of self.old)) }

        ensures first_told { is_some (D.image (first_disk self.new)) ≡ is_some (D.image (first_disk self.old)) }
        ensures second_told { is_some (D.image (second_disk self.new)) ≡ is_some (D.image (second_disk self.old)) }
        ensures first_never_falls { D.faults (first_disk self.old) ≤ D.faults (first_disk self.new) }
        ensures second_never_falls { D.faults (second_disk self.old) ≤ D.faults (second_disk self.new) }
    {
        self.try_admit(alloc, event)
    }

    // Keeps an event that came from outside, exactly if it may come next and fits.
    fn try_admit(&mut self, alloc: Global, event: Event) -> Admitted
        ensures { Admitting D.clock D.left_since D.image D.faults self.old event result self.new }
    {
        if self.stop.is_some() {
            return Admitted::Stopped;
        }
        let of_event = event.pass();
        match self.gate.prepare(alloc, event) {
            Ok(()) => match keep_pending(alloc, &mut self.active, &mut self.gate) {
                Ok(()) => Admitted::Kept,
                Err(AreaFault::AreaFull) => Admitted::Full,
                Err(AreaFault::NoMemory) => Admitted::NoMemory,
                Err(AreaFault::Disk) => {
                    self.stop = Some(of_event);
                    Admitted::Stopped
                }
            },
            Err(fault) => unprepared(fault),
        }
    }

    /// Makes a checkpoint: the image of the state is written on the disk that does not count, under the next generation, and
    /// from then on that disk counts, and the records of later events follow this image. The history stays as it is. By the
    /// order of the code all memory is taken before the first of the six calls of that disk.
    ///
    /// `Full` comes exactly if the image does not fit or there is no next generation. `Stopped` comes if a disk failed
    /// earlier, and then no disk is touched; or if the other disk fails now, and only if its count of faults rose. After
    /// `Full` and `NoMemory` all is as it was.
    pub fn checkpoint(&mut self, alloc: Global, pass: u64) -> CheckpointReply
        ensures answer { MakesCheckpoint D.faults self.old pass result self.new }

        // The store stays ready unless a disk fails now, and keeps its history even then.
        ensures ready { IsReady D.clock D.left_since D.image self.old →
            result ≢ CheckpointReply.Stopped → IsReady D.clock D.left_since D.image self.new }
        ensures keeps { Keeps D.clock D.left_since D.image self.old →
            Keeps D.clock D.left_since D.image self.new }
        ensures current { IsCurrent D.clock D.left_since D.image self.old →
            result ≢ CheckpointReply.Stopped → IsCurrent D.clock D.left_since D.image self.new }

        // A store whose area lacked its closed gate is ready after it.
        ensures makes_ready { IsCurrent D.clock D.left_since D.image self.old →
            result ≡ CheckpointReply.Checkpointed → (active other : List ℕ) →
            D.image self.old.active ≡ Some active → D.image self.old.other ≡ Some other →
            IsPinned D.clock D.left_since D.image self.old.active →
            IsReady D.clock D.left_since D.image self.new }

        // Of a ready store a crash at any moment leaves the history.
        ensures any_moment { IsReady D.clock D.left_since D.image self.old →
            StopsLeave D.clock D.left_since D.image self.old self.new (SurvivesWholeClosed self.old.base self.old.events) }

        // After a fault of a disk it is still there: in the area of before, or in one of the next generation on the other disk.
        ensures halts { IsReady D.clock D.left_since D.image self.old →
            result ≡ CheckpointReply.Stopped →
            StopsNow D.clock D.left_since D.image self.new
            (SurvivesStopAt self.old.base self.old.events self.old.generation self.old.second_active None) }

        // It is so too, but for the closed gate, if the area lacked that and nothing was pending.
        ensures halts_at_rest { IsAtRest D.clock D.left_since D.image self.old →
            result ≡ CheckpointReply.Stopped →
            StopsNow D.clock D.left_since D.image self.new
            (SurvivesCheckpoint self.old.base self.old.events self.old.generation self.old.second_active) }

        // What a read gives then is the area of the next generation, with the image of the state.
        ensures newest { IsCurrent D.clock D.left_since D.image self.old →
            result ≡ CheckpointReply.Checkpointed → (first second : List ℕ) →
            D.image (first_disk self.new) ≡ Some first →
            D.image (second_disk self.new) ≡ Some second →
            IsNewestCheckpoint self.old first second }

        ensures first_told { is_some (D.image (first_disk self.new)) ≡ is_some (D.image (first_disk self.old)) }
        ensures second_told { is_some (D.image (second_disk self.new)) ≡ is_some (D.image (second_disk self.old)) }
        ensures first_never_falls { D.faults (first_disk self.old) ≤ D.faults (first_disk self.new) }
        ensures second_never_falls { D.faults (second_disk self.old) ≤ D.faults (second_disk self.new) }
    {
        self.try_checkpoint(alloc, pass)
    }

    // Makes a checkpoint.
    fn try_checkpoint(&mut self, alloc: Global, pass: u64) -> CheckpointReply
        ensures { Checkpoints D.clock D.left_since D.image D.faults self.old pass result self.new }
    {
        if self.stop.is_some() {
            return CheckpointReply::Stopped;
        }
        if MOST_EVENTS <= self.generation {
            return CheckpointReply::Full;
        }
        match self.image(alloc) {
            Ok(image) => self.place_image(alloc, pass, image.as_slice()),
            Err(_) => CheckpointReply::NoMemory,
        }
    }

    // The image of the state.
    fn image(&self, alloc: Global) -> Result<Bytes, NoMemory>
        ensures { IfOk result (IsWrittenImageOf (state_of_store self.now)) }
    {
        let history = self.gate.history();
        history.lemma_is_lawful();
        state_image(alloc, history)
    }

    // Makes a checkpoint with the image of the state.
    fn place_image(&mut self, alloc: Global, pass: u64, image: &[u8]) -> CheckpointReply
        requires running { self.old.stop ≡ None }
        requires numbered { self.old.generation < MOST_EVENTS }
        requires image { IsWrittenImageOf (state_of_store self.old) image.now }
        ensures { Checkpoints D.clock D.left_since D.image D.faults self.old pass result self.new }
    {
        let made = Checkpoint {
            after: self.gate.history().events().len() as u64,
            pass,
        };
        match move_area(
            alloc,
            &mut self.active,
            &mut self.other,
            self.generation + 1,
            image,
            &mut self.checkpoints,
            made,
        ) {
            Ok(()) => {
                self.second_active = !self.second_active;
                self.generation += 1;
                CheckpointReply::Checkpointed
            }
            Err(AreaFault::AreaFull) => CheckpointReply::Full,
            Err(AreaFault::NoMemory) => CheckpointReply::NoMemory,
            Err(AreaFault::Disk) => {
                self.stop = Some(made.pass);
                CheckpointReply::Stopped
            }
        }
    }
}
