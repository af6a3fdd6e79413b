//! A disk in memory, with a record of its calls.

ghost use Rattle.std.specs.Prelude.{◌≡◌, ℕ, ◌+◌, ◌-◌, ◌≤◌, ◌⊎◌, ◌↔◌, List, [], ◌∷◌, ◌++◌, IfOk, IfSome, IsErr, OnOk, OnErr, length, take, drop, replicate, min, is_some};
ghost use Rattle.std.specs.Option.{option_map};
ghost use Rattle.pcfs_ports.specs.Calls.{no_calls, no_fused_calls, FailsNext};
ghost use Rattle.pcfs_ports.specs.Disk.{written, TornFrom, LeftNow, Elapses, Idles, IsPinned, ReadsAt};
ghost use Rattle.pcfs_ports.specs.MemoryDisk.{image_after, new_disk, disk_image, disk_clock, disk_left_since, after_disk_read, after_disk_call, after_failed_disk_call, after_refused_disk_call};
ghost use Rattle.pcfs_ports.specs.Image.{unwritten};
ghost use Rattle.pcfs_ports.specs.Stopped.{stopped_image};
ghost use Rattle.pcfs_ports.specs.declared.disk_call.DiskCall.TheVariants.{Wrote, Synced};
ghost use Rattle.pcfs_ports.specs.DiskLaws.{left_since_earlier, image_stays};

use super::disk::Disk;
use super::disk_call::DiskCall;
use super::faults::{CallPlan, Failed};
use super::image::{Image, leave_stopped};
use bl_syntax::{Bytes, NoMemory, Numbers, Sequence};
use std::alloc::Global;
use std::marker::Model;

/// A disk that holds its bytes in memory and remembers its writes and syncs. It fails at the calls
/// that are to fail, and if a growth is refused; a call that fails changes nothing.
#[derive(Debug, Drop)]
pub struct MemoryDisk {
    alloc: Global,
    image: Image,
    made: Sequence<DiskCall>,
    plan: CallPlan,
    refused: u64,
}

impl Model for MemoryDisk {
    ghost use Rattle.std.specs.Prelude.{◌≡◌};
    ghost use Rattle.pcfs_ports.specs.MemoryDisk.{MemoryDiskView, image_after};

    ghost Value = { MemoryDiskView };

    ghost view = { λ s. record { start = s.image.start; made = s.made; calls = s.plan; refused = s.refused } };

    ghost invariant = { λ s. s.image.now ≡ image_after s.image.start s.made };
}

// Remembers that this piece was written at this place.
fn remember_write(
    alloc: Global,
    made: &mut Sequence<DiskCall>,
    at: u64,
    piece: &[u8],
) -> Result<(), NoMemory>
    ensures ok { OnOk result (made.new ≡ made.old ++ Wrote at piece.now ∷ []) }
    ensures err { OnErr result (made.new ≡ made.old) }
{
    let mut copied = Bytes::new(alloc);
    copied.extend(piece)?;
    made.push(DiskCall::Wrote(at, copied))?;
    Ok(())
}

// Writes a piece into the image and remembers this, or changes nothing that is seen.
fn write_and_remember(
    alloc: Global,
    image: &mut Image,
    made: &mut Sequence<DiskCall>,
    at: u64,
    piece: &[u8],
) -> Result<(), NoMemory>
    ensures start { image.new.start ≡ image.old.start }
    ensures image { OnOk result (image.new.now ≡ written at piece.now image.old.now) }
    ensures made { OnOk result (made.new ≡ made.old ++ Wrote at piece.now ∷ []) }
    ensures image_err { OnErr result (image.new.now ≡ image.old.now) }
    ensures made_err { OnErr result (made.new ≡ made.old) }
{
    let count = made.len();
    remember_write(alloc, made, at, piece)?;
    match image.write(at, piece) {
        Ok(()) => Ok(()),
        Err(NoMemory) => {
            made.truncate(count);
            Err(NoMemory)
        }
    }
}

impl MemoryDisk {
    /// A disk with these bytes, all of them synced. `failing` lists the numbers, from 0, of the calls
    /// that fail.
    pub fn new(alloc: Global, bytes: Bytes, failing: Numbers) -> Result<MemoryDisk, NoMemory>
        ensures { IfOk result (λ disk. disk ≡ new_disk bytes (no_calls failing)) }
    {
        let image = Image::copied(alloc, bytes)?;
        Ok(MemoryDisk::planned(alloc, image, CallPlan::new(failing)))
    }

    /// A disk with these bytes, all of them synced, whose calls from number `calls` on all fail. It
    /// takes no memory.
    pub fn fused(alloc: Global, bytes: Bytes, calls: u64) -> MemoryDisk
        ensures { result ≡ new_disk bytes (no_fused_calls calls) }
    {
        let image = Image::new(alloc, bytes);
        MemoryDisk::planned(alloc, image, CallPlan::fused(alloc, calls))
    }

    // A disk with the bytes of this image, all of them synced, and this plan.
    fn planned(alloc: Global, image: Image, plan: CallPlan) -> MemoryDisk
        requires { image ≡ unwritten image.start }
        ensures { result ≡ new_disk image.start plan }
    {
        MemoryDisk {
            alloc,
            image,
            made: Sequence::new(alloc),
            plan,
            refused: 0,
        }
    }

    /// The disk after a crash now. The writes since the last sync are done over in order, from what
    /// that sync left: a piece of other than one byte as that many bytes `fill`, a piece of one byte
    /// as it is if `kept`, and else not at all. Each time `fill` stands from the end of what is there
    /// up to the piece's place, also before a byte that is not kept. All of it is synced, and no call
    /// is to fail.
    pub fn stopped(self, fill: u8, kept: bool) -> Result<MemoryDisk, NoMemory>
        ensures image { IfOk result (λ disk. disk ≡ new_disk (stopped_image fill kept self) (no_calls [])) }
        ensures left { IfOk result (λ disk. LeftNow disk_clock disk_left_since self disk.start) }
    {
        let bytes = leave_stopped(
            self.alloc,
            self.image.start(),
            self.made.as_slice(),
            fill,
            kept,
        )?;
        let image = Image::new(self.alloc, bytes);
        let plan = CallPlan::new(Numbers::new(self.alloc));
        Ok(MemoryDisk::planned(self.alloc, image, plan))
    }

    /// What a read gives.
    pub fn image(&self) -> &[u8]
        ensures { result.now ≡ image_after self.now.start self.now.made }
    {
        self.image.now()
    }

    /// The writes and syncs that were done, the oldest first.
    pub fn made(&self) -> &[DiskCall]
        ensures { result.now ≡ self.now.made }
    {
        self.made.as_slice()
    }

    /// How many growths were refused. At `u64::MAX` it counts as risen.
    pub fn refused(&self) -> u64
        ensures { result ≡ self.now.refused }
    {
        self.refused
    }
}

impl Disk for MemoryDisk {
    ghost image = { disk_image };

    ghost clock = { disk_clock };

    ghost left_since = { disk_left_since };

    ghost faults = { λ s. s.calls.faults };

    ghost since_earlier = { left_since_earlier };

    ghost image_may_stay = { image_stays };

    fn read(&mut self, at: u64, buf: &mut [u8]) -> Result<usize, Failed>
        // It fails exactly if it is to.
        ensures planned { IsErr result ↔ FailsNext self.old.calls }
        ensures failed { OnErr result (self.new ≡ after_failed_disk_call self.old) }
        ensures done { OnOk result (self.new ≡ after_disk_read self.old) }

        ensures bound { IfOk result (λ count. count ≤ length buf.new) }
        ensures ok { IfOk result (λ count. IfSome (disk_image self.old) (λ bytes. ReadsAt at bytes count buf.new)) }
        ensures same { OnOk result (disk_image self.new ≡ disk_image self.old) }
        ensures told { is_some (disk_image self.new) ≡ is_some (disk_image self.old) }
        ensures time { Idles disk_clock disk_left_since self.old self.new }
        ensures never_falls { self.old.calls.faults ≤ self.new.calls.faults }
    {
        if self.plan.is_next_to_fail() {
            self.plan.count_failed();
            return Err(Failed);
        }
        self.plan.count();
        let image = self.image.now();
        let from = (at as usize).min(image.len());
        let rest = &image[from..];
        let count = buf.len().min(rest.len());
        buf[..count].copy_from_slice(&rest[..count]);
        Ok(count)
    }

    fn len(&mut self) -> Result<u64, Failed>
        // It fails exactly if it is to.
        ensures planned { IsErr result ↔ FailsNext self.old.calls }
        ensures failed { OnErr result (self.new ≡ after_failed_disk_call self.old) }
        ensures done { OnOk result (self.new ≡ after_disk_read self.old) }

        ensures ok { IfOk result (λ count. IfSome (disk_image self.old) (λ bytes. count ≡ length bytes)) }
        ensures same { OnOk result (disk_image self.new ≡ disk_image self.old) }
        ensures told { is_some (disk_image self.new) ≡ is_some (disk_image self.old) }
        ensures time { Idles disk_clock disk_left_since self.old self.new }
        ensures never_falls { self.old.calls.faults ≤ self.new.calls.faults }
    {
        if self.plan.is_next_to_fail() {
            self.plan.count_failed();
            return Err(Failed);
        }
        self.plan.count();
        Ok(self.image.now().len() as u64)
    }

    fn write_at(&mut self, at: u64, piece: &[u8]) -> Result<(), Failed>
        // It fails if it is to, and else only if a growth is refused.
        ensures planned { FailsNext self.old.calls →
            IsErr result × (self.new ≡ after_failed_disk_call self.old) }
        ensures refused { OnErr result (
            FailsNext self.old.calls ⊎ (self.new ≡ after_refused_disk_call self.old)) }
        ensures done { OnOk result (self.new ≡ after_disk_call self.old (Wrote at piece.now)) }

        ensures ok { OnOk result (disk_image self.new ≡ option_map (written at piece.now) (disk_image self.old)) }
        ensures told { is_some (disk_image self.new) ≡ is_some (disk_image self.old) }
        ensures time { Elapses disk_clock disk_left_since self.old self.new }
        ensures torn { (bytes : List ℕ) → LeftNow disk_clock disk_left_since self.new bytes →
            TornFrom at piece.now (LeftNow disk_clock disk_left_since self.old) bytes }
        ensures never_falls { self.old.calls.faults ≤ self.new.calls.faults }
    {
        if self.plan.is_next_to_fail() {
            self.plan.count_failed();
            return Err(Failed);
        }
        match write_and_remember(self.alloc, &mut self.image, &mut self.made, at, piece) {
            Ok(()) => {
                self.plan.count();
                Ok(())
            }
            Err(NoMemory) => {
                self.plan.count_failed();
                self.refused = self.refused.saturating_add(1);
                Err(Failed)
            }
        }
    }

    fn sync(&mut self) -> Result<(), Failed>
        // It fails if it is to, and else only if a growth is refused.
        ensures planned { FailsNext self.old.calls →
            IsErr result × (self.new ≡ after_failed_disk_call self.old) }
        ensures refused { OnErr result (
            FailsNext self.old.calls ⊎ (self.new ≡ after_refused_disk_call self.old)) }
        ensures done { OnOk result (self.new ≡ after_disk_call self.old Synced) }

        ensures ok { OnOk result (IsPinned disk_clock disk_left_since disk_image self.new) }
        ensures same { OnOk result (disk_image self.new ≡ disk_image self.old) }
        ensures told { is_some (disk_image self.new) ≡ is_some (disk_image self.old) }
        ensures time { Idles disk_clock disk_left_since self.old self.new }
        ensures never_falls { self.old.calls.faults ≤ self.new.calls.faults }
    {
        if self.plan.is_next_to_fail() {
            self.plan.count_failed();
            return Err(Failed);
        }
        match self.made.push(DiskCall::Synced) {
            Ok(()) => {
                self.plan.count();
                Ok(())
            }
            Err(NoMemory) => {
                self.plan.count_failed();
                self.refused = self.refused.saturating_add(1);
                Err(Failed)
            }
        }
    }
}
