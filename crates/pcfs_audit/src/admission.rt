//! Whether an operation was admitted, and its effect, tested again over the world in which it came.

ghost use Rattle.std.specs.Prelude.{◌≡◌, ◌↔◌, length, Contains, IfOk, IsTrue};
ghost use Rattle.std.specs.List.{AllByRecursion};
ghost use Rattle.bl_syntax.specs.Grant.{HoldsAt};
ghost use Rattle.procap.specs.Genuine.{IsGenuine};
ghost use Rattle.pcfs_audit.specs.Dossier.{IsDossier};
ghost use Rattle.file_world.specs.Facts.{facts};
ghost use Rattle.file_world.specs.Needs.{slots};
ghost use Rattle.pcfs_audit.specs.Taking.{IsBrought, TakesPlace, TellsAdmits, TellsAdmitted};

use crate::dossier::Dossier;
use crate::supports::Supports;
use bl_syntax::{Goal, Grant, NoMemory, Principal, is_moment};
use condition_set::{first_failing_state, first_failing_time};
use file_world::{Op, OpFault};
use op_gate::brings_enough;
use procap::{Procap, SealKey};
use std::alloc::Global;
use world_state::World;

// Whether the seal of the procap is right. It is not tested if that is known.
fn is_right(key: &SealKey, is_sealed: bool, procap: &Procap) -> bool
    ensures { (IsTrue is_sealed → IsGenuine key.now procap.now) →
        IsTrue result ↔ IsGenuine key.now procap.now }
{
    if is_sealed {
        return true;
    }
    key.is_genuine(procap)
}

// Whether all conditions on time hold at the moment.
fn do_times_hold(grant: &Grant, moment: i64) -> bool
    ensures { IsTrue result ↔ AllByRecursion (HoldsAt moment) grant.now.times }
{
    match first_failing_time(grant, moment) {
        None => true,
        Some(_) => false,
    }
}

// Whether all conditions on the state hold in the world.
fn do_states_hold(grant: &Grant, world: &World) -> bool
    ensures { IsTrue result ↔ AllByRecursion (Contains (facts world.now.world)) grant.now.states }
{
    match first_failing_state(grant, world) {
        None => true,
        Some(_) => false,
    }
}

// Whether the procap passes all tests for what is wanted. That of its seal is left out if it is known to be right.
fn passes(
    world: &World,
    dossier: &Dossier,
    supports: &Supports,
    is_sealed: bool,
    procap: &Procap,
    wanted: &Goal,
    moment: i64,
) -> bool
    requires { IsDossier dossier.now }
    ensures { TellsAdmits world.now.world dossier.now supports.now is_sealed procap.now wanted.now moment result }
{
    if !is_right(&dossier.key, is_sealed, procap) {
        return false;
    }
    if !procap.grant.goal().is_same(wanted) {
        return false;
    }
    if !do_times_hold(&procap.grant, moment) {
        return false;
    }
    if !do_states_hold(&procap.grant, world) {
        return false;
    }
    supports.does_stand(dossier, procap)
}

/// Whether the caller's operation is admitted under these procaps, one for each slot. Seals are tested unless they are
/// known to be right. A procap whose need falls away may be gone.
pub fn is_admitted(
    world: &World,
    dossier: &Dossier,
    supports: &Supports,
    are_sealed: bool,
    caller: &Principal,
    op: &Op,
    procaps: &[Procap],
    moment: i64,
) -> bool
    requires dossier { IsDossier dossier.now }
    requires slots { length procaps.now ≡ slots op.now }
    ensures { TellsAdmitted world.now.world dossier.now supports.now are_sealed caller.now op.now procaps.now moment result }
{
    let needs = world.needs(op);
    let pairs = needs.as_slice();
    for place in 0..pairs.len() {
        let (file, perm) = pairs[place];
        let wanted = Goal {
            who: *caller,
            file,
            perm,
        };
        let procap = &procaps[place];
        if !passes(
            world, dossier, supports, are_sealed, procap, &wanted, moment,
        ) {
            return false;
        }
    }
    true
}

/// Whether an operation has a moment of the range, and brings what it has to.
pub fn is_brought(op: &Op, procaps: &[Procap], moment: i64) -> bool
    ensures { IsTrue result ↔ IsBrought op.now procaps.now moment }
{
    if !is_moment(moment) {
        return false;
    }
    brings_enough(op, procaps)
}

/// Makes the change of the caller's operation unless it is refused, and tells whether it was made.
pub fn take_place(
    alloc: Global,
    world: &mut World,
    caller: &Principal,
    op: &Op,
) -> Result<bool, NoMemory>
    ensures { IfOk result (λ taken. TakesPlace caller.now op.now world.old.world taken world.new.world) }
{
    let copied = op.copy(alloc)?;
    let (op, answer) = world.reserve(alloc, caller, copied);
    match answer {
        Ok(_) => {
            let _ = world.apply(caller, op);
            Ok(true)
        }
        Err(OpFault::Refused(_)) => Ok(false),
        Err(OpFault::NoMemory) => Err(NoMemory),
    }
}
