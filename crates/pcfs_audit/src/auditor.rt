//! The auditor: it follows the events in order, over a world of its own, up to the first with which something is wrong.

ghost use Rattle.std.specs.Prelude.{◌≡◌, ◌<◌, ◌+◌, [], ℕ, false, IfOk, IsTrue, OnOk, Some, None};
ghost use Rattle.bl_syntax.specs.declared.limits.TheConstants.{MOST_EVENTS};
ghost use Rattle.journal_records.specs.declared.event.Event.TheVariants as events;
ghost use Rattle.access_history.specs.Authority.{Authority};
ghost use Rattle.pcfs_audit.specs.Dossier.{IsDossier};
ghost use Rattle.pcfs_audit.specs.Following.{AuditsWith, FindsWith, HasAudited};

use crate::admission::{is_admitted, is_brought, take_place};
use crate::credentials::Credentials;
use crate::dossier::Dossier;
use crate::report::{Finding, ReportRow, ReportRows, is_wrong};
use crate::supports::Supports;
use access_history::Base;
use bl_syntax::{NoMemory, Principal, Sequence};
use file_world::Op;
use journal_records::Event;
use procap::Procap;
use std::alloc::Global;
use world_state::World;

/// The world and the last moment of a state, the number of the last event, and the rows so far.
#[derive(Drop)]
pub struct Auditor {
    pub world: World,
    pub moment: i64,
    pub count: u64,
    pub rows: ReportRows,
}

/// An auditor at the base.
pub fn auditor_at(alloc: Global, base: &Base) -> Result<Auditor, NoMemory>
    ensures { IfOk result (λ auditor. (authority : Authority) → HasAudited authority base.now [] auditor) }
{
    let world = base.world().copy()?;
    Ok(Auditor {
        world,
        moment: base.moment(),
        count: base.count(),
        rows: Sequence::new(alloc),
    })
}

// The finding, unless this holds.
fn unless(holds: bool, finding: Finding) -> Option<Finding>
    ensures none { IsTrue holds → result ≡ None }
    ensures some { holds ≡ false → result ≡ Some finding }
{
    if holds { None } else { Some(finding) }
}

impl Auditor {
    // What is found with the caller's operation; if nothing is wrong with it, its change is made.
    fn act(
        &mut self,
        alloc: Global,
        dossier: &Dossier,
        supports: &Supports,
        credentials: Credentials,
        caller: &Principal,
        op: &Op,
        procaps: &[Procap],
        moment: i64,
    ) -> Result<Option<Finding>, NoMemory>
        requires { IsDossier dossier.now }
        ensures found { IfOk result (λ found. (pass : ℕ) →
            FindsWith dossier.now supports.now credentials (events.Acted pass caller.now op.now procaps.now moment) found self.old self.new) }
        ensures count { OnOk result (self.new.count ≡ self.old.count) }
        ensures rows { OnOk result (self.new.rows ≡ self.old.rows) }
    {
        if moment < self.moment {
            return Ok(Some(Finding::MomentFalls));
        }
        if !is_brought(op, procaps, moment) {
            return Ok(Some(Finding::NotAdmitted));
        }
        let sealed = credentials.genuine;
        if !is_admitted(
            &self.world,
            dossier,
            supports,
            sealed,
            caller,
            op,
            procaps,
            moment,
        ) {
            return Ok(Some(Finding::NotAdmitted));
        }
        if !take_place(alloc, &mut self.world, caller, op)? {
            return Ok(Some(Finding::NotAdmitted));
        }
        self.moment = moment;
        Ok(unless(credentials.issued, Finding::Unissued))
    }

    // What is found with the event; if nothing is wrong with it, its change is made.
    fn find(
        &mut self,
        alloc: Global,
        dossier: &Dossier,
        supports: &Supports,
        credentials: Credentials,
        event: &Event,
    ) -> Result<Option<Finding>, NoMemory>
        requires { IsDossier dossier.now }
        ensures found { IfOk result (λ found. FindsWith dossier.now supports.now credentials event.now found self.old self.new) }
        ensures count { OnOk result (self.new.count ≡ self.old.count) }
        ensures rows { OnOk result (self.new.rows ≡ self.old.rows) }
    {
        match event {
            Event::Registered { .. } => Ok(unless(credentials.genuine, Finding::Unsigned)),
            Event::Withdrawn { .. } => Ok(unless(credentials.genuine, Finding::Unsigned)),
            Event::Issued { .. } => Ok(unless(credentials.genuine, Finding::Unproved)),
            Event::Acted {
                caller,
                op,
                procaps,
                moment,
                ..
            } => self.act(
                alloc,
                dossier,
                supports,
                credentials,
                caller,
                op,
                procaps.as_slice(),
                *moment,
            ),
        }
    }

    /// Follows one more event, and tells whether to go on: nothing is wrong with it.
    pub fn audit_event(
        &mut self,
        alloc: Global,
        dossier: &Dossier,
        supports: &Supports,
        credentials: Credentials,
        event: &Event,
    ) -> Result<bool, NoMemory>
        requires dossier { IsDossier dossier.now }
        requires counted { self.old.count < MOST_EVENTS }
        ensures audits { IfOk result (λ goes_on. AuditsWith dossier.now supports.now credentials event.now goes_on self.old self.new) }
        ensures count { OnOk result (self.new.count ≡ self.old.count + 1) }
    {
        let found = self.find(alloc, dossier, supports, credentials, event)?;
        self.count += 1;
        match found {
            None => Ok(true),
            Some(finding) => {
                self.rows.push(ReportRow {
                    event: self.count,
                    finding,
                })?;
                Ok(!is_wrong(finding))
            }
        }
    }
}
