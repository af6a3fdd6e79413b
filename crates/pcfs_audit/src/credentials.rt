//! What of an event rests on papers alone, and on no world: its signature, its proof, its seals, which statements stood, and
//! whether its grants were issued. The events are tested each by itself, in any order.

ghost use Rattle.std.specs.Prelude.{◌≡◌, ◌↔◌, ◌≤◌, ◌<◌, ◌&&◌, length, take, IfOk, IsTrue};
ghost use Rattle.std.specs.List.{AllByRecursion};
ghost use Rattle.procap.specs.Genuine.{IsGenuine};
ghost use Rattle.pcfs_audit.specs.Credentials.{AreCredentials, IsOfIssues, HasCredentialsAt, TellsCredentials, TellsIssue};
ghost use Rattle.pcfs_audit.specs.Dossier.{IsDossier};
ghost use Rattle.pcfs_audit.specs.DossierCredentials.{AreCredentialsIn, HasCredentialsIn};
ghost use Rattle.pcfs_audit.specs.Papers.{shown};
ghost use Rattle.pcfs_audit.specs.Report.{authority_by};

use crate::digests::front_of;
use crate::dossier::Dossier;
use crate::ends::{first_end, is_past};
use crate::examining::{Examiner, examine_in_pieces};
use crate::grants::was_issued;
use crate::issues::is_good_issue;
use crate::papers::Before;
use crate::statements::{could_be_registered, could_be_withdrawn};
use bl_syntax::{Grant, NoMemory};
use journal_records::Event;
use pcfs_ports::Signatures;
use procap::Procap;
use proof_term::ProofTree;
use std::alloc::Global;
use std::thread::Threads;

/// Whether what an event brings is genuine, and whether each grant that it uses was issued before.
#[derive(Clone, Copy, Debug)]
pub struct Credentials {
    /// A statement is signed, new, and has room; one that is withdrawn stands, and its withdrawal is signed; an issue is good,
    /// and cites statements that stand; procaps are sealed.
    pub genuine: bool,
    /// The grants of procaps were issued.
    pub issued: bool,
}

// What both have.
fn both(first: Credentials, second: Credentials) -> Credentials
    ensures genuine { result.genuine ≡ (first.genuine && second.genuine) }
    ensures issued { result.issued ≡ (first.issued && second.issued) }
{
    Credentials {
        genuine: first.genuine && second.genuine,
        issued: first.issued && second.issued,
    }
}

// Whether the seal of the procap is right, and whether its grant is one of so many that were issued.
fn procap_credentials(dossier: &Dossier, earlier: usize, procap: &Procap) -> Credentials
    requires dossier { IsDossier dossier.now }
    requires within { earlier ≤ length dossier.now.papers.grants.items }
    ensures genuine { IsTrue result.genuine ↔ IsGenuine dossier.now.key procap.now }
    ensures issued { IsTrue result.issued ↔ IsOfIssues (take earlier (shown dossier.now.papers.grants.items)) procap.now }
{
    let tag = dossier.key.tag(&procap.grant);
    Credentials {
        genuine: tag == procap.tag,
        issued: was_issued(dossier, earlier, front_of(&tag), &procap.grant),
    }
}

// Whether the seals of all these procaps are right, and whether all their grants are among so many that were issued.
fn all_credentials(dossier: &Dossier, earlier: usize, procaps: &[Procap]) -> Credentials
    requires dossier { IsDossier dossier.now }
    requires within { earlier ≤ length dossier.now.papers.grants.items }
    ensures genuine { IsTrue result.genuine ↔ AllByRecursion (IsGenuine dossier.now.key) procaps.now }
    ensures issued { IsTrue result.issued ↔ AllByRecursion (IsOfIssues (take earlier (shown dossier.now.papers.grants.items))) procaps.now }
{
    let mut all = Credentials {
        genuine: true,
        issued: true,
    };
    for procap in procaps {
        all = both(all, procap_credentials(dossier, earlier, procap));
    }
    all
}

// The credentials of what needs no issue.
fn without_issues(genuine: bool) -> Credentials
    ensures genuine { result.genuine ≡ genuine }
    ensures issued { IsTrue result.issued }
{
    Credentials {
        genuine,
        issued: true,
    }
}

// Whether an issue is good, after so many statements, and what it cites stands before the event at that place.
fn may_be_issued(
    alloc: Global,
    dossier: &Dossier,
    before: Before,
    place: usize,
    cited: &[u32],
    proof: &ProofTree,
    grant: &Grant,
) -> Result<bool, NoMemory>
    requires { before.statements ≤ length dossier.now.papers.statements.items }
    ensures { IfOk result (TellsIssue dossier.now.papers before place (record { cited = cited.now; proof = proof.now; grant = grant.now })) }
{
    let ends = dossier.papers.ends.as_slice();
    if is_past(first_end(ends, cited), place) {
        return Ok(false);
    }
    let statements = dossier.papers.statements.as_slice();
    let earlier = &statements[..before.statements];
    is_good_issue(alloc, earlier, cited, proof, grant)
}

// The credentials of the event at that place, after so many statements and issues.
fn credentials_of<S: Signatures>(
    alloc: Global,
    dossier: &Dossier,
    ring: &S,
    before: Before,
    place: usize,
    event: &Event,
) -> Result<Credentials, NoMemory>
    requires dossier { IsDossier dossier.now }
    requires statements_within { before.statements ≤ length dossier.now.papers.statements.items }
    requires grants_within { before.issues ≤ length dossier.now.papers.grants.items }
    ensures { IfOk result (TellsCredentials (authority_by dossier.now.key (S.Signatures.accepted ring.now)) dossier.now.papers before place event.now) }
{
    match event {
        Event::Registered {
            statement,
            signature,
            ..
        } => {
            let signature = signature.as_slice();
            match could_be_registered(
                alloc,
                dossier,
                ring,
                before.statements,
                statement,
                signature,
            ) {
                Ok(genuine) => Ok(without_issues(genuine)),
                Err(refused) => Err(refused),
            }
        }
        Event::Withdrawn {
            number,
            signature,
            ..
        } => {
            match could_be_withdrawn(
                alloc,
                dossier,
                ring,
                before.statements,
                place,
                *number,
                signature.as_slice(),
            ) {
                Ok(genuine) => Ok(without_issues(genuine)),
                Err(refused) => Err(refused),
            }
        }
        Event::Issued {
            cited,
            proof,
            grant,
            ..
        } => {
            let cited = cited.as_slice();
            match may_be_issued(alloc, dossier, before, place, cited, proof, grant) {
                Ok(genuine) => Ok(without_issues(genuine)),
                Err(refused) => Err(refused),
            }
        }
        Event::Acted { procaps, .. } => {
            Ok(all_credentials(dossier, before.issues, procaps.as_slice()))
        }
    }
}

// The credentials of the event at that place.
fn credentials_at<S: Signatures>(
    alloc: Global,
    dossier: &Dossier,
    ring: &S,
    place: usize,
) -> Result<Credentials, NoMemory>
    requires dossier { IsDossier dossier.now }
    requires within { place < length dossier.now.events.now }
    ensures { IfOk result (HasCredentialsAt (authority_by dossier.now.key (S.Signatures.accepted ring.now)) dossier.now.base.now dossier.now.events.now place) }
{
    let before = dossier.papers.before.as_slice();
    let event = &dossier.events[place];
    credentials_of(alloc, dossier, ring, before[place], place, event)
}

/// The credentials of all events, in order.
pub fn credentials_in_order<S: Signatures>(
    alloc: Global,
    dossier: &Dossier,
    ring: &S,
) -> Result<Vec<Credentials>, NoMemory>
    requires { IsDossier dossier.now }
    ensures { IfOk result (λ all.
        AreCredentials (authority_by dossier.now.key (S.Signatures.accepted ring.now))
        dossier.now.base.now dossier.now.events.now all.items) }
{
    let mut all = Vec::new(alloc);
    for place in 0..dossier.events.len() {
        all.push(credentials_at(alloc, dossier, ring, place)?)?;
    }
    Ok(all)
}

// A dossier whose events are tested, with what the threads that test them share.
#[derive(Drop)]
struct Examination<'d, 'h, S> {
    alloc: Global,
    dossier: &'d Dossier<'h>,
    ring: &'d S,
}

impl<'d, 'h, S: Signatures> Examiner for Examination<'d, 'h, S> {
    type Found = Credentials;

    ghost has = { λ it place. IsDossier it.dossier.now × (place < length it.dossier.now.events.now) };

    ghost finds = { λ it place. HasCredentialsIn it.dossier.now (S.Signatures.accepted it.ring.now) place };

    fn examine(&self, place: usize) -> Result<Credentials, NoMemory> {
        credentials_at(self.alloc, self.dossier, self.ring, place)
    }
}

/// The credentials of all events, found in several threads, each for at least `least` events.
pub fn credentials_in_pieces<R: Threads + Sync, S: Signatures + Sync>(
    rt: &R,
    alloc: Global,
    dossier: &Dossier,
    ring: &S,
    least: usize,
) -> Result<Vec<Credentials>, NoMemory>
    requires { IsDossier dossier.now }
    ensures { IfOk result (λ all. AreCredentialsIn dossier.now (S.Signatures.accepted ring.now) all.items) }
{
    let examination = Examination {
        alloc,
        dossier,
        ring,
    };
    examine_in_pieces(rt, alloc, &examination, dossier.events.len(), least)
}
