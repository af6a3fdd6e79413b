//! The history: a base, and the events since, each lawful where it came.

ghost use Rattle.std.specs.Prelude.{◌≡◌, ◌≤◌, ◌<◌, ◌-◌, ◌++◌, ◌∷◌, [], IfOk, MatchOption, OnOk, Some, length};
ghost use Rattle.bl_syntax.specs.declared.limits.TheConstants.{MOST_STATEMENTS, MOST_EVENTS};

use crate::base::Base;
use crate::copying::{copy_issues, copy_statements, registry_of};
use crate::event::Addition;
use crate::issue_record::IssueRecord;
use crate::keeping::{add_to_state, apply_event};
use bl_syntax::{Grant, NoMemory, Principal, Statement};
use file_world::{Op, OpFault, OpReply};
use issue_standings::{Bearing, Standings, first_withdrawn};
use journal_records::{Event, EventRecord};
use policy_statement::{Keyring, Registered, Registry};
use procap::{Procap, SealKey};
use std::alloc::Global;
use std::marker::Model;
use world_state::World;

/// A history, with the key under which procaps are sealed and the ring of those whose signatures are accepted. Its
/// events are lawful over its base, and its state is the one to which they lead.
#[derive(Drop)]
pub struct History {
    key: SealKey,
    ring: Keyring,
    base: Base,
    events: Vec<EventRecord>,
    world: World,
    statements: Registry,
    issues: Vec<IssueRecord>,
    // How each grant stands that was issued.
    standings: Standings,
    moment: i64,
    count: u64,
}

impl Model for History {
    ghost use Rattle.access_history.specs.History.{HistoryView};
    ghost use Rattle.access_history.specs.HistoryCode.{history_code};

    ghost Value = { HistoryView };

    ghost coded = { history_code };

    ghost use Rattle.access_history.specs.HistoryParts.{kept_by, IsKeeping};

    ghost view = { kept_by };

    ghost invariant = { IsKeeping };
}

impl History {
    ghost use Rattle.world_state.specs.State.{ReservesWorld};
    ghost use Rattle.access_history.specs.History.{state_of, world_of, authority_of, authority_with, addition_of, IsReadyFor};
    ghost use Rattle.access_history.specs.Lawful.{IsLawful, IsLawfulBase, MayFollow};
    ghost use Rattle.access_history.specs.Replay.{fresh};
    ghost use Rattle.access_history.specs.Headline.{Headline};
    ghost use Rattle.policy_statement.specs.Registry.{sayings};
    ghost use Rattle.access_history.specs.Books.{book_of};
    ghost use Rattle.access_history.specs.Citing.{HoldsNone};
    ghost use Rattle.access_history.specs.Gone.{gone, gone_by_issues};
    ghost use Rattle.procap.specs.Genuine.{IsGenuine};
    ghost use Rattle.access_history.specs.Issued.{IsIssued};
    ghost use Rattle.access_history.specs.Numbered.{HasNone, IsNumbered};

    /// The history of a store before its first event, under this key and this ring.
    pub fn fresh(alloc: Global, key: SealKey, ring: Keyring) -> Result<History, NoMemory>
        ensures key { IfOk result (λ history. history.key ≡ key) }
        ensures ring { IfOk result (λ history. history.ring ≡ ring) }
        ensures base { IfOk result (λ history. history.base ≡ fresh) }
        ensures events { IfOk result (λ history. history.events ≡ []) }
    {
        let base = Base::fresh(alloc)?;
        let world = World::new(alloc)?;
        Ok(History {
            key,
            ring,
            moment: base.moment(),
            count: base.count(),
            base,
            events: Vec::new(alloc),
            world,
            statements: Registry::new(alloc),
            issues: Vec::new(alloc),
            standings: Standings::new(alloc),
        })
    }

    /// The history that begins with this state, under this key and this ring. The state has to be lawful under them.
    pub fn from_base(
        alloc: Global,
        key: SealKey,
        ring: Keyring,
        base: Base,
    ) -> Result<History, NoMemory>
        requires { IsLawfulBase (authority_with key ring) base }
        ensures key { IfOk result (λ history. history.key ≡ key) }
        ensures ring { IfOk result (λ history. history.ring ≡ ring) }
        ensures base { IfOk result (λ history. history.base ≡ base) }
        ensures events { IfOk result (λ history. history.events ≡ []) }
    {
        let world = base.world().copy()?;
        let statements = registry_of(alloc, base.statements())?;
        let issues = copy_issues(alloc, base.issues())?.into_vec();
        let standings = Standings::from_issues(alloc, &key, &statements, issues.as_slice())?;
        Ok(History {
            key,
            ring,
            moment: base.moment(),
            count: base.count(),
            base,
            events: Vec::new(alloc),
            world,
            statements,
            issues,
            standings,
        })
    }

    /// The state to which the events lead, in memory of its own. A history may begin with it.
    pub fn to_base(&self, alloc: Global) -> Result<Base, NoMemory>
        ensures { IfOk result (λ base. base ≡ state_of self.now) }
    {
        Ok(Base::from_parts(
            self.world.copy()?,
            copy_statements(alloc, self.statements.entries())?,
            copy_issues(alloc, self.issues.as_slice())?,
            self.moment,
            self.count,
        ))
    }

    /// The key under which procaps are sealed.
    pub fn key(&self) -> &SealKey
        ensures { result.now ≡ self.now.key }
    {
        &self.key
    }

    /// Those whose signatures are accepted.
    pub fn ring(&self) -> &Keyring
        ensures { result.now ≡ self.now.ring }
    {
        &self.ring
    }

    /// The state with which it begins.
    pub fn base(&self) -> &Base
        ensures { result.now ≡ self.now.base }
    {
        &self.base
    }

    /// The records of the events since, in their order.
    pub fn events(&self) -> &[EventRecord]
        ensures { result.now ≡ self.now.events }
    {
        self.events.as_slice()
    }

    /// The world.
    pub fn world(&self) -> &World
        ensures { result.now ≡ world_of self.now }
    {
        &self.world
    }

    /// The registry of statements.
    pub fn registry(&self) -> &Registry
        ensures { result.now.entries ≡ (state_of self.now).statements }
    {
        &self.statements
    }

    /// The statements that are registered, withdrawn ones too, with their signatures, by their numbers from 1.
    pub fn statements(&self) -> &[Registered]
        ensures same { result.now ≡ (state_of self.now).statements }
        ensures few { length result.now ≤ MOST_STATEMENTS }
    {
        self.statements.entries()
    }

    /// The statement of that number, also if it was withdrawn; none exactly if no statement has it.
    pub fn statement(&self, number: u32) -> Option<&Statement>
        ensures { let statements = sayings (state_of self.now).statements
            in MatchOption result (HasNone statements number) (λ statement.
            IsNumbered statements number statement.now) }
    {
        let entries = self.statements.entries();
        if number == 0 || entries.len() < number as usize {
            return None;
        }
        Some(entries[number as usize - 1].statement())
    }

    /// The statement of that number; none exactly if no statement has it, or it was withdrawn.
    pub fn live(&self, number: u32) -> Option<&Statement>
        ensures { let book = book_of (state_of self.now) in MatchOption result (HoldsNone book number) (λ s. IsNumbered book number (Some s.now)) }
    {
        self.statements.live(number)
    }

    /// The number of the withdrawn statement by which the grant of a sealed procap is gone; none exactly if it is not gone.
    /// It takes no memory, and goes over no issues: of a grant that names statements, each of these is looked at.
    pub fn gone(&self, procap: &Procap) -> Option<u32>
        requires { IsGenuine self.now.key procap.now }
        ensures { result ≡ gone (state_of self.now) procap.now.grant }
    {
        let named = procap.grant.cited();
        if named.is_empty() {
            return self.gone_by_issues(procap);
        }
        first_withdrawn(&self.statements, named)
    }

    // The number of the withdrawn statement by which the grant of a sealed procap, which names no statements, is gone, as its
    // issues tell.
    fn gone_by_issues(&self, procap: &Procap) -> Option<u32>
        requires genuine { IsGenuine self.now.key procap.now }
        requires unnamed { procap.now.grant.cited ≡ [] }
        ensures { result ≡ gone_by_issues (state_of self.now) procap.now.grant }
    {
        self.standings
            .gone_by(&self.statements, self.issues.as_slice(), procap)
    }

    // The issue of that number; none exactly if there is no such issue.
    fn numbered(&self, number: u64) -> Option<&IssueRecord>
        ensures { let issues = (state_of self.now).issues in MatchOption result (HasNone issues number) (λ issue. IsNumbered issues number issue.now) }
    {
        let issues = self.issues.as_slice();
        if number == 0 || (issues.len() as u64) < number {
            return None;
        }
        Some(&issues[number as usize - 1])
    }

    /// The grant of the issue of that number, in memory of its own; none exactly if there is no such issue.
    pub fn issue(&self, alloc: Global, number: u64) -> Result<Option<Grant>, NoMemory>
        ensures { let issues = (state_of self.now).issues in IfOk result (λ found. MatchOption found (HasNone issues number) (IsIssued issues number)) }
    {
        match self.numbered(number) {
            Some(issue) => Ok(Some(issue.grant(alloc)?)),
            None => Ok(None),
        }
    }

    /// The records of the issues, by their numbers from 1.
    pub fn issues(&self) -> &[IssueRecord]
        ensures { result.now ≡ (state_of self.now).issues }
    {
        self.issues.as_slice()
    }

    /// The greatest moment so far.
    pub fn moment(&self) -> i64
        ensures { result ≡ (state_of self.now).moment }
    {
        self.moment
    }

    /// The number of the last event.
    pub fn count(&self) -> u64
        ensures { result ≡ (state_of self.now).count }
    {
        self.count
    }

    /// Each event is lawful where it came.
    pub fn lemma_is_lawful(&self)
        ensures { IsLawful (authority_of self.now) self.now.base self.now.events }
    {
        let _ = &self.events;
    }

    /// The world, of which the headline holds with the events.
    pub fn headline(&self) -> &World
        ensures { Headline (authority_of self.now) self.now.base self.now.events result.now.world }
    {
        &self.world
    }

    /// Makes room for one more event, whatever it is.
    pub fn reserve(&mut self) -> Result<(), NoMemory>
        ensures key { self.new.key ≡ self.old.key }
        ensures ring { self.new.ring ≡ self.old.ring }
        ensures base { self.new.base ≡ self.old.base }
        ensures events { self.new.events ≡ self.old.events }
        ensures ready { self.new.ready ≡ self.old.ready }
        ensures room { OnOk result (1 ≤ self.new.room) }
    {
        self.events.reserve(1)?;
        self.statements.reserve()?;
        self.issues.reserve(1)?;
        self.standings.reserve()?;
        Ok(())
    }

    /// What the caller's operation returns, with all memory taken for its change, or its first refusal; and the
    /// operation, which is given back. Nothing is kept.
    pub fn prepare(
        &mut self,
        alloc: Global,
        caller: &Principal,
        op: Op,
    ) -> (Op, Result<OpReply, OpFault>)
        ensures key { self.new.key ≡ self.old.key }
        ensures ring { self.new.ring ≡ self.old.ring }
        ensures base { self.new.base ≡ self.old.base }
        ensures events { self.new.events ≡ self.old.events }
        ensures room { self.new.room ≡ self.old.room }
        ensures op { result.0 ≡ op }
        ensures answer { ReservesWorld caller.now (state_of self.old).world op result.1 (world_of self.new) }
    {
        self.world.reserve(alloc, caller, op)
    }

    /// Keeps the event's record and what the state keeps of the event, for which there has to be room. It takes no memory.
    pub fn keep(&mut self, event: Event, kept: EventRecord, addition: Addition)
        requires room { 1 ≤ self.old.room }
        requires kept { kept ≡ event }
        requires lawful { MayFollow (authority_of self.old) (state_of self.old) event }
        requires addition { addition ≡ addition_of event }
        requires ready { IsReadyFor self.old event }
        requires counted { (state_of self.old).count < MOST_EVENTS }
        ensures key { self.new.key ≡ self.old.key }
        ensures ring { self.new.ring ≡ self.old.ring }
        ensures base { self.new.base ≡ self.old.base }
        ensures events { self.new.events ≡ self.old.events ++ event ∷ [] }
    {
        let event = apply_event(&mut self.world, &mut self.moment, event);
        add_to_state(
            &self.key,
            &mut self.statements,
            &mut self.issues,
            &mut self.standings,
            &event,
            addition,
        );
        self.events.push(kept).unwrap();
        self.count += 1;
    }
}
