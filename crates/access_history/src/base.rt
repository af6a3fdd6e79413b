//! The state with which a history begins.

ghost use Rattle.std.specs.Prelude.{◌≡◌, IfOk};
ghost use Rattle.access_history.specs.Replay.{fresh};

use crate::copying::{copy_issues, copy_statements};
use crate::event::{Issues, Statements};
use crate::issue_record::IssueRecord;
use bl_syntax::limits::FIRST_MOMENT;
use bl_syntax::{NoMemory, Sequence};
use policy_statement::Registered;
use std::alloc::Global;
use std::marker::Model;
use world_state::World;

/// A state: a world, the statements, withdrawn ones too, and issues by their numbers from 1, the greatest moment so far, and the number of
/// the last event.
#[derive(Drop)]
pub struct Base {
    world: World,
    statements: Statements,
    issues: Issues,
    moment: i64,
    count: u64,
}

impl Model for Base {
    ghost use Rattle.access_history.specs.Base.{BaseView};
    ghost use Rattle.access_history.specs.BaseCode.{base_code};

    ghost Value = { BaseView };

    ghost coded = { base_code };

    ghost view = { λ b. record { world = b.world.world; statements = b.statements; issues = b.issues; moment = b.moment; count = b.count } };
}

impl Base {
    /// A store before its first event: the root, which `admin` owns, and the first moment.
    pub fn fresh(alloc: Global) -> Result<Base, NoMemory>
        ensures { IfOk result (λ base. base ≡ fresh) }
    {
        Ok(Base {
            world: World::new(alloc)?,
            statements: Sequence::new(alloc),
            issues: Sequence::new(alloc),
            moment: FIRST_MOMENT,
            count: 0,
        })
    }

    /// The state of these parts. It takes no memory.
    pub fn from_parts(
        world: World,
        statements: Statements,
        issues: Issues,
        moment: i64,
        count: u64,
    ) -> Base
        ensures { result ≡ record { world = world.world; statements = statements; issues = issues; moment = moment; count = count } }
    {
        Base {
            world,
            statements,
            issues,
            moment,
            count,
        }
    }

    /// An equal state in memory of its own.
    pub fn copy(&self, alloc: Global) -> Result<Base, NoMemory>
        ensures { IfOk result (λ copied. copied ≡ self.now) }
    {
        Ok(Base {
            world: self.world.copy()?,
            statements: copy_statements(alloc, self.statements.as_slice())?,
            issues: copy_issues(alloc, self.issues.as_slice())?,
            moment: self.moment,
            count: self.count,
        })
    }

    /// The world.
    pub fn world(&self) -> &World
        ensures { result.now.world ≡ self.now.world }
    {
        &self.world
    }

    /// The statements that are registered, withdrawn ones too, with their signatures, by their numbers from 1.
    pub fn statements(&self) -> &[Registered]
        ensures { result.now ≡ self.now.statements }
    {
        self.statements.as_slice()
    }

    /// The records of the issues, by their numbers from 1.
    pub fn issues(&self) -> &[IssueRecord]
        ensures { result.now ≡ self.now.issues }
    {
        self.issues.as_slice()
    }

    /// The greatest moment so far.
    pub fn moment(&self) -> i64
        ensures { result ≡ self.now.moment }
    {
        self.moment
    }

    /// The number of the last event.
    pub fn count(&self) -> u64
        ensures { result ≡ self.now.count }
    {
        self.count
    }
}
