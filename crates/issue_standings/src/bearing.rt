//! What an issue rests on.

ghost use Rattle.std.specs.Prelude.{◌≡◌, ◌↔◌, IfOk, IsTrue, find};
ghost use Rattle.policy_statement.specs.Withdrawal.{is_withdrawn};
ghost use Rattle.issue_standings.specs.Bearing.{BearingView, cites, is_plain};

use bl_syntax::{Grant, NoMemory};
use policy_statement::Registry;
use std::alloc::Global;

/// An issue: a grant, and the numbers of the statements that its proof cites. It may keep both as bytes, so it is asked.
pub trait Bearing {
    // Its grant, with those numbers.
    ghost bearing: { Self → BearingView };

    /// Whether its grant names no statements.
    fn is_plain(&self) -> bool
        ensures { result ≡ is_plain (bearing self.now) };

    /// Whether it has this grant.
    fn is_grant(&self, grant: &Grant) -> bool
        ensures { IsTrue result ↔ ((bearing self.now).grant ≡ grant.now) };

    /// Its grant, in memory of its own.
    fn grant(&self, alloc: Global) -> Result<Grant, NoMemory>
        ensures { IfOk result (λ grant. grant ≡ (bearing self.now).grant) };

    /// Whether it cites the statement of that number.
    fn cites(&self, number: u32) -> bool
        ensures { result ≡ cites number (bearing self.now) };

    /// The first number that it cites whose statement was withdrawn.
    fn first_withdrawn(&self, registry: &Registry) -> Option<u32>
        ensures { result ≡ find (is_withdrawn registry.now.entries) (bearing self.now).cited };
}
