//! Issues kept as the bytes of their records.

ghost use Rattle.std.specs.Prelude.{◌≡◌, ◌≤◌, IfOk, find, length};
ghost use Rattle.policy_statement.specs.Withdrawal.{is_withdrawn};
ghost use Rattle.record_parts.specs.IssuingRecord.{numbers_in};
ghost use Rattle.record_parts.specs.RecordSpelling.{IsSpellableIssued, issued_spelling};

use crate::event::Issue;
use bl_syntax::{Grant, NoMemory, Numbers};
use issue_standings::Bearing;
use policy_statement::Registry;
use proof_term::ProofTree;
use record_parts::IssuingRecord;
use std::alloc::Global;
use std::marker::Model;

/// An issue, kept as its canonical bytes. Contracts see the issue. What is read of the bytes is read anew at each call.
#[derive(Debug, Drop)]
pub struct IssueRecord {
    issuing: IssuingRecord,
}

impl Model for IssueRecord {
    ghost use Rattle.access_history.specs.declared.event.Issue.{Issue};
    ghost use Rattle.access_history.specs.contracts.event.Issue as the_issue;

    ghost Value = { Issue };

    ghost coded = { the_issue.the_row.coded };

    ghost view = { λ r. record { cited = r.issuing.0; proof = r.issuing.1.0; grant = r.issuing.1.1 } };
}

impl IssueRecord {
    /// The record of an issue that cites at most 255 statements, in memory of its own.
    pub fn of(
        alloc: Global,
        cited: &[u32],
        proof: &ProofTree,
        grant: &Grant,
    ) -> Result<IssueRecord, NoMemory>
        requires { length cited.now ≤ 255 }
        ensures { IfOk result (λ kept. kept ≡ record { cited = cited.now; proof = proof.now; grant = grant.now }) }
    {
        Ok(IssueRecord {
            issuing: IssuingRecord::of(alloc, cited, proof, grant)?,
        })
    }

    /// Its canonical bytes.
    pub fn bytes(&self) -> &[u8]
        ensures same { result.now ≡ issued_spelling self.now.cited self.now.proof self.now.grant }
        ensures spelled { IsSpellableIssued self.now.cited self.now.proof self.now.grant }
    {
        self.issuing.bytes()
    }

    /// A record of the same issue, in memory of its own. Nothing is read.
    pub fn copy(&self, alloc: Global) -> Result<IssueRecord, NoMemory>
        ensures { IfOk result (λ copied. copied ≡ self.now) }
    {
        Ok(IssueRecord {
            issuing: self.issuing.copy(alloc)?,
        })
    }

    /// The issue, in memory of its own.
    pub fn issue(&self, alloc: Global) -> Result<Issue, NoMemory>
        ensures { IfOk result (λ issue. issue ≡ self.now) }
    {
        let (cited, proof, grant) = self.issuing.parts(alloc)?;
        Ok(Issue {
            cited,
            proof,
            grant,
        })
    }

    /// The numbers that it cites, in memory of their own. Nothing else is read.
    pub fn cited(&self, alloc: Global) -> Result<Numbers, NoMemory>
        ensures { IfOk result (λ numbers. numbers ≡ self.now.cited) }
    {
        self.issuing.cited(alloc)
    }
}

// The first of the numbers, of four bytes each, whose statement was withdrawn.
#[tactic(auto, unfolding(record_parts::specs::IssuingRecord::numbers_in))]
fn first_withdrawn_in(registry: &Registry, bytes: &[u8]) -> Option<u32>
    ensures { result ≡ find (is_withdrawn registry.now.entries) (numbers_in bytes.now) }
{
    match bytes {
        [a, b, c, d, rest @ ..] => {
            let number = u32::from_be_bytes([*a, *b, *c, *d]);
            if registry.is_withdrawn(number) {
                Some(number)
            } else {
                first_withdrawn_in(registry, rest)
            }
        }
        _ => None,
    }
}

// Nothing is read but what is asked, and only a copy of the grant takes memory.
impl Bearing for IssueRecord {
    ghost bearing = { λ issue. record { grant = issue.grant; cited = issue.cited } };

    fn is_plain(&self) -> bool {
        self.issuing.is_plain()
    }

    fn is_grant(&self, grant: &Grant) -> bool {
        self.issuing.is_grant(grant)
    }

    fn grant(&self, alloc: Global) -> Result<Grant, NoMemory> {
        self.issuing.grant(alloc)
    }

    fn cites(&self, number: u32) -> bool {
        self.issuing.cites(number)
    }

    fn first_withdrawn(&self, registry: &Registry) -> Option<u32> {
        first_withdrawn_in(registry, self.issuing.cited_bytes())
    }
}
