//! Issues by their grants: which issue a procap rests on.

ghost use Rattle.std.specs.Prelude.{◌≡◌, ◌<◌, ◌++◌, ◌∷◌, [], ℕ, List, IfOk, None, Some, length};
ghost use Rattle.std.specs.List.{slice_get};
ghost use Rattle.bl_syntax.specs.Equality.{grant_eq};
ghost use Rattle.issue_standings.specs.Index.{front_of};
ghost use Rattle.history_table.specs.Index.{IsIndexOf, digest_of, digests_of, place_for};
ghost use Rattle.history_table.specs.Issues.{cited_by, does_stand, is_ground, last_ground, rests_on};

use access_history::IssueRecord;
use bl_syntax::{Grant, NoMemory, Numbers, Sequence, copy_numbers};
use issue_standings::Bearing;
use policy_statement::Registry;
use procap::SealKey;
use std::alloc::{AllocFailed, Global};
use std::collections::BTreeMap;

/// For each issue the place of the one before it whose tag begins alike, and for each begin of a tag the place of the last.
#[derive(Drop)]
pub struct IssueIndex {
    earlier: Vec<Option<usize>>,
    latest: BTreeMap<u64, usize>,
}

// The number of the first eight bytes of a tag.
fn front_of(tag: &[u8; 32]) -> u64
    ensures { result ≡ front_of tag.now }
{
    u64::from_be_bytes([
        tag[0], tag[1], tag[2], tag[3], tag[4], tag[5], tag[6], tag[7],
    ])
}

// The digest of a grant.
fn digest_of(key: &SealKey, grant: &Grant) -> u64
    ensures { result ≡ digest_of key.now grant.now }
{
    let tag = key.tag(grant);
    front_of(&tag)
}

/// Whether the issue stands: it cites no statement that was withdrawn.
pub fn does_stand(registry: &Registry, issue: &IssueRecord) -> bool
    ensures { result ≡ does_stand registry.now.entries issue.now }
{
    issue.first_withdrawn(registry).is_none()
}

// Whether the issue has the grant. The bytes of both are compared.
fn has_grant(issue: &IssueRecord, grant: &Grant) -> bool
    ensures { result ≡ grant_eq issue.now.grant grant.now }
{
    issue.is_grant(grant)
}

// Whether the issue has the grant, and stands.
fn is_ground(registry: &Registry, issue: &IssueRecord, grant: &Grant) -> bool
    ensures { result ≡ is_ground registry.now.entries grant.now issue.now }
{
    has_grant(issue, grant) && does_stand(registry, issue)
}

// The numbers that the issue of that number cites, in memory of their own; none if there is no such issue.
fn cited_by(alloc: Global, issues: &[IssueRecord], number: Option<u64>) -> Result<Numbers, NoMemory>
    ensures { IfOk result (λ numbers. numbers ≡ cited_by issues.now number) }
{
    match number {
        Some(number) => {
            if number == 0 || (issues.len() as u64) < number {
                return Ok(Sequence::new(alloc));
            }
            issues[number as usize - 1].cited(alloc)
        }
        None => Ok(Sequence::new(alloc)),
    }
}

/// The numbers of the statements on which a procap of the grant rests: those that the grant names; if it names none, those
/// that the issue of this number cites.
pub fn rests_on(
    alloc: Global,
    issues: &[IssueRecord],
    grant: &Grant,
    number: Option<u64>,
) -> Result<Numbers, NoMemory>
    ensures { IfOk result (λ numbers. numbers ≡ rests_on issues.now number grant.now.cited) }
{
    let named = grant.cited();
    if named.is_empty() {
        cited_by(alloc, issues, number)
    } else {
        copy_numbers(alloc, named)
    }
}

impl IssueIndex {
    /// The index of no issues.
    pub fn new(alloc: Global) -> IssueIndex
        ensures { IsIndexOf [] result }
    {
        IssueIndex {
            earlier: Vec::new(alloc),
            latest: BTreeMap::new(alloc),
        }
    }

    /// The index with one more issue, which has this grant.
    pub fn with(self, key: &SealKey, grant: &Grant) -> Result<IssueIndex, NoMemory>
        ensures { IfOk result (λ index. (digests : List ℕ) → IsIndexOf digests self → IsIndexOf (digests ++ digest_of key.now grant.now ∷ []) index) }
    {
        let mut index = self;
        let digest = digest_of(key, grant);
        let place = index.earlier.len();
        let before = index.last_place(digest);
        index.earlier.push(before)?;
        let put: Result<Option<usize>, AllocFailed<(u64, usize)>> = index
            .latest
            .insert(digest, place);
        match put {
            Ok(_) => Ok(index),
            Err(_) => Err(NoMemory),
        }
    }

    /// The index of these issues. The grant of each is read.
    pub fn of_issues(
        alloc: Global,
        key: &SealKey,
        issues: &[IssueRecord],
    ) -> Result<IssueIndex, NoMemory>
        ensures { IfOk result (IsIndexOf (digests_of key.now issues.now)) }
    {
        let mut index = IssueIndex::new(alloc);
        for issue in issues {
            let grant = issue.grant(alloc)?;
            index = index.with(key, &grant)?;
        }
        Ok(index)
    }

    // The last place that has the digest.
    fn last_place(&self, digest: u64) -> Option<usize>
        ensures { result ≡ place_for self.now digest }
    {
        self.latest.get(&digest).copied()
    }

    // The place before this one that has the same digest.
    fn before(&self, place: usize) -> Option<usize>
        requires { place < length self.now.earlier.items }
        ensures { slice_get self.now.earlier.items place ≡ Some result }
    {
        self.earlier[place]
    }

    /// The number of the last issue with this grant that stands; none exactly if there is none.
    pub fn last_ground(
        &self,
        key: &SealKey,
        registry: &Registry,
        issues: &[IssueRecord],
        grant: &Grant,
    ) -> Option<u64>
        requires { IsIndexOf (digests_of key.now issues.now) self.now }
        ensures { result ≡ last_ground registry.now.entries grant.now 1 None issues.now }
    {
        let mut next = self.last_place(digest_of(key, grant));
        'places: while let Some(place) = next {
            if is_ground(registry, &issues[place], grant) {
                return Some(place as u64 + 1);
            }
            next = self.before(place);
        }
        None
    }
}
