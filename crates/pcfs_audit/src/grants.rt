//! Grants that were issued, found by their digests.

ghost use Rattle.std.specs.Prelude.{◌≡◌, ◌↔◌, ◌≤◌, length, take, IsTrue, Contains, MatchOption};
ghost use Rattle.pcfs_audit.specs.Dossier.{IsDossier};
ghost use Rattle.pcfs_audit.specs.Firsts.{grant_digest};
ghost use Rattle.pcfs_audit.specs.Papers.{shown};
ghost use Rattle.pcfs_audit.specs.Supports.{IsFirstOf, IsRowFor};

use crate::dossier::Dossier;
use crate::firsts::first_place;
use bl_syntax::Grant;

// Whether the grant is one of these.
fn is_among(grants: &[&Grant], grant: &Grant) -> bool
    ensures { IsTrue result ↔ Contains (shown grants.now) grant.now }
{
    for other in grants {
        if other.is_same(grant) {
            return true;
        }
    }
    false
}

/// Whether the grant, which has that digest, is one of so many that were issued.
pub fn was_issued(dossier: &Dossier, earlier: usize, digest: u64, grant: &Grant) -> bool
    requires dossier { IsDossier dossier.now }
    requires within { earlier ≤ length dossier.now.papers.grants.items }
    requires digest { digest ≡ grant_digest dossier.now.key grant.now }
    ensures { IsTrue result ↔ Contains (take earlier (shown dossier.now.papers.grants.items)) grant.now }
{
    let first = match first_place(&dossier.grant_firsts, digest) {
        Some(first) => first,
        None => return false,
    };
    if earlier <= first {
        return false;
    }
    let grants = dossier.papers.grants.as_slice();
    if grants[first].is_same(grant) {
        return true;
    }
    is_among(&grants[..earlier], grant)
}

// The place of the first of these that is the grant.
fn find_among(grants: &[&Grant], grant: &Grant) -> Option<usize>
    ensures { MatchOption result (Contains (shown grants.now) grant.now → ⊥) (IsFirstOf (shown grants.now) grant.now) }
{
    for place in 0..grants.len() {
        if grants[place].is_same(grant) {
            return Some(place);
        }
    }
    None
}

/// The place of the first grant that is this one, of all that are ever issued; none exactly if none is. The digest has to be
/// the grant's.
pub fn row_of(dossier: &Dossier, digest: u64, grant: &Grant) -> Option<usize>
    requires { IsDossier dossier.now }
    ensures { IsRowFor dossier.now digest grant.now result }
{
    let first = match first_place(&dossier.grant_firsts, digest) {
        Some(first) => first,
        None => return None,
    };
    let grants = dossier.papers.grants.as_slice();
    if grants.len() <= first {
        return None;
    }
    if grants[first].is_same(grant) {
        return Some(first);
    }
    find_among(grants, grant)
}
