//! The first place of each digest, by which an equal item is found without going over all.

ghost use Rattle.std.specs.Prelude.{◌≡◌, ◌≢◌, ℕ, Some, IfOk, OnOk, unwrap_or};
ghost use Rattle.pcfs_audit.specs.Firsts.{AreFirsts, first_of};

use bl_syntax::NoMemory;
use std::alloc::{AllocFailed, Global};
use std::collections::BTreeMap;

/// The first place of each digest.
pub type Firsts = BTreeMap<u64, usize>;

// Enters the place for the digest, unless one is entered.
fn enter(firsts: &mut Firsts, digest: u64, place: usize) -> Result<(), NoMemory>
    ensures own { OnOk result (first_of firsts.new.entries digest ≡ Some (unwrap_or (first_of firsts.old.entries digest) place)) }
    ensures others { OnOk result ((other : ℕ) → other ≢ digest → first_of firsts.new.entries other ≡ first_of firsts.old.entries other) }
{
    if firsts.contains_key(&digest) {
        return Ok(());
    }
    let put: Result<Option<usize>, AllocFailed<(u64, usize)>> = firsts.insert(digest, place);
    match put {
        Ok(_) => Ok(()),
        Err(_) => Err(NoMemory),
    }
}

/// The first place of each of these digests.
pub fn firsts_of(alloc: Global, digests: &[u64]) -> Result<Firsts, NoMemory>
    ensures { IfOk result (λ firsts. AreFirsts digests.now firsts.entries) }
{
    let mut firsts = BTreeMap::new(alloc);
    for place in 0..digests.len() {
        enter(&mut firsts, digests[place], place)?;
    }
    Ok(firsts)
}

/// The first place of the digest; none exactly if no place is entered for it.
pub fn first_place(firsts: &Firsts, digest: u64) -> Option<usize>
    ensures { result ≡ first_of firsts.now.entries digest }
{
    firsts.get(&digest).copied()
}
