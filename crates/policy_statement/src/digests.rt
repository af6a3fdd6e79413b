//! The digests of what is kept, in rising order, so that one is found without going over all of them.

ghost use Rattle.std.specs.Prelude.{◌≡◌, ◌≢◌, ◌<◌, ◌+◌, ℕ, false, vec_len, vec_capacity};
ghost use Rattle.std.specs.List.Sorted.{IsNonDecreasing};
ghost use Rattle.policy_statement.specs.Registered.{spare_of};
ghost use Rattle.policy_statement.specs.Digests.{IsMissing, IsPlace};

/// Whether the digest is one of these; `false` only if it is not.
pub fn has_digest(rising: &[u64], digest: u64) -> bool
    requires { IsNonDecreasing rising.now }
    ensures { result ≡ false → IsMissing rising.now digest }
{
    rising.binary_search(&digest).is_ok()
}

// Where the digest may stand.
fn insertion_place(rising: &[u64], digest: u64) -> usize
    requires { IsNonDecreasing rising.now }
    ensures { IsPlace rising.now digest result }
{
    match rising.binary_search(&digest) {
        Ok(place) => place,
        Err(place) => place,
    }
}

/// Adds a digest, for which there has to be room. It takes no memory.
pub fn add_digest(rising: &mut Vec<u64>, digest: u64)
    requires room { vec_len rising.old < vec_capacity rising.old }
    requires rising { IsNonDecreasing rising.old.items }
    ensures rising { IsNonDecreasing rising.new.items }
    ensures missing { (d : ℕ) → IsMissing rising.new.items d →
        IsMissing rising.old.items d × (digest ≢ d) }
    ensures spare { spare_of rising.new + 1 ≡ spare_of rising.old }
{
    let place = insertion_place(rising.as_slice(), digest);
    let _ = rising.insert(place, digest);
}
