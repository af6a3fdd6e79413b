//! Which of two areas counts.

ghost use Rattle.std.specs.Prelude.{◌≡◌};
ghost use Rattle.pcfs_store.specs.Newest.{newer};

/// Whether the second of two areas counts, by their generations: the open one with the greater generation, and the first
/// if they are equal. None exactly if neither is open.
pub fn newer(first: Option<u64>, second: Option<u64>) -> Option<bool>
    ensures { result ≡ newer first second }
{
    match (first, second) {
        (None, None) => None,
        (None, Some(_)) => Some(true),
        (Some(_), None) => Some(false),
        (Some(first), Some(second)) => Some(first < second),
    }
}
