//! Laws of locks. A law is the contract of an empty function, which nothing calls.
ghost use Rattle.std.specs.Prelude.{ℕ, List};
ghost use Rattle.tree_lock.specs.Closing.{IsClosed, LaterPassesHaveSeen};
ghost use Rattle.tree_lock.specs.Merge.{IsMerge};
ghost use Rattle.tree_lock.specs.Seen.{DoormanView};

/// The history of a closed lock is its opening entries, and then a merge of its passes' own entries.
pub fn closed_histories_are_merges<E>()
    ensures { (door : DoormanView E) (history : List (ℕ × E)) → IsClosed door history →
        IsMerge door.opening door.retired history }
{}

/// A pass that is made after another was taken in has seen all that the other had seen.
pub fn later_passes_have_seen_it<E>()
    ensures { LaterPassesHaveSeen E }
{}
