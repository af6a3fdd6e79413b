//! What a lock's value and its jobs are.
ghost use Rattle.std.specs.Prelude.{ℕ, List};
ghost use Rattle.tree_lock.specs.Entries.{Appends};

/// A value that keeps a list of entries, each under the number of the pass whose job appended it.
pub trait Recorded {
    type Entry;

    /// The entries, oldest first. There is no way to read them at run time.
    ghost entries: { Self → List (ℕ × Self.Entry) };
}

/// What a pass does in its turn.
pub trait Job<V: Recorded> {
    type Out;

    /// Of the job, the value that it finds, the number of the pass, the value that it leaves and its answer.
    ghost done: { Self → V → ℕ → V → Self.Out → Type 0 };

    /// It only appends entries of this pass.
    fn work(self, value: &mut V, pass: u64) -> Self::Out
        ensures done { done self value.old pass value.new result }
        ensures appends { Appends pass (V.entries value.old) (V.entries value.new) };
}
