//! Sets of places below 512, a bit for each.

ghost use Rattle.std.specs.Prelude.{◌≡◌, ◌<◌, ◌↔◌, ◌⊎◌, ℕ, IsTrue};
ghost use Rattle.bl_constraints.specs.Places.{HasPlace, ShareBit, Meet};

/// A set of places below 512.
#[derive(Clone, Copy, Debug)]
pub struct Places {
    words: [u64; 8],
}

impl Places {
    /// No place.
    pub fn none() -> Places
        ensures { (place : ℕ) → HasPlace result.words place → ⊥ }
    {
        Places { words: [0; 8] }
    }

    /// Whether the place is among them.
    pub fn has(&self, place: usize) -> bool
        requires { place < 512 }
        ensures { IsTrue result ↔ HasPlace self.now.words place }
    {
        (self.words[place / 64] >> (place % 64)) & 1 == 1
    }

    /// Adds the place.
    pub fn insert(&mut self, place: usize)
        requires { place < 512 }
        ensures { (k : ℕ) → HasPlace self.new.words k ↔ ((k ≡ place) ⊎ HasPlace self.old.words k) }
    {
        self.words[place / 64] |= 1 << (place % 64);
    }

    /// Adds all places of the other.
    pub fn add_all(&mut self, other: &Places)
        ensures { (k : ℕ) →
            HasPlace self.new.words k ↔ (HasPlace self.old.words k ⊎ HasPlace other.now.words k) }
    {
        for word in 0..8 {
            self.words[word] |= other.words[word];
        }
    }

    /// Whether a place is in both.
    pub fn meets(&self, other: &Places) -> bool
        ensures { IsTrue result ↔ Meet self.now.words other.now.words }
    {
        for word in 0..8 {
            if share_bit(self.words[word], other.words[word]) {
                return true;
            }
        }
        false
    }
}

fn share_bit(word: u64, other: u64) -> bool
    ensures { IsTrue result ↔ ShareBit word other }
{
    word & other != 0
}
