//! Few bytes in a fixed place, so that a name or a text takes no memory of its own.

ghost use Rattle.std.specs.Prelude.{◌≡◌, ◌≤◌, ◌<◌, ◌==◌, length, ⊤};
ghost use Rattle.std.specs.Cmp.Lexicographic.{pointwise};
ghost use Rattle.std.specs.Cmp.Rules.{comparing};
ghost use Rattle.std.proofs.Common.{rules};

use std::alloc::AllocError;
use std::marker::Model;

/// At most `N` bytes. Contracts see the list of the bytes.
#[derive(Debug)]
pub struct Short<const N: usize> {
    bytes: [u8; N],
    len: u8,
}

impl<const N: usize> Model for Short<N> {
    ghost use Rattle.std.specs.Prelude.{List, ℕ, length, take};

    ghost Value = { List ℕ };

    ghost use Rattle.bl_syntax.specs.Padding.{IsPadded, pad, padded_again};

    ghost view = { λ s. take s.len s.bytes };

    ghost invariant = { λ s. IsPadded N s.bytes s.len };

    ghost inverse = { λ bytes. record { bytes = pad N bytes; len = length bytes } };

    ghost inverse_ok = { λ a h. padded_again N a h };
}

impl<const N: usize> Clone for Short<N> {
    ghost is_clone = { λ s copy. copy ≡ s };

    ghost is_infallible = { λ _. ⊤ };

    fn clone(&self) -> Result<Self, AllocError> {
        Ok(*self)
    }
}

impl<const N: usize> Copy for Short<N> {}

impl<const N: usize> PartialEq for Short<N> {
    ghost eq = { pointwise ◌==◌ };

    ghost laws = { Prim.search (comparing, rules) };

    fn eq(&self, other: &Self) -> bool {
        self.bytes() == other.bytes()
    }
}

impl<const N: usize> Eq for Short<N> {
    ghost laws = { Prim.search (comparing, rules) };
}

impl<const N: usize> Short<N> {
    /// Puts the bytes in their place.
    pub fn new(bytes: &[u8]) -> Self
        requires fits { length bytes.now ≤ N }
        requires counted { N < 256 }
        ensures { result ≡ bytes.now }
    {
        let mut place = [0; N];
        place[..bytes.len()].copy_from_slice(bytes);
        Short {
            bytes: place,
            len: bytes.len() as u8,
        }
    }

    /// The bytes.
    pub fn bytes(&self) -> &[u8]
        ensures { result.now ≡ self.now }
    {
        &self.bytes[..self.len as usize]
    }
}
