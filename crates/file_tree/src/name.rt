//! Names of nodes in a place of fixed size, in byte order.

ghost use Rattle.std.specs.Prelude.{◌≡◌, ◌≤◌, ◌==◌, length};
ghost use Rattle.std.specs.Cmp.Lexicographic.{pointwise, slice_cmp, nat_list_cmp_total};
ghost use Rattle.std.specs.Cmp.Rules.{comparing};
ghost use Rattle.std.specs.Ordering.{nat_cmp};
ghost use Rattle.std.proofs.Common.{rules, Some};
ghost use Rattle.file_world.specs.Limits.{longest_name};

use bl_syntax::Short;
use std::cmp::Ordering;
use std::marker::Model;

/// At most 64 bytes, in byte order.
#[derive(Debug)]
pub struct Name {
    short: Short<64>,
}

impl Model for Name {
    ghost use Rattle.std.specs.Prelude.{List, ℕ};

    ghost Value = { List ℕ };

    ghost view = { λ n. n.short };

    ghost inverse = { λ name. record { short = name } };
}

impl Clone for Name {
    ghost is_clone = { λ n copy. copy ≡ n };

    fn clone(&self) -> Result<Self, std::alloc::AllocError> {
        Ok(*self)
    }
}

impl Copy for Name {}

impl PartialEq for Name {
    ghost eq = { pointwise ◌==◌ };

    ghost laws = { Prim.search (comparing, rules) };

    fn eq(&self, other: &Self) -> bool {
        self.short.bytes() == other.short.bytes()
    }
}

impl Eq for Name {
    ghost laws = { Prim.search (comparing, rules) };
}

impl PartialOrd for Name {
    ghost partial_cmp = { λ x y. Some (slice_cmp nat_cmp x y) };

    ghost laws = { Prim.search (comparing, rules) };

    fn partial_cmp(&self, other: &Self) -> Option<Ordering> {
        Some(self.cmp(other))
    }
}

impl Ord for Name {
    ghost cmp = { slice_cmp nat_cmp };

    ghost total = { nat_list_cmp_total };

    ghost matches_partial_cmp = { Prim.search (comparing, rules) };

    ghost matches_eq = { Prim.search (comparing, rules) };

    fn cmp(&self, other: &Self) -> Ordering {
        self.short.bytes().cmp(&other.short.bytes())
    }
}

impl Name {
    /// Puts the bytes in their place.
    pub fn new(bytes: &[u8]) -> Name
        requires { length bytes.now ≤ longest_name }
        ensures { result ≡ bytes.now }
    {
        Name {
            short: Short::new(bytes),
        }
    }

    /// The name of these bytes.
    pub fn of_short(short: Short<64>) -> Name
        ensures { result ≡ short }
    {
        Name { short }
    }

    /// The bytes in a place of fixed size.
    pub fn short(&self) -> Short<64>
        ensures { result ≡ self.now }
    {
        self.short
    }
}
