//! The two forms of a grant that was issued.

ghost use Rattle.std.specs.Prelude.{◌↔◌, IsTrue};
ghost use Rattle.access_history.specs.Citing.{IsGrantOf};

use bl_syntax::Grant;

/// Whether the grant is the proved one, or that one naming these statements.
pub fn is_grant_of(proved: &Grant, numbers: &[u32], grant: &Grant) -> bool
    ensures { IsTrue result ↔ IsGrantOf proved.now numbers.now grant.now }
{
    grant.is_same(proved) || grant.is_naming(proved, numbers)
}
