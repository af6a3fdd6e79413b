//! Which numbers of statements may be cited together.

ghost use Rattle.std.specs.Prelude.{◌↔◌, IsTrue};
ghost use Rattle.bl_syntax.specs.Citable.{AreCitable, DoRise};

use crate::limits::MOST_CITED;

/// Whether they are 1 to 64 numbers, strictly rising.
pub fn are_citable(numbers: &[u32]) -> bool
    ensures { IsTrue result ↔ AreCitable numbers.now }
{
    !numbers.is_empty() && numbers.len() <= MOST_CITED && do_rise(numbers)
}

// Whether each number is below the next.
fn do_rise(numbers: &[u32]) -> bool
    ensures { IsTrue result ↔ DoRise numbers.now }
{
    match numbers {
        [first, second, ..] => *first < *second && do_rise(&numbers[1..]),
        _ => true,
    }
}
