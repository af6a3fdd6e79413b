//! The front of some bytes.

ghost use Rattle.std.specs.Prelude.{◌≡◌, take};

/// So many bytes, or all if there are fewer.
pub(crate) fn front_of(bytes: &[u8], count: usize) -> &[u8]
    ensures { result.now ≡ take count bytes.now }
{
    if bytes.len() < count {
        bytes
    } else {
        &bytes[..count]
    }
}
