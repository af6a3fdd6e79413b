//! Classes of bytes, of which names and texts are made.

ghost use Rattle.std.specs.Prelude.{◌≡◌};
ghost use Rattle.bl_syntax.specs.Names.{is_lower_case, is_upper_case, is_digit, is_name_byte, is_text_byte};

/// From `a` to `z`.
pub fn is_lower_case(byte: u8) -> bool
    ensures { result ≡ is_lower_case byte }
{
    b'a' <= byte && byte <= b'z'
}

/// From `A` to `Z`.
pub fn is_upper_case(byte: u8) -> bool
    ensures { result ≡ is_upper_case byte }
{
    b'A' <= byte && byte <= b'Z'
}

/// From `0` to `9`.
pub fn is_digit(byte: u8) -> bool
    ensures { result ≡ is_digit byte }
{
    b'0' <= byte && byte <= b'9'
}

/// What may follow the first byte of a name.
pub fn is_name_byte(byte: u8) -> bool
    ensures { result ≡ is_name_byte byte }
{
    is_lower_case(byte) || is_digit(byte) || byte == b'_'
}

/// What a text constant is made of.
pub fn is_text_byte(byte: u8) -> bool
    ensures { result ≡ is_text_byte byte }
{
    32 <= byte && byte <= 126 && !(byte == b'"') && !(byte == b'\\')
}
