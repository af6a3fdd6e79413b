//! Strings of JSON.

ghost use Rattle.std.specs.Prelude.{◌≡◌, ◌<◌, ◌++◌, OnOk};
ghost use Rattle.std.specs.List.{flat_map};
ghost use Rattle.history_text.specs.Strings.{escaped, hex_digit, string_text};

use bl_syntax::decimal::put_text;
use bl_syntax::{Bytes, NoMemory};

// A digit of hexadecimal.
fn hex_digit(number: u8) -> u8
    requires { number < 16 }
    ensures { result ≡ hex_digit number }
{
    if number < 10 {
        number + 48
    } else {
        number + 87
    }
}

// Writes a byte as it stands in a string.
fn put_escaped(out: &mut Bytes, byte: u8) -> Result<(), NoMemory>
    ensures { OnOk result (out.new ≡ out.old ++ escaped byte) }
{
    if byte == 34 || byte == 92 {
        return out.extend(&[92, byte]);
    }
    if byte < 32 || 126 < byte {
        put_text(out, "\\u00")?;
        return out.extend(&[hex_digit(byte / 16), hex_digit(byte % 16)]);
    }
    out.push(byte)
}

// Writes bytes as they stand in a string.
fn put_all_escaped(out: &mut Bytes, bytes: &[u8]) -> Result<(), NoMemory>
    ensures { OnOk result (out.new ≡ out.old ++ flat_map escaped bytes.now) }
{
    for byte in bytes {
        put_escaped(out, *byte)?;
    }
    Ok(())
}

/// Writes the bytes as a string of JSON.
pub fn put_string(out: &mut Bytes, bytes: &[u8]) -> Result<(), NoMemory>
    ensures { OnOk result (out.new ≡ out.old ++ string_text bytes.now) }
{
    put_text(out, "\"")?;
    put_all_escaped(out, bytes)?;
    put_text(out, "\"")
}
