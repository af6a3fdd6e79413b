//! The first line of a session.

ghost use Rattle.std.specs.Prelude.{◌≡◌, ◌++◌, ◌∷◌, [], IfOk};
ghost use Rattle.line_text.specs.Greeting.{greeting_text};

use crate::hex_word::write_hex;
use bl_syntax::decimal::put_text;
use bl_syntax::{Bytes, NoMemory};
use std::alloc::Global;

/// The greeting that gives this nonce, with its line end.
pub fn greeting_line(alloc: Global, nonce: &[u8; 16]) -> Result<Bytes, NoMemory>
    ensures { IfOk result (λ bytes. bytes ≡ greeting_text nonce.now ++ 10 ∷ []) }
{
    let mut bytes = Bytes::new(alloc);
    put_text(&mut bytes, "hello ")?;
    write_hex(alloc, nonce, &mut bytes)?;
    bytes.push(b'\n')?;
    Ok(bytes)
}
