//! Readers of canonical bytes. Each gives the value whose spelling begins the input and how many bytes it takes, or the
//! first fault. None of them takes memory, and bytes may follow the value.

ghost use Rattle.std.specs.Prelude.{◌≡◌, IsTrue};
ghost use Rattle.bl_syntax.specs.Names.{is_principal_name, is_text};
ghost use Rattle.bl_syntax.specs.TimeOrder.{IsInRange};
ghost use Rattle.bl_syntax.specs.Spelling.{IsSpellable, with_length, time_spelling, term_spelling};
ghost use Rattle.bl_syntax.specs.Reading.{reading, name_at, text_at, time_at, term_at};
ghost use Rattle.bl_syntax.specs.Codec.{ReadsFront, TakesNoMemory};

use crate::codec_fault::CodecFault;
use crate::fields::{name_at, term_at, text_at, time_at};
use crate::names::{Principal, Text};
use crate::terms::{Term, TimePoint};

/// Reads a principal's name with its length byte.
pub fn read_name(bytes: &[u8]) -> Result<(Principal, usize), CodecFault>
    ensures exact { result ≡ reading name_at bytes.now }
    ensures front { ReadsFront (λ name. name) (λ name. IsTrue (is_principal_name name)) with_length bytes.now result }
    ensures memory { TakesNoMemory result }
{
    match name_at(bytes.len(), bytes) {
        Ok((name, rest)) => Ok((name, bytes.len().saturating_sub(rest.len()))),
        Err(fault) => Err(fault),
    }
}

/// Reads a text constant with its length byte.
pub fn read_text(bytes: &[u8]) -> Result<(Text, usize), CodecFault>
    ensures exact { result ≡ reading text_at bytes.now }
    ensures front { ReadsFront (λ text. text) (λ text. IsTrue (is_text text)) with_length bytes.now result }
    ensures memory { TakesNoMemory result }
{
    match text_at(bytes.len(), bytes) {
        Ok((text, rest)) => Ok((text, bytes.len().saturating_sub(rest.len()))),
        Err(fault) => Err(fault),
    }
}

/// Reads a point in time.
pub fn read_time(bytes: &[u8]) -> Result<(TimePoint, usize), CodecFault>
    ensures exact { result ≡ reading time_at bytes.now }
    ensures front { ReadsFront (λ point. point) IsInRange time_spelling bytes.now result }
    ensures memory { TakesNoMemory result }
{
    match time_at(bytes.len(), bytes) {
        Ok((point, rest)) => Ok((point, bytes.len().saturating_sub(rest.len()))),
        Err(fault) => Err(fault),
    }
}

/// Reads a term.
pub fn read_term(bytes: &[u8]) -> Result<(Term, usize), CodecFault>
    ensures exact { result ≡ reading term_at bytes.now }
    ensures front { ReadsFront (λ t. t) IsSpellable term_spelling bytes.now result }
    ensures memory { TakesNoMemory result }
{
    match term_at(bytes.len(), bytes) {
        Ok((t, rest)) => Ok((t, bytes.len().saturating_sub(rest.len()))),
        Err(fault) => Err(fault),
    }
}
