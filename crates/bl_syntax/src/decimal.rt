//! Texts that are put after others: words, and numbers in decimal.
#![tactic(auto, using(crate::proofs::BeginsWithLemmas::writing))]

ghost use Rattle.std.specs.Prelude.{◌≡◌, ◌++◌, OnOk, OnErr};
ghost use Rattle.std.specs.Fmt.{decimal};
ghost use Rattle.bl_syntax.specs.BeginsWith.{BeginsWith};

use crate::lists::{Bytes, NoMemory};

/// Adds the text, or nothing.
pub fn put_text(out: &mut Bytes, text: &str) -> Result<(), NoMemory>
    ensures ok { OnOk result (out.new ≡ out.old ++ text.now) }
    ensures err { OnErr result (out.new ≡ out.old) }
{
    out.extend(text.as_bytes())
}

/// Adds the number in decimal, or its first digits if memory runs out.
pub fn put_decimal(out: &mut Bytes, number: u64) -> Result<(), NoMemory>
    ensures ok { OnOk result (out.new ≡ out.old ++ decimal number) }
    ensures err { OnErr result (BeginsWith out.new out.old) }
{
    if 10 <= number {
        put_decimal(out, number / 10)?;
    }
    out.push(b'0' + (number % 10) as u8)
}

/// Adds the text and after it the number in decimal, or a front of both if memory runs out.
pub fn put_counted(out: &mut Bytes, text: &str, number: u64) -> Result<(), NoMemory>
    ensures ok { OnOk result (out.new ≡ out.old ++ (text.now ++ decimal number)) }
    ensures err { OnErr result (BeginsWith out.new out.old) }
{
    put_text(out, text)?;
    put_decimal(out, number)
}
