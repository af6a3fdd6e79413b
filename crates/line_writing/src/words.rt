//! The words of a line, each after a space or other words.
#![tactic(auto, using(bl_syntax::proofs::BeginsWithLemmas::writing))]

ghost use Rattle.std.specs.Prelude.{◌≡◌, ◌++◌, [], codes, OnOk, OnErr};
ghost use Rattle.std.specs.Fmt.{signed_decimal};
ghost use Rattle.bl_syntax.specs.BeginsWith.{BeginsWith};
ghost use Rattle.bl_text.specs.Printed.{permission_text};
ghost use Rattle.line_text.specs.HexWord.{hex_word};
ghost use Rattle.line_writing.specs.WordTexts.{cited_text, more_cited, signature_text, procap_text, procaps_text, goal_text};

use bl_syntax::decimal::{put_counted, put_decimal, put_text};
use bl_syntax::{Bytes, Goal, NoMemory, Perm, Principal, Term, TimePoint};
use bl_text::print_term;
use line_text::write_hex;
use line_words::ProcapWord;
use procap::{Procap, write_procap};
use std::alloc::Global;

/// Writes a name.
pub fn put_name(out: &mut Bytes, words: &str, name: &[u8]) -> Result<(), NoMemory>
    ensures ok { OnOk result (out.new ≡ out.old ++ (words.now ++ name.now)) }
    ensures err { OnErr result (BeginsWith out.new out.old) }
{
    put_text(out, words)?;
    out.extend(name)
}

/// Writes a principal.
pub fn put_principal(out: &mut Bytes, words: &str, who: &Principal) -> Result<(), NoMemory>
    ensures ok { OnOk result (out.new ≡ out.old ++ (words.now ++ who.now)) }
    ensures err { OnErr result (BeginsWith out.new out.old) }
{
    put_name(out, words, who.bytes())
}

/// Writes a second.
pub fn put_second(out: &mut Bytes, words: &str, second: i64) -> Result<(), NoMemory>
    ensures ok { OnOk result (out.new ≡ out.old ++ (words.now ++ signed_decimal second)) }
    ensures err { OnErr result (BeginsWith out.new out.old) }
{
    put_text(out, words)?;
    print_term(&Term::Time(TimePoint::At(second)), out)
}

/// Writes bytes in hexadecimal.
pub fn put_hex(alloc: Global, out: &mut Bytes, words: &str, bytes: &[u8]) -> Result<(), NoMemory>
    ensures ok { OnOk result (out.new ≡ out.old ++ (words.now ++ hex_word bytes.now)) }
    ensures err { OnErr result (BeginsWith out.new out.old) }
{
    put_text(out, words)?;
    write_hex(alloc, bytes, out)
}

/// Writes a signature, or that it is left to the ring.
pub fn put_signature(
    alloc: Global,
    out: &mut Bytes,
    words: &str,
    signature: &Option<Bytes>,
) -> Result<(), NoMemory>
    ensures ok { OnOk result (out.new ≡ out.old ++ (words.now ++ signature_text signature.now)) }
    ensures err { OnErr result (BeginsWith out.new out.old) }
{
    match signature {
        Some(bytes) => put_hex(alloc, out, words, bytes.as_slice()),
        None => {
            put_text(out, words)?;
            put_text(out, "-")
        }
    }
}

fn put_permission(out: &mut Bytes, words: &str, permission: Perm) -> Result<(), NoMemory>
    ensures ok { OnOk result (out.new ≡ out.old ++ (words.now ++ permission_text permission)) }
    ensures err { OnErr result (BeginsWith out.new out.old) }
{
    put_text(out, words)?;
    print_term(&Term::Perm(permission), out)
}

/// Writes the words of a goal, before the rest of a line.
pub fn put_goal(out: &mut Bytes, words: &str, goal: &Goal) -> Result<(), NoMemory>
    ensures ok { OnOk result (out.new ≡ out.old ++ (words.now ++ goal_text goal.now [])) }
    ensures err { OnErr result (BeginsWith out.new out.old) }
{
    put_principal(out, words, &goal.who)?;
    put_counted(out, " #", goal.file.0)?;
    put_permission(out, " ", goal.perm)
}

fn put_more_cited(out: &mut Bytes, numbers: &[u32]) -> Result<(), NoMemory>
    ensures ok { OnOk result (out.new ≡ out.old ++ more_cited numbers.now) }
    ensures err { OnErr result (BeginsWith out.new out.old) }
{
    for number in numbers {
        put_counted(out, ",", u64::from(*number))?;
    }
    Ok(())
}

/// Writes numbers of statements.
pub fn put_cited(out: &mut Bytes, words: &str, numbers: &[u32]) -> Result<(), NoMemory>
    ensures ok { OnOk result (out.new ≡ out.old ++ (words.now ++ cited_text numbers.now)) }
    ensures err { OnErr result (BeginsWith out.new out.old) }
{
    put_text(out, words)?;
    match numbers {
        [] => Ok(()),
        [first, others @ ..] => {
            put_decimal(out, u64::from(*first))?;
            put_more_cited(out, others)
        }
    }
}

fn put_procap_bytes(alloc: Global, out: &mut Bytes, p: &Procap) -> Result<(), NoMemory>
    ensures ok { OnOk result (out.new ≡ out.old ++ procap_text (ProcapWord.Procap p.now)) }
    ensures err { OnErr result (BeginsWith out.new out.old) }
{
    let mut bytes = Bytes::new(alloc);
    write_procap(p, &mut bytes)?;
    write_hex(alloc, bytes.as_slice(), out)
}

fn put_procap(alloc: Global, out: &mut Bytes, word: &ProcapWord) -> Result<(), NoMemory>
    ensures ok { OnOk result (out.new ≡ out.old ++ (codes " " ++ procap_text word.now)) }
    ensures err { OnErr result (BeginsWith out.new out.old) }
{
    put_text(out, " ")?;
    match word {
        ProcapWord::Procap(p) => put_procap_bytes(alloc, out, p),
        ProcapWord::Issue(number) => put_counted(out, "@", *number),
    }
}

/// Writes procaps, each after a space.
pub fn put_procaps(alloc: Global, out: &mut Bytes, words: &[ProcapWord]) -> Result<(), NoMemory>
    ensures ok { OnOk result (out.new ≡ out.old ++ procaps_text words.now) }
    ensures err { OnErr result (BeginsWith out.new out.old) }
{
    for word in words {
        put_procap(alloc, out, word)?;
    }
    Ok(())
}
