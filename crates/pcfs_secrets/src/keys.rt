//! The keys and roots of the lines after the first.

ghost use Rattle.std.specs.Prelude.{OnOk, IfErr};
ghost use Rattle.line_text.specs.Lines.{lines_of};
ghost use Rattle.pcfs_secrets.specs.SecretLines.{GiveKeys};
ghost use Rattle.pcfs_secrets.specs.SecretsFile.{IsFaultOfKeys};

use crate::fault::SecretFault;
use crate::lines::add_key;
use line_text::first_line;
use policy_statement::Keyring;
use std::alloc::Global;

/// The number of the first line that may give a key.
const FIRST_KEY_LINE: usize = 2;

/// Gives the keys and roots of the lines to their names, in order, up to the first line that gives none to a name that has none.
pub fn add_keys(alloc: Global, ring: &mut Keyring, text: &[u8]) -> Result<(), SecretFault>
    ensures ok { OnOk result (GiveKeys ring.old (lines_of text.now) ring.new) }
    ensures err { IfErr result (IsFaultOfKeys ring.old (lines_of text.now)) }
{
    let mut rest = text;
    let mut place = 0;
    while let Some((line, others)) = first_line(rest) {
        if !add_key(alloc, ring, line)? {
            return Err(SecretFault::BadLine(place + FIRST_KEY_LINE));
        }
        rest = others;
        place += 1;
    }
    Ok(())
}
