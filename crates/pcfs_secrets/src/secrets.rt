//! The secrets of a store, and the reading of them.

ghost use Rattle.std.specs.Prelude.{◌≡◌, ◌∷◌, [], IfOk, IfErr};
ghost use Rattle.line_text.specs.Lines.{lines_of};

use crate::fault::SecretFault;
use crate::keys::add_keys;
use crate::lines::read_seal;
use bl_syntax::Bytes;
use line_text::first_line;
use policy_statement::Keyring;
use std::alloc::Global;

/// The key of the seal, and the ring of the names that may sign. Nothing wipes them when they are dropped.
#[derive(Drop)]
pub struct Secrets {
    pub seal_key: Bytes,
    pub ring: Keyring,
}

impl Secrets {
    ghost use Rattle.pcfs_secrets.specs.SecretsFile.{IsFaultOfKeys, ReadsLines, ReadsSecrets};
    ghost use Rattle.pcfs_secrets.specs.SecretLines.{GiveKeys};

    /// An empty key, and a ring without names. It takes no memory.
    pub fn none(alloc: Global) -> Secrets
        ensures { result ≡ record { seal_key = []; ring = [] } }
    {
        Secrets {
            seal_key: Bytes::new(alloc),
            ring: Keyring::new(alloc),
        }
    }

    /// The secrets of a secrets file: the line `seal HEX`, and then lines `key NAME HEX` and `root NAME H HEX`, each with
    /// a name of its own. A key is at most 1,024 bytes, in hexadecimal, `-` for no bytes; a root is 32 bytes, of a tree of
    /// the height H from 0 to 8. `BadLine` is returned exactly if the text has a first bad line.
    pub fn parse(alloc: Global, text: &[u8]) -> Result<Secrets, SecretFault>
        ensures { ReadsSecrets text.now result }
    {
        match first_line(text) {
            Some((line, others)) => Secrets::read(alloc, line, others),
            None => Err(SecretFault::BadLine(1)),
        }
    }

    // The secrets of the first line and those after it.
    fn read(alloc: Global, line: &[u8], others: &[u8]) -> Result<Secrets, SecretFault>
        ensures { ReadsLines (line.now ∷ lines_of others.now) result }
    {
        match read_seal(alloc, line)? {
            Some(seal_key) => Secrets::secrets_with_seal(alloc, seal_key, others),
            None => Err(SecretFault::BadLine(1)),
        }
    }

    // The secrets with this key of the seal, and the keys of the lines.
    fn secrets_with_seal(
        alloc: Global,
        seal_key: Bytes,
        lines: &[u8],
    ) -> Result<Secrets, SecretFault>
        ensures ok { IfOk result (λ secrets. (secrets.seal_key ≡ seal_key) × GiveKeys [] (lines_of lines.now) secrets.ring) }
        ensures err { IfErr result (IsFaultOfKeys [] (lines_of lines.now)) }
    {
        let mut ring = Keyring::new(alloc);
        match add_keys(alloc, &mut ring, lines) {
            Ok(()) => Ok(Secrets { seal_key, ring }),
            Err(fault) => Err(fault),
        }
    }
}
