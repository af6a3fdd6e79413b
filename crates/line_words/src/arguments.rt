//! What the words of a line write.

ghost use Rattle.std.specs.Prelude.{◌≡◌, true, false, IsTrue, IfOk, IfSome, IfNone, OnErr};
ghost use Rattle.line_words.specs.Kinds.{blank, Sets, IsOutside};

use crate::cited::cited_numbers;
use crate::kinds::WordKind;
use crate::named::{data, name, permission, principal, quoted_text, signature, signature_hex};
use crate::numerals::{count, file, issue, long_number, number, second};
use crate::procap_word::{ProcapWord, ProcapWords, procap_of_hex, procap_word};
use bl_syntax::{Bytes, NoMemory, NodeId, Numbers, Perm, Principal, Text};
use std::alloc::Global;

/// What the words of a line write: a field for each kind of words. A field that no word has set is blank.
#[derive(Debug, Drop)]
pub struct Arguments {
    pub node: NodeId,
    pub target: NodeId,
    pub name: Bytes,
    pub new_name: Bytes,
    pub offset: u64,
    pub len: u64,
    pub bytes: Bytes,
    pub value: Text,
    pub who: Principal,
    pub perm: Perm,
    pub second: i64,
    pub issue: u64,
    pub number: u32,
    pub cited: Numbers,
    pub signature: Option<Bytes>,
    pub procaps: ProcapWords,
}

// Puts a value that was read into its field, and returns whether there is one.
fn put<T: Drop>(field: &mut T, value: Option<T>) -> bool
    ensures found { IfSome value (λ v. (result ≡ true) × (field.new ≡ v)) }
    ensures outside { IfNone value (result ≡ false) }
    ensures kept { result ≡ false → field.new ≡ field.old }
{
    match value {
        Some(value) => {
            *field = value;
            true
        }
        None => false,
    }
}

impl Arguments {
    /// All fields blank. It takes no memory.
    pub fn blank(alloc: Global) -> Arguments
        ensures { result ≡ blank }
    {
        Arguments {
            node: NodeId(0),
            target: NodeId(0),
            name: Bytes::new(alloc),
            new_name: Bytes::new(alloc),
            offset: 0,
            len: 0,
            bytes: Bytes::new(alloc),
            value: Text::new(b"").unwrap(),
            who: Principal::new(b"nobody").unwrap(),
            perm: Perm::Read,
            second: 0,
            issue: 0,
            number: 0,
            cited: Numbers::new(alloc),
            signature: None,
            procaps: ProcapWords::new(alloc),
        }
    }

    // Adds the procap that the word gives, and returns whether it gives one.
    fn add_procap(&mut self, alloc: Global, word: &[u8]) -> Result<bool, NoMemory>
        ensures set { IfOk result (λ fits. IsTrue fits → Sets WordKind.Procap word.now self.old self.new) }
        ensures outside { IfOk result (λ fits. fits ≡ false → IsOutside WordKind.Procap word.now) }
        ensures kept { IfOk result (λ fits. fits ≡ false → self.new ≡ self.old) }
        ensures err { OnErr result (self.new ≡ self.old) }
    {
        match procap_word(alloc, word)? {
            Some(given) => {
                self.procaps.push(given)?;
                Ok(true)
            }
            None => Ok(false),
        }
    }

    // Sets the signature that the word writes out, and returns whether it writes one.
    fn set_signature(&mut self, alloc: Global, word: &[u8]) -> Result<bool, NoMemory>
        ensures set { IfOk result (λ fits. IsTrue fits → Sets WordKind.SignatureHex word.now self.old self.new) }
        ensures outside { IfOk result (λ fits. fits ≡ false → IsOutside WordKind.SignatureHex word.now) }
        ensures kept { IfOk result (λ fits. fits ≡ false → self.new ≡ self.old) }
        ensures err { OnErr result (self.new ≡ self.old) }
    {
        match signature_hex(alloc, word)? {
            Some(bytes) => {
                self.signature = Some(bytes);
                Ok(true)
            }
            None => Ok(false),
        }
    }

    // Adds the procap that the word writes out, and returns whether it writes one.
    fn add_written_procap(&mut self, alloc: Global, word: &[u8]) -> Result<bool, NoMemory>
        ensures set { IfOk result (λ fits. IsTrue fits → Sets WordKind.ProcapHex word.now self.old self.new) }
        ensures outside { IfOk result (λ fits. fits ≡ false → IsOutside WordKind.ProcapHex word.now) }
        ensures kept { IfOk result (λ fits. fits ≡ false → self.new ≡ self.old) }
        ensures err { OnErr result (self.new ≡ self.old) }
    {
        match procap_of_hex(alloc, word)? {
            Some(p) => {
                self.procaps.push(ProcapWord::Procap(p))?;
                Ok(true)
            }
            None => Ok(false),
        }
    }

    /// Reads a word into the field of its kind. It returns false exactly if the word is not of the kind; then, and if
    /// memory runs out, no field is changed.
    pub fn read(&mut self, alloc: Global, kind: WordKind, word: &[u8]) -> Result<bool, NoMemory>
        ensures set { IfOk result (λ fits. IsTrue fits → Sets kind word.now self.old self.new) }
        ensures outside { IfOk result (λ fits. fits ≡ false → IsOutside kind word.now) }
        ensures kept { IfOk result (λ fits. fits ≡ false → self.new ≡ self.old) }
        ensures err { OnErr result (self.new ≡ self.old) }
    {
        match kind {
            WordKind::Node => Ok(put(&mut self.node, file(word))),
            WordKind::Target => Ok(put(&mut self.target, file(word))),
            WordKind::Name => Ok(put(&mut self.name, name(alloc, word)?)),
            WordKind::NewName => Ok(put(&mut self.new_name, name(alloc, word)?)),
            WordKind::Offset => Ok(put(&mut self.offset, long_number(word))),
            WordKind::Len => Ok(put(&mut self.len, long_number(word))),
            WordKind::Most => Ok(put(&mut self.len, count(word))),
            WordKind::Data => Ok(put(&mut self.bytes, data(alloc, word)?)),
            WordKind::Value => Ok(put(&mut self.value, quoted_text(word))),
            WordKind::Who => Ok(put(&mut self.who, principal(word))),
            WordKind::Permission => Ok(put(&mut self.perm, permission(word))),
            WordKind::Second => Ok(put(&mut self.second, second(word))),
            WordKind::Issue => Ok(put(&mut self.issue, issue(word))),
            WordKind::Number => Ok(put(&mut self.number, number(word))),
            WordKind::Cited => Ok(put(&mut self.cited, cited_numbers(alloc, word)?)),
            WordKind::Signature => Ok(put(&mut self.signature, signature(alloc, word)?)),
            WordKind::Procap => self.add_procap(alloc, word),
            WordKind::SignatureHex => self.set_signature(alloc, word),
            WordKind::ProcapHex => self.add_written_procap(alloc, word),
        }
    }
}
