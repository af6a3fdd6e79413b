//! The lines of a table of modes.

ghost use Rattle.std.specs.Prelude.{◌≡◌, ◌↔◌, ◌<◌, ◌+◌, ◌++◌, ◌∷◌, [], ℕ, List, codes, IsTrue, IfOk, MatchOption};
ghost use Rattle.bl_syntax.specs.Names.{is_principal_name};
ghost use Rattle.bl_syntax.specs.declared.terms.NodeId.{NodeId as Node};
ghost use Rattle.line_words.specs.Numbers.{IsFile};
ghost use Rattle.mode_policy.specs.Lines.{IsEntryLine, IsModesWord};
ghost use Rattle.mode_policy.specs.LineParts.{AreNames, IsFileLine, IsNoneOwned, IsOwnedFile};
ghost use Rattle.mode_policy.specs.declared.entry.Entry.{Entry as Said};
ghost use Rattle.mode_policy.specs.declared.modes.Modes.{Modes as Digits};

use crate::entry::{Entry, FileModes, Membership};
use crate::modes::Modes;
use bl_syntax::{NoMemory, NodeId, Principal};
use line_text::{rest_after, word_before};
use line_words::{Arguments, WordKind};
use std::alloc::Global;

/// The value of the digit `0`.
const ZERO: u8 = b'0';

fn is_octal(byte: u8) -> bool
    ensures { IsTrue result ↔ ((digit : ℕ) × (byte ≡ 48 + digit) × (digit < 8)) }
{
    ZERO <= byte && byte < ZERO + 8
}

// The modes that three octal digits write.
fn modes_of(word: &[u8]) -> Option<Modes>
    ensures { MatchOption result ((modes : Digits) → IsModesWord word.now modes → ⊥) (IsModesWord word.now) }
{
    match word {
        [owner, group, other] => {
            if is_octal(*owner) && is_octal(*group) && is_octal(*other) {
                Some(Modes {
                    owner: *owner - ZERO,
                    group: *group - ZERO,
                    other: *other - ZERO,
                })
            } else {
                None
            }
        }
        _ => None,
    }
}

// The two names.
fn two_names(words: &[u8]) -> Option<(Principal, Principal)>
    ensures { MatchOption result ((first second : List ℕ) → AreNames words.now first second → ⊥) (λ names. AreNames words.now names.0 names.1) }
{
    let Some((first, second)) = word_before(words, b" ") else {
        return None;
    };
    let Some(who) = Principal::new(first) else {
        return None;
    };
    let Some(group) = Principal::new(second) else {
        return None;
    };
    Some((who, group))
}

// The file of that number, with the owner, the group and the modes in the words.
fn owned(node: NodeId, words: &[u8]) -> Option<FileModes>
    ensures { MatchOption result (IsNoneOwned words.now) (IsOwnedFile words.now node) }
{
    let Some((first, behind)) = word_before(words, b" ") else {
        return None;
    };
    let Some((second, bits)) = word_before(behind, b" ") else {
        return None;
    };
    let Some(owner) = Principal::new(first) else {
        return None;
    };
    let Some(group) = Principal::new(second) else {
        return None;
    };
    let Some(modes) = modes_of(bits) else {
        return None;
    };
    Some(FileModes {
        node,
        owner,
        group,
        modes,
    })
}

// The node that the word writes.
fn node_of(alloc: Global, word: &[u8]) -> Result<Option<NodeId>, NoMemory>
    ensures { IfOk result (λ r. MatchOption r ((node : Node) → IsFile word.now node → ⊥) (IsFile word.now)) }
{
    let mut arguments = Arguments::blank(alloc);
    if arguments.read(alloc, WordKind::Node, word)? {
        Ok(Some(arguments.node))
    } else {
        Ok(None)
    }
}

// What is said of the file of that number in the words after it.
fn file_entry(node: NodeId, words: &[u8]) -> Option<Entry>
    ensures { (word : List ℕ) → IsFile word node → MatchOption result ((e : Said) → IsFileLine word words.now e → ⊥) (IsFileLine word words.now) }
{
    match owned(node, words) {
        Some(f) => Some(Entry::File(f)),
        None => None,
    }
}

// What a line of a file says after its first word.
fn mode_line(alloc: Global, words: &[u8]) -> Result<Option<Entry>, NoMemory>
    ensures { IfOk result (λ r. MatchOption r ((e : Said) → IsEntryLine (codes "mode " ++ words.now) e → ⊥) (IsEntryLine (codes "mode " ++ words.now))) }
{
    let (word, behind) = match word_before(words, b" ") {
        Some(parts) => parts,
        None => return Ok(None),
    };
    match node_of(alloc, word)? {
        Some(node) => Ok(file_entry(node, behind)),
        None => Ok(None),
    }
}

// What a line of a principal says after its first word.
fn who_line(word: &[u8]) -> Option<Entry>
    ensures { MatchOption result ((e : Said) → IsEntryLine (codes "who " ++ word.now) e → ⊥) (IsEntryLine (codes "who " ++ word.now)) }
{
    match Principal::new(word) {
        Some(who) => Some(Entry::Who(who)),
        None => None,
    }
}

// What a line of a membership says after its first word.
fn member_line(words: &[u8]) -> Option<Entry>
    ensures { MatchOption result ((e : Said) → IsEntryLine (codes "member " ++ words.now) e → ⊥) (IsEntryLine (codes "member " ++ words.now)) }
{
    match two_names(words) {
        Some((who, group)) => Some(Entry::Member(Membership { who, group })),
        None => None,
    }
}

/// What the line says; none exactly if it is outside the grammar.
pub fn read_line(alloc: Global, line: &[u8]) -> Result<Option<Entry>, NoMemory>
    ensures { IfOk result (λ r. MatchOption r ((e : Said) → IsEntryLine line.now e → ⊥) (IsEntryLine line.now)) }
{
    if let Some(words) = rest_after(line, b"mode ") {
        return mode_line(alloc, words);
    }
    if let Some(words) = rest_after(line, b"member ") {
        return Ok(member_line(words));
    }
    match rest_after(line, b"who ") {
        Some(word) => Ok(who_line(word)),
        None => Ok(None),
    }
}
