//! Writing the image of a state. Each writer adds its part at the end, or nothing.

ghost use Rattle.std.specs.Prelude.{◌≡◌, ◌∷◌, ◌++◌, [], OnOk, OnErr};
ghost use Rattle.std.specs.List.{AllByRecursion, flat_map};
ghost use Rattle.bl_syntax.specs.BeginsWith.{BeginsWith};
ghost use Rattle.node_rows.specs.Rows.{item_rows};
ghost use Rattle.checkpoint_image.specs.NodeSpelling.{nodes_spelling};
ghost use Rattle.checkpoint_image.specs.ImageSpelling.{head_spelling, entry_spelling, IsSpellableEntry, statements_spelling, issue_spelling, IsSpellableIssue, issues_spelling, fields_spelling, image_spelling, AreSpelledIn, HasFittingSignature, HasFewCited, HaveFittingRows, HasFittingFields};
ghost use Rattle.checkpoint_image.specs.ImageReading.{base_of_image};
ghost use Rattle.checkpoint_image.specs.WithdrawnNumbers.{AreStanding};

use crate::image::Image;
use crate::node_writing::add_each_node;
use crate::withdrawn_numbers::write_withdrawn_numbers;
use access_history::IssueRecord;
use bl_syntax::fields::u32_bytes;
use bl_syntax::{Bytes, NoMemory};
use node_rows::{MetaRow, TreeRow};
use policy_statement::Registered;
use record_parts::fields::{put_moment, put_number};
use record_parts::write_registered;

/// The version of images.
pub(crate) const VERSION: u8 = 2;

/// Adds the version of images, with which each begins.
pub fn write_version(out: &mut Bytes) -> Result<(), NoMemory>
    ensures ok { OnOk result (out.new ≡ out.old ++ 2 ∷ []) }
    ensures err { OnErr result (out.new ≡ out.old) }
{
    out.push(VERSION)
}

/// Adds the greatest moment so far, the number of the last event, and the number of the next node.
pub fn write_head(moment: i64, count: u64, next: u64, out: &mut Bytes) -> Result<(), NoMemory>
    ensures ok { OnOk result (out.new ≡ out.old ++ head_spelling moment count next) }
    ensures err { OnErr result (out.new ≡ out.old) }
{
    let len = out.len();
    let added = add_head(moment, count, next, out);
    if added.is_err() {
        out.truncate(len);
    }
    added
}

// Adds these, or a front of them.
#[tactic(auto, using(bl_syntax::proofs::BeginsWithLemmas::writing), unfolding(crate::specs::ImageSpelling::head_spelling))]
fn add_head(moment: i64, count: u64, next: u64, out: &mut Bytes) -> Result<(), NoMemory>
    ensures ok { OnOk result (out.new ≡ out.old ++ head_spelling moment count next) }
    ensures err { OnErr result (BeginsWith out.new out.old) }
{
    put_moment(moment, out)?;
    put_number(count, out)?;
    put_number(next, out)
}

/// Adds how many statements there are, fewer than 2^32, and each with its signature of fewer than 2^32 bytes.
pub fn write_statements(statements: &[Registered], out: &mut Bytes) -> Result<(), NoMemory>
    requires { AreSpelledIn HasFittingSignature statements.now }
    ensures ok { OnOk result (out.new ≡ out.old ++ statements_spelling statements.now) }
    ensures spelled { OnOk result (AllByRecursion IsSpellableEntry statements.now) }
    ensures err { OnErr result (out.new ≡ out.old) }
{
    let len = out.len();
    let added = add_statements(statements, out);
    if added.is_err() {
        out.truncate(len);
    }
    added
}

// Adds these, or a front of them.
#[tactic(auto, using(bl_syntax::proofs::BeginsWithLemmas::writing))]
fn add_statements(statements: &[Registered], out: &mut Bytes) -> Result<(), NoMemory>
    requires { AreSpelledIn HasFittingSignature statements.now }
    ensures ok { OnOk result (out.new ≡ out.old ++ statements_spelling statements.now) }
    ensures spelled { OnOk result (AllByRecursion IsSpellableEntry statements.now) }
    ensures err { OnErr result (BeginsWith out.new out.old) }
{
    out.extend(&u32_bytes(statements.len() as u32))?;
    add_each_statement(statements, out)
}

// Adds each statement, or a front of them.
#[tactic(auto, using(bl_syntax::proofs::BeginsWithLemmas::writing))]
fn add_each_statement(statements: &[Registered], out: &mut Bytes) -> Result<(), NoMemory>
    requires { AllByRecursion HasFittingSignature statements.now }
    ensures ok { OnOk result (out.new ≡ out.old ++ flat_map entry_spelling statements.now) }
    ensures spelled { OnOk result (AllByRecursion IsSpellableEntry statements.now) }
    ensures err { OnErr result (BeginsWith out.new out.old) }
{
    for entry in statements {
        add_entry(entry, out)?;
    }
    Ok(())
}

// Adds a statement with its signature.
fn add_entry(entry: &Registered, out: &mut Bytes) -> Result<(), NoMemory>
    requires { HasFittingSignature entry.now }
    ensures ok { OnOk result (out.new ≡ out.old ++ entry_spelling entry.now) }
    ensures spelled { OnOk result (IsSpellableEntry entry.now) }
    ensures err { OnErr result (out.new ≡ out.old) }
{
    write_registered(entry.statement(), entry.signature(), out)
}

/// Adds how many issues there are, fewer than 2^32, and each. Each proof cites at most 255 numbers.
pub fn write_issues(issues: &[IssueRecord], out: &mut Bytes) -> Result<(), NoMemory>
    requires { AreSpelledIn HasFewCited issues.now }
    ensures ok { OnOk result (out.new ≡ out.old ++ issues_spelling issues.now) }
    ensures spelled { OnOk result (AllByRecursion IsSpellableIssue issues.now) }
    ensures err { OnErr result (out.new ≡ out.old) }
{
    let len = out.len();
    let added = add_issues(issues, out);
    if added.is_err() {
        out.truncate(len);
    }
    added
}

// Adds these, or a front of them.
#[tactic(auto, using(bl_syntax::proofs::BeginsWithLemmas::writing))]
fn add_issues(issues: &[IssueRecord], out: &mut Bytes) -> Result<(), NoMemory>
    requires { AreSpelledIn HasFewCited issues.now }
    ensures ok { OnOk result (out.new ≡ out.old ++ issues_spelling issues.now) }
    ensures spelled { OnOk result (AllByRecursion IsSpellableIssue issues.now) }
    ensures err { OnErr result (BeginsWith out.new out.old) }
{
    out.extend(&u32_bytes(issues.len() as u32))?;
    add_each_issue(issues, out)
}

// Adds each issue, or a front of them.
#[tactic(auto, using(bl_syntax::proofs::BeginsWithLemmas::writing))]
fn add_each_issue(issues: &[IssueRecord], out: &mut Bytes) -> Result<(), NoMemory>
    requires { AllByRecursion HasFewCited issues.now }
    ensures ok { OnOk result (out.new ≡ out.old ++ flat_map issue_spelling issues.now) }
    ensures spelled { OnOk result (AllByRecursion IsSpellableIssue issues.now) }
    ensures err { OnErr result (BeginsWith out.new out.old) }
{
    for issue in issues {
        add_issue(issue, out)?;
    }
    Ok(())
}

// Adds an issue, of which the bytes are kept.
fn add_issue(issue: &IssueRecord, out: &mut Bytes) -> Result<(), NoMemory>
    requires { HasFewCited issue.now }
    ensures ok { OnOk result (out.new ≡ out.old ++ issue_spelling issue.now) }
    ensures spelled { OnOk result (IsSpellableIssue issue.now) }
    ensures err { OnErr result (out.new ≡ out.old) }
{
    out.extend(issue.bytes())
}

/// Adds how many nodes there are, fewer than 2^32, and each. The rows are of the same nodes, and the lengths of their names
/// and contents and the numbers of their attributes fit their fields.
pub fn write_nodes(trees: &[TreeRow], metas: &[MetaRow], out: &mut Bytes) -> Result<(), NoMemory>
    requires { HaveFittingRows trees.now metas.now }
    ensures ok { OnOk result (out.new ≡ out.old ++ nodes_spelling (item_rows trees.now metas.now)) }
    ensures err { OnErr result (out.new ≡ out.old) }
{
    let len = out.len();
    let added = add_nodes(trees, metas, out);
    if added.is_err() {
        out.truncate(len);
    }
    added
}

// Adds these, or a front of them.
#[tactic(auto, using(bl_syntax::proofs::BeginsWithLemmas::writing))]
fn add_nodes(trees: &[TreeRow], metas: &[MetaRow], out: &mut Bytes) -> Result<(), NoMemory>
    requires { HaveFittingRows trees.now metas.now }
    ensures ok { OnOk result (out.new ≡ out.old ++ nodes_spelling (item_rows trees.now metas.now)) }
    ensures err { OnErr result (BeginsWith out.new out.old) }
{
    out.extend(&u32_bytes(trees.len() as u32))?;
    add_each_node(trees, metas, out)
}

/// Adds the image of a state, or nothing.
pub fn write_image(image: &Image, out: &mut Bytes) -> Result<(), NoMemory>
    requires { HasFittingFields image.now }
    ensures ok { OnOk result (out.new ≡ out.old ++ image_spelling (base_of_image image.now)) }
    ensures statements_spelled { OnOk result (AllByRecursion IsSpellableEntry image.now.statements) }
    ensures issues_spelled { OnOk result (AllByRecursion IsSpellableIssue image.now.issues) }
    ensures err { OnErr result (out.new ≡ out.old) }
{
    let len = out.len();
    let added = add_image(image, out);
    if added.is_err() {
        out.truncate(len);
    }
    added
}

/// Adds the image of version 1 of a state, which is its fields alone, or nothing. None of its statements was withdrawn.
pub fn write_old_image(image: &Image, out: &mut Bytes) -> Result<(), NoMemory>
    requires fits { HasFittingFields image.now }
    requires standing { AreStanding image.now.statements }
    ensures ok { OnOk result (out.new ≡ out.old ++ fields_spelling (base_of_image image.now)) }
    ensures statements_spelled { OnOk result (AllByRecursion IsSpellableEntry image.now.statements) }
    ensures issues_spelled { OnOk result (AllByRecursion IsSpellableIssue image.now.issues) }
    ensures err { OnErr result (out.new ≡ out.old) }
{
    let len = out.len();
    let added = add_fields(image, out);
    if added.is_err() {
        out.truncate(len);
    }
    added
}

// Adds the image of a state, or a front of it.
#[tactic(auto, using(bl_syntax::proofs::BeginsWithLemmas::writing), unfolding(crate::specs::ImageSpelling::image_spelling))]
fn add_image(image: &Image, out: &mut Bytes) -> Result<(), NoMemory>
    requires { HasFittingFields image.now }
    ensures ok { OnOk result (out.new ≡ out.old ++ image_spelling (base_of_image image.now)) }
    ensures statements_spelled { OnOk result (AllByRecursion IsSpellableEntry image.now.statements) }
    ensures issues_spelled { OnOk result (AllByRecursion IsSpellableIssue image.now.issues) }
    ensures err { OnErr result (BeginsWith out.new out.old) }
{
    write_version(out)?;
    add_fields(image, out)?;
    write_withdrawn_numbers(image.statements.as_slice(), out)
}

// Adds the fields of a state, or a front of them.
#[tactic(auto, using(bl_syntax::proofs::BeginsWithLemmas::writing), unfolding(crate::specs::ImageSpelling::fields_spelling))]
fn add_fields(image: &Image, out: &mut Bytes) -> Result<(), NoMemory>
    requires { HasFittingFields image.now }
    ensures ok { OnOk result (out.new ≡ out.old ++ fields_spelling (base_of_image image.now)) }
    ensures statements_spelled { OnOk result (AllByRecursion IsSpellableEntry image.now.statements) }
    ensures issues_spelled { OnOk result (AllByRecursion IsSpellableIssue image.now.issues) }
    ensures err { OnErr result (BeginsWith out.new out.old) }
{
    write_head(image.moment, image.count, image.next, out)?;
    write_statements(image.statements.as_slice(), out)?;
    write_issues(image.issues.as_slice(), out)?;
    write_nodes(image.tree.as_slice(), image.meta.as_slice(), out)
}
