//! Reading the image of a state.

ghost use Rattle.std.specs.Prelude.{◌≡◌, IfOk};
ghost use Rattle.bl_syntax.specs.Reading.{GivesReading};
ghost use Rattle.bl_syntax.specs.Codec.{GivesReadingOrReports};
ghost use Rattle.node_rows.specs.Rows.{item_rows, AreOfSameNodes};
ghost use Rattle.checkpoint_image.specs.Chain.{chain_at, alone, nothing_left};
ghost use Rattle.checkpoint_image.specs.ImageSpelling.{HasFittingFields};
ghost use Rattle.checkpoint_image.specs.ImageReading.{counts_at, head_at, entry_at, statements_at, issue_at, issues_at, issues_and_nodes_at, lists_at, fields_at, with_withdrawn, state_at, image_at, is_versioned, stored_image_at, base_of_image};
ghost use Rattle.checkpoint_image.specs.WithdrawnNumbers.{AreStanding, withdrawn_numbers_at};

use crate::image::Image;
use crate::image_writing::VERSION;
use crate::node_reading::nodes_at;
use crate::withdrawn_numbers::{mark_all, withdrawn_numbers_at};
use access_history::{IssueRecord, Issues, Statements};
use bl_syntax::fields::{place, u32_at, u64_at};
use bl_syntax::{CodecFault, Sequence};
use node_rows::{MetaRows, TreeRows};
use policy_statement::Registered;
use record_parts::fields::moment_field_at;
use record_parts::{issued_at, registered_at};
use std::alloc::Global;

/// The number of the last event, and the number of the next node.
#[tactic(auto, unfolding(crate::specs::ImageReading::counts_at))]
fn counts_at(bytes: &[u8]) -> Result<(u64, u64, &[u8]), CodecFault>
    ensures { GivesReading (λ x. ((x.0, x.1), x.2.now)) result (counts_at bytes.now) }
{
    match u64_at(bytes) {
        Err(fault) => Err(fault),
        Ok((count, rest)) => match u64_at(rest) {
            Err(fault) => Err(fault),
            Ok((next, rest)) => Ok((count, next, rest)),
        },
    }
}

/// The greatest moment so far, and these numbers.
#[tactic(auto, unfolding(crate::specs::ImageReading::head_at))]
fn head_at(input: usize, bytes: &[u8]) -> Result<(i64, u64, u64, &[u8]), CodecFault>
    ensures { GivesReading (λ x. ((x.0, (x.1, x.2)), x.3.now)) result (head_at input bytes.now) }
{
    match moment_field_at(input, bytes) {
        Err(fault) => Err(fault),
        Ok((moment, rest)) => match counts_at(rest) {
            Err(fault) => Err(fault),
            Ok((count, next, rest)) => Ok((moment, count, next, rest)),
        },
    }
}

/// A statement with its signature.
#[tactic(auto, using(bl_syntax::proofs::ReportsFaultLemmas::hands_on))]
fn entry_at(alloc: Global, input: usize, bytes: &[u8]) -> Result<(Registered, &[u8]), CodecFault>
    ensures { GivesReadingOrReports (λ x. (x.0, x.1.now)) result (entry_at input bytes.now) }
{
    match registered_at(alloc, input, bytes) {
        Err(fault) => Err(fault),
        Ok((statement, signature, rest)) => Ok((Registered::new(statement, signature), rest)),
    }
}

/// So many statements.
fn many_statements_at(
    alloc: Global,
    count: u32,
    input: usize,
    bytes: &[u8],
) -> Result<(Statements, &[u8]), CodecFault>
    ensures { GivesReadingOrReports (λ x. (x.0, x.1.now)) result (chain_at (alone (entry_at input)) nothing_left count tt bytes.now) }
{
    let mut statements = Sequence::new(alloc);
    let mut rest = bytes;
    for _ in 0..count {
        match entry_at(alloc, input, rest) {
            Err(fault) => return Err(fault),
            Ok((statement, behind)) => {
                statements.push(statement)?;
                rest = behind;
            }
        }
    }
    Ok((statements, rest))
}

/// The number of statements, and each.
#[tactic(auto, using(bl_syntax::proofs::ReportsFaultLemmas::stops), unfolding(crate::specs::Chain::long_list_at))]
fn statements_at(
    alloc: Global,
    input: usize,
    bytes: &[u8],
) -> Result<(Statements, &[u8]), CodecFault>
    ensures { GivesReadingOrReports (λ x. (x.0, x.1.now)) result (statements_at input bytes.now) }
{
    match u32_at(bytes) {
        Err(fault) => Err(fault),
        Ok((count, rest)) => many_statements_at(alloc, count, input, rest),
    }
}

/// An issue. It is read once, and kept as its bytes.
#[tactic(auto, using(bl_syntax::proofs::ReportsFaultLemmas::hands_on))]
fn issue_at(alloc: Global, input: usize, bytes: &[u8]) -> Result<(IssueRecord, &[u8]), CodecFault>
    ensures { GivesReadingOrReports (λ x. (x.0, x.1.now)) result (issue_at input bytes.now) }
{
    match issued_at(alloc, input, bytes) {
        Err(fault) => Err(fault),
        Ok((cited, proof, grant, rest)) => Ok((
            IssueRecord::of(alloc, cited.as_slice(), &proof, &grant)?,
            rest,
        )),
    }
}

/// So many issues.
fn many_issues_at(
    alloc: Global,
    count: u32,
    input: usize,
    bytes: &[u8],
) -> Result<(Issues, &[u8]), CodecFault>
    ensures { GivesReadingOrReports (λ x. (x.0, x.1.now)) result (chain_at (alone (issue_at input)) nothing_left count tt bytes.now) }
{
    let mut issues = Sequence::new(alloc);
    let mut rest = bytes;
    for _ in 0..count {
        match issue_at(alloc, input, rest) {
            Err(fault) => return Err(fault),
            Ok((issue, behind)) => {
                issues.push(issue)?;
                rest = behind;
            }
        }
    }
    Ok((issues, rest))
}

/// The number of issues, and each.
#[tactic(auto, using(bl_syntax::proofs::ReportsFaultLemmas::stops), unfolding(crate::specs::Chain::long_list_at))]
fn issues_at(alloc: Global, input: usize, bytes: &[u8]) -> Result<(Issues, &[u8]), CodecFault>
    ensures { GivesReadingOrReports (λ x. (x.0, x.1.now)) result (issues_at input bytes.now) }
{
    match u32_at(bytes) {
        Err(fault) => Err(fault),
        Ok((count, rest)) => many_issues_at(alloc, count, input, rest),
    }
}

/// Issues, and nodes.
#[tactic(auto, using(bl_syntax::proofs::ReportsFaultLemmas::hands_on, bl_syntax::proofs::ReportsFaultLemmas::stops), unfolding(crate::specs::ImageReading::issues_and_nodes_at))]
fn issues_and_nodes_at(
    alloc: Global,
    input: usize,
    bytes: &[u8],
) -> Result<(Issues, TreeRows, MetaRows, &[u8]), CodecFault>
    ensures read { GivesReadingOrReports (λ x. ((x.0, item_rows x.1 x.2), x.3.now)) result (issues_and_nodes_at input bytes.now) }
    ensures same { IfOk result (λ x. AreOfSameNodes x.1 x.2) }
{
    match issues_at(alloc, input, bytes) {
        Err(fault) => Err(fault),
        Ok((issues, rest)) => match nodes_at(alloc, input, rest) {
            Err(fault) => Err(fault),
            Ok((tree, meta, rest)) => Ok((issues, tree, meta, rest)),
        },
    }
}

/// Statements, issues, and nodes.
#[tactic(auto, using(bl_syntax::proofs::ReportsFaultLemmas::hands_on, bl_syntax::proofs::ReportsFaultLemmas::stops), unfolding(crate::specs::ImageReading::lists_at))]
fn lists_at(
    alloc: Global,
    input: usize,
    bytes: &[u8],
) -> Result<(Statements, Issues, TreeRows, MetaRows, &[u8]), CodecFault>
    ensures read { GivesReadingOrReports (λ x. ((x.0, (x.1, item_rows x.2 x.3)), x.4.now)) result (lists_at input bytes.now) }
    ensures same { IfOk result (λ x. AreOfSameNodes x.2 x.3) }
{
    match statements_at(alloc, input, bytes) {
        Err(fault) => Err(fault),
        Ok((statements, rest)) => match issues_and_nodes_at(alloc, input, rest) {
            Err(fault) => Err(fault),
            Ok((issues, tree, meta, rest)) => Ok((statements, issues, tree, meta, rest)),
        },
    }
}

// The fields of an image. All statements stand in them.
#[tactic(auto, using(bl_syntax::proofs::ReportsFaultLemmas::hands_on, bl_syntax::proofs::ReportsFaultLemmas::stops), unfolding(crate::specs::ImageReading::parts_at))]
fn fields_at(alloc: Global, input: usize, bytes: &[u8]) -> Result<(Image, &[u8]), CodecFault>
    ensures read { GivesReadingOrReports (λ x. (base_of_image x.0, x.1.now)) result (fields_at input bytes.now) }
    ensures same { IfOk result (λ x. AreOfSameNodes x.0.tree x.0.meta) }
{
    match head_at(input, bytes) {
        Err(fault) => Err(fault),
        Ok((moment, count, next, rest)) => match lists_at(alloc, input, rest) {
            Err(fault) => Err(fault),
            Ok((statements, issues, tree, meta, rest)) => Ok((
                Image {
                    moment,
                    count,
                    next,
                    statements,
                    issues,
                    tree,
                    meta,
                },
                rest,
            )),
        },
    }
}

// The image after the statements of these numbers were withdrawn.
fn with_withdrawn(image: Image, numbers: &[u32]) -> Image
    ensures base { base_of_image result ≡ with_withdrawn (base_of_image image) numbers.now }
    ensures tree { result.tree ≡ image.tree }
    ensures meta { result.meta ≡ image.meta }
{
    let Image {
        moment,
        count,
        next,
        statements,
        issues,
        tree,
        meta,
    } = image;
    let mut entries = statements.into_vec();
    mark_all(&mut entries, numbers);
    Image {
        moment,
        count,
        next,
        statements: Sequence::from_vec(entries),
        issues,
        tree,
        meta,
    }
}

// The fields, and the numbers of the withdrawn statements.
#[tactic(auto, using(bl_syntax::proofs::ReportsFaultLemmas::hands_on, bl_syntax::proofs::ReportsFaultLemmas::stops), unfolding(crate::specs::ImageReading::state_at))]
fn state_at(alloc: Global, input: usize, bytes: &[u8]) -> Result<(Image, &[u8]), CodecFault>
    ensures read { GivesReadingOrReports (λ x. (base_of_image x.0, x.1.now)) result (state_at input bytes.now) }
    ensures same { IfOk result (λ x. AreOfSameNodes x.0.tree x.0.meta) }
{
    match fields_at(alloc, input, bytes) {
        Err(fault) => Err(fault),
        Ok((image, rest)) => {
            let most = image.statements.len();
            match withdrawn_numbers_at(alloc, most, input, rest) {
                Err(fault) => Err(fault),
                Ok((numbers, rest)) => Ok((with_withdrawn(image, numbers.as_slice()), rest)),
            }
        }
    }
}

// The version, and what stands after it.
#[tactic(auto, unfolding(crate::specs::ImageReading::image_at))]
fn versioned_at(alloc: Global, input: usize, bytes: &[u8]) -> Result<(Image, &[u8]), CodecFault>
    ensures read { GivesReadingOrReports (λ x. (base_of_image x.0, x.1.now)) result (image_at input bytes.now) }
    ensures same { IfOk result (λ x. AreOfSameNodes x.0.tree x.0.meta) }
{
    match bytes {
        [] => Err(CodecFault::Short),
        [2, rest @ ..] => state_at(alloc, input, rest),
        [_, ..] => Err(CodecFault::BadTag(place(input, bytes))),
    }
}

/// Reads an image of version 1 at the front of `bytes`, the rest of an input of `input` bytes: its fields alone, in which all
/// statements stand, and the bytes after them, or the first fault. Its rows are of the same nodes, and it may be written
/// again.
pub fn old_image_at(alloc: Global, input: usize, bytes: &[u8]) -> Result<(Image, &[u8]), CodecFault>
    ensures read { GivesReadingOrReports (λ x. (base_of_image x.0, x.1.now)) result (fields_at input bytes.now) }
    ensures fits { IfOk result (λ x. HasFittingFields x.0) }
    ensures standing { IfOk result (λ x. AreStanding x.0.statements) }
{
    fields_at(alloc, input, bytes)
}

// Whether the bytes begin with the version of images.
fn is_versioned(bytes: &[u8]) -> bool
    ensures { result ≡ is_versioned bytes.now }
{
    match bytes {
        [] => false,
        [version, ..] => *version == VERSION,
    }
}

/// Reads an image of either version: of version 2 if the bytes begin with that byte, and of version 1 if not.
#[tactic(auto, unfolding(crate::specs::ImageReading::stored_image_at))]
pub fn stored_image_at(
    alloc: Global,
    input: usize,
    bytes: &[u8],
) -> Result<(Image, &[u8]), CodecFault>
    ensures read { GivesReadingOrReports (λ x. (base_of_image x.0, x.1.now)) result (stored_image_at input bytes.now) }
    ensures fits { IfOk result (λ x. HasFittingFields x.0) }
{
    if is_versioned(bytes) {
        image_at(alloc, input, bytes)
    } else {
        old_image_at(alloc, input, bytes)
    }
}

/// Reads an image of version 2 at the front of `bytes`, the rest of an input of `input` bytes: the state and the bytes after
/// it, or the first fault: of the version, of the fields in order, and of the numbers of the withdrawn statements. Its rows are of the
/// same nodes, and it may be written again.
pub fn image_at(alloc: Global, input: usize, bytes: &[u8]) -> Result<(Image, &[u8]), CodecFault>
    ensures read { GivesReadingOrReports (λ x. (base_of_image x.0, x.1.now)) result (image_at input bytes.now) }
    ensures fits { IfOk result (λ x. HasFittingFields x.0) }
{
    versioned_at(alloc, input, bytes)
}
