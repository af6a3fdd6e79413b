//! Reading formulas.

ghost use Rattle.std.specs.Prelude.{◌≡◌, Err, IfOk, IfErr};
ghost use Rattle.bl_syntax.specs.declared.codec_fault.CodecFault.TheVariants.{NoMemory};
ghost use Rattle.bl_syntax.specs.Formula.{formula_view};
ghost use Rattle.bl_syntax.specs.Reading.{GivesReading, reading};
ghost use Rattle.bl_syntax.specs.Codec.{GivesReadingOrReports, ReadsFront};
ghost use Rattle.bl_syntax.specs.FormulaSpelling.{IsSpellableFormula, formula_spelling};
ghost use Rattle.bl_codec.specs.Leaves.{is_leaf_tag, leaf_at, join_formulas, bind_formula};
ghost use Rattle.bl_syntax.specs.FormulaReading.{is_term_tag, node_term_at, two_terms_at, three_terms_at, terms_at, count_at, atom_at, pair_at, binder_at, says_at, on_at, fields_at, no_more, node_at, formula_at, whole_formula_at};

use bl_syntax::boxes::{
    atom_of, both_of, constraint_of, either_of, every_of, falsity_of, implies_of, on_of, says_of,
    some_of, state_of, truth_of,
};
use bl_syntax::fields::{is_formula_tag, place, predicate_at, sort_at, term_at};
use bl_syntax::limits::{MOST_ARGUMENTS, MOST_FORMULA_NODES};
use bl_syntax::{CodecFault, Constraint, Formula, Sequence, Sort, StatePred, Term, Terms};
use std::alloc::Global;

fn is_term_tag(tag: u8) -> bool
    ensures { result ≡ is_term_tag tag }
{
    1 <= tag && tag <= 8
}

/// A term as one of the nodes that are left.
#[tactic(auto, unfolding(bl_syntax::specs::FormulaReading::node_term_at))]
fn node_term_at(input: usize, left: u16, bytes: &[u8]) -> Result<(Term, u16, &[u8]), CodecFault>
    ensures { GivesReading (λ x. (x.0, (x.1, x.2.now))) result (node_term_at input left bytes.now) }
{
    match bytes {
        [] => Err(CodecFault::Short),
        [tag, ..] => {
            if !is_term_tag(*tag) {
                return Err(CodecFault::BadTag(place(input, bytes)));
            }
            if left == 0 {
                return Err(CodecFault::TooLarge(place(input, bytes)));
            }
            match term_at(input, bytes) {
                Ok((t, rest)) => Ok((t, left - 1, rest)),
                Err(fault) => Err(fault),
            }
        }
    }
}

#[tactic(auto, unfolding(bl_syntax::specs::FormulaReading::two_terms_at))]
fn two_terms_at(
    input: usize,
    left: u16,
    bytes: &[u8],
) -> Result<(Term, Term, u16, &[u8]), CodecFault>
    ensures { GivesReading (λ x. ((x.0, x.1), (x.2, x.3.now))) result (two_terms_at input left bytes.now) }
{
    match node_term_at(input, left, bytes) {
        Err(fault) => Err(fault),
        Ok((first, left, rest)) => match node_term_at(input, left, rest) {
            Err(fault) => Err(fault),
            Ok((second, left, rest)) => Ok((first, second, left, rest)),
        },
    }
}

#[tactic(auto, unfolding(bl_syntax::specs::FormulaReading::three_terms_at))]
fn three_terms_at(
    input: usize,
    left: u16,
    bytes: &[u8],
) -> Result<(Term, Term, Term, u16, &[u8]), CodecFault>
    ensures { GivesReading (λ x. ((x.0, (x.1, x.2)), (x.3, x.4.now))) result (three_terms_at input left bytes.now) }
{
    match node_term_at(input, left, bytes) {
        Err(fault) => Err(fault),
        Ok((first, left, rest)) => match two_terms_at(input, left, rest) {
            Err(fault) => Err(fault),
            Ok((second, third, left, rest)) => Ok((first, second, third, left, rest)),
        },
    }
}

/// The number of an atom's terms.
#[tactic(auto, unfolding(bl_syntax::specs::FormulaReading::count_at))]
fn count_at(input: usize, bytes: &[u8]) -> Result<(u8, &[u8]), CodecFault>
    ensures { GivesReading (λ x. (x.0, x.1.now)) result (count_at input bytes.now) }
{
    match bytes {
        [] => Err(CodecFault::Short),
        [count, rest @ ..] => {
            if MOST_ARGUMENTS < *count as usize {
                return Err(CodecFault::TooLarge(place(input, bytes)));
            }
            Ok((*count, rest))
        }
    }
}

/// So many terms.
fn terms_at(
    alloc: Global,
    count: u8,
    input: usize,
    left: u16,
    bytes: &[u8],
) -> Result<(Terms, u16, &[u8]), CodecFault>
    ensures { GivesReadingOrReports (λ x. (x.0, (x.1, x.2.now))) result (terms_at count input left bytes.now) }
{
    let mut terms = Sequence::new(alloc);
    let mut still = left;
    let mut rest = bytes;
    for _ in 0..count {
        match node_term_at(input, still, rest) {
            Err(fault) => return Err(fault),
            Ok((t, after, behind)) => {
                terms.extend(&[t])?;
                still = after;
                rest = behind;
            }
        }
    }
    Ok((terms, still, rest))
}

/// The fields of an atom.
#[tactic(auto, unfolding(bl_syntax::specs::FormulaReading::atom_at))]
fn atom_at(
    alloc: Global,
    input: usize,
    left: u16,
    bytes: &[u8],
) -> Result<(Box<Formula>, u16, &[u8]), CodecFault>
    ensures { GivesReadingOrReports (λ x. (formula_view x.0.value, (x.1, x.2.now))) result (atom_at input left bytes.now) }
{
    match predicate_at(input, bytes) {
        Err(fault) => Err(fault),
        Ok((name, rest)) => {
            let (count, rest) = count_at(input, rest)?;
            match terms_at(alloc, count, input, left, rest) {
                Err(fault) => Err(fault),
                Ok((terms, left, rest)) => Ok((atom_of(alloc, &name, terms)?, left, rest)),
            }
        }
    }
}

/// The fields of a formula that has no formulas in it.
#[tactic(auto, using(bl_syntax::proofs::ReportsFaultLemmas::hands_on, bl_syntax::proofs::ReportsFaultLemmas::stops), unfolding(crate::specs::Leaves::leaf_at))]
#[inline(never)]
fn leaf_at(
    alloc: Global,
    input: usize,
    left: u16,
    tag: u8,
    rest: &[u8],
) -> Result<(Box<Formula>, u16, &[u8]), CodecFault>
    ensures { GivesReadingOrReports (λ x. (formula_view x.0.value, (x.1, x.2.now))) result (leaf_at input left tag rest.now) }
{
    match tag {
        16 => atom_at(alloc, input, left, rest),
        17 => match two_terms_at(input, left, rest) {
            Err(fault) => Err(fault),
            Ok((low, high, left, rest)) => {
                Ok((constraint_of(alloc, &Constraint { low, high })?, left, rest))
            }
        },
        18 => match two_terms_at(input, left, rest) {
            Err(fault) => Err(fault),
            Ok((file, owner, left, rest)) => {
                Ok((state_of(alloc, &StatePred::Owner(file, owner))?, left, rest))
            }
        },
        19 => match three_terms_at(input, left, rest) {
            Err(fault) => Err(fault),
            Ok((file, name, value, left, rest)) => Ok((
                state_of(alloc, &StatePred::HasXattr(file, name, value))?,
                left,
                rest,
            )),
        },
        20 => match two_terms_at(input, left, rest) {
            Err(fault) => Err(fault),
            Ok((file, directory, left, rest)) => Ok((
                state_of(alloc, &StatePred::InDir(file, directory))?,
                left,
                rest,
            )),
        },
        24 => Ok((truth_of(alloc)?, left, rest)),
        _ => Ok((falsity_of(alloc)?, left, rest)),
    }
}

/// Whether a formula with that tag has no formulas in it.
fn is_leaf_tag(tag: u8) -> bool
    ensures { result ≡ is_leaf_tag tag }
{
    (16 <= tag && tag <= 20) || tag == 24 || tag == 25
}

/// Two formulas joined by the connective of that tag.
#[inline(never)]
fn pair_of(
    alloc: Global,
    tag: u8,
    a: Box<Formula>,
    b: Box<Formula>,
) -> Result<Box<Formula>, CodecFault>
    ensures ok { IfOk result (λ f. formula_view f.value ≡ join_formulas tag (formula_view a.value) (formula_view b.value)) }
    ensures err { IfErr result (λ fault. fault ≡ NoMemory) }
{
    match tag {
        21 => Ok(both_of(alloc, a, b)?),
        22 => Ok(either_of(alloc, a, b)?),
        _ => Ok(implies_of(alloc, a, b)?),
    }
}

/// A formula inside the binder of that tag.
#[inline(never)]
fn binder_of(
    alloc: Global,
    tag: u8,
    sort: Sort,
    body: Box<Formula>,
) -> Result<Box<Formula>, CodecFault>
    ensures ok { IfOk result (λ f. formula_view f.value ≡ bind_formula tag sort (formula_view body.value)) }
    ensures err { IfErr result (λ fault. fault ≡ NoMemory) }
{
    match tag {
        26 => Ok(every_of(alloc, sort, body)?),
        _ => Ok(some_of(alloc, sort, body)?),
    }
}

/// Two formulas.
#[cycle(formula)]
#[tactic(auto, using(bl_syntax::proofs::ReportsFaultLemmas::hands_on, bl_syntax::proofs::ReportsFaultLemmas::stops), unfolding(bl_syntax::specs::FormulaReading::pair_at))]
fn pair_at(
    alloc: Global,
    input: usize,
    depth: u16,
    left: u16,
    bytes: &[u8],
) -> Result<(Box<Formula>, Box<Formula>, u16, &[u8]), CodecFault>
    ensures { GivesReadingOrReports (λ x. (
      (formula_view x.0.value, formula_view x.1.value),
      (x.2, x.3.now),
    )) result (pair_at (λ n rest. formula_at input depth n rest) left bytes.now) }
{
    match formula_at(alloc, input, depth, left, bytes) {
        Err(fault) => Err(fault),
        Ok((first, left, rest)) => match formula_at(alloc, input, depth, left, rest) {
            Err(fault) => Err(fault),
            Ok((second, left, rest)) => Ok((first, second, left, rest)),
        },
    }
}

/// A binder's sort, and the formula inside it.
#[cycle(formula)]
#[tactic(auto, using(bl_syntax::proofs::ReportsFaultLemmas::hands_on, bl_syntax::proofs::ReportsFaultLemmas::stops), unfolding(bl_syntax::specs::FormulaReading::binder_at))]
fn binder_at(
    alloc: Global,
    input: usize,
    depth: u16,
    left: u16,
    bytes: &[u8],
) -> Result<(Sort, Box<Formula>, u16, &[u8]), CodecFault>
    ensures { GivesReadingOrReports (λ x. ((x.0, formula_view x.1.value), (x.2, x.3.now))) result
        (binder_at (λ n rest. formula_at input depth n rest) input left bytes.now) }
{
    let (sort, rest) = sort_at(input, bytes)?;
    match formula_at(alloc, input, depth, left, rest) {
        Err(fault) => Err(fault),
        Ok((body, left, rest)) => Ok((sort, body, left, rest)),
    }
}

/// Who says a formula, and the formula.
#[cycle(formula)]
#[tactic(auto, using(bl_syntax::proofs::ReportsFaultLemmas::hands_on, bl_syntax::proofs::ReportsFaultLemmas::stops), unfolding(bl_syntax::specs::FormulaReading::says_at))]
fn says_at(
    alloc: Global,
    input: usize,
    depth: u16,
    left: u16,
    bytes: &[u8],
) -> Result<(Box<Formula>, u16, &[u8]), CodecFault>
    ensures { GivesReadingOrReports (λ x. (formula_view x.0.value, (x.1, x.2.now))) result
        (says_at (λ n rest. formula_at input depth n rest) input left bytes.now) }
{
    match node_term_at(input, left, bytes) {
        Err(fault) => Err(fault),
        Ok((who, left, rest)) => match formula_at(alloc, input, depth, left, rest) {
            Err(fault) => Err(fault),
            Ok((body, left, rest)) => Ok((says_of(alloc, &who, body)?, left, rest)),
        },
    }
}

/// A formula, and the interval on which it holds.
#[cycle(formula)]
#[tactic(auto, using(bl_syntax::proofs::ReportsFaultLemmas::hands_on, bl_syntax::proofs::ReportsFaultLemmas::stops), unfolding(bl_syntax::specs::FormulaReading::on_at))]
fn on_at(
    alloc: Global,
    input: usize,
    depth: u16,
    left: u16,
    bytes: &[u8],
) -> Result<(Box<Formula>, u16, &[u8]), CodecFault>
    ensures { GivesReadingOrReports (λ x. (formula_view x.0.value, (x.1, x.2.now))) result
        (on_at (λ n rest. formula_at input depth n rest) input left bytes.now) }
{
    match formula_at(alloc, input, depth, left, bytes) {
        Err(fault) => Err(fault),
        Ok((body, left, rest)) => match two_terms_at(input, left, rest) {
            Err(fault) => Err(fault),
            Ok((from, to, left, rest)) => Ok((on_of(alloc, body, &from, &to)?, left, rest)),
        },
    }
}

/// The fields of a formula with that tag, which are its terms and formulas.
#[cycle(formula)]
#[tactic(auto, using(bl_syntax::proofs::ReportsFaultLemmas::hands_on, bl_syntax::proofs::ReportsFaultLemmas::stops), unfolding(bl_syntax::specs::FormulaReading::fields_at))]
fn fields_at(
    alloc: Global,
    input: usize,
    depth: u16,
    left: u16,
    tag: u8,
    rest: &[u8],
) -> Result<(Box<Formula>, u16, &[u8]), CodecFault>
    ensures { GivesReadingOrReports (λ x. (formula_view x.0.value, (x.1, x.2.now))) result
        (fields_at (λ n rest. formula_at input depth n rest) input left tag rest.now) }
{
    if is_leaf_tag(tag) {
        return leaf_at(alloc, input, left, tag, rest);
    }
    match tag {
        21 | 22 | 23 => match pair_at(alloc, input, depth, left, rest) {
            Err(fault) => Err(fault),
            Ok((a, b, left, rest)) => Ok((pair_of(alloc, tag, a, b)?, left, rest)),
        },
        26 | 27 => match binder_at(alloc, input, depth, left, rest) {
            Err(fault) => Err(fault),
            Ok((sort, body, left, rest)) => Ok((binder_of(alloc, tag, sort, body)?, left, rest)),
        },
        28 => says_at(alloc, input, depth, left, rest),
        _ => on_at(alloc, input, depth, left, rest),
    }
}

/// A formula as one of the nodes that are left, whose formulas are nested at most so deep.
#[cycle(formula)]
#[tactic(auto, using(bl_syntax::proofs::ReportsFaultLemmas::hands_on, bl_syntax::proofs::ReportsFaultLemmas::stops), unfolding(bl_syntax::specs::FormulaReading::node_at))]
fn node_at(
    alloc: Global,
    input: usize,
    depth: u16,
    left: u16,
    bytes: &[u8],
) -> Result<(Box<Formula>, u16, &[u8]), CodecFault>
    ensures { GivesReadingOrReports (λ x. (formula_view x.0.value, (x.1, x.2.now))) result
        (node_at (λ n rest. formula_at input depth n rest) input left bytes.now) }
{
    match bytes {
        [] => Err(CodecFault::Short),
        [tag, rest @ ..] => {
            if !is_formula_tag(*tag) {
                return Err(CodecFault::BadTag(place(input, bytes)));
            }
            if left == 0 {
                return Err(CodecFault::TooLarge(place(input, bytes)));
            }
            fields_at(alloc, input, depth, left - 1, *tag, rest)
        }
    }
}

/// The fault of a formula that would be nested too deep.
#[tactic(auto, unfolding(bl_syntax::specs::FormulaReading::node_at))]
fn depth_fault(input: usize, bytes: &[u8]) -> CodecFault
    ensures { node_at no_more input 0 bytes.now ≡ Err result }
{
    match bytes {
        [] => CodecFault::Short,
        [tag, ..] => {
            if is_formula_tag(*tag) {
                CodecFault::TooLarge(place(input, bytes))
            } else {
                CodecFault::BadTag(place(input, bytes))
            }
        }
    }
}

/// A formula that is nested at most so deep, as one of the nodes that are left.
#[cycle(formula)]
fn formula_at(
    alloc: Global,
    input: usize,
    depth: u16,
    left: u16,
    bytes: &[u8],
) -> Result<(Box<Formula>, u16, &[u8]), CodecFault>
    ensures { GivesReadingOrReports (λ x. (formula_view x.0.value, (x.1, x.2.now))) result (formula_at input depth left bytes.now) }
{
    if depth == 0 {
        return Err(depth_fault(input, bytes));
    }
    node_at(alloc, input, depth - 1, left, bytes)
}

/// A formula within the limits: the reader that formats with formulas in them are made of. It reads at the front of
/// `bytes`, the rest of an input of `input` bytes, and gives the formula and the bytes after it, or the first fault.
#[tactic(auto, using(bl_syntax::proofs::ReportsFaultLemmas::hands_on), unfolding(bl_syntax::specs::FormulaReading::whole_formula_at))]
pub fn whole_formula_at(
    alloc: Global,
    input: usize,
    bytes: &[u8],
) -> Result<(Formula, &[u8]), CodecFault>
    ensures { GivesReadingOrReports (λ x. (formula_view x.0, x.1.now)) result (whole_formula_at input bytes.now) }
{
    match formula_at(alloc, input, MOST_FORMULA_NODES, MOST_FORMULA_NODES, bytes) {
        Err(fault) => Err(fault),
        Ok((f, _, rest)) => Ok((Box::into_inner(f), rest)),
    }
}

/// The formula whose spelling begins the bytes, and how many bytes it takes, or the first fault. Bytes may follow it.
#[tactic(auto, using(bl_syntax::proofs::ReportsFaultLemmas::hands_on))]
pub fn read_formula(alloc: Global, bytes: &[u8]) -> Result<(Formula, usize), CodecFault>
    ensures exact { GivesReadingOrReports (λ x. (formula_view x.0, x.1)) result (reading whole_formula_at bytes.now) }
    ensures front { ReadsFront formula_view IsSpellableFormula formula_spelling bytes.now result }
{
    match whole_formula_at(alloc, bytes.len(), bytes) {
        Err(fault) => Err(fault),
        Ok((f, rest)) => Ok((f, place(bytes.len(), rest))),
    }
}
