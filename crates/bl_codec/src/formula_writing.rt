//! Writing formulas.

ghost use Rattle.std.specs.Prelude.{◌≡◌, ◌≤◌, ◌++◌, ◌∷◌, OnOk, OnErr, IsTrue, length};
ghost use Rattle.std.specs.List.{flat_map, AllByRecursion};
ghost use Rattle.bl_syntax.specs.BeginsWith.{BeginsWith};
ghost use Rattle.bl_syntax.specs.Names.{is_predicate_name};
ghost use Rattle.bl_syntax.specs.Terms.{HasTimeInRange};
ghost use Rattle.bl_syntax.specs.Formula.{formula_view};
ghost use Rattle.bl_syntax.specs.WellSorted.{IsWithinLimits, widest_atom, terms_of_state};
ghost use Rattle.bl_syntax.specs.Statement.{AllTerms};
ghost use Rattle.bl_syntax.specs.Spelling.{IsSpellable, with_length, term_spelling};
ghost use Rattle.bl_syntax.specs.FormulaSpelling.{AreNamed, IsSpellableFormula, state_spelling, formula_spelling};

use bl_syntax::fields::{put, sort_code};
use bl_syntax::{Bytes, Formula, NoMemory, StatePred, Term, Word, write_term};

/// Adds the spelling of a formula, or nothing. The formula is within the limits, and its times are in the range of moments.
pub fn write_formula(f: &Formula, out: &mut Bytes) -> Result<(), NoMemory>
    requires limits { IsWithinLimits (formula_view f.now) }
    requires times { AllTerms HasTimeInRange (formula_view f.now) }
    ensures ok { OnOk result (out.new ≡ out.old ++ formula_spelling (formula_view f.now)) }
    ensures spelled { OnOk result (IsSpellableFormula (formula_view f.now)) }
    ensures err { OnErr result (out.new ≡ out.old) }
{
    let len = out.len();
    let added = put_formula(f, out);
    if added.is_err() {
        out.truncate(len);
    }
    added
}

/// Adds the spelling of a formula, or a front of it where there is no memory for more.
#[tactic(auto, using(bl_syntax::proofs::BeginsWithLemmas::writing), unfolding(bl_syntax::specs::FormulaSpelling::formula_spelling))]
fn put_formula(f: &Formula, out: &mut Bytes) -> Result<(), NoMemory>
    requires arguments { widest_atom (formula_view f.now) ≤ 8 }
    requires times { AllTerms HasTimeInRange (formula_view f.now) }
    ensures ok { OnOk result (out.new ≡ out.old ++ formula_spelling (formula_view f.now)) }
    ensures names { OnOk result (AreNamed (formula_view f.now)) }
    ensures terms { OnOk result (AllTerms IsSpellable (formula_view f.now)) }
    ensures err { OnErr result (BeginsWith out.new out.old) }
{
    match f {
        Formula::Atom(name, terms) => put_atom(name, terms.as_slice(), out),
        Formula::Cons(c) => put_two_terms(&[17], &c.low, &c.high, out),
        Formula::State(s) => put_state(s, out),
        Formula::And(a, b) => {
            put(&[21], &[], out)?;
            put_formula(a, out)?;
            put_formula(b, out)
        }
        Formula::Or(a, b) => {
            put(&[22], &[], out)?;
            put_formula(a, out)?;
            put_formula(b, out)
        }
        Formula::Imp(a, b) => {
            put(&[23], &[], out)?;
            put_formula(a, out)?;
            put_formula(b, out)
        }
        Formula::True => put(&[24], &[], out),
        Formula::False => put(&[25], &[], out),
        Formula::Forall(sort, a) => {
            put(&[26], &[sort_code(*sort)], out)?;
            put_formula(a, out)
        }
        Formula::Exists(sort, a) => {
            put(&[27], &[sort_code(*sort)], out)?;
            put_formula(a, out)
        }
        Formula::Says(who, a) => {
            put(&[28], &[], out)?;
            write_term(who, out)?;
            put_formula(a, out)
        }
        Formula::At(a, from, to) => {
            put(&[29], &[], out)?;
            put_formula(a, out)?;
            put_two_terms(&[], from, to, out)
        }
    }
}

/// Adds these bytes and the spellings of two terms, or a front of them.
#[tactic(auto, using(bl_syntax::proofs::BeginsWithLemmas::writing))]
fn put_two_terms(front: &[u8], low: &Term, high: &Term, out: &mut Bytes) -> Result<(), NoMemory>
    requires low { HasTimeInRange low.now }
    requires high { HasTimeInRange high.now }
    ensures ok { OnOk result (out.new ≡ out.old ++ (front.now ++ (term_spelling low.now ++ term_spelling high.now))) }
    ensures low_spelled { OnOk result (IsSpellable low.now) }
    ensures high_spelled { OnOk result (IsSpellable high.now) }
    ensures err { OnErr result (BeginsWith out.new out.old) }
{
    put(front, &[], out)?;
    write_term(low, out)?;
    write_term(high, out)
}

/// Adds the spelling of a predicate on the server's state, or a front of it.
#[tactic(auto, using(bl_syntax::proofs::BeginsWithLemmas::writing), unfolding(bl_syntax::specs::FormulaSpelling::state_spelling))]
fn put_state(s: &StatePred, out: &mut Bytes) -> Result<(), NoMemory>
    requires { AllByRecursion HasTimeInRange (terms_of_state s.now) }
    ensures ok { OnOk result (out.new ≡ out.old ++ state_spelling s.now) }
    ensures spelled { OnOk result (AllByRecursion IsSpellable (terms_of_state s.now)) }
    ensures err { OnErr result (BeginsWith out.new out.old) }
{
    match s {
        StatePred::Owner(file, owner) => put_two_terms(&[18], file, owner, out),
        StatePred::HasXattr(file, name, value) => {
            put(&[19], &[], out)?;
            write_term(file, out)?;
            put_two_terms(&[], name, value, out)
        }
        StatePred::InDir(file, directory) => put_two_terms(&[20], file, directory, out),
    }
}

/// Adds the spelling of an atom, or a front of it.
#[tactic(auto, using(bl_syntax::proofs::BeginsWithLemmas::writing))]
fn put_atom(name: &Word, terms: &[Term], out: &mut Bytes) -> Result<(), NoMemory>
    requires arguments { length terms.now ≤ 8 }
    requires times { AllByRecursion HasTimeInRange terms.now }
    ensures ok { OnOk result (out.new ≡ out.old ++ 16 ∷ (with_length name.now ++ length terms.now ∷ flat_map term_spelling terms.now)) }
    ensures named { OnOk result (IsTrue (is_predicate_name name.now)) }
    ensures spelled { OnOk result (AllByRecursion IsSpellable terms.now) }
    ensures err { OnErr result (BeginsWith out.new out.old) }
{
    let bytes = name.bytes();
    put(&[16, bytes.len() as u8], bytes, out)?;
    put(&[terms.len() as u8], &[], out)?;
    put_terms(terms, out)
}

/// Adds the spellings of terms, or a front of them.
#[tactic(auto, using(bl_syntax::proofs::BeginsWithLemmas::writing))]
fn put_terms(terms: &[Term], out: &mut Bytes) -> Result<(), NoMemory>
    requires { AllByRecursion HasTimeInRange terms.now }
    ensures ok { OnOk result (out.new ≡ out.old ++ flat_map term_spelling terms.now) }
    ensures spelled { OnOk result (AllByRecursion IsSpellable terms.now) }
    ensures err { OnErr result (BeginsWith out.new out.old) }
{
    match terms {
        [] => Ok(()),
        [first, others @ ..] => {
            write_term(first, out)?;
            put_terms(others, out)
        }
    }
}
