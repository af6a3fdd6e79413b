//! Statements: what a principal says, and on which interval.

ghost use Rattle.std.specs.Prelude.{◌↔◌, ℕ, List, IsTrue};
ghost use Rattle.std.specs.List.{AllByRecursion};
ghost use Rattle.bl_syntax.specs.Formula.{formula_view};
ghost use Rattle.bl_syntax.specs.WellSorted.{terms_of_state};
ghost use Rattle.bl_syntax.specs.Statement.{AllTerms, IsSayable, IsSayableFormula, IsStatement, statement_view};

use crate::check::check_formula;
use crate::formula::Formula;
use crate::lists::NoMemory;
use crate::names::Principal;
use crate::terms::{StatePred, Term, TimePoint};
use std::alloc::Global;
use std::marker::Model;

/// A statement of a principal: a formula that holds on an interval. The formula is closed, well
/// sorted and within the limits, has neither parameters nor the current time, and all times are moments.
#[derive(Debug, Drop)]
pub struct Statement {
    who: Principal,
    body: Formula,
    from: TimePoint,
    to: TimePoint,
}

impl Model for Statement {
    ghost use Rattle.bl_syntax.specs.Statement.{StatementView, statement_view, IsStatement};
    ghost use Rattle.bl_syntax.specs.Formula.{formula_view};
    ghost use Rattle.bl_syntax.specs.StatementCode.{statement_code};

    ghost Value = { StatementView };

    ghost coded = { statement_code };

    ghost view = { λ s. statement_view s.who (formula_view s.body) s.from s.to };

    ghost invariant = { λ s. IsStatement (statement_view s.who (formula_view s.body) s.from s.to) };
}

impl Statement {
    ghost use Rattle.std.specs.Prelude.{◌≡◌, ◌↔◌, IsSome, IfSome, IfOk, IsTrue};
    ghost use Rattle.bl_syntax.specs.Formula.{formula_view};
    ghost use Rattle.bl_syntax.specs.Statement.{statement_view, IsStatement};

    /// The statement; none exactly if it may not be made. It takes no memory.
    pub fn new(who: Principal, body: Formula, from: TimePoint, to: TimePoint) -> Option<Statement>
        ensures some { IsSome result ↔ IsStatement (statement_view who (formula_view body) from to) }
        ensures same { IfSome result (λ statement. statement ≡ statement_view who (formula_view body) from to) }
    {
        if may_be_said(&body, from, to) {
            Some(Statement {
                who,
                body,
                from,
                to,
            })
        } else {
            None
        }
    }

    /// Who says it.
    pub fn who(&self) -> &Principal
        ensures { result.now ≡ self.now.who }
    {
        &self.who
    }

    /// What is said.
    pub fn body(&self) -> &Formula
        ensures same { formula_view result.now ≡ self.now.body }
        ensures kept { IsStatement self.now }
    {
        &self.body
    }

    /// The first time at which it holds.
    pub fn from(&self) -> TimePoint
        ensures same { result ≡ self.now.from }
        ensures kept { IsStatement self.now }
    {
        self.from
    }

    /// The last time at which it holds.
    pub fn to(&self) -> TimePoint
        ensures same { result ≡ self.now.to }
        ensures kept { IsStatement self.now }
    {
        self.to
    }

    /// An equal statement in memory of its own.
    pub fn copy(&self, alloc: Global) -> Result<Statement, NoMemory>
        ensures { IfOk result (λ copied. copied ≡ self.now) }
    {
        Ok(Statement {
            who: self.who,
            body: self.body.copy(alloc)?,
            from: self.from,
            to: self.to,
        })
    }

    /// Whether the same principal says the same formula on the same interval.
    pub fn is_same(&self, other: &Statement) -> bool
        ensures { IsTrue result ↔ (self.now ≡ other.now) }
    {
        self.who.is_same(&other.who)
            && self.body.is_same(&other.body)
            && self.from == other.from
            && self.to == other.to
    }
}

/// Whether a principal may say the formula on the interval. Who it is plays no part.
fn may_be_said(body: &Formula, from: TimePoint, to: TimePoint) -> bool
    ensures { (who : List ℕ) →
        IsTrue result ↔ IsStatement (statement_view who (formula_view body.now) from to) }
{
    is_sayable_formula(body) && from.is_in_range() && to.is_in_range()
}

fn is_sayable_formula(body: &Formula) -> bool
    ensures { IsTrue result ↔ IsSayableFormula (formula_view body.now) }
{
    check_formula(body, &[]).is_ok() && has_sayable_terms(body)
}

/// Whether no term is the current time, and all times are in the range of moments.
fn has_sayable_terms(f: &Formula) -> bool
    ensures { IsTrue result ↔ AllTerms IsSayable (formula_view f.now) }
{
    match f {
        Formula::Atom(_, terms) => terms.as_slice().iter().all(|t| is_sayable(t)),
        Formula::Cons(c) => is_sayable(&c.low) && is_sayable(&c.high),
        Formula::State(s) => has_sayable_places(s),
        Formula::And(a, b) | Formula::Or(a, b) | Formula::Imp(a, b) => {
            has_sayable_terms(a) && has_sayable_terms(b)
        }
        Formula::True | Formula::False => true,
        Formula::Forall(_, a) | Formula::Exists(_, a) => has_sayable_terms(a),
        Formula::Says(who, a) => is_sayable(who) && has_sayable_terms(a),
        Formula::At(a, from, to) => has_sayable_terms(a) && is_sayable(from) && is_sayable(to),
    }
}

fn has_sayable_places(s: &StatePred) -> bool
    ensures { IsTrue result ↔ AllByRecursion IsSayable (terms_of_state s.now) }
{
    match s {
        StatePred::Owner(file, owner) => is_sayable(file) && is_sayable(owner),
        StatePred::HasXattr(file, name, value) => {
            is_sayable(file) && is_sayable(name) && is_sayable(value)
        }
        StatePred::InDir(file, directory) => is_sayable(file) && is_sayable(directory),
    }
}

fn is_sayable(t: &Term) -> bool
    ensures { IsTrue result ↔ IsSayable t.now }
{
    match t {
        Term::Ctime => false,
        Term::Time(point) => point.is_in_range(),
        _ => true,
    }
}
