//! The text that a term, a constraint, a state predicate, a formula or a statement is written as.
#![tactic(auto, using(bl_syntax::proofs::BeginsWithLemmas::writing))]

ghost use Rattle.std.specs.Prelude.{◌≡◌, ◌++◌, ◌∷◌, [], ℕ, OnOk, OnErr};
ghost use Rattle.std.specs.Fmt.{decimal, signed_decimal};
ghost use Rattle.bl_syntax.specs.BeginsWith.{BeginsWith};
ghost use Rattle.bl_syntax.specs.Formula.{formula_view};
ghost use Rattle.bl_text.specs.Printed.{time_text, permission_text, sort_text, term_text, terms_text, arguments_text, constraint_text, state_text, inner_depth, binder_text, interval_text, rank, operand, formula_text, said_text, span_text, statement_text};

use bl_syntax::decimal::{put_counted, put_decimal, put_text};
use bl_syntax::{
    Bytes, Constraint, Formula, NoMemory, Perm, Sort, StatePred, Statement, Term, TimePoint,
};

/// Writes a term outside all binders, all of it or nothing.
pub fn print_term(term: &Term, out: &mut Bytes) -> Result<(), NoMemory>
    ensures ok { OnOk result (out.new ≡ out.old ++ term_text 0 term.now) }
    ensures err { OnErr result (out.new ≡ out.old) }
{
    let len = out.len();
    let written = write_term(out, 0, term);
    if written.is_err() {
        out.truncate(len);
    }
    written
}

/// Writes a constraint between times, all of it or nothing.
pub fn print_constraint(c: &Constraint, out: &mut Bytes) -> Result<(), NoMemory>
    ensures ok { OnOk result (out.new ≡ out.old ++ constraint_text 0 c.now) }
    ensures err { OnErr result (out.new ≡ out.old) }
{
    let len = out.len();
    let written = write_constraint(out, 0, c);
    if written.is_err() {
        out.truncate(len);
    }
    written
}

/// Writes a predicate on the server's state, all of it or nothing.
pub fn print_state(s: &StatePred, out: &mut Bytes) -> Result<(), NoMemory>
    ensures ok { OnOk result (out.new ≡ out.old ++ state_text 0 s.now) }
    ensures err { OnErr result (out.new ≡ out.old) }
{
    let len = out.len();
    let written = write_state(out, 0, s);
    if written.is_err() {
        out.truncate(len);
    }
    written
}

/// Writes a formula, all of it or nothing. A variable is `X` and the number of binders outside its own.
pub fn print_formula(f: &Formula, out: &mut Bytes) -> Result<(), NoMemory>
    ensures ok { OnOk result (out.new ≡ out.old ++ formula_text 0 (formula_view f.now)) }
    ensures err { OnErr result (out.new ≡ out.old) }
{
    let len = out.len();
    let written = write_formula(out, 0, f);
    if written.is_err() {
        out.truncate(len);
    }
    written
}

/// Writes a statement, all of it or nothing.
pub fn print_statement(s: &Statement, out: &mut Bytes) -> Result<(), NoMemory>
    ensures ok { OnOk result (out.new ≡ out.old ++ statement_text s.now) }
    ensures err { OnErr result (out.new ≡ out.old) }
{
    let len = out.len();
    let written = write_statement(out, s);
    if written.is_err() {
        out.truncate(len);
    }
    written
}

fn write_statement(out: &mut Bytes, s: &Statement) -> Result<(), NoMemory>
    ensures ok { OnOk result (out.new ≡ out.old ++ statement_text s.now) }
    ensures err { OnErr result (BeginsWith out.new out.old) }
{
    out.extend(s.who().bytes())?;
    write_said(out, s.body())?;
    write_span(out, &s.from(), &s.to())
}

fn write_said(out: &mut Bytes, body: &Formula) -> Result<(), NoMemory>
    ensures ok { OnOk result (out.new ≡ out.old ++ said_text (formula_view body.now)) }
    ensures err { OnErr result (BeginsWith out.new out.old) }
{
    put_text(out, " says ")?;
    write_formula(out, 0, body)
}

fn write_span(out: &mut Bytes, from: &TimePoint, to: &TimePoint) -> Result<(), NoMemory>
    ensures ok { OnOk result (out.new ≡ out.old ++ span_text from.now to.now) }
    ensures err { OnErr result (BeginsWith out.new out.old) }
{
    put_text(out, " from ")?;
    write_time(out, from)?;
    put_text(out, " to ")?;
    write_time(out, to)
}

/// How tightly the sign that was put on last binds.
fn rank(f: &Formula) -> u8
    ensures { result ≡ rank (formula_view f.now) }
{
    match f {
        Formula::Forall(..) | Formula::Exists(..) | Formula::Imp(..) => 0,
        Formula::Or(..) => 1,
        Formula::And(..) => 2,
        Formula::Says(..) => 3,
        Formula::At(..) => 4,
        _ => 5,
    }
}

/// Writes a formula within this many binders.
#[cycle(write)]
fn write_formula(out: &mut Bytes, depth: u64, f: &Formula) -> Result<(), NoMemory>
    ensures ok { OnOk result (out.new ≡ out.old ++ formula_text depth (formula_view f.now)) }
    ensures err { OnErr result (BeginsWith out.new out.old) }
{
    match f {
        Formula::Atom(name, terms) => {
            out.extend(name.bytes())?;
            write_arguments(out, depth, terms.as_slice())
        }
        Formula::Cons(c) => write_constraint(out, depth, c),
        Formula::State(s) => write_state(out, depth, s),
        Formula::And(a, b) => {
            write_operand(out, 2, depth, a)?;
            put_text(out, " & ")?;
            write_operand(out, 3, depth, b)
        }
        Formula::Or(a, b) => {
            write_operand(out, 1, depth, a)?;
            put_text(out, " | ")?;
            write_operand(out, 2, depth, b)
        }
        Formula::Imp(a, b) => {
            write_operand(out, 1, depth, a)?;
            put_text(out, " => ")?;
            write_operand(out, 0, depth, b)
        }
        Formula::True => put_text(out, "true"),
        Formula::False => put_text(out, "false"),
        Formula::Forall(sort, a) => {
            write_binder(out, "forall X", depth, *sort)?;
            write_operand(out, 0, inner_depth(depth), a)
        }
        Formula::Exists(sort, a) => {
            write_binder(out, "exists X", depth, *sort)?;
            write_operand(out, 0, inner_depth(depth), a)
        }
        Formula::Says(who, a) => {
            write_term(out, depth, who)?;
            put_text(out, " says ")?;
            write_operand(out, 3, depth, a)
        }
        Formula::At(a, from, to) => {
            write_operand(out, 4, depth, a)?;
            write_interval(out, depth, from, to)
        }
    }
}

/// Writes a formula in a place that this rank and higher ones may take without parentheses.
#[cycle(write)]
fn write_operand(out: &mut Bytes, lowest: u8, depth: u64, f: &Formula) -> Result<(), NoMemory>
    ensures ok { OnOk result (out.new ≡ out.old ++ operand lowest (rank (formula_view f.now)) (formula_text depth (formula_view f.now))) }
    ensures err { OnErr result (BeginsWith out.new out.old) }
{
    if lowest <= rank(f) {
        write_formula(out, depth, f)
    } else {
        put_text(out, "(")?;
        write_formula(out, depth, f)?;
        put_text(out, ")")
    }
}

/// One binder more. The count stands still at its type's end.
fn inner_depth(depth: u64) -> u64
    ensures { result ≡ inner_depth depth }
{
    depth.saturating_add(1)
}

fn write_binder(out: &mut Bytes, word: &str, depth: u64, sort: Sort) -> Result<(), NoMemory>
    ensures ok { OnOk result (out.new ≡ out.old ++ binder_text word.now depth sort) }
    ensures err { OnErr result (BeginsWith out.new out.old) }
{
    put_counted(out, word, depth)?;
    put_text(out, ":")?;
    write_sort(out, sort)?;
    put_text(out, ". ")
}

fn write_interval(out: &mut Bytes, depth: u64, from: &Term, to: &Term) -> Result<(), NoMemory>
    ensures ok { OnOk result (out.new ≡ out.old ++ interval_text depth from.now to.now) }
    ensures err { OnErr result (BeginsWith out.new out.old) }
{
    write_following(out, " @ [", depth, from)?;
    write_following(out, ",", depth, to)?;
    put_text(out, "]")
}

/// Writes the arguments of a predicate in parentheses; nothing where there are none.
fn write_arguments(out: &mut Bytes, depth: u64, terms: &[Term]) -> Result<(), NoMemory>
    ensures ok { OnOk result (out.new ≡ out.old ++ arguments_text depth terms.now) }
    ensures err { OnErr result (BeginsWith out.new out.old) }
{
    match terms {
        [] => Ok(()),
        [first, others @ ..] => {
            write_following(out, "(", depth, first)?;
            write_others(out, depth, others)?;
            put_text(out, ")")
        }
    }
}

fn write_others(out: &mut Bytes, depth: u64, terms: &[Term]) -> Result<(), NoMemory>
    ensures ok { OnOk result (out.new ≡ out.old ++ terms_text depth terms.now) }
    ensures err { OnErr result (BeginsWith out.new out.old) }
{
    for term in terms {
        write_following(out, ",", depth, term)?;
    }
    Ok(())
}

fn write_constraint(out: &mut Bytes, depth: u64, constraint: &Constraint) -> Result<(), NoMemory>
    ensures ok { OnOk result (out.new ≡ out.old ++ constraint_text depth constraint.now) }
    ensures err { OnErr result (BeginsWith out.new out.old) }
{
    write_term(out, depth, &constraint.low)?;
    put_text(out, " <= ")?;
    write_term(out, depth, &constraint.high)
}

fn write_state(out: &mut Bytes, depth: u64, state: &StatePred) -> Result<(), NoMemory>
    ensures ok { OnOk result (out.new ≡ out.old ++ state_text depth state.now) }
    ensures err { OnErr result (BeginsWith out.new out.old) }
{
    match state {
        StatePred::Owner(file, owner) => {
            write_following(out, "owner(", depth, file)?;
            write_following(out, ",", depth, owner)?;
        }
        StatePred::HasXattr(file, name, value) => {
            write_following(out, "has_xattr(", depth, file)?;
            write_following(out, ",", depth, name)?;
            write_following(out, ",", depth, value)?;
        }
        StatePred::InDir(file, directory) => {
            write_following(out, "in_dir(", depth, file)?;
            write_following(out, ",", depth, directory)?;
        }
    }
    put_text(out, ")")
}

fn write_following(out: &mut Bytes, before: &str, depth: u64, term: &Term) -> Result<(), NoMemory>
    ensures ok { OnOk result (out.new ≡ out.old ++ (before.now ++ term_text depth term.now)) }
    ensures err { OnErr result (BeginsWith out.new out.old) }
{
    put_text(out, before)?;
    write_term(out, depth, term)
}

/// Writes a term within this many binders, or a part of it where there is no memory.
fn write_term(out: &mut Bytes, depth: u64, term: &Term) -> Result<(), NoMemory>
    ensures ok { OnOk result (out.new ≡ out.old ++ term_text depth term.now) }
    ensures err { OnErr result (BeginsWith out.new out.old) }
{
    match term {
        Term::Prin(name) => out.extend(name.bytes()),
        Term::File(number) => put_counted(out, "#", number.0),
        Term::Perm(permission) => write_permission(out, permission),
        Term::Time(point) => write_time(out, point),
        Term::Text(constant) => {
            put_text(out, "\"")?;
            out.extend(constant.bytes())?;
            put_text(out, "\"")
        }
        Term::Ctime => put_text(out, "ctime"),
        Term::Param(number) => put_counted(out, "?", u64::from(*number)),
        Term::Bound(inner) => write_variable(out, depth, *inner),
    }
}

/// Writes the variable of the binder with that many others inside it.
fn write_variable(out: &mut Bytes, depth: u64, inner: u32) -> Result<(), NoMemory>
    ensures ok { OnOk result (out.new ≡ out.old ++ term_text depth (Term.Bound inner)) }
    ensures err { OnErr result (BeginsWith out.new out.old) }
{
    put_counted(
        out,
        "X",
        depth.saturating_sub(u64::from(inner)).saturating_sub(1),
    )
}

fn write_sort(out: &mut Bytes, sort: Sort) -> Result<(), NoMemory>
    ensures ok { OnOk result (out.new ≡ out.old ++ sort_text sort) }
    ensures err { OnErr result (BeginsWith out.new out.old) }
{
    match sort {
        Sort::Principal => put_text(out, "principal"),
        Sort::File => put_text(out, "file"),
        Sort::Perm => put_text(out, "perm"),
        Sort::Time => put_text(out, "time"),
        Sort::Text => put_text(out, "text"),
    }
}

fn write_permission(out: &mut Bytes, permission: &Perm) -> Result<(), NoMemory>
    ensures ok { OnOk result (out.new ≡ out.old ++ permission_text permission.now) }
    ensures err { OnErr result (BeginsWith out.new out.old) }
{
    match permission {
        Perm::Read => put_text(out, "read"),
        Perm::Write => put_text(out, "write"),
        Perm::Execute => put_text(out, "execute"),
        Perm::Identity => put_text(out, "identity"),
        Perm::Govern => put_text(out, "govern"),
    }
}

fn write_time(out: &mut Bytes, point: &TimePoint) -> Result<(), NoMemory>
    ensures ok { OnOk result (out.new ≡ out.old ++ time_text point.now) }
    ensures err { OnErr result (BeginsWith out.new out.old) }
{
    match point {
        TimePoint::NegInf => put_text(out, "-inf"),
        TimePoint::At(second) => write_second(out, *second),
        TimePoint::PosInf => put_text(out, "+inf"),
    }
}

fn write_second(out: &mut Bytes, second: i64) -> Result<(), NoMemory>
    ensures ok { OnOk result (out.new ≡ out.old ++ signed_decimal second) }
    ensures err { OnErr result (BeginsWith out.new out.old) }
{
    if second < 0 {
        put_counted(out, "-", second.unsigned_abs())
    } else {
        put_decimal(out, second.unsigned_abs())
    }
}
