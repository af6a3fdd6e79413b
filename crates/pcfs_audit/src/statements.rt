//! Statements that are registered, signed, new, and with room; and that are withdrawn, standing, and signed once more.

ghost use Rattle.std.specs.Prelude.{◌↔◌, ◌≤◌, length, map, take, IfOk, IsTrue, Contains};
ghost use Rattle.policy_statement.specs.Digest.{digest_of};
ghost use Rattle.policy_statement.specs.Messages.{statement_message};
ghost use Rattle.pcfs_audit.specs.Dossier.{IsDossier};
ghost use Rattle.pcfs_audit.specs.Firsts.{AreFirsts};
ghost use Rattle.policy_statement.specs.Registry.{CanRegister};
ghost use Rattle.pcfs_audit.specs.Ends.{CouldBeWithdrawn};
ghost use Rattle.pcfs_audit.specs.Papers.{shown};

use crate::dossier::Dossier;
use crate::ends::is_ended;
use crate::firsts::{Firsts, first_place};
use bl_syntax::limits::MOST_STATEMENTS;
use bl_syntax::{NoMemory, Statement};
use pcfs_ports::Signatures;
use policy_statement::digest::digest;
use policy_statement::{statement_message, withdraw_message};
use std::alloc::Global;

// Whether the statement is one of these.
fn is_among(statements: &[&Statement], statement: &Statement) -> bool
    ensures { IsTrue result ↔ Contains (shown statements.now) statement.now }
{
    for other in statements {
        if other.is_same(statement) {
            return true;
        }
    }
    false
}

// Whether the statement is none of the first ones.
fn is_new(firsts: &Firsts, statements: &[&Statement], earlier: usize, statement: &Statement) -> bool
    requires within { earlier ≤ length statements.now }
    requires found { AreFirsts (map digest_of (shown statements.now)) firsts.now.entries }
    ensures { IsTrue result ↔ (Contains (take earlier (shown statements.now)) statement.now → ⊥) }
{
    let first = match first_place(firsts, digest(statement)) {
        Some(first) => first,
        None => return true,
    };
    if earlier <= first {
        return true;
    }
    if statements[first].is_same(statement) {
        return false;
    }
    !is_among(&statements[..earlier], statement)
}

/// Whether a statement could be registered after so many statements: its signature is accepted from who says it, none of
/// these is an equal one, and they are fewer than 4,096.
pub fn could_be_registered<S: Signatures>(
    alloc: Global,
    dossier: &Dossier,
    ring: &S,
    earlier: usize,
    statement: &Statement,
    signature: &[u8],
) -> Result<bool, NoMemory>
    requires dossier { IsDossier dossier.now }
    requires within { earlier ≤ length dossier.now.papers.statements.items }
    ensures { IfOk result (λ could.
        IsTrue could ↔ (IsTrue (S.Signatures.accepted ring.now statement.now.who
        (statement_message statement.now) signature.now)
        × CanRegister (take earlier (shown dossier.now.papers.statements.items)) statement.now)) }
{
    let message = statement_message(alloc, statement)?;
    if !ring.accepts(statement.who().bytes(), message.as_slice(), signature) {
        return Ok(false);
    }
    if MOST_STATEMENTS <= earlier {
        return Ok(false);
    }
    let statements = dossier.papers.statements.as_slice();
    Ok(is_new(&dossier.statement_firsts, statements, earlier, statement))
}

/// Whether the statement of a number, which is one of so many, could be withdrawn before the event at that place: it was not
/// withdrawn before, and the signature of its withdrawal is accepted from who said it.
pub fn could_be_withdrawn<S: Signatures>(
    alloc: Global,
    dossier: &Dossier,
    ring: &S,
    earlier: usize,
    place: usize,
    number: u32,
    signature: &[u8],
) -> Result<bool, NoMemory>
    requires { earlier ≤ length dossier.now.papers.statements.items }
    ensures { IfOk result (λ could. IsTrue could ↔ CouldBeWithdrawn (S.Signatures.accepted ring.now) (take earlier (shown dossier.now.papers.statements.items))
        dossier.now.papers.ends.items place number signature.now) }
{
    if number == 0 {
        return Ok(false);
    }
    if earlier < number as usize {
        return Ok(false);
    }
    if is_ended(dossier.papers.ends.as_slice(), number, place) {
        return Ok(false);
    }
    let statements = dossier.papers.statements.as_slice();
    let statement = statements[number as usize - 1];
    let message = withdraw_message(alloc, statement)?;
    Ok(ring.accepts(statement.who().bytes(), message.as_slice(), signature))
}
