//! The signatures under which lines register and withdraw statements.

ghost use Rattle.std.specs.Prelude.{◌≡◌, [], None, Some, IfOk, unwrap_or};
ghost use Rattle.access_history.specs.History.{state_of};
ghost use Rattle.policy_statement.specs.Ring.{tag_of};
ghost use Rattle.policy_statement.specs.Withdrawal.{live_of_number};
ghost use Rattle.pcfs_session.specs.LineAnswer.{signature_under, withdrawal_by_ring, withdrawal_under};

use access_history::History;
use bl_syntax::{Bytes, NoMemory, Principal, Statement};
use policy_statement::{Keyring, statement_message, withdraw_message};
use std::alloc::Global;

// The tag of a message that the ring makes for this name; no bytes if the name has no key.
fn tag_by(alloc: Global, ring: &Keyring, who: &Principal, message: &[u8]) -> Result<Bytes, NoMemory>
    ensures { IfOk result (λ tag. tag ≡ unwrap_or (tag_of ring.now who.now message.now) []) }
{
    let mut tag = Bytes::new(alloc);
    if let Some(made) = ring.sign(who, message) {
        tag.extend(&made)?;
    }
    Ok(tag)
}

// The signature that the ring makes for who says the statement; no bytes if that name has no key.
fn signature_by(alloc: Global, ring: &Keyring, statement: &Statement) -> Result<Bytes, NoMemory>
    ensures { IfOk result (λ signature. signature ≡ signature_under ring.now statement.now None) }
{
    let message = statement_message(alloc, statement)?;
    tag_by(alloc, ring, statement.who(), message.as_slice())
}

/// The signature that a line gives, or the one that the ring makes for who says the statement; no bytes if that name
/// has no key.
pub fn signature_of(
    alloc: Global,
    ring: &Keyring,
    statement: &Statement,
    given: Option<Bytes>,
) -> Result<Bytes, NoMemory>
    ensures { IfOk result (λ signature. signature ≡ signature_under ring.now statement.now given) }
{
    match given {
        Some(signature) => Ok(signature),
        None => signature_by(alloc, ring, statement),
    }
}

// The signature that the ring makes for who said the statement, to withdraw it; no bytes if that name has no key.
fn withdrawal_by(alloc: Global, ring: &Keyring, statement: &Statement) -> Result<Bytes, NoMemory>
    ensures { IfOk result (λ signature. signature ≡ withdrawal_by_ring ring.now (Some statement.now)) }
{
    let message = withdraw_message(alloc, statement)?;
    tag_by(alloc, ring, statement.who(), message.as_slice())
}

// The signature that the ring makes for who said the statement of this number, to withdraw it; no bytes if no statement
// of this number stands, or that name has no key.
fn withdrawal_by_ring(alloc: Global, history: &History, number: u32) -> Result<Bytes, NoMemory>
    ensures { IfOk result (λ signature. signature ≡ withdrawal_by_ring history.now.ring (live_of_number (state_of history.now).statements number)) }
{
    match history.registry().live(number) {
        Some(statement) => withdrawal_by(alloc, history.ring(), statement),
        None => Ok(Bytes::new(alloc)),
    }
}

/// The signature that a line gives for the withdrawal of the statement of this number, or the one that the ring makes for
/// who said it; no bytes if no statement of this number stands, or that name has no key.
pub fn withdrawal_of(
    alloc: Global,
    history: &History,
    number: u32,
    given: Option<Bytes>,
) -> Result<Bytes, NoMemory>
    ensures { IfOk result (λ signature. signature ≡ withdrawal_under history.now.ring (state_of history.now) number given) }
{
    match given {
        Some(signature) => Ok(signature),
        None => withdrawal_by_ring(alloc, history, number),
    }
}
