//! What is signed.

ghost use Rattle.std.specs.Prelude.{◌≡◌, IfOk};
ghost use Rattle.bl_syntax.specs.FormulaSpelling.{IsSpellableStatement};
ghost use Rattle.policy_statement.specs.Messages.{login_message, statement_message, withdraw_message};

use bl_codec::write_statement;
use bl_syntax::{Bytes, NoMemory, Principal, Statement, write_name};
use std::alloc::Global;

/// The message that is signed to register a statement.
#[tactic(auto, unfolding(crate::specs::Messages::statement_message))]
pub fn statement_message(alloc: Global, s: &Statement) -> Result<Bytes, NoMemory>
    ensures ok { IfOk result (λ message. message ≡ statement_message s.now) }
    ensures spelled { IfOk result (λ _. IsSpellableStatement s.now) }
{
    let mut message = Bytes::new(alloc);
    message.push(b'S')?;
    write_statement(s, &mut message)?;
    Ok(message)
}

/// The message that is signed to withdraw a statement.
#[tactic(auto, unfolding(crate::specs::Messages::withdraw_message))]
pub fn withdraw_message(alloc: Global, s: &Statement) -> Result<Bytes, NoMemory>
    ensures ok { IfOk result (λ message. message ≡ withdraw_message s.now) }
    ensures spelled { IfOk result (λ _. IsSpellableStatement s.now) }
{
    let mut message = Bytes::new(alloc);
    message.push(b'W')?;
    write_statement(s, &mut message)?;
    Ok(message)
}

/// The message that is signed to log in as `who` where the server gave this nonce.
#[tactic(auto, unfolding(crate::specs::Messages::login_message))]
pub fn login_message(alloc: Global, who: &Principal, nonce: &[u8; 16]) -> Result<Bytes, NoMemory>
    ensures { IfOk result (λ message. message ≡ login_message who.now nonce.now) }
{
    let mut message = Bytes::new(alloc);
    message.push(b'L')?;
    write_name(who, &mut message)?;
    message.extend(nonce)?;
    Ok(message)
}
