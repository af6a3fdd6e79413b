//! The line that asks for something, and signatures.

ghost use Rattle.std.specs.Prelude.{◌≡◌, IfOk, Some};
ghost use Rattle.line_forms.specs.declared.asked.Line.TheVariants as lines;
ghost use Rattle.line_forms.specs.declared.command.Command.TheVariants as commands;
ghost use Rattle.line_writing.specs.LineTexts.{asked_text};
ghost use Rattle.pcfs_hmac.specs.Hmac.{hmac};
ghost use Rattle.policy_statement.specs.Messages.{login_message, statement_message, withdraw_message};

use bl_syntax::{Bytes, NoMemory, Principal, Statement, copy_bytes};
use line_forms::{Command, Line};
use line_writing::write_line;
use pcfs_hmac::mac;
use policy_statement::{login_message, statement_message, withdraw_message};
use std::alloc::Global;

/// The line that asks for this, without its end.
pub fn line_of(alloc: Global, line: &Line) -> Result<Bytes, NoMemory>
    ensures { IfOk result (λ text. text ≡ asked_text line.now) }
{
    let mut text = Bytes::new(alloc);
    write_line(alloc, line, &mut text)?;
    Ok(text)
}

/// The line that logs in by this name, whose key this is, under the nonce of a greeting.
pub fn login_line(
    alloc: Global,
    who: &Principal,
    key: &[u8],
    nonce: &[u8; 16],
) -> Result<Bytes, NoMemory>
    ensures { IfOk result (λ text. text ≡ asked_text (lines.Login who.now (hmac key.now (login_message who.now nonce.now)))) }
{
    let message = login_message(alloc, who, nonce)?;
    let tag = mac(key, message.as_slice());
    let signature = copy_bytes(alloc, &tag)?;
    line_of(alloc, &Line::Login(*who, signature))
}

/// The line that registers a statement, signed by this key.
pub fn signed_statement(alloc: Global, statement: Statement, key: &[u8]) -> Result<Bytes, NoMemory>
    ensures { IfOk result (λ text. text ≡ asked_text (lines.Command (commands.Register (Some (hmac key.now (statement_message statement))) statement))) }
{
    let message = statement_message(alloc, &statement)?;
    let tag = mac(key, message.as_slice());
    let signature = copy_bytes(alloc, &tag)?;
    line_of(
        alloc,
        &Line::Command(Command::Register(Some(signature), statement)),
    )
}

/// The line that withdraws the statement of this number and text, signed by this key.
pub fn signed_withdrawal(
    alloc: Global,
    number: u32,
    statement: &Statement,
    key: &[u8],
) -> Result<Bytes, NoMemory>
    ensures { IfOk result (λ text. text ≡ asked_text (lines.Command (commands.Withdraw number (Some (hmac key.now (withdraw_message statement.now)))))) }
{
    let message = withdraw_message(alloc, statement)?;
    let tag = mac(key, message.as_slice());
    let signature = copy_bytes(alloc, &tag)?;
    line_of(
        alloc,
        &Line::Command(Command::Withdraw(number, Some(signature))),
    )
}
