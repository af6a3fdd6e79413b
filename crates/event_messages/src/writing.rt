//! Writing messages.

ghost use Rattle.std.specs.Prelude.{◌≡◌, ◌≤◌, ◌++◌, OnOk, OnErr, length};
ghost use Rattle.bl_syntax.specs.BeginsWith.{BeginsWith};
ghost use Rattle.bl_syntax.specs.declared.limits.TheConstants.{LONGEST_MESSAGE};
ghost use Rattle.event_messages.specs.Messages.{message_spelling};

use bl_syntax::fields::{u32_bytes, u64_bytes};
use bl_syntax::{Bytes, NoMemory};

// The first byte of a message.
const FIRST_BYTE: u8 = 0x52;

// Adds a message, or a front of it.
#[tactic(auto, using(bl_syntax::proofs::BeginsWithLemmas::writing), unfolding(crate::specs::Messages::message_spelling))]
fn put_message(number: u64, payload: &[u8], out: &mut Bytes) -> Result<(), NoMemory>
    requires { length payload.now ≤ LONGEST_MESSAGE }
    ensures ok { OnOk result (out.new ≡ out.old ++ message_spelling (record { number = number; payload = payload.now })) }
    ensures err { OnErr result (BeginsWith out.new out.old) }
{
    out.push(FIRST_BYTE)?;
    out.extend(&u64_bytes(number))?;
    out.extend(&u32_bytes(payload.len() as u32))?;
    out.extend(payload)
}

/// Adds the message of that number with this payload, of at most 1,048,576 bytes, or nothing.
pub fn write_message(number: u64, payload: &[u8], out: &mut Bytes) -> Result<(), NoMemory>
    requires { length payload.now ≤ LONGEST_MESSAGE }
    ensures ok { OnOk result (out.new ≡ out.old ++ message_spelling (record { number = number; payload = payload.now })) }
    ensures err { OnErr result (out.new ≡ out.old) }
{
    let len = out.len();
    let added = put_message(number, payload, out);
    if added.is_err() {
        out.truncate(len);
    }
    added
}
