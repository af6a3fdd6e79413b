//! The message at the front of bytes.

ghost use Rattle.bl_syntax.specs.Reading.{GivesReading};
ghost use Rattle.event_messages.specs.Messages.{fields_at, message_at, payload_at};

use bl_syntax::CodecFault;
use bl_syntax::fields::{u32_at, u64_at};
use bl_syntax::limits::LONGEST_MESSAGE;

// The payload of the message of that number, after its length.
#[tactic(auto, unfolding(crate::specs::Messages::payload_at))]
fn payload_at(number: u64, bytes: &[u8]) -> Result<(u64, &[u8], &[u8]), CodecFault>
    ensures { GivesReading (λ x. (record { number = x.0; payload = x.1.now }, x.2.now)) result (payload_at number bytes.now) }
{
    let (len, rest) = u32_at(bytes)?;
    let len = len as usize;
    if LONGEST_MESSAGE < len {
        return Err(CodecFault::TooLarge(0));
    }
    if rest.len() < len {
        return Err(CodecFault::Short);
    }
    let (payload, rest) = rest.split_at(len);
    Ok((number, payload, rest))
}

// What follows the first byte of a message.
#[tactic(auto, unfolding(crate::specs::Messages::fields_at))]
fn fields_at(bytes: &[u8]) -> Result<(u64, &[u8], &[u8]), CodecFault>
    ensures { GivesReading (λ x. (record { number = x.0; payload = x.1.now }, x.2.now)) result (fields_at bytes.now) }
{
    let (number, rest) = u64_at(bytes)?;
    payload_at(number, rest)
}

/// The number and the payload of the message at the front of bytes, and the bytes after it; or the first fault.
#[tactic(auto, unfolding(crate::specs::Messages::message_at))]
pub fn message_at(bytes: &[u8]) -> Result<(u64, &[u8], &[u8]), CodecFault>
    ensures { GivesReading (λ x. (record { number = x.0; payload = x.1.now }, x.2.now)) result (message_at bytes.now) }
{
    match bytes {
        [] => Err(CodecFault::Short),
        [0x52, rest @ ..] => fields_at(rest),
        [_, ..] => Err(CodecFault::BadTag(0)),
    }
}
