//! Laws of the definitions. A law is the contract of an empty function, which nothing calls.

ghost use Rattle.payload_limits.specs.Limits.{PayloadsAreShort};

/// The payload of an event that may come next has at most 1,048,576 bytes.
pub fn payloads_are_short()
    ensures { PayloadsAreShort }
{}
