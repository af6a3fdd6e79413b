//! Laws of the definitions. A law is the contract of an empty function, which nothing calls.

ghost use Rattle.std.specs.Prelude.{◌≡◌, ◌≢◌, ◌++◌, List, ℕ, Ok, Err};
ghost use Rattle.bl_syntax.specs.declared.codec_fault.CodecFault.{CodecFault};
ghost use Rattle.bl_syntax.specs.declared.codec_fault.CodecFault.TheVariants as faults;
ghost use Rattle.bl_syntax.specs.Codec.{IsCodec};
ghost use Rattle.event_messages.specs.Messages.{IsMessage, Message, message_at, message_spelling};

/// The spelling of messages and the reading of them belong together.
pub fn messages_are_a_codec()
    ensures { IsCodec IsMessage message_spelling (λ input. message_at) }
{}

/// What was read stays so if more bytes come, but for `Short`: a message that is there, and that none begins.
pub fn more_bytes_change_nothing()
    ensures found { (bytes more rest : List ℕ) (m : Message) → message_at bytes ≡ Ok (m, rest) →
        message_at (bytes ++ more) ≡ Ok (m, rest ++ more) }
    ensures none { (bytes more : List ℕ) (fault : CodecFault) → fault ≢ faults.Short →
        message_at bytes ≡ Err fault → message_at (bytes ++ more) ≡ Err fault }
{}
