//! Laws of the definitions. A law is the contract of an empty function, which nothing calls.

ghost use Rattle.std.specs.Prelude.{◌≡◌, ◌<◌, ◌++◌, ℕ, List, length};
ghost use Rattle.nine_messages.specs.Codec.{AreBytes, IsCodec};
ghost use Rattle.nine_messages.specs.Requests.{MessageView, IsMessage, spelling, message_of};
ghost use Rattle.nine_messages.specs.Replies.{ReplyView, IsTaggedReply, reply_spelling};
ghost use Rattle.nine_messages.specs.Cutting.{IsNext, IsBad, IsOpen, Begins, Cuts, IsLeft, CutsAll, AreOneCut};

/// The spelling of messages with requests and the reading of them belong together.
pub fn messages_are_a_codec()
    ensures { IsCodec IsMessage spelling message_of }
{}

/// Bytes begin with a message, with less than one, or with none whatever comes.
pub fn bytes_begin_one_way()
    ensures one { (agreed : ℕ) (left : List ℕ) → AreBytes left → Begins agreed left }
    ensures one_message { (agreed : ℕ) (left : List ℕ) (m n : MessageView) (rest others : List ℕ)
        → IsNext agreed left m rest → IsNext agreed left n others → (m ≡ n) × (rest ≡ others) }
    ensures not_bad { (agreed : ℕ) (left rest : List ℕ) (m : MessageView)
        → IsNext agreed left m rest → IsBad agreed left → ⊥ }
    ensures not_less { (agreed : ℕ) (left rest : List ℕ) (m : MessageView)
        → IsNext agreed left m rest → IsOpen agreed left → ⊥ }
    ensures not_both { (agreed : ℕ) (left : List ℕ) → IsBad agreed left → IsOpen agreed left → ⊥ }
{}

/// What bytes begin with stays when more come, and what is left after a message is less.
pub fn a_message_stays()
    ensures message { (agreed : ℕ) (left more rest : List ℕ) (m : MessageView)
        → IsNext agreed left m rest → IsNext agreed (left ++ more) m (rest ++ more) }
    ensures bad { (agreed : ℕ) (left more : List ℕ) → IsBad agreed left
        → IsBad agreed (left ++ more) }
    ensures fewer { (agreed : ℕ) (left rest : List ℕ) (m : MessageView) → IsNext agreed left m rest
        → length rest < length left }
{}

/// The messages of a stream are the same in whatever pieces it comes, and so are the bytes at which there is no message.
pub fn a_stream_has_its_messages()
    ensures each { (agreed : ℕ) (stream : List ℕ) → AreBytes stream → CutsAll agreed stream }
    ensures one { (agreed to last : ℕ) (stream end stop : List ℕ) (messages others : List MessageView)
        → Cuts agreed stream messages to end → IsLeft to end → Cuts agreed stream others last stop
        → IsLeft last stop → AreOneCut messages others to last end stop }
    ensures pieces { (agreed to last : ℕ) (stream piece end stop : List ℕ) (messages others : List MessageView)
        → Cuts agreed stream messages to end → Cuts to (end ++ piece) others last stop
        → Cuts agreed (stream ++ piece) (messages ++ others) last stop }
{}

/// Two replies have two spellings, and no spelling of one begins another: what is written can be read.
pub fn replies_are_apart()
    ensures { (tag other_tag : ℕ) (r s : ReplyView) (rest others : List ℕ)
        → IsTaggedReply tag r → IsTaggedReply other_tag s
        → reply_spelling tag r ++ rest ≡ reply_spelling other_tag s ++ others
        → (tag ≡ other_tag) × (r ≡ s) × (rest ≡ others) }
{}
