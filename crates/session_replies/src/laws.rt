//! Laws of replies. A law is the contract of an empty function, which nothing calls. It holds of each clock.

ghost use Rattle.session_replies.specs.Laws.{SessionsReplyUnbroken, SessionsWriteTheirReplies};

use session_history::TurnClock;

/// No reply that a session is given over a lawful history holds the byte that ends a line; so the lines of what it writes
/// are the greeting and its replies.
pub fn sessions_reply_unbroken<C: TurnClock>(clock: &C)
    ensures unbroken { SessionsReplyUnbroken (C.gives clock.now) }
    ensures written { SessionsWriteTheirReplies (C.gives clock.now) }
{
    let _ = clock;
}
