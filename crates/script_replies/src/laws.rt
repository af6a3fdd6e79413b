//! Laws of replies. A law is the contract of an empty function, which nothing calls.

ghost use Rattle.script_replies.specs.Laws.{ScriptsReplyUnbroken, ScriptsWriteTheirReplies, FreshScriptsKeepUnbroken, AreasKeepUnbroken};

/// No reply of a script holds the byte that ends a line, from a lawful start whose state keeps only statements and grants on
/// one line, and its end does too; so the lines of what it writes are its replies.
pub fn scripts_reply_unbroken()
    ensures unbroken { ScriptsReplyUnbroken }
    ensures written { ScriptsWriteTheirReplies }
{}

/// A store before its first event keeps no others, nor does one that is opened from an area: the state of its image with
/// the events that are read of its records.
pub fn scripts_begin_unbroken()
    ensures fresh { FreshScriptsKeepUnbroken }
    ensures areas { AreasKeepUnbroken }
{}
