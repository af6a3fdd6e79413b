//! Laws of replies. A law is the contract of an empty function, which nothing calls.

ghost use Rattle.std.specs.Prelude.{◌≡◌, List, map};
ghost use Rattle.std.specs.List.{AllByRecursion};
ghost use Rattle.line_text.specs.Lines.{lines_of};
ghost use Rattle.line_words.specs.Cutting.{first_cut};
ghost use Rattle.line_wire.specs.declared.reply.LineReply.{LineReply};
ghost use Rattle.line_wire.specs.FirstWord.{reply_word};
ghost use Rattle.line_wire.specs.ReplyText.{reply_text, output_of};
ghost use Rattle.line_wire.specs.Unbroken.{IsUnbroken, IsUnbrokenReply};

/// The first word of a reply says what became of the line: `ok`, `denied`, `refused`, `rejected`, `absent`,
/// `unproved`, `bad`, `full`, `stopped` or `nomemory`.
pub fn first_word_says_what_became_of_it()
    ensures { (reply : LineReply) → (first_cut (reply_text reply)).word ≡ reply_word reply }
{}

/// A reply is one line, if the names and texts in it are.
pub fn reply_is_one_line()
    ensures { (reply : LineReply) → IsUnbrokenReply reply → IsUnbroken (reply_text reply) }
{}

/// The lines of what is written are the replies, if each is one line.
pub fn lines_are_replies()
    ensures { (replies : List LineReply) → AllByRecursion IsUnbrokenReply replies →
        lines_of (output_of replies) ≡ map reply_text replies }
{}
