//! The kinds of words.

ghost use Rattle.std.specs.Prelude.{◌≡◌};
ghost use Rattle.line_words.specs.Kinds.{kind_in};

/// What a word of a line stands for.
#[derive(Clone, Copy, Debug, PartialEq, Eq)]
pub enum WordKind {
    /// A node, by its number: `#N`.
    Node,
    /// A second node.
    Target,
    /// A name: 1 to 255 visible bytes, the first of them no quote.
    Name,
    /// A second name.
    NewName,
    /// An offset in bytes, below 2^64.
    Offset,
    /// A length in bytes, below 2^64.
    Len,
    /// The greatest number of bytes to be read at once: at most 65,536.
    Most,
    /// At most 65,536 bytes, in hexadecimal.
    Data,
    /// A text constant between quotes.
    Value,
    /// A principal.
    Who,
    /// A permission.
    Permission,
    /// A finite time: a whole second from 1970-01-01T00:00:00Z, a date, or a date with a time of day.
    Second,
    /// The number of an issue, from 1.
    Issue,
    /// The number of a statement, below 2^32.
    Number,
    /// The numbers of 1 to 64 statements, strictly rising, with commas between them.
    Cited,
    /// A signature of 1 to 32,768 bytes in hexadecimal, or `-` for the ring's key.
    Signature,
    /// A procap in hexadecimal, or `@N` for that of an issue.
    Procap,
    /// A signature of at most 32,768 bytes in hexadecimal.
    SignatureHex,
    /// A procap in hexadecimal.
    ProcapHex,
}

/// The kind of a word in a line in which signatures and procaps have to be written out, or need not: then a signature is
/// not left to the ring, nor a procap named by its issue.
pub fn kind_in(is_written_out: bool, kind: WordKind) -> WordKind
    ensures { result ≡ kind_in is_written_out kind }
{
    match kind {
        WordKind::Signature => {
            if is_written_out {
                WordKind::SignatureHex
            } else {
                kind
            }
        }
        WordKind::Procap => {
            if is_written_out {
                WordKind::ProcapHex
            } else {
                kind
            }
        }
        _ => kind,
    }
}
