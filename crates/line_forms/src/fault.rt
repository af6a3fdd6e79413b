//! Why a line asks for nothing.

ghost use Rattle.std.specs.Prelude.{◌≡◌};
ghost use Rattle.line_forms.specs.Faults.{word_fault, text_fault};

use bl_text::TextFault;
use line_words::WordFault;
use thiserror::Error;

/// Why a line asks for nothing. A place is the number of bytes before it in the line, from 0.
#[derive(Clone, Copy, Debug, PartialEq, Eq, Error)]
pub enum LineFault {
    /// The word at this place is unknown, or not in the grammar of its place.
    #[error("the word at byte {0} is unknown, or not in the grammar of its place")]
    BadWord(usize),
    /// There are too few or too many words.
    #[error("there are too few or too many words")]
    BadCount,
    /// The text at the end has this fault, at its place in the text.
    #[error("in the text at the end, {0}")]
    BadText(TextFault),
    /// A growth was refused.
    #[error("out of memory")]
    NoMemory,
}

/// The fault of a line that has this fault in its words.
pub fn word_fault(fault: WordFault) -> LineFault
    ensures { result ≡ word_fault fault }
{
    match fault {
        WordFault::Bad(place) => LineFault::BadWord(place),
        WordFault::NoMemory => LineFault::NoMemory,
    }
}

/// The fault of a line whose text has this fault.
pub fn text_fault(fault: TextFault) -> LineFault
    ensures { result ≡ text_fault fault }
{
    match fault {
        TextFault::NoMemory => LineFault::NoMemory,
        _ => LineFault::BadText(fault),
    }
}
