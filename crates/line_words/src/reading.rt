//! Words of given kinds, one after another.

ghost use Rattle.std.specs.Prelude.{◌≡◌, ◌≤◌, length, Some, None, MatchOption, MatchResult};
ghost use Rattle.line_words.specs.Kinds.{kinds_in};
ghost use Rattle.line_words.specs.Reading.{after_words, AreWords, AreUnread};

use crate::arguments::Arguments;
use crate::cutting::first_word;
use crate::fault::WordFault;
use crate::kinds::{WordKind, kind_in};
use std::alloc::Global;

/// What stands after as many words as there are kinds; none if there are fewer.
pub fn after_words<'a>(kinds: &[WordKind], behind: &'a [u8]) -> Option<&'a [u8]>
    ensures { MatchOption result (after_words kinds.now behind.now ≡ None) (λ rest. after_words kinds.now behind.now ≡ Some rest.now) }
{
    match kinds {
        [] => Some(behind),
        [_, others @ ..] => match behind {
            [] => None,
            [_, line @ ..] => {
                let (_, rest) = first_word(line);
                after_words(others, rest)
            }
        },
    }
}

/// Reads the next words of a line, one of each kind, into their fields, and returns what stands after them. `behind`
/// is what stands after the words that were read before, and `whole` is the length of the line. In some lines
/// signatures and procaps have to be written out.
pub fn read_words<'a>(
    alloc: Global,
    is_written_out: bool,
    kinds: &[WordKind],
    whole: usize,
    behind: &'a [u8],
    arguments: &mut Arguments,
) -> Result<&'a [u8], WordFault>
    requires { length behind.now ≤ whole }
    ensures { MatchResult result (λ rest. AreWords (kinds_in is_written_out kinds.now) behind.now
        arguments.old arguments.new rest.now) (AreUnread whole (kinds_in is_written_out kinds.now)
        behind.now) }
{
    match kinds {
        [] => Ok(behind),
        [kind, others @ ..] => match behind {
            [] => Err(WordFault::Bad(whole)),
            [_, line @ ..] => {
                let (word, rest) = first_word(line);
                if !arguments.read(alloc, kind_in(is_written_out, *kind), word)? {
                    return Err(WordFault::Bad(whole - line.len()));
                }
                read_words(alloc, is_written_out, others, whole, rest, arguments)
            }
        },
    }
}
