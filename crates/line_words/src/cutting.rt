//! The first word of a line.

ghost use Rattle.std.specs.Prelude.{◌≡◌, ◌≤◌, ◌==◌, length, position};
ghost use Rattle.line_words.specs.Cutting.{first_cut};
ghost use Rattle.line_words.specs.Lengths.{place_of_byte, closing_place, first_len};

use memchr::memchr;

fn first_stop(line: &[u8], stop: u8) -> Option<usize>
    ensures { result ≡ position (λ byte. byte == stop) line.now }
{
    memchr(stop, line)
}

// The place of the first such byte, or the length.
fn place_of_byte(line: &[u8], stop: u8) -> usize
    ensures same { result ≡ place_of_byte stop line.now }
    ensures within { result ≤ length line.now }
{
    first_stop(line, stop).unwrap_or(line.len())
}

// The place of the quote that ends the quoted part of the first word, or the length; 0 for a word that begins with no
// quote.
fn closing_place(line: &[u8]) -> usize
    ensures same { result ≡ closing_place line.now }
    ensures within { result ≤ length line.now }
{
    match line {
        [] => 0,
        [first, others @ ..] => {
            if *first == b'"' {
                1 + place_of_byte(others, b'"')
            } else {
                0
            }
        }
    }
}

// The length of the first word.
fn first_len(line: &[u8]) -> usize
    ensures same { result ≡ first_len line.now }
    ensures within { result ≤ length line.now }
{
    let closing = closing_place(line);
    closing + place_of_byte(&line[closing..], b' ')
}

/// The first word of a line, and what stands after it: a space and the rest of the line, or nothing.
pub fn first_word(line: &[u8]) -> (&[u8], &[u8])
    ensures word { result.0.now ≡ (first_cut line.now).word }
    ensures behind { result.1.now ≡ (first_cut line.now).behind }
    ensures shorter { length result.1.now ≤ length line.now }
{
    line.split_at(first_len(line))
}
