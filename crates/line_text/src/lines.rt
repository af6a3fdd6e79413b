//! The lines of a text.

ghost use Rattle.std.specs.Prelude.{◌≡◌, ◌<◌, [], ◌∷◌, ◌==◌, length, position, IfSome, MatchOption};
ghost use Rattle.line_text.specs.Lines.{lines_of};

fn end_of_line(rest: &[u8]) -> Option<usize>
    ensures { result ≡ position (λ byte. byte == 10) rest.now }
{
    rest.iter().position(|byte| *byte == b'\n')
}

/// The first line of the rest of a text, without its end, and what stands after that line; none exactly at the end of
/// the text. The last line may lack its end.
pub fn first_line(rest: &[u8]) -> Option<(&[u8], &[u8])>
    ensures lines { MatchOption result (rest.now ≡ []) (λ p. lines_of rest.now ≡ p.0.now ∷ lines_of p.1.now) }
    ensures shorter { IfSome result (λ p. length p.1.now < length rest.now) }
{
    if rest.is_empty() {
        return None;
    }
    match end_of_line(rest) {
        Some(end) => Some((&rest[..end], &rest[end + 1..])),
        None => Some((rest, &[])),
    }
}
