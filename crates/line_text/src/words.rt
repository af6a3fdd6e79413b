//! The words of a line, and the literals between them.

ghost use Rattle.std.specs.Prelude.{◌≡◌, ◌≢◌, ◌++◌, ◌==◌, ℕ, List, IsTrue, IfSome, IsSomeAnd, MatchOption, position};
ghost use Rattle.std.specs.List.{position_or_len};
ghost use Rattle.line_text.specs.Words.{has_first, is_word_end, HasNo};

fn first_stop(line: &[u8], stop: u8) -> Option<usize>
    ensures { result ≡ position (λ byte. byte == stop) line.now }
{
    line.iter().position(|byte| *byte == stop)
}

fn word_len(line: &[u8], stop: u8) -> usize
    ensures { result ≡ position_or_len (λ byte. byte == stop) line.now }
{
    first_stop(line, stop).unwrap_or(line.len())
}

/// What stands after the literal, where the line begins with it.
pub fn rest_after<'a>(line: &'a [u8], literal: &[u8]) -> Option<&'a [u8]>
    ensures { MatchOption result ((rest : List ℕ) → line.now ≢ literal.now ++ rest) (λ rest. line.now ≡ literal.now ++ rest.now) }
{
    line.strip_prefix(literal)
}

/// The word at the front, which ends before the first stop byte, and what stands after it.
pub fn split_word(line: &[u8], stop: u8) -> (&[u8], &[u8])
    ensures parts { line.now ≡ result.0.now ++ result.1.now }
    ensures one_word { HasNo stop result.0.now }
    ensures only { (word behind : List ℕ) → HasNo stop word → IsTrue (is_word_end stop behind)
        → line.now ≡ word ++ behind
        → (result.0.now ≡ word) × (result.1.now ≡ behind) }
{
    line.split_at(word_len(line, stop))
}

/// The word at the front, without a space in it, and what stands after the literal that follows it.
pub fn word_before<'a>(line: &'a [u8], literal: &[u8]) -> Option<(&'a [u8], &'a [u8])>
    requires { IsTrue (has_first 32 literal.now) }
    ensures found { IfSome result (λ p. line.now ≡ p.0.now ++ (literal.now ++ p.1.now)) }
    ensures one_word { IfSome result (λ p. HasNo 32 p.0.now) }
    ensures only { (word rest : List ℕ) → HasNo 32 word → line.now ≡ word ++ (literal.now ++ rest)
        → IsSomeAnd result (λ p. (p.0.now ≡ word) × (p.1.now ≡ rest)) }
{
    let (word, behind) = split_word(line, b' ');
    let rest = rest_after(behind, literal)?;
    Some((word, rest))
}
