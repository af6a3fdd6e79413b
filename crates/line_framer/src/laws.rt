//! Laws of pieces and lines. A law is the contract of an empty function, which nothing calls.

ghost use Rattle.std.specs.Prelude.{◌≡◌, ◌≤◌, [], ◌∷◌, ◌++◌, ℕ, List, length};
ghost use Rattle.std.specs.List.{AllByRecursion};
ghost use Rattle.line_text.specs.Lines.{lines_of};
ghost use Rattle.line_text.specs.Words.{HasNo};
ghost use Rattle.line_framer.specs.Framing.{ended, IsFirst};

/// The line that a text begins with is the first of its lines, and the others are those of the rest.
pub fn first_line_is_first()
    ensures { (bytes line rest : List ℕ) → IsFirst bytes line rest →
        lines_of bytes ≡ line ∷ lines_of rest }
{}

/// A text without an end of a line is one line, if it is not empty.
pub fn last_line_is_last()
    ensures { (bytes : List ℕ) → HasNo 10 bytes → 1 ≤ length bytes → lines_of bytes ≡ bytes ∷ [] }
{}

/// The lines of what was taken, line by line, and of what is left are the lines of both together.
pub fn lines_of_both()
    ensures { (lines : List (List ℕ)) (left : List ℕ) → AllByRecursion (HasNo 10) lines →
        lines_of (ended lines ++ left) ≡ lines ++ lines_of left }
{}

/// What was taken, with one line more, and what is left then are the same bytes.
pub fn one_line_more()
    ensures { (lines : List (List ℕ)) (left line rest : List ℕ) → IsFirst left line rest →
        ended lines ++ left ≡ ended (lines ++ line ∷ []) ++ rest }
{}
