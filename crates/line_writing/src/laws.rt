//! Laws of lines that are written. A law is the contract of an empty function, which nothing calls.

ghost use Rattle.std.specs.Prelude.{ℕ, List};
ghost use Rattle.line_forms.specs.declared.asked.Line.{Line};
ghost use Rattle.line_forms.specs.declared.mode.Mode.{Mode};
ghost use Rattle.line_forms.specs.Lines.{IsLineIn};
ghost use Rattle.line_writing.specs.LineTexts.{asked_text};

/// What is written of what a line asks for is a line that asks for the same in the same mode.
pub fn line_round_trip()
    ensures { (mode : Mode) (line : List ℕ) (asked : Line) → IsLineIn mode line asked →
        IsLineIn mode (asked_text asked) asked }
{}
