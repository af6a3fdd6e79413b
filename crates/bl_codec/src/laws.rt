//! Laws of the definitions. A law is the contract of an empty function, which nothing calls.

ghost use Rattle.std.specs.Prelude.{◌≡◌, ℕ, List};
ghost use Rattle.bl_syntax.specs.Codec.{IsCodec};
ghost use Rattle.bl_syntax.specs.FormulaSpelling.{IsSpellableFormula, IsSpellableStatement, formula_spelling, statement_spelling};
ghost use Rattle.bl_syntax.specs.FormulaReading.{whole_formula_at, statement_at};

/// The spelling of formulas and the reading of them belong together.
pub fn formulas_are_a_codec()
    ensures { IsCodec IsSpellableFormula formula_spelling whole_formula_at }
{}

/// The spelling of statements and the reading of them belong together.
pub fn statements_are_a_codec()
    ensures { IsCodec IsSpellableStatement statement_spelling statement_at }
{}
