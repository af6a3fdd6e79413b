//! Laws of the definitions. The functions do nothing: each contract is a law.

ghost use Rattle.pcfs_modes.specs.Laws.{HasAnEnd, HasOneEnd};

/// Lines come to one status and one output at most.
pub fn a_text_has_one_end()
    ensures { HasOneEnd }
{}

/// Lines come to a status and an output.
pub fn a_text_has_an_end()
    ensures { HasAnEnd }
{}
