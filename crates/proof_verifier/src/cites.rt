//! The statements that a proof cites.

ghost use Rattle.std.specs.Prelude.{◌↔◌, IsTrue};
ghost use Rattle.proof_verifier.specs.Cited.{DoCitesRise};

use bl_syntax::limits::MOST_CITED;
use bl_syntax::{NoMemory, Statement};
use std::alloc::Global;
use std::marker::Model;

/// A statement, and the number under which it is cited.
#[derive(Debug, Drop)]
pub struct Cite {
    pub number: u32,
    pub statement: Statement,
}

/// Statements to be cited, each with its number. A proof is checked from them if they are 1 to 64, by strictly rising numbers.
#[derive(Debug, Drop)]
pub struct Cites {
    cites: Vec<Cite>,
}

impl Model for Cites {
    ghost use Rattle.std.specs.Prelude.{List};
    ghost use Rattle.proof_verifier.specs.declared.cites.Cite.{Cite};
    ghost use Rattle.proof_verifier.specs.CheckedCode.{cites_code};

    ghost Value = { List Cite };

    ghost coded = { cites_code };

    ghost view = { λ c. c.cites.items };
}

impl Cites {
    ghost use Rattle.std.specs.Prelude.{◌≡◌, ◌↔◌, IfOk, IsTrue};
    ghost use Rattle.proof_verifier.specs.Cited.{AreCited};

    /// These statements. It takes no memory.
    pub fn new(cites: Vec<Cite>) -> Cites
        ensures { result ≡ cites.items }
    {
        Cites { cites }
    }

    /// Whether a proof may be checked from them: they are 1 to 64, by strictly rising numbers.
    pub fn are_cited(&self) -> bool
        ensures { IsTrue result ↔ AreCited self.now }
    {
        let cites = self.as_slice();
        !cites.is_empty() && cites.len() <= MOST_CITED && do_rise(cites)
    }

    /// The statements in order.
    pub fn as_slice(&self) -> &[Cite]
        ensures same { result.now ≡ self.now }
    {
        self.cites.as_slice()
    }

    /// An equal list in memory of its own.
    pub fn copy(&self, alloc: Global) -> Result<Cites, NoMemory>
        ensures { IfOk result (λ copied. copied ≡ self.now) }
    {
        let mut cites = Vec::with_capacity(alloc, self.cites.len())?;
        for cite in &self.cites {
            cites.push(Cite {
                number: cite.number,
                statement: cite.statement.copy(alloc)?,
            })?;
        }
        Ok(Cites { cites })
    }
}

/// Whether each number is below the next.
fn do_rise(cites: &[Cite]) -> bool
    ensures { IsTrue result ↔ DoCitesRise cites.now }
{
    match cites {
        [first, second, ..] => first.number < second.number && do_rise(&cites[1..]),
        _ => true,
    }
}
