//! The lines that are written of a table of modes.
#![tactic(auto, using(bl_syntax::proofs::BeginsWithLemmas::writing))]

ghost use Rattle.std.specs.Prelude.{◌≡◌, ◌≢◌, ◌++◌, OnOk};
ghost use Rattle.pcfs_modes.specs.ModesText.{fault_line, register_line, register_lines};

use bl_syntax::decimal::{put_counted, put_text};
use bl_syntax::{Bytes, NoMemory, Statement};
use bl_text::print_statement;
use mode_policy::ModeFault;

// Writes the line that registers the statement.
fn put_statement(out: &mut Bytes, statement: &Statement) -> Result<(), NoMemory>
    ensures { OnOk result (out.new ≡ out.old ++ register_line statement.now) }
{
    put_text(out, "register - ")?;
    print_statement(statement, out)?;
    put_text(out, "\n")
}

/// Writes a line for each of the statements.
pub fn put_statements(out: &mut Bytes, statements: &[Statement]) -> Result<(), NoMemory>
    ensures { OnOk result (out.new ≡ out.old ++ register_lines statements.now) }
{
    for statement in statements {
        put_statement(out, statement)?;
    }
    Ok(())
}

/// Writes why a text is no table, or why a table has no statements; an error also if memory had run out, which is no fault of
/// either.
pub fn put_fault(out: &mut Bytes, fault: ModeFault) -> Result<(), NoMemory>
    ensures line { OnOk result (out.new ≡ out.old ++ fault_line fault) }
    ensures not_memory { OnOk result (fault ≢ ModeFault.NoMemory) }
{
    match fault {
        ModeFault::BadLine(number) => {
            put_counted(out, "line ", number as u64)?;
            put_text(out, " mode 1\n")
        }
        ModeFault::Twice(number) => {
            put_counted(out, "line ", number as u64)?;
            put_text(out, " mode 2\n")
        }
        ModeFault::TooMany => put_text(out, "mode 3\n"),
        ModeFault::NoMemory => Err(NoMemory),
    }
}
