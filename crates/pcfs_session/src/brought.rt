//! The procaps that the words of a line bring.

ghost use Rattle.std.specs.Prelude.{IfOk};
ghost use Rattle.access_history.specs.Replay.{replay};
ghost use Rattle.pcfs_session.specs.Brought.{IsBroughtBy, AreProcapsAdded};

use bl_syntax::NoMemory;
use journal_records::Procaps;
use line_words::ProcapWord;
use op_gate::Gate;
use procap::Procap;
use std::alloc::Global;

/// What a word brings.
#[derive(Debug, Drop)]
pub enum BroughtProcap {
    /// This procap.
    Procap(Procap),
    /// The number of an issue that is not there.
    Unissued(u64),
}

// The procap of the word, or the one of the issue that it names.
fn bring(alloc: Global, gate: &Gate, word: &ProcapWord) -> Result<BroughtProcap, NoMemory>
    ensures { IfOk result (IsBroughtBy gate.now.key (replay gate.now.base gate.now.events).issues word.now) }
{
    match word {
        ProcapWord::Procap(procap) => Ok(BroughtProcap::Procap(procap.copy(alloc)?)),
        ProcapWord::Issue(number) => match gate.procap(alloc, *number)? {
            Some(procap) => Ok(BroughtProcap::Procap(procap)),
            None => Ok(BroughtProcap::Unissued(*number)),
        },
    }
}

/// Adds the procaps that the words bring, in order; or returns the number of the first issue that is not there.
pub fn add_procaps(
    alloc: Global,
    gate: &Gate,
    words: &[ProcapWord],
    procaps: &mut Procaps,
) -> Result<Option<u64>, NoMemory>
    ensures { IfOk result (AreProcapsAdded gate.now.key (replay gate.now.base gate.now.events).issues words.now procaps.old procaps.new) }
{
    match words {
        [] => Ok(None),
        [first, others @ ..] => match bring(alloc, gate, first)? {
            BroughtProcap::Procap(procap) => {
                procaps.push(procap)?;
                add_procaps(alloc, gate, others, procaps)
            }
            BroughtProcap::Unissued(number) => Ok(Some(number)),
        },
    }
}
