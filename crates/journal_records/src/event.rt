//! What happened.

ghost use Rattle.std.specs.Prelude.{◌≡◌, IfOk};
ghost use Rattle.journal_records.specs.Passes.{event_pass, with_pass};

use bl_syntax::{Bytes, Grant, NoMemory, Numbers, Principal, Sequence, Statement};
use file_world::Op;
use procap::Procap;
use proof_term::ProofTree;
use std::alloc::Global;

/// Procaps, one for each slot of an operation.
pub type Procaps = Sequence<Procap>;

/// What happened.
#[derive(Debug, Drop)]
pub enum Event {
    Registered {
        pass: u64,
        statement: Statement,
        signature: Bytes,
    },
    /// The statement of that number was withdrawn, under this signature of who said it.
    Withdrawn {
        pass: u64,
        number: u32,
        signature: Bytes,
    },
    Issued {
        pass: u64,
        cited: Numbers,
        proof: ProofTree,
        grant: Grant,
    },
    Acted {
        pass: u64,
        caller: Principal,
        op: Op,
        procaps: Procaps,
        moment: i64,
    },
}

impl Event {
    /// An equal event in memory of its own.
    pub fn copy(&self, alloc: Global) -> Result<Event, NoMemory>
        ensures { IfOk result (λ copied. copied ≡ self.now) }
    {
        match self {
            Event::Registered {
                pass,
                statement,
                signature,
            } => Ok(Event::Registered {
                pass: *pass,
                statement: statement.copy(alloc)?,
                signature: signature.copy(alloc)?,
            }),
            Event::Withdrawn {
                pass,
                number,
                signature,
            } => Ok(Event::Withdrawn {
                pass: *pass,
                number: *number,
                signature: signature.copy(alloc)?,
            }),
            Event::Issued {
                pass,
                cited,
                proof,
                grant,
            } => Ok(Event::Issued {
                pass: *pass,
                cited: cited.copy(alloc)?,
                proof: proof.copy(alloc)?,
                grant: grant.copy(alloc)?,
            }),
            Event::Acted {
                pass,
                caller,
                op,
                procaps,
                moment,
            } => Ok(Event::Acted {
                pass: *pass,
                caller: *caller,
                op: op.copy(alloc)?,
                procaps: copy_procaps(alloc, procaps.as_slice())?,
                moment: *moment,
            }),
        }
    }

    /// The number of its pass; 0 in what `read_event` gives.
    pub fn pass(&self) -> u64
        ensures { result ≡ event_pass self.now }
    {
        match self {
            Event::Registered { pass, .. } => *pass,
            Event::Withdrawn { pass, .. } => *pass,
            Event::Issued { pass, .. } => *pass,
            Event::Acted { pass, .. } => *pass,
        }
    }

    /// The same event, in a turn of this pass. It takes no memory.
    pub(crate) fn with_pass(self, number: u64) -> Event
        ensures { result ≡ with_pass number self }
    {
        match self {
            Event::Registered {
                pass: _,
                statement,
                signature,
            } => Event::Registered {
                pass: number,
                statement,
                signature,
            },
            Event::Withdrawn {
                pass: _,
                number: withdrawn,
                signature,
            } => Event::Withdrawn {
                pass: number,
                number: withdrawn,
                signature,
            },
            Event::Issued {
                pass: _,
                cited,
                proof,
                grant,
            } => Event::Issued {
                pass: number,
                cited,
                proof,
                grant,
            },
            Event::Acted {
                pass: _,
                caller,
                op,
                procaps,
                moment,
            } => Event::Acted {
                pass: number,
                caller,
                op,
                procaps,
                moment,
            },
        }
    }
}

// Equal procaps, in memory of their own.
fn copy_procaps(alloc: Global, procaps: &[Procap]) -> Result<Procaps, NoMemory>
    ensures { IfOk result (λ copied. copied ≡ procaps.now) }
{
    let mut copied = Sequence::new(alloc);
    copied.reserve(procaps.len())?;
    for procap in procaps {
        copied.push(procap.copy(alloc)?)?;
    }
    Ok(copied)
}
