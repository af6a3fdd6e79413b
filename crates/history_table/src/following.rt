//! A history that keeps one more event of another one.

ghost use Rattle.std.specs.Prelude.{◌≡◌, IfOk, OnOk};
ghost use Rattle.journal_records.specs.EventSpelling.{HasFittingFields};
ghost use Rattle.access_history.specs.History.{IsReadyFor, addition_of};
ghost use Rattle.history_table.specs.Following.{Keeps, MayKeep};

use access_history::{Addition, History, IssueRecord};
use bl_syntax::NoMemory;
use journal_records::{Event, EventRecord};
use std::alloc::Global;

// What the state keeps of an event, in memory of its own.
fn addition_for(alloc: Global, event: &Event) -> Result<Addition, NoMemory>
    requires { HasFittingFields event.now }
    ensures { IfOk result (λ addition. addition ≡ addition_of event.now) }
{
    match event {
        Event::Registered {
            pass: _,
            statement,
            signature,
        } => Ok(Addition::Statement(statement.copy(alloc)?, signature.copy(alloc)?)),
        Event::Withdrawn { number, .. } => Ok(Addition::Withdrawal(*number)),
        Event::Issued {
            pass: _,
            cited,
            proof,
            grant,
        } => Ok(Addition::Issue(IssueRecord::of(alloc, cited.as_slice(), proof, grant)?)),
        Event::Acted { .. } => Ok(Addition::Operation),
    }
}

// Makes the history ready for an event, which is given back.
fn make_ready(alloc: Global, history: &mut History, event: Event) -> Result<Event, NoMemory>
    ensures key { history.new.key ≡ history.old.key }
    ensures ring { history.new.ring ≡ history.old.ring }
    ensures base { history.new.base ≡ history.old.base }
    ensures events { history.new.events ≡ history.old.events }
    ensures room { history.new.room ≡ history.old.room }
    ensures event { IfOk result (λ given. given ≡ event) }
    ensures ready { IfOk result (IsReadyFor history.new) }
{
    match event {
        Event::Acted {
            pass,
            caller,
            op,
            procaps,
            moment,
        } => {
            let (op, answer) = history.prepare(alloc, &caller, op);
            match answer {
                Ok(_) => Ok(Event::Acted {
                    pass,
                    caller,
                    op,
                    procaps,
                    moment,
                }),
                Err(_) => Err(NoMemory),
            }
        }
        other => Ok(other),
    }
}

/// Keeps an equal event, which may come next.
pub fn follow(alloc: Global, history: &mut History, kept: &EventRecord) -> Result<(), NoMemory>
    requires { MayKeep history.old kept.now }
    ensures { OnOk result (Keeps history.old kept.now history.new) }
{
    history.reserve()?;
    let event = kept.event(alloc)?;
    let copied = EventRecord::of(alloc, &event)?;
    let addition = addition_for(alloc, &event)?;
    let event = make_ready(alloc, history, event)?;
    history.keep(event, copied, addition);
    Ok(())
}
