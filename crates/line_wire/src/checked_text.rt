//! The text of what a proof grants.
#![tactic(auto, using(bl_syntax::proofs::BeginsWithLemmas::writing))]

ghost use Rattle.std.specs.Prelude.{◌≡◌, ◌++◌, map, OnOk, OnErr};
ghost use Rattle.bl_syntax.specs.BeginsWith.{BeginsWith};
ghost use Rattle.bl_text.specs.Printed.{constraint_text, state_text};
ghost use Rattle.line_wire.specs.CheckedText.{listed_text, checked_text};

use bl_syntax::decimal::{put_counted, put_text};
use bl_syntax::{Bytes, Constraint, Grant, NoMemory, StatePred};
use bl_text::{print_constraint, print_state};

/// Writes how many conditions a grant has, and the conditions.
pub fn write_checked(out: &mut Bytes, grant: &Grant) -> Result<(), NoMemory>
    ensures ok { OnOk result (out.new ≡ out.old ++ checked_text grant.now) }
    ensures err { OnErr result (BeginsWith out.new out.old) }
{
    let times = grant.times();
    let states = grant.states();
    put_counted(out, "ok checked time ", times.len() as u64)?;
    put_counted(out, " state ", states.len() as u64)?;
    write_times(out, " ", times, states)
}

// Writes the conditions, each after its lead.
fn write_times(
    out: &mut Bytes,
    lead: &str,
    times: &[Constraint],
    states: &[StatePred],
) -> Result<(), NoMemory>
    ensures ok { OnOk result (out.new ≡ out.old ++ listed_text lead.now (map (constraint_text 0) times.now ++ map (state_text 0) states.now)) }
    ensures err { OnErr result (BeginsWith out.new out.old) }
{
    match times {
        [] => write_states(out, lead, states),
        [first, others @ ..] => {
            put_text(out, lead)?;
            print_constraint(first, out)?;
            write_times(out, "; ", others, states)
        }
    }
}

fn write_states(out: &mut Bytes, lead: &str, states: &[StatePred]) -> Result<(), NoMemory>
    ensures ok { OnOk result (out.new ≡ out.old ++ listed_text lead.now (map (state_text 0) states.now)) }
    ensures err { OnErr result (BeginsWith out.new out.old) }
{
    match states {
        [] => Ok(()),
        [first, others @ ..] => {
            put_text(out, lead)?;
            print_state(first, out)?;
            write_states(out, "; ", others)
        }
    }
}
