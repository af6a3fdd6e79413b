//! The texts of what the gate denies, refuses and rejects.
#![tactic(auto, using(bl_syntax::proofs::BeginsWithLemmas::writing))]

ghost use Rattle.std.specs.Prelude.{◌≡◌, ◌++◌, OnOk, OnErr};
ghost use Rattle.bl_syntax.specs.BeginsWith.{BeginsWith};
ghost use Rattle.line_wire.specs.GateText.{cause_text, denial_text, refusal_number, refused_text, rejection_text};

use access_history::{Denial, DenialCause, Rejection};
use bl_syntax::decimal::{put_counted, put_text};
use bl_syntax::{Bytes, NoMemory};
use bl_text::{print_constraint, print_state};
use file_world::Refusal;

/// Writes why an operation was not admitted.
pub fn write_denial(out: &mut Bytes, denial: &Denial) -> Result<(), NoMemory>
    ensures ok { OnOk result (out.new ≡ out.old ++ denial_text denial.now) }
    ensures err { OnErr result (BeginsWith out.new out.old) }
{
    put_counted(out, "denied ", u64::from(denial.need))?;
    put_text(out, " ")?;
    write_cause(out, &denial.cause)?;
    put_counted(out, " at ", denial.at)
}

fn write_cause(out: &mut Bytes, cause: &DenialCause) -> Result<(), NoMemory>
    ensures ok { OnOk result (out.new ≡ out.old ++ cause_text cause.now) }
    ensures err { OnErr result (BeginsWith out.new out.old) }
{
    match cause {
        DenialCause::Seal => put_text(out, "seal"),
        DenialCause::Principal => put_text(out, "principal"),
        DenialCause::File => put_text(out, "file"),
        DenialCause::Permission => put_text(out, "permission"),
        DenialCause::Time(place, constraint) => {
            put_counted(out, "time ", u64::from(*place))?;
            put_text(out, " ")?;
            print_constraint(constraint, out)
        }
        DenialCause::State(place, state) => {
            put_counted(out, "state ", u64::from(*place))?;
            put_text(out, " ")?;
            print_state(state, out)
        }
        DenialCause::Withdrawn(number) => put_counted(out, "withdrawn ", u64::from(*number)),
    }
}

fn refusal_number(refusal: Refusal) -> u64
    ensures { result ≡ refusal_number refusal }
{
    match refusal {
        Refusal::NoNode => 1,
        Refusal::NotDirectory => 2,
        Refusal::IsDirectory => 3,
        Refusal::NoEntry => 4,
        Refusal::Exists => 5,
        Refusal::NotEmpty => 6,
        Refusal::BadName => 7,
        Refusal::TooBig => 8,
        Refusal::TreeFull => 9,
        Refusal::IntoItself => 10,
        Refusal::NoAttribute => 11,
        Refusal::AttrFull => 12,
        Refusal::BadAttrName => 13,
    }
}

/// Writes why an operation was refused, and the number of the last event.
pub fn write_refused(out: &mut Bytes, refusal: Refusal, at: u64) -> Result<(), NoMemory>
    ensures ok { OnOk result (out.new ≡ out.old ++ refused_text refusal at) }
    ensures err { OnErr result (BeginsWith out.new out.old) }
{
    put_counted(out, "refused ", refusal_number(refusal))?;
    put_counted(out, " at ", at)
}

/// Writes why a statement was not registered.
pub fn write_rejection(out: &mut Bytes, rejection: Rejection) -> Result<(), NoMemory>
    ensures ok { OnOk result (out.new ≡ out.old ++ rejection_text rejection) }
    ensures err { OnErr result (BeginsWith out.new out.old) }
{
    match rejection {
        Rejection::BadSignature => put_text(out, "rejected 1"),
        Rejection::RegistryFull => put_text(out, "rejected 2"),
        Rejection::Duplicate(number) => put_counted(out, "rejected 3 ", u64::from(number)),
    }
}
