//! The names and texts in what is denied are short, so that an Rerror can hold its text. Nothing here does anything: the
//! contracts say it.

ghost use Rattle.nine_front.specs.Short.{IsShortTerm, IsShortState, IsShortCause, HasShortNames};

use access_history::{DenialCause, StepReply};
use bl_syntax::{StatePred, Term};

// A name has at most 32 bytes, and a text at most 128.
fn is_short_term(t: &Term)
    ensures { IsShortTerm t.now }
{
    match t {
        Term::Prin(name) => {
            let _ = name.bytes();
        }
        Term::Text(text) => {
            let _ = text.bytes();
        }
        Term::File(_) => {}
        Term::Perm(_) => {}
        Term::Time(_) => {}
        Term::Ctime => {}
        Term::Param(_) => {}
        Term::Bound(_) => {}
    }
}

fn is_short_state(s: &StatePred)
    ensures { IsShortState s.now }
{
    match s {
        StatePred::Owner(file, owner) => {
            is_short_term(file);
            is_short_term(owner);
        }
        StatePred::HasXattr(file, name, value) => {
            is_short_term(file);
            is_short_term(name);
            is_short_term(value);
        }
        StatePred::InDir(file, directory) => {
            is_short_term(file);
            is_short_term(directory);
        }
    }
}

fn is_short_cause(cause: &DenialCause)
    ensures { IsShortCause cause.now }
{
    match cause {
        DenialCause::Seal => {}
        DenialCause::Principal => {}
        DenialCause::File => {}
        DenialCause::Permission => {}
        DenialCause::Time(_, c) => {
            is_short_term(&c.low);
            is_short_term(&c.high);
        }
        DenialCause::State(_, s) => is_short_state(s),
        DenialCause::Withdrawn(_) => {}
    }
}

/// The names and texts in a reply are short.
pub(crate) fn has_short_names(reply: &StepReply)
    ensures { HasShortNames reply.now }
{
    match reply {
        StepReply::Denied(denial) => is_short_cause(&denial.cause),
        StepReply::Statement(_) => {}
        StepReply::Withdrawn => {}
        StepReply::Issue(_, _, _) => {}
        StepReply::Procap(_) => {}
        StepReply::Operation(_) => {}
        StepReply::Refused(_, _) => {}
        StepReply::Rejected(_) => {}
        StepReply::Absent(_) => {}
    }
}
