//! Writers of canonical bytes. Each adds the one spelling of its value at the end, or nothing.

ghost use Rattle.std.specs.Prelude.{◌≡◌, ◌++◌, OnOk, OnErr, IsTrue};
ghost use Rattle.bl_syntax.specs.Names.{is_principal_name, is_text};
ghost use Rattle.bl_syntax.specs.TimeOrder.{IsInRange};
ghost use Rattle.bl_syntax.specs.Terms.{HasTimeInRange};
ghost use Rattle.bl_syntax.specs.Spelling.{IsSpellable, with_length, time_spelling, term_spelling};

use crate::fields::{permission_code, put, second_bytes, u32_bytes, u64_bytes};
use crate::lists::{Bytes, NoMemory};
use crate::names::{Principal, Text};
use crate::terms::{NodeId, Term, TimePoint};

/// Adds a name with its length byte.
pub fn write_name(p: &Principal, out: &mut Bytes) -> Result<(), NoMemory>
    ensures ok { OnOk result (out.new ≡ out.old ++ with_length p.now) }
    ensures spelled { OnOk result (IsTrue (is_principal_name p.now)) }
    ensures err { OnErr result (out.new ≡ out.old) }
{
    let name = p.bytes();
    put(&[name.len() as u8], name, out)
}

/// Adds a text with its length byte.
pub fn write_text(t: &Text, out: &mut Bytes) -> Result<(), NoMemory>
    ensures ok { OnOk result (out.new ≡ out.old ++ with_length t.now) }
    ensures spelled { OnOk result (IsTrue (is_text t.now)) }
    ensures err { OnErr result (out.new ≡ out.old) }
{
    let text = t.bytes();
    put(&[text.len() as u8], text, out)
}

/// Adds a point in time that lies in the range of moments.
#[tactic(auto, unfolding(crate::specs::Spelling::time_spelling))]
pub fn write_time(t: &TimePoint, out: &mut Bytes) -> Result<(), NoMemory>
    requires { IsInRange t.now }
    ensures ok { OnOk result (out.new ≡ out.old ++ time_spelling t.now) }
    ensures err { OnErr result (out.new ≡ out.old) }
{
    match t {
        TimePoint::NegInf => put(&[0], &[], out),
        TimePoint::At(second) => put(&[1], &second_bytes(*second), out),
        TimePoint::PosInf => put(&[2], &[], out),
    }
}

/// Adds a term whose time, if it is one, lies in the range of moments.
#[tactic(auto, unfolding(crate::specs::Spelling::term_spelling, crate::specs::Spelling::time_spelling))]
pub fn write_term(t: &Term, out: &mut Bytes) -> Result<(), NoMemory>
    requires { HasTimeInRange t.now }
    ensures ok { OnOk result (out.new ≡ out.old ++ term_spelling t.now) }
    ensures spelled { OnOk result (IsSpellable t.now) }
    ensures err { OnErr result (out.new ≡ out.old) }
{
    match t {
        Term::Prin(name) => {
            let name = name.bytes();
            put(&[1, name.len() as u8], name, out)
        }
        Term::File(NodeId(number)) => put(&[2], &u64_bytes(*number), out),
        Term::Perm(permission) => put(&[3, permission_code(*permission)], &[], out),
        Term::Time(TimePoint::NegInf) => put(&[4, 0], &[], out),
        Term::Time(TimePoint::At(second)) => put(&[4, 1], &second_bytes(*second), out),
        Term::Time(TimePoint::PosInf) => put(&[4, 2], &[], out),
        Term::Text(text) => {
            let text = text.bytes();
            put(&[5, text.len() as u8], text, out)
        }
        Term::Ctime => put(&[6], &[], out),
        Term::Param(number) => put(&[7], &u32_bytes(*number), out),
        Term::Bound(number) => put(&[8], &u32_bytes(*number), out),
    }
}
