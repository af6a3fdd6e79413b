//! What an operation brings.

ghost use Rattle.std.specs.Prelude.{◌≡◌, ◌↔◌, IsTrue};
ghost use Rattle.bl_syntax.specs.Names.{is_principal_name};
ghost use Rattle.file_world.specs.Effect.{IsOperation};
ghost use Rattle.file_world.specs.Needs.{slots, bytes_to_write};
ghost use Rattle.access_history.specs.WellFormed.{BringsEnough};

use bl_syntax::Principal;
use bl_syntax::limits::MOST_BYTES_AT_ONCE;
use file_world::Op;
use procap::Procap;

// How many procaps the operation brings.
fn slots(op: &Op) -> usize
    ensures { result ≡ slots op.now }
{
    match op {
        Op::Unlink(_, _) => 2,
        Op::Rename(_, _, _, _) => 3,
        _ => 1,
    }
}

// How many bytes it brings to be written.
fn bytes_to_write(op: &Op) -> usize
    ensures { result ≡ bytes_to_write op.now }
{
    match op {
        Op::Write(_, _, bytes) => bytes.len(),
        _ => 0,
    }
}

/// Whether the operation comes with one procap for each slot, and brings at most 65,536 bytes to write.
pub fn brings_enough(op: &Op, procaps: &[Procap]) -> bool
    ensures { IsTrue result ↔ BringsEnough op.now procaps.now }
{
    procaps.len() == slots(op) && bytes_to_write(op) <= MOST_BYTES_AT_ONCE
}

/// The caller is a principal, the owner that an operation brings is one, and its value a text, since their types say so.
pub fn is_formed(caller: &Principal, op: &Op)
    ensures named { IsTrue (is_principal_name caller.now) }
    ensures operation { IsOperation op.now }
{
    let _ = caller.bytes();
    match op {
        Op::Setattr(_, _, value) => {
            let _ = value.bytes();
        }
        Op::Chown(_, owner) => {
            let _ = owner.bytes();
        }
        _ => {}
    }
}
