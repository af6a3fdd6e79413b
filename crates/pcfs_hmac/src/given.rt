// Lists of bytes for contracts alone. They take no room in a value, and the functions below do nothing.
//
// Nothing here ties such a list to what a program holds: the invariant of `Mac` does that.

ghost use Rattle.std.specs.Prelude.{◌≡◌, ℕ, List, [], ◌++◌};

use std::marker::Model;
use std::snapshot::Snapshot;

// The empty list, of which a snapshot is taken to begin with.
#[derive(Drop)]
pub(crate) struct NoBytes;

impl Model for NoBytes {
    ghost Value = { List ℕ };

    ghost view = { λ _. [] };
}

pub(crate) type Given = Snapshot<NoBytes>;

pub(crate) fn nothing() -> Given
    ensures { result.value ≡ [] }
{
    Snapshot::of(&NoBytes)
}

// What was given before, and then the piece.
pub(crate) fn join(before: &Given, piece: &[u8]) -> Given
    ensures { result.value ≡ before.now.value ++ piece.now }
{
    let mut given = nothing();
    set(&mut given, before, piece);
    given
}

// Changes the list that contracts see. The proof is by hand.
fn set(given: &mut Given, _before: &Given, _piece: &[u8])
    ensures { given.new.value ≡ _before.now.value ++ _piece.now }
{}
