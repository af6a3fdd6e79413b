//! The image with which a store was opened, for contracts alone. It takes no room, and the functions below do nothing.
//!
//! Nothing here ties it to what a disk holds: the invariant of `Store` does that.

ghost use Rattle.std.specs.Prelude.{◌≡◌, ℕ, List, []};

use std::marker::Model;
use std::snapshot::Snapshot;

// The empty list, of which a snapshot is taken to begin with.
#[derive(Drop)]
pub(crate) struct NoBytes;

impl Model for NoBytes {
    ghost Value = { List ℕ };

    ghost view = { λ _. [] };
}

pub(crate) type Opened = Snapshot<NoBytes>;

// What contracts see is this image.
pub(crate) fn opened_with(image: &[u8]) -> Opened
    ensures { result.value ≡ image.now }
{
    let mut opened = Snapshot::of(&NoBytes);
    set(&mut opened, image);
    opened
}

// Changes the list that contracts see. The proof is by hand.
fn set(opened: &mut Opened, _image: &[u8])
    ensures { opened.new.value ≡ _image.now }
{}
