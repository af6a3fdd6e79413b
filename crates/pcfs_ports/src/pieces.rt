//! An input taken in pieces.

ghost use Rattle.std.specs.Prelude.{◌≡◌, ◌<◌, ◌≤◌, IfOk, OnOk, OnErr, length, take, is_err};
ghost use Rattle.pcfs_ports.specs.Faults.{HasRisen, raise};
ghost use Rattle.pcfs_ports.specs.Observable.{with_front, IsAtEnd};

use super::faults::Failed;
use super::sources::Source;
use std::alloc::{AllocError, Global};

/// How many bytes a piece has room for.
pub const PIECE_LEN: usize = 65_536;

/// The room for a piece, filled with zeros.
pub fn new_piece(alloc: Global) -> Result<Vec<u8>, AllocError>
    ensures { IfOk result (λ piece. length piece.items ≡ PIECE_LEN) }
{
    vec![in alloc; 0u8; PIECE_LEN]
}

/// Takes bytes from the input into the front of the piece by one read, no more than this many, and returns how many: none
/// at the end.
///
/// `Failed` comes only if the input's count of faults rose, by one, and takes nothing; at each other answer it stands still.
pub fn read_piece<I: Source>(input: &mut I, piece: &mut [u8], most: usize) -> Result<usize, Failed>
    requires room { 0 < length piece.old }
    requires some { 0 < most }
    ensures bound { IfOk result (λ count. count ≤ length piece.new) }
    ensures few { IfOk result (λ count. count ≤ most) }
    ensures taken { IfOk result (λ count.
        I.left input.old ≡ with_front (take count piece.new) (I.left input.new)) }
    ensures end { IfOk result (λ count. count ≡ 0 → IsAtEnd (I.left input.new)) }
    ensures err { OnErr result (I.left input.new ≡ I.left input.old) }
    ensures steady { OnOk result (I.faults input.new ≡ I.faults input.old) }
    ensures risen { OnErr result (HasRisen (I.faults input.old) (I.faults input.new)) }
    ensures never_falls { I.faults input.old ≤ I.faults input.new }
    ensures by_one { OnErr result (I.faults input.new ≡ raise (I.faults input.old)) }
    ensures broken { I.broken input.new ≡ is_err result }
{
    let room = piece.len().min(most);
    input.read(&mut piece[..room])
}
