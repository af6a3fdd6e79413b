//! Reading the image of a state that is the whole input.

ghost use Rattle.std.specs.Prelude.{◌≡◌, ℕ, List, Ok, length};
ghost use Rattle.bl_syntax.specs.Reading.{Reading};
ghost use Rattle.access_history.specs.Base.{BaseView};
ghost use Rattle.node_rows.specs.Rows.{AreOfSameNodes};
ghost use Rattle.checkpoint_image.specs.ImageReading.{base_of_image};
ghost use Rattle.checkpoint.specs.Reading.{GivesImage, GivesOldImage, GivesState, MakesState};

use access_history::Base;
use bl_syntax::CodecFault;
use bl_syntax::fields::place;
use checkpoint_image::{Image, old_image_at, stored_image_at};
use node_rows::RowsFault;
use std::alloc::Global;
use world_state::World;

// The state of an image that was read, if its nodes are a world within the limits.
fn state_of(alloc: Global, image: Image) -> Result<Base, CodecFault>
    requires { AreOfSameNodes image.tree image.meta }
    ensures { MakesState (base_of_image image) result }
{
    let Image {
        moment,
        count,
        next,
        statements,
        issues,
        tree,
        meta,
    } = image;
    match World::from_rows(alloc, next, &tree, &meta) {
        Err(RowsFault::NotTree) => Err(CodecFault::NotCanonical(0)),
        Err(RowsFault::NoMemory) => Err(CodecFault::NoMemory),
        Ok(world) => Ok(Base::from_parts(world, statements, issues, moment, count)),
    }
}

// The state of an image that was read at the front of the bytes, if this rest of them is empty.
fn state_to_end(alloc: Global, bytes: &[u8], image: Image, rest: &[u8]) -> Result<Base, CodecFault>
    requires { AreOfSameNodes image.tree image.meta }
    ensures { (at : ℕ → List ℕ → Reading BaseView) →
        at (length bytes.now) bytes.now ≡ Ok (base_of_image image, rest.now) →
        GivesState at bytes.now result }
{
    match state_of(alloc, image) {
        Err(fault) => Err(fault),
        Ok(base) => {
            if rest.is_empty() {
                return Ok(base);
            }
            Err(CodecFault::NotCanonical(place(bytes.len(), rest)))
        }
    }
}

/// Reads the image of a state, of either version, which is the whole of the bytes: the state, or the first fault. Bytes that
/// begin with 2 are of version 2, and any others of version 1. A field outside its grammar, or a number of no statement that
/// was withdrawn after the one before it comes first, then nodes that are no world within the limits, then bytes that are left
/// over.
pub fn read_base(alloc: Global, bytes: &[u8]) -> Result<Base, CodecFault>
    ensures { GivesImage bytes.now result }
{
    match stored_image_at(alloc, bytes.len(), bytes) {
        Err(fault) => Err(fault),
        Ok((image, rest)) => state_to_end(alloc, bytes, image, rest),
    }
}

/// Reads the image of version 1 of a state, which is the whole of the bytes: the state, in which all statements stand, or the
/// first fault, in the same order.
pub fn read_old_image(alloc: Global, bytes: &[u8]) -> Result<Base, CodecFault>
    ensures { GivesOldImage bytes.now result }
{
    match old_image_at(alloc, bytes.len(), bytes) {
        Err(fault) => Err(fault),
        Ok((image, rest)) => state_to_end(alloc, bytes, image, rest),
    }
}
