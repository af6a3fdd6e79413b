//! Laws of the definitions. A law is the contract of an empty function, which nothing calls.

ghost use Rattle.std.specs.Prelude.{◌≡◌, ◌≢◌, ℕ, List, Option, Some, None};
ghost use Rattle.nine_messages.specs.Cutting.{agreed_after};
ghost use Rattle.bl_syntax.specs.declared.terms.NodeId.{NodeId};
ghost use Rattle.nine_messages.specs.Requests.{RequestView, twalk};
ghost use Rattle.nine_fids.specs.declared.step.Step.TheVariants as steps;
ghost use Rattle.nine_fids.specs.declared.connection.Connection.{Connection};
ghost use Rattle.nine_fids.specs.declared.control.Control.{Control};
ghost use Rattle.nine_fids.specs.declared.fid.Fid.{Fid};
ghost use Rattle.nine_fids.specs.declared.fid.FidFile.{FidFile};
ghost use Rattle.nine_fids.specs.Control.{IsAskedOf};
ghost use Rattle.nine_fids.specs.Fids.{HasRoomFor};
ghost use Rattle.nine_fids.specs.Laws.{DoRise, places_of, IsOwnFid};
ghost use Rattle.nine_fids.specs.Memory.{MemoryComesAfterTests};
ghost use Rattle.nine_fids.specs.States.{begun_with, fid_at, with_fid, without_fid, IsWithin};
ghost use Rattle.nine_fids.specs.Steps.{decided};
ghost use Rattle.nine_fids.specs.Tests.{tests_of};
ghost use Rattle.nine_fids.specs.Walks.{walked};

/// The tests of each request keep to the one order.
pub fn tests_are_in_order()
    ensures { (s : Connection) (asked : Option Control) (m : RequestView) → DoRise (places_of (tests_of s asked m)) }
{}

/// What is written to the control file asks one thing, or nothing.
pub fn bytes_ask_one_thing()
    ensures { (bytes : List ℕ) (asked other : Option Control) → IsAskedOf bytes asked → IsAskedOf bytes other
        → asked ≡ other }
{}

/// A connection stays within its limits.
pub fn limits_are_kept()
    ensures begun { (nonce : List ℕ) → IsWithin (begun_with nonce) }
    ensures decided { (s : Connection) (asked : Option Control) (m : RequestView) → IsWithin s
        → IsWithin (decided s asked m).1 }
    ensures walked { (s : Connection) (newfid names : ℕ) (found : List FidFile) → IsWithin s
        → HasRoomFor s.fids newfid → IsWithin (walked s newfid names found) }
{}

/// The greatest size of a message is that to which the cutting of messages comes.
pub fn sizes_agree()
    ensures { (s : Connection) (asked : Option Control) (m : RequestView)
        → (decided s asked m).1.msize ≡ agreed_after s.msize m }
{}

/// Memory runs out only for a request that reads or writes what is open in that direction, after a version is agreed.
pub fn memory_comes_after_tests()
    ensures { MemoryComesAfterTests }
{}

/// Before a walk of names there is room for the fid that it makes.
pub fn walks_have_room()
    ensures { (s after : Connection) (asked : Option Control) (fid newfid : ℕ) (names : List (List ℕ)) (node : NodeId)
        → (steps.Walk node, after) ≡ decided s asked (twalk fid newfid names) → HasRoomFor after.fids newfid }
{}

/// A request leaves the fids of others as they are.
pub fn other_fids_stay()
    ensures { (s : Connection) (asked : Option Control) (m : RequestView) (number : ℕ)
        → (IsOwnFid m number → ⊥) → fid_at (decided s asked m).1 number ≡ fid_at s number }
{}

/// What is put under a number stands there, and what ends does not, and the others stay.
pub fn fids_are_kept()
    ensures made { (s : Connection) (number : ℕ) (fid : Fid) → fid_at (with_fid s number fid) number ≡ Some fid }
    ensures ended { (s : Connection) (number : ℕ) → IsWithin s → fid_at (without_fid s number) number ≡ None }
    ensures others { (s : Connection) (number other : ℕ) (fid : Fid) → other ≢ number
        → fid_at (with_fid s number fid) other ≡ fid_at s other }
{}
