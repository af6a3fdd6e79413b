//! Laws of the definitions. A law is the contract of an empty function, which nothing calls.

ghost use Rattle.std.specs.Prelude.{◌≡◌, ◌++◌, ◌∷◌, List, ℕ, false, Ok, Err, IsErr, length};
ghost use Rattle.bl_syntax.specs.Codec.{AreBytes, IsCodec};
ghost use Rattle.bl_syntax.specs.declared.codec_fault.CodecFault.TheVariants.{NotCanonical};
ghost use Rattle.access_history.specs.Base.{BaseView};
ghost use Rattle.file_world.specs.World.{World, IsWorld};
ghost use Rattle.checkpoint_image.specs.NodeSpelling.{nodes_spelling, AreSpellableNodes};
ghost use Rattle.checkpoint_image.specs.NodeReading.{nodes_at};
ghost use Rattle.checkpoint_image.specs.ImageSpelling.{AreFieldsOf, fields_spelling, image_spelling, IsSpellableImage};
ghost use Rattle.checkpoint_image.specs.ImageReading.{fields_at, image_at, is_versioned, whole_image};

/// The spelling of nodes and the reading of them belong together.
pub fn nodes_are_a_codec()
    ensures { IsCodec AreSpellableNodes nodes_spelling nodes_at }
{}

/// The spelling of states and the reading of them belong together: what is read is spelled so, what is spelled is read, no
/// spelling begins another, and a fault comes exactly if none begins the bytes.
pub fn images_are_a_codec()
    ensures { IsCodec IsSpellableImage image_spelling image_at }
{}

/// The fields of a state, which are its image of version 1, and the reading of them belong together. No image of version 1
/// begins with the byte with which those of version 2 begin.
pub fn old_images_are_a_codec()
    ensures codec { IsCodec AreFieldsOf fields_spelling fields_at }
    ensures apart { (base : BaseView) (rest : List ℕ) → AreFieldsOf base
        → is_versioned (fields_spelling base ++ rest) ≡ false }
{}

/// An image is read whole. With bytes left over it is refused at the first of them, and cut short it is refused.
pub fn images_are_whole()
    ensures again { (base : BaseView) → IsSpellableImage base
        → whole_image (image_spelling base) ≡ Ok base }
    ensures left_over { (base : BaseView) (byte : ℕ) (rest : List ℕ) → IsSpellableImage base
        → whole_image (image_spelling base ++ byte ∷ rest) ≡ Err (NotCanonical (length (image_spelling base))) }
    ensures cut { (base : BaseView) (input : ℕ) (front : List ℕ) (byte : ℕ) (rest : List ℕ)
        → AreBytes front → IsSpellableImage base
        → image_spelling base ≡ front ++ byte ∷ rest → IsErr (image_at input front) }
{}

/// The nodes of a world within its limits have a spelling.
pub fn worlds_have_images()
    ensures { (world : World) → IsWorld world → AreSpellableNodes world.rows }
{}
