//! Laws of the definitions. A law is the contract of an empty function, which nothing calls.

ghost use Rattle.checkpoint.specs.Laws.{ReadingsAreDetermined, BytesAreRead, StatesAreRead, ImagesAreDetermined, FaultsAreNoImages, ImagesEndTheInput, CutImagesAreNone, LawfulStatesFit};

/// Bytes have exactly one reading.
pub fn readings_are_determined()
    ensures one { ReadingsAreDetermined }
    ensures some { BytesAreRead }
{}

/// A state is read exactly if the bytes are its image, which they are of no other; and a fault comes only if they are the
/// image of none.
pub fn states_are_read()
    ensures read { StatesAreRead }
    ensures one { ImagesAreDetermined }
    ensures refused { FaultsAreNoImages }
{}

/// With bytes left over an image is refused at the first of them, and cut it is refused too.
pub fn images_are_whole()
    ensures left_over { ImagesEndTheInput }
    ensures cut { CutImagesAreNone }
{}

/// A state with which a history may begin fits an image, unless it has too many issues.
pub fn lawful_states_fit()
    ensures { LawfulStatesFit }
{}
