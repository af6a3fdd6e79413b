//! Laws: bytes are exactly one of shut, an area and broken, and have one reading as that.

ghost use Rattle.std.specs.Prelude.{◌≡◌, ◌⊎◌, ℕ, List};
ghost use Rattle.journal_core.specs.Area.{IsShut, IsArea, IsFront, IsSomeArea, HasNoBase, IsBroken};

/// Bytes are shut, an area, or broken. The laws below say that they are only one of these.
pub fn bytes_have_a_reading()
    ensures { (bytes : List ℕ) →
        IsShut bytes ⊎ (IsSomeArea bytes ⊎ ((number : ℕ) × IsBroken number bytes)) }
{}

/// Bytes are at most one area.
pub fn an_area_has_one_reading()
    ensures { (bytes : List ℕ) (g h : ℕ) (i j : List ℕ) (ps qs : List (List ℕ)) →
        IsArea bytes g i ps → IsArea bytes h j qs → (g ≡ h) × (i ≡ j) × (ps ≡ qs) }
{}

/// An area is not shut, and not broken.
pub fn an_area_is_open_and_whole()
    ensures is_open { (bytes : List ℕ) (g : ℕ) (i : List ℕ) (ps : List (List ℕ)) →
        IsArea bytes g i ps → IsShut bytes → ⊥ }
    ensures whole { (bytes : List ℕ) (g : ℕ) (i : List ℕ) (ps : List (List ℕ)) (number : ℕ) →
        IsArea bytes g i ps → IsBroken number bytes → ⊥ }
{}

/// Bytes that are broken are open, and break at one record.
pub fn a_break_has_one_number()
    ensures is_open { (bytes : List ℕ) (number : ℕ) → IsBroken number bytes → IsShut bytes → ⊥ }
    ensures one { (bytes : List ℕ) (m n : ℕ) → IsBroken m bytes → IsBroken n bytes → m ≡ n }
{}

/// Bytes have at most one front, with header and image; that of an area is the area.
pub fn a_front_has_one_reading()
    ensures one { (bytes : List ℕ) (g h : ℕ) (i j : List ℕ) (ps qs : List (List ℕ)) →
        IsFront bytes g i ps → IsFront bytes h j qs → (g ≡ h) × (i ≡ j) × (ps ≡ qs) }
    ensures based { (bytes : List ℕ) (g : ℕ) (i : List ℕ) (ps : List (List ℕ)) →
        IsFront bytes g i ps → HasNoBase bytes → ⊥ }
    ensures area { (bytes : List ℕ) (g : ℕ) (i : List ℕ) (ps : List (List ℕ)) →
        IsArea bytes g i ps → IsFront bytes g i ps }
{}
