//! Signatures: whose signature is accepted under which message.

ghost use Rattle.std.specs.Prelude.{◌≡◌, ℕ, List, Bool};

/// Tells whether a signature under a message is somebody's.
///
/// Its meaning is one function of the value and of the three arguments, so that asking again gives the same answer.
/// Asking takes no memory and has no fault.
pub trait Signatures {
    // Whether it accepts, from a name and under a message, a signature.
    ghost accepted: { Self → List ℕ → List ℕ → List ℕ → Bool };

    /// Whether `signature` is accepted from `who` under `message`.
    fn accepts(&self, who: &[u8], message: &[u8], signature: &[u8]) -> bool
        ensures { result ≡ accepted self.now who.now message.now signature.now };
}
