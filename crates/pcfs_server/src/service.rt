//! Services: what is done with a connection.

ghost use Rattle.std.specs.Prelude.{◌≡◌, ◌⊎◌, ℕ, ◌+◌, ◌<◌, ◌≤◌, ◌≢◌, Bool, true, false, IfOk, OnOk, IsErrOf, is_ok, if◌then◌else◌};
ghost use Rattle.pcfs_ports.specs.Faults.{HasRisen, raise};

use super::ended_connection::EndedConnection;
use pcfs_ports::{Sink, Source};
use std::alloc::Global;
use std::sync::Wait;
use thiserror::Error;

/// Why a connection was not admitted.
#[derive(Clone, Copy, Debug, PartialEq, Eq, Error)]
pub enum AdmitFault {
    /// The door failed.
    #[error("the door failed")]
    Failed,
    /// A growth was refused.
    #[error("out of memory")]
    NoMemory,
}

/// What is done with a connection, from an input and to an output.
///
/// A door admits it: it gives a token. With the token the connection is attended, in any thread, and then the token leaves by
/// the door. Each call keeps what belongs to the service: its door and its tokens.
pub trait Service<I: Source, O: Sink> {
    /// What admits connections, one at a time.
    type Door;

    /// What a connection is attended with.
    type Token: Send + Drop;

    /// What no call changes of a door. It is for contracts alone.
    type Kept;

    // The door belongs to the service.
    ghost is_door: { Self → Self.Door → Type 0 };

    // The token belongs to the service.
    ghost is_token: { Self → Self.Token → Type 0 };

    // The connection of this token was attended.
    ghost attended: { Self.Token → Bool };

    // How many tokens were admitted.
    ghost admitted: { Self.Door → ℕ };

    // Of which connection it is: of the first that is admitted, 1, and so on.
    ghost number: { Self.Token → ℕ };

    // The connection of that number may be one with this input and this output.
    ghost expects: { Self → ℕ → I → O → Type 0 };

    // How many tokens were attended and left.
    ghost served: { Self.Door → ℕ };

    // How many tokens were admitted and have not left.
    ghost out: { Self.Door → ℕ };

    // How many more tokens can be admitted.
    ghost room: { Self.Door → ℕ };

    // How many faults the door has had. It counts as risen if it stands at `u64::MAX`.
    ghost faults: { Self.Door → ℕ };

    // Whether the last call failed that the door made of what it has its faults of.
    ghost broken: { Self.Door → Bool };

    // What no call changes of the door.
    ghost kept: { Self.Door → Self.Kept };

    /// Admits a connection. `Failed` comes only if the door's count of faults rose, by one, by the last call that can fail;
    /// at each other answer it stands still. At `Ok` the last such call did not fail; at `NoMemory` neither, or whether the
    /// last failed is as before.
    fn admit(&self, alloc: Global, door: &mut Self::Door) -> Result<Self::Token, AdmitFault>
        requires belongs { is_door self.now door.old }
        requires room { 0 < room door.old }
        ensures belongs { is_door self.now door.new }
        ensures token { IfOk result (λ token. is_token self.now token × (attended token ≡ false)) }
        ensures admitted { admitted door.new ≡ (if is_ok result then admitted door.old + 1 else admitted door.old) }
        ensures number { IfOk result (λ token. number token ≡ admitted door.new) }
        ensures out { out door.new ≡ (if is_ok result then out door.old + 1 else out door.old) }
        ensures served { served door.new ≡ served door.old }
        ensures room { room door.old ≤ room door.new + 1 }
        ensures risen { IsErrOf result AdmitFault.Failed →
            HasRisen (faults door.old) (faults door.new) }
        ensures never_falls { faults door.old ≤ faults door.new }
        ensures kept { kept door.new ≡ kept door.old }
        ensures steady { result ≢ Err AdmitFault.Failed → faults door.new ≡ faults door.old }
        ensures by_one { IsErrOf result AdmitFault.Failed → faults door.new ≡ raise (faults door.old) }
        ensures broken { IsErrOf result AdmitFault.Failed → broken door.new ≡ true }
        ensures whole { OnOk result (broken door.new ≡ false) }
        ensures untouched { IsErrOf result AdmitFault.NoMemory →
            (broken door.new ≡ broken door.old) ⊎ (broken door.new ≡ false) };

    /// Attends the connection of the token's number, whatever its input and output do, and ends it: nothing more is read or
    /// written. It may wait.
    fn attend<R: Wait>(
        &self,
        rt: &R,
        alloc: Global,
        token: &mut Self::Token,
        input: I,
        output: O,
    ) -> EndedConnection<I, O>
        requires belongs { is_token self.now token.old }
        requires once { attended token.old ≡ false }
        requires expected { expects self.now (number token.old) input output }
        ensures belongs { is_token self.now token.new }
        ensures attended { attended token.new ≡ true };

    /// Lets a token leave by the door that admitted it. Nothing fails by that.
    fn leave(&self, door: &mut Self::Door, token: Self::Token)
        requires door { is_door self.now door.old }
        requires token { is_token self.now token }
        requires out { 0 < out door.old }
        ensures belongs { is_door self.now door.new }
        ensures admitted { admitted door.new ≡ admitted door.old }
        ensures out { out door.new + 1 ≡ out door.old }
        ensures served { served door.new ≡ (if attended token then served door.old + 1 else served door.old) }
        ensures room { room door.old ≤ room door.new }
        ensures never_falls { faults door.old ≤ faults door.new }
        ensures kept { kept door.new ≡ kept door.old }
        ensures steady { faults door.new ≡ faults door.old }
        ensures broken { broken door.new ≡ broken door.old };
}
