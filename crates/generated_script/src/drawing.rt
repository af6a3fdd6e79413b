//! What is drawn for the rounds of a script.

ghost use Rattle.std.specs.Prelude.{◌≡◌, ◌≤◌, ◌<◌};
ghost use Rattle.generated_script.specs.Draws.{drawn, kind_of, round_from, state_after};

/// The upper 31 bits of a state are drawn from.
const UPPER: u64 = 8_589_934_592;

/// What is done in a round.
#[derive(Clone, Copy, Debug)]
pub enum Kind {
    /// A user makes a file.
    Create,
    /// A user proves that it may write a file, and writes.
    Prove,
    /// A user writes by a procap that is there already.
    Again,
    /// `admin` gives a file to a user.
    Give,
}

/// What is drawn for a round, and the state of the draws after it.
#[derive(Clone, Copy, Debug)]
pub struct Round {
    pub user: u64,
    pub file: u64,
    pub kind: Kind,
    /// The user that gets the file, or which procap is used again.
    pub choice: u64,
    pub state: u64,
}

// The state of the draws after one more.
#[tactic(auto, unfolding(crate::specs::Draws::state_after))]
fn state_after(state: u64) -> u64
    ensures { result ≡ state_after state }
{
    state
        .wrapping_mul(6364136223846793005)
        .wrapping_add(1442695040888963407)
}

// What is drawn in a state, below a limit.
#[tactic(auto, unfolding(crate::specs::Draws::drawn))]
fn drawn(state: u64, limit: u64) -> u64
    requires { 1 ≤ limit }
    ensures same { result ≡ drawn state limit }
    ensures below { result < limit }
{
    state / UPPER % limit
}

// What a round does, by the number that is drawn for it.
fn kind_of(number: u64) -> Kind
    ensures { result ≡ kind_of number }
{
    match number {
        0 => Kind::Create,
        1 => Kind::Prove,
        2 => Kind::Again,
        _ => Kind::Give,
    }
}

/// What is drawn for a round, from the state before it.
#[tactic(auto, unfolding(crate::specs::Draws::round_from))]
pub fn round_from(state: u64) -> Round
    ensures same { result ≡ round_from state }
    ensures user { result.user < 8 }
{
    let first = state_after(state);
    let second = state_after(first);
    let third = state_after(second);
    let fourth = state_after(third);
    Round {
        user: drawn(first, 8),
        file: 2 + drawn(second, 16),
        kind: kind_of(drawn(third, 4)),
        choice: drawn(fourth, 8),
        state: fourth,
    }
}
