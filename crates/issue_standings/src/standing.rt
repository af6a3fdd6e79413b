//! How a grant stands.

ghost use Rattle.std.specs.Prelude.{◌≡◌, find};
ghost use Rattle.policy_statement.specs.Withdrawal.{is_withdrawn};
ghost use Rattle.issue_standings.specs.GrantStanding.{after, gone_by};

use policy_statement::Registry;

/// How a grant stands, by its issues.
#[derive(Clone, Copy, Debug, PartialEq, Eq)]
pub enum GrantStanding {
    /// It was not issued.
    Unissued,
    /// One of its issues cites no withdrawn statement.
    Stands,
    /// Each of its issues cites a withdrawn statement. This is the first withdrawn number that the last of them cites.
    GoneBy(u32),
}

impl GrantStanding {
    /// How the grant stands after one more issue, of whose statements this is the first that was withdrawn.
    pub fn after(self, withdrawn: Option<u32>) -> GrantStanding
        ensures { result ≡ after self withdrawn }
    {
        match self {
            GrantStanding::Stands => GrantStanding::Stands,
            _ => match withdrawn {
                None => GrantStanding::Stands,
                Some(number) => GrantStanding::GoneBy(number),
            },
        }
    }

    /// The number of the withdrawn statement by which it is gone; none exactly if it is not gone.
    pub fn gone_by(self) -> Option<u32>
        ensures { result ≡ gone_by self }
    {
        match self {
            GrantStanding::GoneBy(number) => Some(number),
            _ => None,
        }
    }
}

/// The first of these numbers whose statement was withdrawn.
pub fn first_withdrawn(registry: &Registry, numbers: &[u32]) -> Option<u32>
    ensures { result ≡ find (is_withdrawn registry.now.entries) numbers.now }
{
    match numbers {
        [] => None,
        [first, others @ ..] => {
            if registry.is_withdrawn(*first) {
                Some(*first)
            } else {
                first_withdrawn(registry, others)
            }
        }
    }
}
