//! Requests that may be asked.

ghost use Rattle.std.specs.Prelude.{◌≡◌};
ghost use Rattle.session_history.specs.Turn.{IsTurnFormed};

use session_history::TurnRequest;
use std::marker::Model;

/// What a turn asks, within its limits: a step that is well formed, or numbers that can be cited.
#[derive(Drop)]
pub struct FormedRequest {
    request: TurnRequest,
}

impl Model for FormedRequest {
    ghost use Rattle.session_history.specs.declared.request.TurnRequest.{TurnRequest};
    ghost use Rattle.session_history.specs.Turn.{IsTurnFormed};
    ghost use Rattle.shared_store.specs.RequestCode.{request_code};

    ghost Value = { TurnRequest };

    ghost coded = { request_code };

    ghost view = { λ r. r.request };

    ghost invariant = { λ r. IsTurnFormed r.request };
}

impl FormedRequest {
    pub fn new(request: TurnRequest) -> FormedRequest
        requires { IsTurnFormed request }
        ensures { result ≡ request }
    {
        FormedRequest { request }
    }

    pub(crate) fn into_request(self) -> TurnRequest
        ensures same { result ≡ self }
        ensures formed { IsTurnFormed result }
    {
        let FormedRequest { request } = self;
        request
    }
}
