//! Laws of the definitions. The functions do nothing: each contract is a law.

ghost use Rattle.access_history.specs.Laws.{HistoriesKeepWorlds, StatesAreLawfulBases, AnswersAreDetermined, RequestsHaveAnswers, AnswersMayFollow, FreshIsLawful, AdmittedAreKept, LawfulIsRightful, GoneIsTold, NamedGoneIsTold, GoneAreDenied, WithdrawnForGood};

/// The world of the state after a lawful history is within its limits.
pub fn histories_keep_worlds()
    ensures { HistoriesKeepWorlds }
{}

/// A history may begin with the state after a lawful history.
pub fn states_are_lawful_bases()
    ensures { StatesAreLawfulBases }
{}

/// A request has at most one answer over the state of a lawful history, and one event to keep.
pub fn answers_are_determined()
    ensures { AnswersAreDetermined }
{}

/// Each well-formed request has an answer, over whichever state.
pub fn requests_have_answers()
    ensures { RequestsHaveAnswers }
{}

/// The event of an answer to a well-formed request may come next in a lawful history.
pub fn answers_may_follow()
    ensures { AnswersMayFollow }
{}

/// A history may begin with the store before its first event.
pub fn fresh_is_lawful()
    ensures { FreshIsLawful }
{}

/// An operation that is admitted and not refused gets its reply and is kept.
pub fn admitted_operations_are_kept()
    ensures { AdmittedAreKept }
{}

/// Of each lawful history the headline holds: it replays to a world, and every operation in it was admitted with a
/// procap for each permission that it needs, whose grant the logic derives then and there if it was issued.
pub fn lawful_histories_are_rightful()
    ensures { LawfulIsRightful }
{}

/// The number told of a grant that names no statements is exactly the one by which it is gone: the grant was issued, each of
/// its issues cites a withdrawn statement, and that is the first withdrawn number that the last of them cites.
pub fn gone_grants_are_told()
    ensures { GoneIsTold }
{}

/// The number told of a grant that names statements is exactly the first of them that was withdrawn.
pub fn named_grants_are_gone_by_their_names()
    ensures { NamedGoneIsTold }
{}

/// An operation is not admitted that needs a procap whose grant is gone.
pub fn gone_grants_are_denied()
    ensures { GoneAreDenied }
{}

/// A statement that was withdrawn stands no more, whichever events come after; its number keeps it, and no equal one can
/// be registered.
pub fn withdrawn_statements_stay_withdrawn()
    ensures { WithdrawnForGood }
{}
