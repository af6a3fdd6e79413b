//! Laws of replies. A law is the contract of an empty function, which nothing calls.

ghost use Rattle.reply_laws.specs.Laws.{SpelledStatementsAreUnbroken, SpelledProofsAreUnbroken, SpelledGrantsAreUnbroken, LinesBringUnbroken, WorldsReplyUnbroken, AnswersAreUnbroken, LawfulAnswersAreOneLine, VerdictsAreUnbroken, CheckedGrantsAreUnbroken, FreshKeepsUnbroken, StatesKeepUnbroken, AnswersKeepUnbroken, LineFaultsAreReported, ProofFaultsAreReported};

/// No name and no text of a statement, a proof or a grant that has a spelling holds the byte that ends a line.
pub fn what_is_spelled_is_unbroken()
    ensures statements { SpelledStatementsAreUnbroken }
    ensures proofs { SpelledProofsAreUnbroken }
    ensures grants { SpelledGrantsAreUnbroken }
{}

/// Nor does one of what a line brings: a statement, a proof and its goal, procaps that are written out.
pub fn lines_bring_unbroken()
    ensures { LinesBringUnbroken }
{}

/// What an operation returns over a world within its limits is one line: names in a directory and values of attributes
/// are in their grammars.
pub fn worlds_reply_unbroken()
    ensures { WorldsReplyUnbroken }
{}

/// The answer to a request is one line over each world within its limits, if the procaps are that the request brings;
/// so is what is written of it after each lawful history.
pub fn answers_are_unbroken()
    ensures unbroken { AnswersAreUnbroken }
    ensures written { LawfulAnswersAreOneLine }
{}

/// What the verdict on a proof grants is one line, if the statements, the proof and its goal are.
pub fn verdicts_are_unbroken()
    ensures verdict { VerdictsAreUnbroken }
    ensures checked { CheckedGrantsAreUnbroken }
{}

/// A state keeps only statements and grants that are one line, if it began so, and each event since has a spelling, or is
/// that of an answer to a request that adds no others.
pub fn states_keep_unbroken()
    ensures fresh { FreshKeepsUnbroken }
    ensures later { StatesKeepUnbroken }
    ensures answered { AnswersKeepUnbroken }
{}

/// That memory ran out is no fault of a line and none of a proof: each such fault is written as `bad` or `unproved`.
pub fn out_of_memory_is_no_fault()
    ensures lines { LineFaultsAreReported }
    ensures proofs { ProofFaultsAreReported }
{}
