//! Laws of the definitions. The functions do nothing: each contract is a law.

ghost use Rattle.pcfs_session.specs.Laws.{RunsAreLawful, LinesHaveOneAnswer, LinesHaveAnAnswer, AnswersAreNotOutOfMemory, RunsHaveOneOutcome, RunsHaveAnOutcome, FreshStartsAreLawful, ScriptsHaveOneOutcome};

/// The events of a run of a script are lawful, and with each checkpoint the generation grows by one.
pub fn runs_are_lawful()
    ensures { RunsAreLawful }
{}

/// Over the state of a lawful history a line has at most one answer.
pub fn lines_have_one_answer()
    ensures { LinesHaveOneAnswer }
{}

/// Over the state of a lawful history each line has an answer.
pub fn lines_have_an_answer()
    ensures { LinesHaveAnAnswer }
{}

/// No answer to a line is written as it is if memory runs out.
pub fn answers_are_not_out_of_memory()
    ensures { AnswersAreNotOutOfMemory }
{}

/// The lines of a script have at most one outcome, unless memory runs out.
pub fn runs_have_one_outcome()
    ensures { RunsHaveOneOutcome }
{}

/// The lines of a script have an outcome for which memory does not run out.
pub fn runs_have_an_outcome()
    ensures { RunsHaveAnOutcome }
{}

/// A script over a store before its first event begins lawfully.
pub fn fresh_starts_are_lawful()
    ensures { FreshStartsAreLawful }
{}

/// Each input of a script over a store before its first event has exactly one outcome, unless memory runs out.
pub fn scripts_have_one_outcome()
    ensures { ScriptsHaveOneOutcome }
{}
