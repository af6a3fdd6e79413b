//! Laws of the definitions. The functions do nothing: each contract is a law.

ghost use Rattle.issue_standings.specs.Gone.{GoneMeans};

/// A grant is gone by a number exactly if it was issued, each of its issues cites a withdrawn statement, and that is the
/// first withdrawn number that the last of them cites.
pub fn gone_is_told_by_the_last_issue()
    ensures { GoneMeans }
{}
