//! Laws of the definitions. The functions do nothing: each contract is a law.

ghost use Rattle.pcfs_audit.specs.Laws.{IssuesAreGoodByVerdict, LawfulHaveUnissuedRowsOnly, ReportsAreDetermined, RightHistoriesAreLawful};

/// A history has at most one report: it does not depend on how the audit goes about it.
pub fn reports_are_determined()
    ensures { ReportsAreDetermined }
{}

/// Each row on a lawful history is of a grant that was not issued before.
pub fn lawful_histories_have_unissued_rows_only()
    ensures { LawfulHaveUnissuedRowsOnly }
{}

/// A history over a lawful base is lawful if its report has no row but of grants that were not issued before.
pub fn histories_without_wrong_rows_are_lawful()
    ensures { RightHistoriesAreLawful }
{}

/// An issue is proved exactly if the numbers that it cites are right and its grant is the verdict on its proof: that the
/// grant is sound follows.
pub fn issues_are_good_by_their_verdict()
    ensures { IssuesAreGoodByVerdict }
{}
