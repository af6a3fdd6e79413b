//! What an audit reports.

ghost use Rattle.std.specs.Prelude.{◌≡◌, count_by};
ghost use Rattle.pcfs_audit.specs.Finding.{is_wrong, is_unissued};

use bl_syntax::Sequence;

/// What an audit finds with an event.
#[derive(Clone, Copy, Debug, PartialEq, Eq)]
pub enum Finding {
    /// A statement's signature is not accepted, an equal statement is registered, or as many as may be are; or a statement
    /// that is withdrawn does not stand, or the signature of its withdrawal is not accepted.
    Unsigned,
    /// A proof does not grant what was issued by it, or the numbers that it cites are not 1 to 64 numbers of statements that
    /// stand, strictly rising.
    Unproved,
    /// An operation is denied or refused at its moment, it does not bring one procap for each slot, it brings too many
    /// bytes, or its moment lies outside the range.
    NotAdmitted,
    /// The moment of an operation is before the last one.
    MomentFalls,
    /// An operation is in order, and the grant of one of its procaps was not issued before it.
    Unissued,
}

/// What was found with the event of that number.
#[derive(Clone, Copy, Debug, PartialEq, Eq)]
pub struct ReportRow {
    pub event: u64,
    pub finding: Finding,
}

/// Rows of a report, in the order of their events.
pub type ReportRows = Sequence<ReportRow>;

/// What an audit reports of a history.
#[derive(Debug, Drop)]
pub struct Report {
    /// The number of the last event.
    pub events: u64,
    /// How many statements there are after all events.
    pub statements: u64,
    /// How many issues there are after all events.
    pub issues: u64,
    /// How many rows are of grants that were not issued before.
    pub unissued: u64,
    /// What was found, up to the first event with which something is wrong.
    pub rows: ReportRows,
}

/// Whether the event may not stand where it stands.
pub fn is_wrong(finding: Finding) -> bool
    ensures { result ≡ is_wrong finding }
{
    match finding {
        Finding::Unsigned => true,
        Finding::Unproved => true,
        Finding::NotAdmitted => true,
        Finding::MomentFalls => true,
        Finding::Unissued => false,
    }
}

// Whether the event stands where it may, and only a grant was not issued before it.
fn is_unissued(finding: Finding) -> bool
    ensures { result ≡ is_unissued finding }
{
    match finding {
        Finding::Unsigned => false,
        Finding::Unproved => false,
        Finding::NotAdmitted => false,
        Finding::MomentFalls => false,
        Finding::Unissued => true,
    }
}

/// How many of these rows are of grants that were not issued before.
pub fn unissued_among(rows: &[ReportRow]) -> usize
    ensures { result ≡ count_by (λ row. is_unissued row.finding) rows.now }
{
    rows.iter().filter(|row| is_unissued(row.finding)).count()
}
