//! The index of standings: a row for each grant that was issued and names no statements.

ghost use Rattle.std.specs.Prelude.{◌≡◌, ◌≤◌, ◌<◌, ◌++◌, ◌∷◌, [], ◌↔◌, ℕ, List, IfOk, IsSome, IsTrue, OnOk, length, map};
ghost use Rattle.policy_statement.specs.Registered.{RegisteredView, spare_of};
ghost use Rattle.policy_statement.specs.Withdrawal.{is_withdrawn};
ghost use Rattle.issue_standings.specs.Bearing.{IsGrantAt, plain};
ghost use Rattle.issue_standings.specs.GrantStanding.{gone_by, standing_of};
ghost use Rattle.issue_standings.specs.Rows.{ArePlaces, AreWithin, TellsRow, all_begun, all_counted, begun, begun_by, changed, counted, counted_anew, left};
ghost use Rattle.issue_standings.specs.Index.{Finds, GivesRow, HasNewRow, HasRows, IsIndexOf, IsRecounted, IsSameIndex, Knows, TellsIssued, front_of, room_of, row_at, rows_of};

use crate::bearing::Bearing;
use crate::standing::GrantStanding;
use bl_syntax::{Grant, NoMemory};
use policy_statement::Registry;
use procap::{Procap, SealKey};
use std::alloc::Global;
use std::collections::HashMap;

// The place of an issue with this grant, and how the grant stands.
#[derive(Clone, Copy, Debug)]
struct Row {
    place: usize,
    standing: GrantStanding,
    // Whether the issues with the grant are counted anew. Only a recount reads it, after it was set for each row.
    anew: bool,
}

/// How each grant stands that was issued and names no statements. It has no grants: its calls take the issues, and it has
/// places of them.
#[derive(Drop)]
pub struct Standings {
    rows: Vec<Row>,
    // The row of each plain issue's grant, in the order of the issues.
    row_of: Vec<usize>,
    // For the front of each plain issue's tag, the row of a grant whose tag has that front.
    fronts: HashMap<u64, usize>,
}

// The number of the first eight bytes of a tag.
fn front_of(tag: &[u8]) -> u64
    requires { 8 ≤ length tag.now }
    ensures { result ≡ front_of tag.now }
{
    let bytes = &tag[0..8];
    u64::from_be_bytes([
        bytes[0], bytes[1], bytes[2], bytes[3], bytes[4], bytes[5], bytes[6], bytes[7],
    ])
}

// Whether the issue in that place has the grant.
fn is_grant_at<B: Bearing>(issues: &[B], place: usize, grant: &Grant) -> bool
    requires { place < length issues.now }
    ensures { IsTrue result ↔ IsGrantAt (map B.Bearing.bearing issues.now) place grant.now }
{
    issues[place].is_grant(grant)
}

// The row of the grant among these; none exactly if they have none of it.
fn search_rows<B: Bearing>(rows: &[Row], issues: &[B], grant: &Grant) -> Option<usize>
    requires { ArePlaces (map B.Bearing.bearing issues.now) rows.now }
    ensures { TellsRow (map B.Bearing.bearing issues.now) rows.now grant.now result }
{
    for (row, kept) in rows.iter().enumerate() {
        if is_grant_at(issues, kept.place, grant) {
            return Some(row);
        }
    }
    None
}

// Counts one more issue in the row of its grant, where this is the first of its statements that was withdrawn.
fn count(rows: &mut Vec<Row>, row: usize, withdrawn: Option<u32>)
    requires { row < length rows.old.items }
    ensures rows { rows.new.items ≡ counted rows.old.items row withdrawn }
    ensures spare { spare_of rows.new ≡ spare_of rows.old }
{
    let before = rows[row];
    rows[row] = Row {
        place: before.place,
        standing: before.standing.after(withdrawn),
        anew: before.anew,
    };
}

// Forgets what was counted in the row, which is to be counted anew.
fn begin(rows: &mut Vec<Row>, row: usize)
    requires { row < length rows.old.items }
    ensures rows { rows.new.items ≡ changed begun rows.old.items row }
    ensures spare { spare_of rows.new ≡ spare_of rows.old }
{
    let before = rows[row];
    rows[row] = Row {
        place: before.place,
        standing: GrantStanding::Unissued,
        anew: true,
    };
}

// Leaves each row as it stands; none is to be counted anew.
fn leave_all(rows: &mut Vec<Row>)
    ensures rows { rows.new.items ≡ map left rows.old.items }
    ensures spare { spare_of rows.new ≡ spare_of rows.old }
{
    for row in 0..rows.len() {
        let before = rows[row];
        rows[row] = Row {
            place: before.place,
            standing: before.standing,
            anew: false,
        };
    }
}

// Begins the row of the issue anew, if the issue cites the number.
fn begin_citing<B: Bearing>(rows: &mut Vec<Row>, row: usize, issue: &B, number: u32)
    requires { row < length rows.old.items }
    ensures rows { rows.new.items ≡ changed (begun_by number (B.Bearing.bearing issue.now)) rows.old.items row }
    ensures spare { spare_of rows.new ≡ spare_of rows.old }
{
    if issue.cites(number) {
        begin(rows, row);
    }
}

// Counts the issue in its row, if this is to be counted anew.
fn count_anew<B: Bearing>(rows: &mut Vec<Row>, row: usize, registry: &Registry, issue: &B)
    requires { row < length rows.old.items }
    ensures rows { rows.new.items ≡ changed (counted_anew (is_withdrawn registry.now.entries) (B.Bearing.bearing issue.now)) rows.old.items row }
    ensures spare { spare_of rows.new ≡ spare_of rows.old }
{
    if rows[row].anew {
        count(rows, row, issue.first_withdrawn(registry));
    }
}

// Begins the row of each plain issue anew that cites the number.
fn begin_all<B: Bearing>(rows: &mut Vec<Row>, row_of: &[usize], issues: &[B], number: u32)
    requires each { length row_of.now ≡ length (plain (map B.Bearing.bearing issues.now)) }
    requires within { AreWithin row_of.now rows.old.items }
    ensures rows { rows.new.items ≡ all_begun number row_of.now (plain (map B.Bearing.bearing issues.now)) rows.old.items }
    ensures spare { spare_of rows.new ≡ spare_of rows.old }
{
    let mut seen = 0;
    for place in 0..issues.len() {
        let issue = &issues[place];
        if issue.is_plain() {
            begin_citing(rows, row_of[seen], issue, number);
            seen += 1;
        }
    }
}

// Counts each plain issue whose row is to be counted anew.
fn count_all<B: Bearing>(rows: &mut Vec<Row>, row_of: &[usize], registry: &Registry, issues: &[B])
    requires each { length row_of.now ≡ length (plain (map B.Bearing.bearing issues.now)) }
    requires within { AreWithin row_of.now rows.old.items }
    ensures rows { rows.new.items ≡ all_counted (is_withdrawn registry.now.entries) row_of.now (plain (map B.Bearing.bearing issues.now)) rows.old.items }
    ensures spare { spare_of rows.new ≡ spare_of rows.old }
{
    let mut seen = 0;
    for place in 0..issues.len() {
        let issue = &issues[place];
        if issue.is_plain() {
            count_anew(rows, row_of[seen], registry, issue);
            seen += 1;
        }
    }
}

impl Standings {
    /// The index of no issues. It takes no memory.
    pub fn new(alloc: Global) -> Standings
        ensures { (key : List ℕ) (entries : List RegisteredView) → IsIndexOf key entries [] result }
    {
        Standings {
            rows: Vec::new(alloc),
            row_of: Vec::new(alloc),
            fronts: HashMap::new(alloc),
        }
    }

    /// The index of these issues, whose grants are sealed under this key.
    pub fn from_issues<B: Bearing>(
        alloc: Global,
        key: &SealKey,
        registry: &Registry,
        issues: &[B],
    ) -> Result<Standings, NoMemory>
        ensures { IfOk result (IsIndexOf key.now registry.now.entries (map B.Bearing.bearing issues.now)) }
    {
        let mut standings = Standings::new(alloc);
        for place in 0..issues.len() {
            standings.reserve()?;
            standings.add_read(alloc, key, registry, &issues[0..place], &issues[place])?;
        }
        Ok(standings)
    }

    /// Makes room for one more issue at least.
    pub fn reserve(&mut self) -> Result<(), NoMemory>
        ensures same { IsSameIndex self.old self.new }
        ensures room { OnOk result (1 ≤ room_of self.new) }
    {
        self.rows.reserve(1)?;
        self.row_of.reserve(1)?;
        self.fronts.reserve(1)?;
        Ok(())
    }

    // Adds an issue after these, for which there has to be room. Its grant is read only if it names no statements.
    fn add_read<B: Bearing>(
        &mut self,
        alloc: Global,
        key: &SealKey,
        registry: &Registry,
        issues: &[B],
        issue: &B,
    ) -> Result<(), NoMemory>
        requires room { 1 ≤ room_of self.old }
        requires index { IsIndexOf key.now registry.now.entries (map B.Bearing.bearing issues.now) self.old }
        ensures { OnOk result (IsIndexOf key.now registry.now.entries (map B.Bearing.bearing issues.now ++ B.Bearing.bearing issue.now ∷ []) self.new) }
    {
        if !issue.is_plain() {
            return Ok(());
        }
        let grant = issue.grant(alloc)?;
        self.add(key, registry, issues, issue, &grant);
        Ok(())
    }

    /// Adds an issue with this grant after these, for which there has to be room. Nothing is added for a grant that names
    /// statements. It takes no memory.
    pub fn add<B: Bearing>(
        &mut self,
        key: &SealKey,
        registry: &Registry,
        issues: &[B],
        issue: &B,
        grant: &Grant,
    )
        requires room { 1 ≤ room_of self.old }
        requires index { IsIndexOf key.now registry.now.entries (map B.Bearing.bearing issues.now) self.old }
        requires grant { grant.now ≡ (B.Bearing.bearing issue.now).grant }
        ensures { IsIndexOf key.now registry.now.entries (map B.Bearing.bearing issues.now ++ B.Bearing.bearing issue.now ∷ []) self.new }
    {
        if !issue.is_plain() {
            return;
        }
        let withdrawn = issue.first_withdrawn(registry);
        let row = self.row_for(issues, front_of(&key.tag(grant)), grant);
        count(&mut self.rows, row, withdrawn);
        self.row_of.push_reserved(row);
    }

    /// Counts again after the statement of this number was withdrawn: the issues with those grants of which an issue cites it.
    /// It goes over no issues if each names statements. It takes no memory.
    pub fn recount<B: Bearing>(&mut self, registry: &Registry, issues: &[B], number: u32)
        requires { HasRows (map B.Bearing.bearing issues.now) self.old }
        ensures { IsRecounted number registry.now.entries (map B.Bearing.bearing issues.now) self.old self.new }
    {
        if self.row_of.is_empty() {
            return;
        }
        leave_all(&mut self.rows);
        begin_all(&mut self.rows, self.row_of.as_slice(), issues, number);
        count_all(&mut self.rows, self.row_of.as_slice(), registry, issues);
    }

    /// The number of the withdrawn statement by which the procap's grant, which names no statements, is gone, of the issues of
    /// this index; none exactly if it is not gone. It takes no memory, and goes over no issues.
    pub fn gone_by<B: Bearing>(
        &self,
        registry: &Registry,
        issues: &[B],
        procap: &Procap,
    ) -> Option<u32>
        requires { Knows registry.now.entries (map B.Bearing.bearing issues.now) self.now procap.now }
        ensures { result ≡ gone_by (standing_of (is_withdrawn registry.now.entries) procap.now.grant (map B.Bearing.bearing issues.now)) }
    {
        if !registry.has_withdrawn() {
            return None;
        }
        match self.find_row(issues, front_of(&procap.tag), &procap.grant) {
            Some(row) => self.rows[row].standing.gone_by(),
            None => None,
        }
    }

    // The row of the grant, by the front of its tag; none exactly if no plain issue has the grant.
    fn find_row<B: Bearing>(&self, issues: &[B], front: u64, grant: &Grant) -> Option<usize>
        requires { Finds (map B.Bearing.bearing issues.now) self.now front grant.now }
        ensures row { TellsIssued (map B.Bearing.bearing issues.now) self.now grant.now result }
        ensures known { IsSome result → IsSome (row_at self.now front) }
    {
        let Some(row) = self.fronts.get(&front) else {
            return None;
        };
        let row = *row;
        if is_grant_at(issues, self.rows[row].place, grant) {
            return Some(row);
        }
        search_rows(self.rows.as_slice(), issues, grant)
    }

    // The row of the grant, by the front of its tag; a new one, in which nothing is counted, if no plain issue has
    // the grant.
    fn row_for<B: Bearing>(&mut self, issues: &[B], front: u64, grant: &Grant) -> usize
        requires room { 1 ≤ room_of self.old }
        requires finds { Finds (map B.Bearing.bearing issues.now) self.old front grant.now }
        ensures { GivesRow (map B.Bearing.bearing issues.now) grant.now front self.old self.new result }
    {
        match self.find_row(issues, front, grant) {
            Some(row) => row,
            None => self.add_row(issues.len(), front),
        }
    }

    // Adds a row for the issue in that place, whose tag has that front, and tells it.
    fn add_row(&mut self, place: usize, front: u64) -> usize
        requires { 1 ≤ room_of self.old }
        ensures new { HasNewRow self.old self.new place front }
        ensures row { result ≡ length (rows_of self.old) }
    {
        let row = self.rows.len();
        self.rows.push_reserved(Row {
            place,
            standing: GrantStanding::Unissued,
            anew: false,
        });
        let _ = self.fronts.insert(front, row);
        row
    }
}
