//! Which rows are asked for.

ghost use Rattle.std.specs.Prelude.{◌≡◌};
ghost use Rattle.history_table.specs.Filtering.{admits, by_file, by_first, by_last, by_who, has_file, is_about, is_name, is_used, may_admit};

use crate::rows::{Row, Use};
use bl_syntax::{NodeId, Principal};

/// Which rows are asked for: those of a file, of a principal, from one second and to another. What is none lets all through.
#[derive(Clone, Copy)]
pub struct Filter {
    pub file: Option<NodeId>,
    pub who: Option<Principal>,
    pub from: Option<i64>,
    pub to: Option<i64>,
}

// Whether a procap was brought for the file.
fn is_used(uses: &[Use], file: u64) -> bool
    ensures { result ≡ is_used uses.now file }
{
    match uses {
        [] => false,
        [one, others @ ..] => one.file.0 == file || is_used(others, file),
    }
}

// Whether it is the file.
fn is_about(about: Option<NodeId>, file: u64) -> bool
    ensures { result ≡ is_about about file }
{
    match about {
        Some(about) => about.0 == file,
        None => false,
    }
}

// Whether the row is of the file.
fn has_file(row: &Row, file: u64) -> bool
    ensures { result ≡ has_file row.now file }
{
    is_used(row.uses.as_slice(), file) || is_about(row.about, file)
}

// Whether it is the principal's name.
fn is_name(its: &Option<Principal>, who: &[u8]) -> bool
    ensures { result ≡ is_name its.now who.now }
{
    match its {
        Some(its) => its.bytes() == who,
        None => false,
    }
}

fn by_file(file: Option<NodeId>, row: &Row) -> bool
    ensures { result ≡ by_file file row.now }
{
    match file {
        Some(file) => has_file(row, file.0),
        None => true,
    }
}

fn by_who(who: &Option<Principal>, its: &Option<Principal>) -> bool
    ensures { result ≡ by_who who.now its.now }
{
    match who {
        Some(who) => is_name(its, who.bytes()),
        None => true,
    }
}

fn by_first(first: Option<i64>, second: i64) -> bool
    ensures { result ≡ by_first first second }
{
    match first {
        Some(first) => first <= second,
        None => true,
    }
}

fn by_last(last: Option<i64>, second: i64) -> bool
    ensures { result ≡ by_last last second }
{
    match last {
        Some(last) => second <= last,
        None => true,
    }
}

impl Filter {
    /// Whether a row of that principal and second is asked for, if its file is.
    pub fn may_admit(&self, its: &Option<Principal>, second: i64) -> bool
        ensures { result ≡ may_admit self.now its.now second }
    {
        by_who(&self.who, its) && by_first(self.from, second) && by_last(self.to, second)
    }

    /// Whether the row is asked for.
    pub fn admits(&self, row: &Row) -> bool
        ensures { result ≡ admits self.now row.now }
    {
        by_file(self.file, row) && self.may_admit(&row.who, row.second)
    }
}
