//! What is read of an image.

use access_history::{Issues, Statements};
use node_rows::{MetaRows, TreeRows};

/// A state as it is read: its nodes are rows, of which a world is still to be made.
#[derive(Drop)]
pub struct Image {
    pub moment: i64,
    pub count: u64,
    pub next: u64,
    pub statements: Statements,
    pub issues: Issues,
    pub tree: TreeRows,
    pub meta: MetaRows,
}
