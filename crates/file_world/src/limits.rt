//! The limits of the file system, and the number of its root.

/// The number of the root.
pub const ROOT_NUMBER: u64 = 1;

/// How many nodes a tree may have.
pub const MOST_NODES: usize = 16_384;

/// How many bytes a file may have.
pub const MOST_BYTES: u64 = 1_048_576;

/// How many bytes all files may have together.
pub const MOST_BYTES_TOGETHER: u64 = 33_554_432;

/// How many attributes a node may have.
pub const MOST_ATTRIBUTES: usize = 32;

/// How many bytes the name of a node or of an attribute may have.
pub const LONGEST_NAME: usize = 64;

/// The next number at which no node is made any more.
pub const LAST_NUMBER: u64 = u64::MAX;
