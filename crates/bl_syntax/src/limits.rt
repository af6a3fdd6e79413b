//! The limits of what is said, proved, granted, kept and sent. Code and definitions take them from here; those of the file
//! tree stand with its definitions.

/// How many bytes the name of a principal or of a predicate may have.
pub const LONGEST_WORD: usize = 32;

/// How many bytes a text constant may have.
pub const LONGEST_TEXT: usize = 128;

/// The first second of the range of moments: 0001-01-01T00:00:00Z.
pub const FIRST_MOMENT: i64 = -62_135_596_800;

/// The last second of the range of moments: 9999-12-31T23:59:59Z.
pub const LAST_MOMENT: i64 = 253_402_300_799;

/// How many nodes a formula may have: its formulas and terms.
pub const MOST_FORMULA_NODES: u16 = 512;

/// How many arguments an atom may have.
pub const MOST_ARGUMENTS: usize = 8;

/// How many nodes a proof may have, one for each use of a rule.
pub const MOST_PROOF_NODES: u16 = 4096;

/// How many nodes there may be from the root of a proof down to the farthest, both counted.
pub const MOST_PROOF_LEVELS: u8 = 200;

/// How many conditions a grant may have, those on time and those on the server's state together.
pub const MOST_CONDITIONS: usize = 64;

/// How many statements may be cited together.
pub const MOST_CITED: usize = 64;

/// How many statements may be registered.
pub const MOST_STATEMENTS: usize = 4096;

/// How high the tree of hashes under a key may be.
pub const HIGHEST_TREE: u8 = 8;

/// How many bytes a key of seals or of a principal may have.
pub const MOST_KEY_BYTES: usize = 1024;

/// How many bytes a signature may have.
pub const LONGEST_SIGNATURE: usize = 32_768;

/// How many bytes may be read or written at once.
pub const MOST_BYTES_AT_ONCE: usize = 65_536;

/// How many bytes a line may have without its end.
pub const LONGEST_LINE: usize = 262_144;

/// How many events there may be, and as many generations of a store.
pub const MOST_EVENTS: u64 = 0xffff_ffff_ffff;

/// How many bytes an area of the journal may have.
pub const MOST_AREA_BYTES: u64 = 67_108_864;

/// How many bytes one message between two programs may carry.
pub const LONGEST_MESSAGE: usize = 1_048_576;
