//! The limits of a connection that speaks 9P2000.

/// How many fids there may be.
pub const MOST_FIDS: usize = 1_024;

/// How many procaps the purse may have.
pub const MOST_PROCAPS: usize = 64;

/// How many names a walk may have.
pub const MOST_NAMES: usize = 16;

/// The fid of an authentication that there is not.
pub const NO_FID: u32 = 4_294_967_295;

/// The greatest mode of a Topen.
pub const LAST_MODE: u8 = 2;
