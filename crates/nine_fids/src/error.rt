//! Why a request is refused.

ghost use Rattle.std.specs.Prelude.{◌≡◌};
ghost use Rattle.nine_fids.specs.Errors.{error_text, first_holding};

/// Why a request is refused, in the order in which it is tested.
#[derive(Clone, Copy, Debug, PartialEq, Eq)]
pub enum NineError {
    /// A kind of request that is not served, or an authentication.
    NotServed,
    /// Messages of fewer than 512 bytes.
    LowSize,
    /// No version is agreed.
    VersionFirst,
    /// The fid stands for nothing.
    NoFid,
    /// The new fid stands for something.
    FidInUse,
    /// There are 1,024 fids.
    TooManyFids,
    /// A tree of another name.
    NoSuchTree,
    /// More than 16 names.
    TooManyNames,
    /// The fid is open.
    IsOpen,
    /// A directory is not opened.
    IsDirectory,
    /// A mode other than reading, writing and both.
    OtherMode,
    /// The fid is not open in that direction.
    NotOpen,
    /// A walk from the control file, or no line of it.
    NoControl,
    /// There are 64 procaps.
    PurseFull,
    /// Nobody is logged in.
    NotLoggedIn,
    /// No procap names who is logged in, the file and the permission.
    NoProcap,
}

impl NineError {
    /// The text of an Rerror; if nobody is logged in, the line of a session for that.
    pub fn text(self) -> &'static [u8]
        ensures { result.now ≡ error_text self }
    {
        match self {
            NineError::NotServed => b"not served",
            NineError::LowSize => b"msize",
            NineError::VersionFirst => b"version first",
            NineError::NoFid => b"no fid",
            NineError::FidInUse => b"fid in use",
            NineError::TooManyFids => b"too many fids",
            NineError::NoSuchTree => b"no such tree",
            NineError::TooManyNames => b"too many names",
            NineError::IsOpen => b"open",
            NineError::IsDirectory => b"directory",
            NineError::OtherMode => b"mode",
            NineError::NotOpen => b"not open",
            NineError::NoControl => b"control",
            NineError::PurseFull => b"purse full",
            NineError::NotLoggedIn => b"rejected 4",
            NineError::NoProcap => b"no procap",
        }
    }
}

/// The error of the first test that holds.
pub(crate) fn first_holding(tests: &[(bool, NineError)]) -> Option<NineError>
    ensures { result ≡ first_holding tests.now }
{
    match tests {
        [] => None,
        [first, others @ ..] => {
            if first.0 {
                Some(first.1)
            } else {
                first_holding(others)
            }
        }
    }
}
