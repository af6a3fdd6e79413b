//! Fids, and what they stand for.

ghost use Rattle.std.specs.Prelude.{◌≡◌};
ghost use Rattle.nine_fids.specs.Files.{is_control_file, is_directory_file, may_read, may_write, mode_of, qid_of, closed};

use bl_syntax::NodeId;
use nine_messages::Qid;

/// What a fid stands for.
#[derive(Clone, Copy, Debug, PartialEq, Eq)]
pub enum FidFile {
    /// The control file.
    Control,
    /// A node, and whether it was a directory when it was walked to.
    Node(NodeId, bool),
}

/// In which direction a fid is open.
#[derive(Clone, Copy, Debug, PartialEq, Eq)]
pub enum OpenMode {
    /// For reading.
    Reading,
    /// For writing.
    Writing,
    /// For both.
    Both,
}

/// What a fid stands for, and how it is open, if it is.
#[derive(Clone, Copy, Debug, PartialEq, Eq)]
pub struct Fid {
    pub file: FidFile,
    pub mode: Option<OpenMode>,
}

const DIRECTORY_KIND: u8 = 128;

/// Which file it is to a client.
pub fn qid_of(file: FidFile) -> Qid
    ensures { result ≡ qid_of file }
{
    match file {
        FidFile::Control => Qid {
            kind: 0,
            version: 0,
            path: 0,
        },
        FidFile::Node(node, is_directory) => Qid {
            kind: if is_directory { DIRECTORY_KIND } else { 0 },
            version: 0,
            path: node.0,
        },
    }
}

/// A fid that stands for the file and is not open.
pub(crate) fn closed(file: FidFile) -> Fid
    ensures { result ≡ closed file }
{
    Fid { file, mode: None }
}

pub(crate) fn is_control_file(file: FidFile) -> bool
    ensures { result ≡ is_control_file file }
{
    match file {
        FidFile::Control => true,
        FidFile::Node(..) => false,
    }
}

pub(crate) fn is_directory_file(file: FidFile) -> bool
    ensures { result ≡ is_directory_file file }
{
    match file {
        FidFile::Control => false,
        FidFile::Node(_, is_directory) => is_directory,
    }
}

pub(crate) fn may_read(mode: Option<OpenMode>) -> bool
    ensures { result ≡ may_read mode }
{
    match mode {
        None => false,
        Some(OpenMode::Reading) => true,
        Some(OpenMode::Writing) => false,
        Some(OpenMode::Both) => true,
    }
}

pub(crate) fn may_write(mode: Option<OpenMode>) -> bool
    ensures { result ≡ may_write mode }
{
    match mode {
        None => false,
        Some(OpenMode::Reading) => false,
        Some(OpenMode::Writing) => true,
        Some(OpenMode::Both) => true,
    }
}

/// How a Topen with this mode opens.
pub(crate) fn mode_of(mode: u8) -> OpenMode
    ensures { result ≡ mode_of mode }
{
    if mode == 0 {
        OpenMode::Reading
    } else if mode == 1 {
        OpenMode::Writing
    } else {
        OpenMode::Both
    }
}
