//! The tests of each kind of request, in their order.

ghost use Rattle.std.specs.Prelude.{◌≡◌, is_some};
ghost use Rattle.nine_fids.specs.Errors.{first_holding};
ghost use Rattle.nine_fids.specs.States.{is_there};
ghost use Rattle.nine_fids.specs.Tests.{is_at_control, is_open, is_at_directory, is_readable, is_writable, lacks_login, lacks_procap, is_without_login, is_without_procap, brings_procap, is_tree_name, has_names, attach_tests, walk_tests, open_tests, read_tests, write_tests, clunk_tests};

use crate::connection::Connection;
use crate::control::Control;
use crate::error::{NineError, first_holding};
use crate::fid::{Fid, FidFile, is_control_file, is_directory_file, may_read, may_write};
use crate::limits::{LAST_MODE, MOST_NAMES, NO_FID};
use bl_syntax::Perm;
use nine_messages::Names;

pub(crate) fn is_at_control(fid: Option<Fid>) -> bool
    ensures { result ≡ is_at_control fid }
{
    match fid {
        None => false,
        Some(it) => is_control_file(it.file),
    }
}

fn is_open(fid: Option<Fid>) -> bool
    ensures { result ≡ is_open fid }
{
    match fid {
        None => false,
        Some(it) => it.mode.is_some(),
    }
}

fn is_at_directory(fid: Option<Fid>) -> bool
    ensures { result ≡ is_at_directory fid }
{
    match fid {
        None => false,
        Some(it) => is_directory_file(it.file),
    }
}

fn is_readable(fid: Option<Fid>) -> bool
    ensures { result ≡ is_readable fid }
{
    match fid {
        None => false,
        Some(it) => may_read(it.mode),
    }
}

pub(crate) fn is_writable(fid: Option<Fid>) -> bool
    ensures { result ≡ is_writable fid }
{
    match fid {
        None => false,
        Some(it) => may_write(it.mode),
    }
}

fn brings_procap(asked: &Option<Control>) -> bool
    ensures { result ≡ brings_procap asked.now }
{
    match asked {
        None => false,
        Some(Control::Login(..)) => false,
        Some(Control::Brings(_)) => true,
        Some(Control::Empties) => false,
    }
}

fn is_tree_name(aname: &[u8]) -> bool
    ensures { result ≡ is_tree_name aname.now }
{
    aname == b"".as_slice() || aname == b"ctl".as_slice()
}

pub(crate) fn has_names(names: &Names<'_>) -> bool
    ensures { result ≡ has_names names.now }
{
    match names.split_first() {
        None => false,
        Some(_) => true,
    }
}

impl Connection {
    fn is_there(&self, number: u32) -> bool
        ensures { result ≡ is_there self.now number }
    {
        self.fids.get(number).is_some()
    }

    fn lacks_login(&self, file: FidFile) -> bool
        ensures { result ≡ lacks_login self.now file }
    {
        match file {
            FidFile::Control => false,
            FidFile::Node(..) => self.caller.is_none(),
        }
    }

    fn lacks_procap(&self, permission: Perm, file: FidFile) -> bool
        ensures { result ≡ lacks_procap self.now permission file }
    {
        match file {
            FidFile::Control => false,
            FidFile::Node(node, _) => match &self.caller {
                None => true,
                Some(who) => !self.purse.has_fitting(who, node, permission),
            },
        }
    }

    fn is_without_login(&self, fid: Option<Fid>) -> bool
        ensures { result ≡ is_without_login self.now fid }
    {
        match fid {
            None => false,
            Some(it) => self.lacks_login(it.file),
        }
    }

    fn is_without_procap(&self, permission: Perm, fid: Option<Fid>) -> bool
        ensures { result ≡ is_without_procap self.now permission fid }
    {
        match fid {
            None => false,
            Some(it) => self.lacks_procap(permission, it.file),
        }
    }

    /// Why a Tattach is refused.
    pub(crate) fn attach_refusal(&self, fid: u32, afid: u32, aname: &[u8]) -> Option<NineError>
        ensures { result ≡ first_holding (attach_tests self.now fid afid aname.now) }
    {
        first_holding(&[
            (!(afid == NO_FID), NineError::NotServed),
            (!self.is_agreed, NineError::VersionFirst),
            (self.is_there(fid), NineError::FidInUse),
            (self.fids.is_full(), NineError::TooManyFids),
            (!is_tree_name(aname), NineError::NoSuchTree),
        ])
    }

    /// Why a Twalk is refused.
    pub(crate) fn walk_refusal(&self, fid: u32, newfid: u32, names: &Names<'_>) -> Option<NineError>
        ensures { result ≡ first_holding (walk_tests self.now fid newfid names.now) }
    {
        let found = self.fids.get(fid);
        let named = has_names(names);
        let is_other = !(fid == newfid);
        first_holding(&[
            (!self.is_agreed, NineError::VersionFirst),
            (!self.is_there(fid), NineError::NoFid),
            (is_other & self.is_there(newfid), NineError::FidInUse),
            (is_other & self.fids.is_full(), NineError::TooManyFids),
            (MOST_NAMES < names.len(), NineError::TooManyNames),
            (is_open(found), NineError::IsOpen),
            (named & is_at_control(found), NineError::NoControl),
            (named & self.is_without_login(found), NineError::NotLoggedIn),
            (
                named & self.is_without_procap(Perm::Execute, found),
                NineError::NoProcap,
            ),
        ])
    }

    /// Why a Topen is refused.
    pub(crate) fn open_refusal(&self, fid: u32, mode: u8) -> Option<NineError>
        ensures { result ≡ first_holding (open_tests self.now fid mode) }
    {
        let found = self.fids.get(fid);
        first_holding(&[
            (!self.is_agreed, NineError::VersionFirst),
            (!self.is_there(fid), NineError::NoFid),
            (is_open(found), NineError::IsOpen),
            (is_at_directory(found), NineError::IsDirectory),
            (LAST_MODE < mode, NineError::OtherMode),
        ])
    }

    /// Why a Tread is refused.
    pub(crate) fn read_refusal(&self, fid: u32) -> Option<NineError>
        ensures { result ≡ first_holding (read_tests self.now fid) }
    {
        let found = self.fids.get(fid);
        first_holding(&[
            (!self.is_agreed, NineError::VersionFirst),
            (!self.is_there(fid), NineError::NoFid),
            (!is_readable(found), NineError::NotOpen),
            (self.is_without_login(found), NineError::NotLoggedIn),
            (
                self.is_without_procap(Perm::Read, found),
                NineError::NoProcap,
            ),
        ])
    }

    /// Why a Twrite is refused that asks this of the control file.
    pub(crate) fn write_refusal(&self, asked: &Option<Control>, fid: u32) -> Option<NineError>
        ensures { result ≡ first_holding (write_tests self.now asked.now fid) }
    {
        let found = self.fids.get(fid);
        first_holding(&[
            (!self.is_agreed, NineError::VersionFirst),
            (!self.is_there(fid), NineError::NoFid),
            (!is_writable(found), NineError::NotOpen),
            (is_at_control(found) & asked.is_none(), NineError::NoControl),
            (
                brings_procap(asked) & self.purse.is_full(),
                NineError::PurseFull,
            ),
            (self.is_without_login(found), NineError::NotLoggedIn),
            (
                self.is_without_procap(Perm::Write, found),
                NineError::NoProcap,
            ),
        ])
    }

    /// Why a Tclunk is refused.
    pub(crate) fn clunk_refusal(&self, fid: u32) -> Option<NineError>
        ensures { result ≡ first_holding (clunk_tests self.now fid) }
    {
        first_holding(&[
            (!self.is_agreed, NineError::VersionFirst),
            (!self.is_there(fid), NineError::NoFid),
        ])
    }
}
