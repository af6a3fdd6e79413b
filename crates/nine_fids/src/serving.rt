//! What is done for a request that no test refuses.

ghost use Rattle.std.specs.Prelude.{◌≡◌, Some, true, IfOk, OnErr};
ghost use Rattle.nine_fids.specs.Fids.{HasRoomFor};
ghost use Rattle.nine_fids.specs.Steps.{is_served, read_len, file_named, version_outcome, attach_file, walk_names, walk_nowhere, walk_from, walk_outcome, open_file, open_outcome, read_node, read_file, read_outcome, control_done, control_outcome, write_node, write_file, write_outcome};
ghost use Rattle.nine_fids.specs.Memory.{IsOperation};
ghost use Rattle.nine_fids.specs.Taking.{CanWalk, HasRoomInPurse, IsCopied};
ghost use Rattle.nine_fids.specs.Tests.{brings_procap};

use crate::connection::Connection;
use crate::control::Control;
use crate::error::NineError;
use crate::fid::{Fid, FidFile, closed, mode_of, qid_of};
use crate::front::front_of;
use crate::step::{Answer, Step};
use crate::tests_of_requests::has_names;
use bl_syntax::{NoMemory, NodeId, Perm};
use nine_messages::{MOST_SIZE, Names};
use std::alloc::Global;

/// The number of the root.
const ROOT: u64 = 1;

/// How many bytes of an Rread are no data.
const READ_HEAD: u32 = 11;

// Whether the version is served, alone or before a dot.
fn is_served(version: &[u8]) -> bool
    ensures { result ≡ is_served version.now }
{
    version == b"9P2000".as_slice() || front_of(version, 7) == b"9P2000.".as_slice()
}

/// What a Tattach to a tree of that name makes a fid stand for.
pub(crate) fn file_named(aname: &[u8]) -> FidFile
    ensures { result ≡ file_named aname.now }
{
    if aname == b"".as_slice() {
        FidFile::Node(NodeId(ROOT), true)
    } else {
        FidFile::Control
    }
}

// How many bytes a Tread of a node reads at most.
fn read_len(msize: u32, count: u32) -> u32
    ensures { result ≡ read_len msize count }
{
    count.min(MOST_SIZE.min(msize.saturating_sub(READ_HEAD)))
}

// The names of a walk are to be walked, from a node.
fn walk_names(file: FidFile) -> Step
    ensures { result ≡ walk_names file }
{
    match file {
        FidFile::Control => Step::Refused(NineError::NoControl),
        FidFile::Node(node, _) => Step::Walk(node),
    }
}

impl Connection {
    /// All fids go, whatever the version.
    pub(crate) fn agree(&mut self, msize: u32, version: &[u8]) -> Step
        ensures { (result, self.new) ≡ version_outcome self.old msize version.now }
    {
        let served = is_served(version);
        let agreed = msize.min(MOST_SIZE);
        self.is_agreed = served;
        self.msize = agreed;
        self.fids.clear();
        Step::Answered(Answer::Version(agreed, served))
    }

    /// The fid stands for the file.
    pub(crate) fn attach_file(&mut self, fid: u32, file: FidFile) -> Step
        requires { HasRoomFor self.old.fids fid }
        ensures { (result, self.new) ≡ attach_file self.old fid file }
    {
        let made = closed(file);
        self.fids.put(fid, made);
        Step::Answered(Answer::Attach(qid_of(file)))
    }

    /// A walk of the names, from what the fid stands for.
    pub(crate) fn walk_at(&mut self, fid: u32, newfid: u32, names: &Names<'_>) -> Step
        requires { CanWalk self.old fid newfid }
        ensures { (result, self.new) ≡ walk_outcome self.old fid newfid names.now }
    {
        match self.fids.get(fid) {
            None => Step::Refused(NineError::NoFid),
            Some(it) => self.walk_from(fid, newfid, names, it.file),
        }
    }

    fn walk_from(&mut self, fid: u32, newfid: u32, names: &Names<'_>, file: FidFile) -> Step
        requires { CanWalk self.old fid newfid }
        ensures { (result, self.new) ≡ walk_from self.old fid newfid names.now file }
    {
        if has_names(names) {
            walk_names(file)
        } else {
            self.walk_nowhere(fid, newfid, file)
        }
    }

    // The new fid stands for the same file.
    fn walk_nowhere(&mut self, fid: u32, newfid: u32, file: FidFile) -> Step
        requires { CanWalk self.old fid newfid }
        ensures { (result, self.new) ≡ walk_nowhere self.old fid newfid file }
    {
        if fid == newfid {
            Step::Answered(Answer::Walk)
        } else {
            let made = closed(file);
            self.fids.put(newfid, made);
            Step::Answered(Answer::Walk)
        }
    }

    /// What the fid stands for is opened.
    pub(crate) fn open_at(&mut self, fid: u32, mode: u8) -> Step
        ensures { (result, self.new) ≡ open_outcome self.old fid mode }
    {
        match self.fids.get(fid) {
            None => Step::Refused(NineError::NoFid),
            Some(it) => self.open_file(fid, mode, it.file),
        }
    }

    fn open_file(&mut self, fid: u32, mode: u8, file: FidFile) -> Step
        requires { HasRoomFor self.old.fids fid }
        ensures { (result, self.new) ≡ open_file self.old fid mode file }
    {
        let opened = Fid {
            file,
            mode: Some(mode_of(mode)),
        };
        self.fids.put(fid, opened);
        Step::Answered(Answer::Open(qid_of(file)))
    }

    /// What the fid stands for is read.
    pub(crate) fn read_at(
        &self,
        alloc: Global,
        fid: u32,
        offset: u64,
        count: u32,
    ) -> Result<Step, NoMemory>
        ensures ok { IfOk result (λ step. (step, self.now) ≡ read_outcome self.now fid offset count) }
        ensures err { OnErr result (IsOperation (read_outcome self.now fid offset count).0) }
    {
        match self.fids.get(fid) {
            None => Ok(Step::Refused(NineError::NoFid)),
            Some(it) => self.read_file(alloc, offset, count, it.file),
        }
    }

    fn read_file(
        &self,
        alloc: Global,
        offset: u64,
        count: u32,
        file: FidFile,
    ) -> Result<Step, NoMemory>
        ensures ok { IfOk result (λ step. (step, self.now) ≡ read_file self.now offset count file) }
        ensures err { OnErr result (IsOperation (read_file self.now offset count file).0) }
    {
        match file {
            FidFile::Control => Ok(Step::Answered(Answer::Greeting(count))),
            FidFile::Node(node, _) => self.read_node(alloc, offset, count, node),
        }
    }

    fn read_node(
        &self,
        alloc: Global,
        offset: u64,
        count: u32,
        node: NodeId,
    ) -> Result<Step, NoMemory>
        ensures ok { IfOk result (λ step. (step, self.now) ≡ read_node self.now offset count node) }
        ensures err { OnErr result (IsOperation (read_node self.now offset count node).0) }
    {
        let len = read_len(self.msize, count);
        match self.fitting(alloc, node, Perm::Read)? {
            None => Ok(Step::Refused(NineError::NoProcap)),
            Some(p) => Ok(Step::Read(node, p, offset, len)),
        }
    }

    /// What the fid stands for is written, by so many bytes, which ask this of the control file.
    pub(crate) fn write_at(
        &mut self,
        alloc: Global,
        asked: Option<Control>,
        fid: u32,
        offset: u64,
        count: u32,
    ) -> Result<Step, NoMemory>
        requires { HasRoomInPurse self.old asked }
        ensures ok { IfOk result (λ step. (step, self.new) ≡ write_outcome self.old asked fid offset count) }
        ensures err { OnErr result ((self.new ≡ self.old) × IsCopied asked (write_outcome self.old asked fid offset count).0) }
    {
        match self.fids.get(fid) {
            None => Ok(Step::Refused(NineError::NoFid)),
            Some(it) => self.write_file(alloc, asked, offset, count, it.file),
        }
    }

    fn write_file(
        &mut self,
        alloc: Global,
        asked: Option<Control>,
        offset: u64,
        count: u32,
        file: FidFile,
    ) -> Result<Step, NoMemory>
        requires { HasRoomInPurse self.old asked }
        ensures ok { IfOk result (λ step. (step, self.new) ≡ write_file self.old asked offset count file) }
        ensures err { OnErr result ((self.new ≡ self.old) × IsCopied asked (write_file self.old asked offset count file).0) }
    {
        match file {
            FidFile::Control => self.control_asked(asked, count),
            FidFile::Node(node, _) => self.write_node(alloc, offset, node),
        }
    }

    fn write_node(&self, alloc: Global, offset: u64, node: NodeId) -> Result<Step, NoMemory>
        ensures ok { IfOk result (λ step. (step, self.now) ≡ write_node self.now offset node) }
        ensures err { OnErr result (IsOperation (write_node self.now offset node).0) }
    {
        match self.fitting(alloc, node, Perm::Write)? {
            None => Ok(Step::Refused(NineError::NoProcap)),
            Some(p) => Ok(Step::Write(node, p, offset)),
        }
    }

    // Does what a write of so many bytes asks of the control file, if it asks anything.
    fn control_asked(&mut self, asked: Option<Control>, count: u32) -> Result<Step, NoMemory>
        requires { HasRoomInPurse self.old asked }
        ensures ok { IfOk result (λ step. (step, self.new) ≡ control_outcome self.old count asked) }
        ensures err { OnErr result ((self.new ≡ self.old) × (brings_procap asked ≡ true)) }
    {
        match asked {
            None => Ok(Step::Refused(NineError::NoControl)),
            Some(control) => self.control(control, count),
        }
    }

    fn control(&mut self, control: Control, count: u32) -> Result<Step, NoMemory>
        requires { HasRoomInPurse self.old (Some control) }
        ensures ok { IfOk result (λ step. (step, self.new) ≡ control_done self.old count control) }
        ensures err { OnErr result ((self.new ≡ self.old) × (brings_procap (Some control) ≡ true)) }
    {
        match control {
            Control::Login(who, signature) => Ok(Step::Login(who, signature)),
            Control::Brings(p) => {
                self.purse.push(p)?;
                Ok(Step::Answered(Answer::Written(count)))
            }
            Control::Empties => {
                self.purse.clear();
                Ok(Step::Answered(Answer::Written(count)))
            }
        }
    }
}
