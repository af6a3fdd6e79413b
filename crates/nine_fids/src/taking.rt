//! What each request comes to: the tests of its kind, and what is done if none holds.

ghost use Rattle.std.specs.Prelude.{◌≡◌, ◌<◌, ◌^◌, length, true, IfOk, OnErr};
ghost use Rattle.nine_messages.specs.Requests.{IsRequest, twrite};
ghost use Rattle.nine_messages.specs.Views.{request_view};
ghost use Rattle.nine_fids.specs.Control.{BeginsToBring, line_in};
ghost use Rattle.nine_fids.specs.Memory.{IsOperation, MayLackMemory};
ghost use Rattle.nine_fids.specs.States.{without_fid};
ghost use Rattle.nine_fids.specs.Tests.{IsAskedAt, takes_lines, version_tests, attach_tests, flush_tests, walk_tests, open_tests, read_tests, clunk_tests};
ghost use Rattle.nine_fids.specs.Steps.{tested, version_outcome, attach_outcome, answered, walk_outcome, open_outcome, read_outcome};
ghost use Rattle.nine_fids.specs.declared.step.Answer.TheVariants as answers;
ghost use Rattle.nine_fids.specs.Taking.{IsTaken, IsWritten};

use crate::connection::Connection;
use crate::control::{Control, read_control};
use crate::error::{NineError, first_holding};
use crate::fid::Fid;
use crate::serving::file_named;
use crate::step::{Answer, Step};
use crate::tests_of_requests::{is_at_control, is_writable};
use bl_syntax::NoMemory;
use nine_messages::{LEAST_SIZE, Names, Request};
use std::alloc::Global;

// What a write asks of the control file, if it writes a line of it: a version is agreed, and it is open for writing.
fn asked_at(
    alloc: Global,
    agreed: bool,
    found: Option<Fid>,
    bytes: &[u8],
) -> Result<Option<Control>, NoMemory>
    ensures ok { IfOk result (IsAskedAt agreed found bytes.now) }
    ensures err { OnErr result ((takes_lines agreed found ≡ true) × BeginsToBring (line_in bytes.now)) }
{
    let is_asked = agreed & (is_at_control(found) & is_writable(found));
    if is_asked {
        read_control(alloc, bytes)
    } else {
        Ok(None)
    }
}

impl Connection {
    fn version(&mut self, msize: u32, version: &[u8]) -> Step
        ensures { (result, self.new) ≡ tested self.old (version_tests msize) (version_outcome self.old msize version.now) }
    {
        match first_holding(&[(msize < LEAST_SIZE, NineError::LowSize)]) {
            Some(error) => Step::Refused(error),
            None => self.agree(msize, version),
        }
    }

    fn attach(&mut self, fid: u32, afid: u32, aname: &[u8]) -> Step
        ensures { (result, self.new) ≡ tested self.old (attach_tests self.old fid afid aname.now) (attach_outcome self.old fid aname.now) }
    {
        match self.attach_refusal(fid, afid, aname) {
            Some(error) => Step::Refused(error),
            None => {
                let file = file_named(aname);
                self.attach_file(fid, file)
            }
        }
    }

    fn flush(&self) -> Step
        ensures { (result, self.now) ≡ tested self.now (flush_tests self.now) (answered answers.Flush self.now) }
    {
        match first_holding(&[(!self.is_agreed, NineError::VersionFirst)]) {
            Some(error) => Step::Refused(error),
            None => Step::Answered(Answer::Flush),
        }
    }

    fn walk(&mut self, fid: u32, newfid: u32, names: &Names<'_>) -> Step
        ensures { (result, self.new) ≡ tested self.old (walk_tests self.old fid newfid names.now) (walk_outcome self.old fid newfid names.now) }
    {
        match self.walk_refusal(fid, newfid, names) {
            Some(error) => Step::Refused(error),
            None => self.walk_at(fid, newfid, names),
        }
    }

    fn open(&mut self, fid: u32, mode: u8) -> Step
        ensures { (result, self.new) ≡ tested self.old (open_tests self.old fid mode) (open_outcome self.old fid mode) }
    {
        match self.open_refusal(fid, mode) {
            Some(error) => Step::Refused(error),
            None => self.open_at(fid, mode),
        }
    }

    fn read(&self, alloc: Global, fid: u32, offset: u64, count: u32) -> Result<Step, NoMemory>
        ensures ok { IfOk result (λ step. (step, self.now) ≡ tested self.now (read_tests self.now fid) (read_outcome self.now fid offset count)) }
        ensures err { OnErr result (IsOperation (tested self.now (read_tests self.now fid) (read_outcome self.now fid offset count)).0) }
    {
        match self.read_refusal(fid) {
            Some(error) => Ok(Step::Refused(error)),
            None => self.read_at(alloc, fid, offset, count),
        }
    }

    fn write(
        &mut self,
        alloc: Global,
        fid: u32,
        offset: u64,
        bytes: &[u8],
    ) -> Result<Step, NoMemory>
        requires { length bytes.now < 2 ^ 32 }
        ensures ok { IfOk result (IsWritten self.old fid offset bytes.now self.new) }
        ensures err { OnErr result ((self.new ≡ self.old) × MayLackMemory self.old (twrite fid offset bytes.now)) }
    {
        let found = self.fids.get(fid);
        let asked = asked_at(alloc, self.is_agreed, found, bytes)?;
        let count = bytes.len() as u32;
        match self.write_refusal(&asked, fid) {
            Some(error) => Ok(Step::Refused(error)),
            None => self.write_at(alloc, asked, fid, offset, count),
        }
    }

    fn clunk(&mut self, fid: u32) -> Step
        ensures { (result, self.new) ≡ tested self.old (clunk_tests self.old fid) (answered answers.Clunk (without_fid self.old fid)) }
    {
        match self.clunk_refusal(fid) {
            Some(error) => Step::Refused(error),
            None => {
                self.fids.remove(fid);
                Step::Answered(Answer::Clunk)
            }
        }
    }

    /// Decides a request. What is answered at once has taken effect; before a walk there is room for the fid that it makes.
    /// No request but a Tread or a Twrite takes memory, and these only after their tests, or after those before the test of a
    /// line of the control file; if there is none, nothing has changed.
    pub fn take(&mut self, alloc: Global, request: &Request<'_>) -> Result<Step, NoMemory>
        requires { IsRequest (request_view request.now) }
        ensures ok { IfOk result (λ step. IsTaken self.old (request_view request.now) step self.new) }
        ensures err { OnErr result ((self.new ≡ self.old) × MayLackMemory self.old (request_view request.now)) }
    {
        match request {
            Request::Version(msize, version) => Ok(self.version(*msize, version)),
            Request::Attach(fid, afid, _, aname) => Ok(self.attach(*fid, *afid, aname)),
            Request::Flush(_) => Ok(self.flush()),
            Request::Walk(fid, newfid, names) => Ok(self.walk(*fid, *newfid, names)),
            Request::Open(fid, mode) => Ok(self.open(*fid, *mode)),
            Request::Read(fid, offset, count) => self.read(alloc, *fid, *offset, *count),
            Request::Write(fid, offset, bytes) => self.write(alloc, *fid, *offset, bytes),
            Request::Clunk(fid) => Ok(self.clunk(*fid)),
            Request::Other(..) => Ok(Step::Refused(NineError::NotServed)),
        }
    }
}
