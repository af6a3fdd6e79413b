//! The replies that answers are.

ghost use Rattle.std.specs.Prelude.{◌≡◌};
ghost use Rattle.nine_messages.specs.Replies.{IsWritableReply};
ghost use Rattle.nine_messages.specs.Views.{reply_view};
ghost use Rattle.nine_fids.specs.Steps.{version_text, answer_view};

use crate::connection::Connection;
use crate::front::front_of;
use crate::step::Answer;
use nine_messages::Reply;

fn version_text(served: bool) -> &'static [u8]
    ensures { result.now ≡ version_text served }
{
    if served { b"9P2000" } else { b"unknown" }
}

impl Connection {
    /// The reply that an answer is. It lends the greeting.
    pub fn reply(&self, answer: Answer) -> Reply<'_>
        ensures reply { reply_view result ≡ answer_view self.now.nonce answer }
        ensures writable { IsWritableReply (reply_view result) }
    {
        match answer {
            Answer::Version(msize, served) => Reply::Version(msize, version_text(served)),
            Answer::Attach(qid) => Reply::Attach(qid),
            Answer::Flush => Reply::Flush,
            Answer::Walk => Reply::Walk(&[]),
            Answer::Open(qid) => Reply::Open(qid),
            Answer::Greeting(count) => Reply::Read(front_of(self.greeting(), count as usize)),
            Answer::Written(count) => Reply::Write(count),
            Answer::Clunk => Reply::Clunk,
        }
    }
}
