//! The history of a file server: its world, the events that change it, and what makes a history lawful.
//!
//! A history keeps lawful events alone, and its state is the one to which they lead. A statement that was withdrawn keeps
//! its number, and no later event rests on it. What the answer to a request is
//! stands here as a definition, and laws say what lawful histories and answers are worth.
#![tactic(auto)]

mod base;
mod citing;
mod copying;
mod event;
mod history;
mod issue_record;
mod keeping;
mod laws;
mod reply;
mod request;

pub use base::Base;
pub use citing::is_grant_of;
pub use copying::keep_copy;
pub use event::{Addition, Issue, Issues, Statements};
pub use history::History;
pub use issue_record::IssueRecord;
pub use laws::{
    admitted_operations_are_kept, answers_are_determined, answers_may_follow, fresh_is_lawful,
    gone_grants_are_denied, gone_grants_are_told, histories_keep_worlds,
    lawful_histories_are_rightful, named_grants_are_gone_by_their_names, requests_have_answers,
    states_are_lawful_bases, withdrawn_statements_stay_withdrawn,
};
pub use reply::{Denial, DenialCause, Rejection, StepReply};
pub use request::StepRequest;
