//! In which mode a line is said.

ghost use Rattle.std.specs.Prelude.{◌≡◌};
ghost use Rattle.line_forms.specs.Modes.{modes_of, is_admin, is_in, is_session};

use crate::forms::Form;
use bl_syntax::Principal;

/// In which mode a line is said.
#[derive(Clone, Copy, Debug, PartialEq, Eq)]
pub enum Mode {
    /// By an operator, in a script.
    Operator,
    /// In a session in which nobody is logged in. Its lines are those of a session.
    Guest,
    /// In a session, by this principal.
    User(Principal),
    /// In an inquiry.
    Inquiry,
}

/// In which modes a form is known.
#[derive(Clone, Copy, Debug, PartialEq, Eq)]
pub struct Modes {
    /// In scripts.
    pub operator: bool,
    /// In sessions, before a login and after it.
    pub session: bool,
    /// Of those who are logged in, `admin` alone.
    pub of_admin_alone: bool,
    /// In inquiries.
    pub inquiry: bool,
}

const OPERATOR: Modes = Modes {
    operator: true,
    session: false,
    of_admin_alone: false,
    inquiry: false,
};

const SESSION: Modes = Modes {
    operator: false,
    session: true,
    of_admin_alone: false,
    inquiry: false,
};

const BOTH: Modes = Modes {
    operator: true,
    session: true,
    of_admin_alone: false,
    inquiry: false,
};

const OF_ADMIN: Modes = Modes {
    operator: true,
    session: true,
    of_admin_alone: true,
    inquiry: false,
};

const INQUIRY: Modes = Modes {
    operator: false,
    session: false,
    of_admin_alone: false,
    inquiry: true,
};

/// In which modes lines of that form are known.
pub fn modes_of(form: Form) -> Modes
    ensures { result ≡ modes_of form }
{
    match form {
        Form::At => OPERATOR,
        Form::As => OPERATOR,
        Form::Login => SESSION,
        Form::Register => BOTH,
        Form::Withdraw => BOTH,
        Form::Procap => BOTH,
        Form::Checkpoint => OF_ADMIN,
        Form::Verify => BOTH,
        Form::Check => OPERATOR,
        Form::Do(_) => BOTH,
        Form::Statement => INQUIRY,
        Form::Goal => INQUIRY,
    }
}

// Whether the principal is `admin`.
fn is_admin(who: &Principal) -> bool
    ensures { result ≡ is_admin who.now }
{
    who.bytes() == b"admin".as_slice()
}

/// Whether the mode is one of these.
pub fn is_in(mode: &Mode, modes: Modes) -> bool
    ensures { result ≡ is_in mode.now modes }
{
    match mode {
        Mode::Operator => modes.operator,
        Mode::Guest => modes.session,
        Mode::User(who) => modes.session && (!modes.of_admin_alone || is_admin(who)),
        Mode::Inquiry => modes.inquiry,
    }
}

/// Whether lines are said in a session, where signatures and procaps have to be written out.
pub fn is_session(mode: &Mode) -> bool
    ensures { result ≡ is_session mode.now }
{
    match mode {
        Mode::Operator => false,
        Mode::Guest => true,
        Mode::User(_) => true,
        Mode::Inquiry => false,
    }
}
