//! The forms of lines: their names and the kinds of their words.

ghost use Rattle.std.specs.Prelude.{◌≡◌, ◌==◌};
ghost use Rattle.line_forms.specs.Forms.{form_named, tree_operation_named, attribute_operation_named, operation_named, kinds_of_operation, kinds_of, has_text};

use line_words::WordKind as Kind;

/// An operation on the file system, by its name.
#[derive(Clone, Copy, Debug, PartialEq, Eq)]
pub enum Operation {
    Read,
    Write,
    Truncate,
    List,
    Lookup,
    Create,
    Mkdir,
    Unlink,
    Rename,
    Getattr,
    Setattr,
    Delattr,
    Chown,
}

/// A form of lines.
#[derive(Clone, Copy, Debug, PartialEq, Eq)]
pub enum Form {
    At,
    As,
    Login,
    Register,
    Withdraw,
    Procap,
    Checkpoint,
    Verify,
    Check,
    Do(Operation),
    Statement,
    Goal,
}

/// The form of that name, but for `do`.
pub fn form_named(word: &[u8]) -> Option<Form>
    ensures { result ≡ form_named word.now }
{
    if word == b"at".as_slice() {
        Some(Form::At)
    } else if word == b"as".as_slice() {
        Some(Form::As)
    } else if word == b"login".as_slice() {
        Some(Form::Login)
    } else if word == b"register".as_slice() {
        Some(Form::Register)
    } else if word == b"withdraw".as_slice() {
        Some(Form::Withdraw)
    } else if word == b"procap".as_slice() {
        Some(Form::Procap)
    } else if word == b"checkpoint".as_slice() {
        Some(Form::Checkpoint)
    } else if word == b"verify".as_slice() {
        Some(Form::Verify)
    } else if word == b"check".as_slice() {
        Some(Form::Check)
    } else if word == b"statement".as_slice() {
        Some(Form::Statement)
    } else if word == b"goal".as_slice() {
        Some(Form::Goal)
    } else {
        None
    }
}

fn tree_operation_named(word: &[u8]) -> Option<Operation>
    ensures { result ≡ tree_operation_named word.now }
{
    if word == b"read".as_slice() {
        Some(Operation::Read)
    } else if word == b"write".as_slice() {
        Some(Operation::Write)
    } else if word == b"truncate".as_slice() {
        Some(Operation::Truncate)
    } else if word == b"list".as_slice() {
        Some(Operation::List)
    } else if word == b"lookup".as_slice() {
        Some(Operation::Lookup)
    } else if word == b"create".as_slice() {
        Some(Operation::Create)
    } else if word == b"mkdir".as_slice() {
        Some(Operation::Mkdir)
    } else if word == b"unlink".as_slice() {
        Some(Operation::Unlink)
    } else if word == b"rename".as_slice() {
        Some(Operation::Rename)
    } else {
        None
    }
}

fn attribute_operation_named(word: &[u8]) -> Option<Operation>
    ensures { result ≡ attribute_operation_named word.now }
{
    if word == b"getattr".as_slice() {
        Some(Operation::Getattr)
    } else if word == b"setattr".as_slice() {
        Some(Operation::Setattr)
    } else if word == b"delattr".as_slice() {
        Some(Operation::Delattr)
    } else if word == b"chown".as_slice() {
        Some(Operation::Chown)
    } else {
        None
    }
}

/// The operation of that name.
pub fn operation_named(word: &[u8]) -> Option<Operation>
    ensures { result ≡ operation_named word.now }
{
    match tree_operation_named(word) {
        Some(operation) => Some(operation),
        None => attribute_operation_named(word),
    }
}

// The kinds of the words after an operation's name: those of its arguments, and a procap for each place of its needs.
fn kinds_of_operation(operation: Operation) -> &'static [Kind]
    ensures { result.now ≡ kinds_of_operation operation }
{
    match operation {
        Operation::Read => &[Kind::Node, Kind::Offset, Kind::Most, Kind::Procap],
        Operation::Write => &[Kind::Node, Kind::Offset, Kind::Data, Kind::Procap],
        Operation::Truncate => &[Kind::Node, Kind::Len, Kind::Procap],
        Operation::List => &[Kind::Node, Kind::Procap],
        Operation::Lookup => &[Kind::Node, Kind::Name, Kind::Procap],
        Operation::Create => &[Kind::Node, Kind::Name, Kind::Procap],
        Operation::Mkdir => &[Kind::Node, Kind::Name, Kind::Procap],
        Operation::Unlink => &[Kind::Node, Kind::Name, Kind::Procap, Kind::Procap],
        Operation::Rename => &[
            Kind::Node,
            Kind::Name,
            Kind::Target,
            Kind::NewName,
            Kind::Procap,
            Kind::Procap,
            Kind::Procap,
        ],
        Operation::Getattr => &[Kind::Node, Kind::Name, Kind::Procap],
        Operation::Setattr => &[Kind::Node, Kind::Name, Kind::Value, Kind::Procap],
        Operation::Delattr => &[Kind::Node, Kind::Name, Kind::Procap],
        Operation::Chown => &[Kind::Node, Kind::Who, Kind::Procap],
    }
}

/// The kinds of the words after the name of a form.
pub fn kinds_of(form: Form) -> &'static [Kind]
    ensures { result.now ≡ kinds_of form }
{
    match form {
        Form::At => &[Kind::Second],
        Form::As => &[Kind::Who],
        Form::Login => &[Kind::Who, Kind::SignatureHex],
        Form::Register => &[Kind::Signature],
        Form::Withdraw => &[Kind::Number, Kind::Signature],
        Form::Procap => &[Kind::Issue],
        Form::Checkpoint => &[],
        Form::Verify => &[Kind::Who, Kind::Node, Kind::Permission, Kind::Cited],
        Form::Check => &[Kind::Who, Kind::Node, Kind::Permission, Kind::Cited],
        Form::Do(operation) => kinds_of_operation(operation),
        Form::Statement => &[],
        Form::Goal => &[Kind::Who, Kind::Node, Kind::Permission],
    }
}

/// Whether a text stands at the end of a line of that form.
pub fn has_text(form: Form) -> bool
    ensures { result ≡ has_text form }
{
    match form {
        Form::Register => true,
        Form::Verify => true,
        Form::Check => true,
        Form::Statement => true,
        Form::Goal => true,
        Form::At => false,
        Form::As => false,
        Form::Login => false,
        Form::Withdraw => false,
        Form::Procap => false,
        Form::Checkpoint => false,
        Form::Do(_) => false,
    }
}
