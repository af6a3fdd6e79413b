//! Laws of the definitions. A law is the contract of an empty function, which nothing calls.

ghost use Rattle.pcfs_secrets.specs.Laws.{HasOneReading, HasOneFirstBad, IsNeverBoth, IsOneOrTheOther};

/// A secrets file has one meaning.
pub fn secrets_are_one()
    ensures { HasOneReading }
{}

/// There is one first bad line.
pub fn first_bad_line_is_one()
    ensures { HasOneFirstBad }
{}

/// A secrets file has no bad line.
pub fn never_both()
    ensures { IsNeverBoth }
{}

/// A text is a secrets file, or it has a first bad line.
pub fn one_or_the_other()
    ensures { IsOneOrTheOther }
{}
