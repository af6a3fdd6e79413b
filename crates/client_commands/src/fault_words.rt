//! What is wrong with words that `clap` does not take, in one line.

use clap::Error;
use clap::error::ErrorKind;
use std::alloc::{AllocError, Global};

// The word between the first quotes of a text.
fn quoted_in(text: &str) -> &str {
    match text.split_once('\'') {
        Some((_, rest)) => match rest.split_once('\'') {
            Some((word, _)) => word,
            None => rest,
        },
        None => "",
    }
}

// The name of an argument, without the signs round it.
fn bare(word: &str) -> &str {
    let front = match word.trim().strip_prefix('<') {
        Some(rest) => rest,
        None => word.trim(),
    };
    match front.split_once('>') {
        Some((name, _)) => name,
        None => front,
    }
}

// The names of the arguments that are missing.
fn put_missing(out: &mut String, text: &str) -> Result<(), AllocError> {
    out.push_str("the following arguments are required: ")?;
    let mut is_first = true;
    for line in text.lines().skip(1) {
        if line.trim().is_empty() {
            break;
        }
        if !is_first {
            out.push_str(", ")?;
        }
        out.push_str(bare(line))?;
        is_first = false;
    }
    Ok(())
}

fn put_first_line(out: &mut String, text: &str) -> Result<(), AllocError> {
    match text.lines().next() {
        Some(line) => match line.strip_prefix("error: ") {
            Some(fault) => out.push_str(fault),
            None => out.push_str(line),
        },
        None => Ok(()),
    }
}

/// What is wrong with the words.
pub fn fault_words(alloc: Global, error: &Error) -> Result<String, AllocError> {
    let text = error.to_string(alloc)?;
    let mut out = String::new(alloc);
    match error.kind() {
        ErrorKind::InvalidSubcommand => {
            out.push_str("argument COMMAND: invalid choice: '")?;
            out.push_str(quoted_in(text.as_str()))?;
            out.push('\'')?;
        }
        ErrorKind::MissingSubcommand => {
            out.push_str("the following arguments are required: COMMAND")?;
        }
        ErrorKind::MissingRequiredArgument => put_missing(&mut out, text.as_str())?,
        _ => put_first_line(&mut out, text.as_str())?,
    }
    out.push_str("; see pcfs-client --help")?;
    Ok(out)
}
