//! Conditions on the state, in words.

use bl_syntax::{Bytes, NoMemory, StatePred, Term};
use bl_text::print_term;
use std::alloc::Global;

// Writes a term as it stands in a text.
fn put_term(alloc: Global, out: &mut String, term: &Term) -> Result<(), NoMemory> {
    let mut text = Bytes::new(alloc);
    print_term(term, &mut text)?;
    match std::str::from_utf8(text.as_slice()) {
        Ok(text) => out.push_str(text)?,
        Err(_) => {}
    }
    Ok(())
}

// Writes a text without its quotes, and any other term as it stands.
fn put_bare(alloc: Global, out: &mut String, term: &Term) -> Result<(), NoMemory> {
    match term {
        Term::Text(text) => match std::str::from_utf8(text.bytes()) {
            Ok(text) => {
                out.push_str(text)?;
                Ok(())
            }
            Err(_) => Ok(()),
        },
        _ => put_term(alloc, out, term),
    }
}

/// Writes what a condition on the state says.
pub fn put_state(alloc: Global, out: &mut String, state: &StatePred) -> Result<(), NoMemory> {
    match state {
        StatePred::Owner(file, owner) => {
            put_term(alloc, out, owner)?;
            out.push_str(" owns ")?;
            put_term(alloc, out, file)
        }
        StatePred::HasXattr(file, name, value) => {
            put_term(alloc, out, file)?;
            out.push_str(" has the attribute ")?;
            put_bare(alloc, out, name)?;
            out.push_str(" ")?;
            put_term(alloc, out, value)
        }
        StatePred::InDir(file, directory) => {
            put_term(alloc, out, file)?;
            out.push_str(" stands in ")?;
            put_term(alloc, out, directory)
        }
    }
}
