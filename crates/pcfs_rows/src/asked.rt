//! Rows that read a line in another mode than that of scripts, and write what it asks for.

use crate::short_form::RowFault;
use crate::values::value_end;
use bl_syntax::{Bytes, Principal};
use line_forms::{Line, LineFault, Mode, read_line_in};
use line_wire::{GuestLine, LineReply, read_guest_line, write_reply};
use line_writing::write_line;
use std::alloc::Global;

// Adds the line that asks for this.
fn add_line_of(alloc: Global, asked: &Line, out: &mut Bytes) -> Result<(), RowFault> {
    value_end(write_line(alloc, asked, out))?;
    value_end(out.push(b'\n'))
}

// Adds the fault of a line.
fn add_line_fault(alloc: Global, fault: LineFault, out: &mut Bytes) -> Result<(), RowFault> {
    match fault {
        LineFault::NoMemory => Err(RowFault::NoMemory),
        _ => value_end(write_reply(alloc, out, &LineReply::Faulty(fault))),
    }
}

// Adds what the line asks for in the mode, or its first fault.
fn add_asked(alloc: Global, mode: &Mode, line: &[u8], out: &mut Bytes) -> Result<(), RowFault> {
    match read_line_in(alloc, mode, line) {
        Ok(asked) => add_line_of(alloc, &asked, out),
        Err(fault) => add_line_fault(alloc, fault, out),
    }
}

// Adds what becomes of the line before a login.
fn add_guest(alloc: Global, line: &[u8], out: &mut Bytes) -> Result<(), RowFault> {
    match read_guest_line(alloc, line) {
        GuestLine::Login(who, signature) => {
            add_line_of(alloc, &Line::Login(who, signature), out)
        }
        GuestLine::Answered(reply) => value_end(write_reply(alloc, out, &reply)),
    }
}

// Adds what the line of the principal of this name, who is logged in, asks for.
fn add_user(alloc: Global, name: &[u8], line: &[u8], out: &mut Bytes) -> Result<(), RowFault> {
    match Principal::new(name) {
        Some(who) => add_asked(alloc, &Mode::User(who), line, out),
        None => Err(RowFault::BadRow),
    }
}

/// Adds what is read of the line in the mode that the kind of row names.
pub fn add_read(alloc: Global, kind: &str, line: &[u8], out: &mut Bytes) -> Result<(), RowFault> {
    match kind {
        "guest" => add_guest(alloc, line, out),
        "user" => add_user(alloc, b"alice", line, out),
        "admin" => add_user(alloc, b"admin", line, out),
        "inquiry" => add_asked(alloc, &Mode::Inquiry, line, out),
        _ => Err(RowFault::BadRow),
    }
}
