//! What is said of names and of procaps: until when, and while what.

use bl_syntax::{NoMemory, Principal, TimePoint};
use client_home::Pass;
use client_replies::{permission_name, put_moment, put_state};
use std::alloc::Global;

/// The name as a text.
pub fn name_text(name: &Principal) -> &str {
    match std::str::from_utf8(name.bytes()) {
        Ok(text) => text,
        Err(_) => "",
    }
}

// Writes until when a procap is good.
fn put_window(out: &mut String, pass: &Pass, now: i64) -> Result<(), NoMemory> {
    let (first, last) = match pass.window() {
        Some(ends) => ends,
        None => {
            out.push_str("good at no moment")?;
            return Ok(());
        }
    };
    match first {
        TimePoint::At(begin) if now < begin => {
            out.push_str("from ")?;
            put_moment(out, begin)?;
            out.push_str(", ")?;
        }
        _ => {}
    }
    match last {
        TimePoint::At(end) => {
            out.push_str("until ")?;
            put_moment(out, end)?;
        }
        _ => out.push_str("without end")?,
    }
    Ok(())
}

/// Until when a procap is good, and while what.
pub fn described(alloc: Global, pass: &Pass, now: i64) -> Result<String, NoMemory> {
    let mut out = String::new(alloc);
    put_window(&mut out, pass, now)?;
    let mut between = "; while ";
    for state in pass.procap.grant.states() {
        out.push_str(between)?;
        put_state(alloc, &mut out, state)?;
        between = " and ";
    }
    Ok(out)
}

fn put_ended(out: &mut String, pass: &Pass) -> Result<(), NoMemory> {
    match pass.window() {
        Some((_, TimePoint::At(end))) => {
            out.push_str("ended ")?;
            put_moment(out, end)?;
        }
        _ => out.push_str("good at no moment")?,
    }
    Ok(())
}

fn put_numbers(out: &mut String, numbers: &[u32]) -> Result<(), NoMemory> {
    let mut between = if numbers.len() > 1 {
        "; by statements "
    } else {
        "; by statement "
    };
    for number in numbers {
        let number = *number;
        write!(out, "{between}{number}")?;
        between = ",";
    }
    Ok(())
}

// Writes whose procap it is, where, and for what.
fn put_goal(out: &mut String, pass: &Pass) -> Result<(), NoMemory> {
    let who = name_text(&pass.goal.who);
    let server = pass.server.as_str();
    let permission = permission_name(pass.goal.perm);
    let node = pass.goal.file.0;
    let path = pass.path.as_str();
    write!(out, "{who} at {server}: {permission} #{node} {path}, ")?;
    Ok(())
}

/// The line of `procaps` for one.
pub fn pass_line(alloc: Global, pass: &Pass, now: i64) -> Result<String, NoMemory> {
    let mut out = String::new(alloc);
    put_goal(&mut out, pass)?;
    if pass.is_ended(now) {
        put_ended(&mut out, pass)?;
    } else {
        let words = described(alloc, pass, now)?;
        out.push_str(words.as_str())?;
    }
    put_numbers(&mut out, pass.numbers.as_slice())?;
    Ok(out)
}
