//! A file that takes the place of another.

ghost use Rattle.std.specs.Prelude.{All, IfOk};
ghost use Rattle.file_world.specs.declared.operation.Op.TheVariants as ops;
ghost use Rattle.client_tree.specs.Works.{AsksAsNeeded, IsWorkOf};

use crate::asking::{Client, Prepared, ROUNDS, Work, ask_all, note, prepare};
use crate::changes::{Spot, move_node, rename_work, unlink};
use crate::paths::{is_directory, now};
use crate::ports::Ports;
use crate::words::refused;
use bl_syntax::{NoMemory, NodeId};
use client_replies::{Cause, Denial, Reply, reply_of};
use client_words::Stop;
use std::alloc::Global;

// Removes the old file, in whose place another is now.
fn remove_aside<P: Ports + Drop>(
    client: &mut Client<P>,
    aside: &Spot<'_>,
    taken: NodeId,
) -> Result<(), Stop> {
    match unlink(client, aside, taken) {
        Ok(()) => Ok(()),
        Err(stop) => Err(left_aside(client.alloc, stop, aside)),
    }
}

fn left_aside(alloc: Global, stop: Stop, aside: &Spot<'_>) -> Stop {
    match left_words(alloc, aside) {
        Ok(words) => stop.with(words.as_str()),
        Err(_) => stop,
    }
}

fn left_words(alloc: Global, aside: &Spot<'_>) -> Result<String, NoMemory> {
    let path = aside.shown(alloc)?;
    let path = path.as_str();
    Ok(format!(in alloc; "; the old file is left as {path}, and another has its name")?)
}

// Gives the old file its name again, if it was taken away and none came in its place.
fn try_put_back<P: Ports + Drop>(
    client: &mut Client<P>,
    aside: &Spot<'_>,
    place: &Spot<'_>,
) -> Result<(), Stop> {
    let taken = match now(client, aside.directory, aside.parent, aside.name)? {
        Some(taken) => taken,
        None => return Ok(()),
    };
    match now(client, place.directory, place.parent, place.name)? {
        Some(_) => Ok(()),
        None => move_node(client, aside, place, taken),
    }
}

fn put_back<P: Ports + Drop>(client: &mut Client<P>, aside: &Spot<'_>, place: &Spot<'_>) {
    let _ = try_put_back(client, aside, place);
}

// The work that moves a file from one name to the other, where the user calls it by the second one.
fn rename<'a>(
    alloc: Global,
    from: &Spot<'a>,
    to: &Spot<'a>,
    place: &Spot<'a>,
    node: NodeId,
) -> Result<Work, NoMemory>
    ensures { IfOk result (IsWorkOf (ops.Rename from.now.directory from.now.name.now to.now.directory to.now.name.now)) }
{
    let what = place.shown(alloc)?;
    let needed = place.shown(alloc)?;
    rename_work(alloc, from, to, node, needed.as_str(), what)
}

// Notes a reply, if it denies a procap. A denial for another file says that the name has another node by now, and nothing of the
// procap.
fn note_reply<P: Ports + Drop>(
    client: &mut Client<P>,
    work: &Work,
    made: &Prepared,
    reply: &str,
) -> Result<(), Stop> {
    let rest = match reply_of(reply.as_bytes()) {
        Reply::Denied(rest) => rest,
        _ => return Ok(()),
    };
    let is_of_other_file = match Denial::of(client.alloc, rest)? {
        Some(denial) => match denial.cause {
            Cause::Another(kind) => kind == "file",
            _ => false,
        },
        None => false,
    };
    if is_of_other_file {
        Ok(())
    } else {
        note(client, work, made.words.as_slice(), reply, rest)
    }
}

// The lines of an exchange: the first moves the old file aside, if there is one, and the last gives the new one its name.
fn works<'a>(
    alloc: Global,
    hidden: &Spot<'a>,
    place: &Spot<'a>,
    aside: &Spot<'a>,
    node: NodeId,
    old: Option<NodeId>,
) -> Result<Vec<Work>, NoMemory>
    ensures { IfOk result (λ works. All AsksAsNeeded works.items) }
{
    let last = rename(alloc, hidden, place, place, node)?;
    match old {
        Some(old) => both(alloc, rename(alloc, place, aside, place, old)?, last),
        None => alone(alloc, last),
    }
}

fn alone(alloc: Global, work: Work) -> Result<Vec<Work>, NoMemory>
    requires { AsksAsNeeded work }
    ensures { IfOk result (λ works. All AsksAsNeeded works.items) }
{
    let mut works = Vec::new(alloc);
    works.push(work)?;
    Ok(works)
}

fn both(alloc: Global, first: Work, last: Work) -> Result<Vec<Work>, NoMemory>
    requires first { AsksAsNeeded first }
    requires last { AsksAsNeeded last }
    ensures { IfOk result (λ works. All AsksAsNeeded works.items) }
{
    let mut works = Vec::new(alloc);
    works.push(first)?;
    works.push(last)?;
    Ok(works)
}

// Sends the two lines at once, or the second alone if the name is free.
#[tactic(auto, using(crate::proofs::WorkLemmas::each_asks, crate::proofs::LineLemmas::prepared_is_asked, crate::proofs::LineLemmas::more_are_asked))]
fn exchange<P: Ports + Drop>(client: &mut Client<P>, works: &[Work]) -> Result<(), Stop>
    requires { All AsksAsNeeded works.now }
{
    let alloc = client.alloc;
    let mut all = Vec::new(alloc);
    let mut lines = Vec::new(alloc);
    for work in works {
        let made = prepare(client, work)?;
        lines.push(made.line.copy(alloc)?)?;
        all.push(made)?;
    }
    let replies = ask_all(client, lines.as_slice())?;
    for (place, made) in all.iter().enumerate() {
        match (works.get(place), replies.lines.get(place)) {
            (Some(work), Some(reply)) => note_reply(client, work, made, reply.as_str())?,
            _ => {}
        }
    }
    Ok(())
}

// Tests that the old node, if it is another than the last one, is no directory.
fn test_old<P: Ports + Drop>(
    client: &mut Client<P>,
    place: &Spot<'_>,
    old: NodeId,
    tested: Option<NodeId>,
) -> Result<(), Stop> {
    if tested == Some(old) {
        return Ok(());
    }
    let alloc = client.alloc;
    let whole = place.parent.below(alloc, place.name)?;
    if is_directory(client, old, &whole)? {
        let path = whole.shown(alloc)?;
        return Err(refused(
            alloc,
            &[
                path.as_str(),
                ": is a directory; write into it as ",
                path.as_str(),
                "/NAME",
            ],
        ));
    }
    Ok(())
}

// One try: the old node is tested, and the lines are sent.
fn try_exchange<P: Ports + Drop>(
    client: &mut Client<P>,
    hidden: &Spot<'_>,
    place: &Spot<'_>,
    aside: &Spot<'_>,
    node: NodeId,
    old: Option<NodeId>,
    tested: Option<NodeId>,
) -> Result<(), Stop> {
    match old {
        Some(old) => test_old(client, place, old, tested)?,
        None => {}
    }
    let both = works(client.alloc, hidden, place, aside, node, old)?;
    exchange(client, both.as_slice())
}

// Whether the try was refused, also about a node that is gone.
fn is_refusal(stop: &Stop) -> bool {
    matches!(stop, Stop::NoRight(_) | Stop::Refused(_))
}

// What is left after a try that failed: if the name has the same node as before it, the old file gets its name again.
fn failed<P: Ports + Drop>(
    client: &mut Client<P>,
    aside: &Spot<'_>,
    place: &Spot<'_>,
    old: Option<NodeId>,
    stop: Stop,
) -> Result<(), Stop> {
    if !is_refusal(&stop) {
        return Err(stop);
    }
    if now(client, place.directory, place.parent, place.name)? == old {
        put_back(client, aside, place);
        return Err(stop);
    }
    Ok(())
}

// One round: true, if the new file has the name.
fn round<P: Ports + Drop>(
    client: &mut Client<P>,
    hidden: &Spot<'_>,
    place: &Spot<'_>,
    aside: &Spot<'_>,
    node: NodeId,
    taken: &mut Option<NodeId>,
    tested: &mut Option<NodeId>,
) -> Result<bool, Stop> {
    let old = now(client, place.directory, place.parent, place.name)?;
    match (*taken, old) {
        (Some(moved), Some(_)) => remove_aside(client, aside, moved)?,
        _ => {}
    }
    if old == Some(node) {
        return Ok(true);
    }
    match try_exchange(client, hidden, place, aside, node, old, *tested) {
        Ok(()) => *tested = old,
        Err(stop) => failed(client, aside, place, old, stop)?,
    }
    *taken = now(client, aside.directory, aside.parent, aside.name)?;
    Ok(false)
}

/// Takes the old file away and gives the new one its name, by two lines that are sent at once, so that the name is missing for a
/// moment only; then removes the old one. The lines are sent again if one is denied, or somebody else was faster.
pub fn replace<P: Ports + Drop>(
    client: &mut Client<P>,
    hidden: &Spot<'_>,
    place: &Spot<'_>,
    node: NodeId,
) -> Result<(), Stop> {
    let name = client.ports.new_name(".old-")?;
    let aside = Spot {
        directory: place.directory,
        parent: place.parent,
        name: &name,
    };
    let mut taken = None;
    let mut tested = None;
    for _ in 0..ROUNDS {
        if round(client, hidden, place, &aside, node, &mut taken, &mut tested)? {
            return Ok(());
        }
    }
    put_back(client, &aside, place);
    let path = place.shown(client.alloc)?;
    Err(refused(
        client.alloc,
        &[path.as_str(), ": others replace it all the time; try again"],
    ))
}
