//! Where nodes hang, and their paths.

ghost use Rattle.std.specs.Prelude.{◌≡◌, ◌++◌, Some, IfOk, IsTrue, OnOk, codes, map};
ghost use Rattle.std.specs.Option.{option_map};
ghost use Rattle.file_world.specs.World.{tree_of};
ghost use Rattle.node_rows.specs.Rows.{tree_row};
ghost use Rattle.history_table.specs.Path.{path_of, path_text, place_at, place_in};

use bl_syntax::decimal::put_text;
use bl_syntax::{Bytes, NoMemory, NodeId, Short};
use file_world::{LONGEST_NAME, MOST_NODES, ROOT_NUMBER};
use node_rows::TreeRow;
use std::alloc::{AllocFailed, Global};
use std::collections::BTreeMap;
use world_state::World;

/// Where a node hangs: the number of its directory, and its name there.
#[derive(Clone, Copy, Debug)]
pub struct Spot {
    pub directory: u64,
    pub name: Short<64>,
}

/// Where nodes were when they were last seen. A guess is tested before it is taken, so nothing but speed rests on it.
#[derive(Drop)]
pub struct Guesses {
    spots: BTreeMap<u64, Spot>,
}

impl Guesses {
    /// Where the nodes of a world are.
    pub fn of_world(alloc: Global, world: &World) -> Result<Guesses, NoMemory> {
        let mut guesses = Guesses {
            spots: BTreeMap::new(alloc),
        };
        let rows = world.tree().to_rows(alloc)?;
        for row in rows.as_slice() {
            guesses.put(row.number.0, row.parent, row.name)?;
        }
        Ok(guesses)
    }

    fn put(&mut self, number: u64, directory: u64, name: Short<64>) -> Result<(), NoMemory> {
        let put: Result<Option<Spot>, AllocFailed<(u64, Spot)>> = self
            .spots
            .insert(number, Spot { directory, name });
        match put {
            Ok(_) => Ok(()),
            Err(_) => Err(NoMemory),
        }
    }

    /// Guesses that the node will be in that directory under that name. A name that is too long is none.
    pub fn expect(&mut self, number: u64, directory: u64, name: &[u8]) -> Result<(), NoMemory> {
        if name.len() > LONGEST_NAME {
            return Ok(());
        }
        self.put(number, directory, Short::new(name))
    }

    // Where the node was when it was last seen.
    fn find(&self, number: u64) -> Option<Spot> {
        self.spots.get(&number).copied()
    }
}

// The place of the node of that number among these rows.
fn spot_among(rows: &[TreeRow], number: u64) -> Option<Spot>
    ensures { option_map place_in result ≡ place_at (map tree_row rows.now) number }
{
    for row in rows {
        if row.number.0 == number {
            return Some(Spot {
                directory: row.parent,
                name: row.name,
            });
        }
    }
    None
}

// Whether the node of that number is there.
fn is_there(world: &World, number: u64, spot: &Spot) -> bool
    ensures { IsTrue result →
        place_at (tree_of world.now.world).rows number ≡ Some (place_in spot.now) }
{
    match world
        .tree()
        .child(NodeId(spot.directory), spot.name.bytes())
    {
        Some(child) => child.0 == number,
        None => false,
    }
}

// Where the node of that number hangs; none exactly if there is no such node.
fn spot_of(
    alloc: Global,
    world: &World,
    guesses: &Guesses,
    number: u64,
) -> Result<Option<Spot>, NoMemory>
    ensures { IfOk result (λ spot. option_map place_in spot ≡ place_at (tree_of world.now.world).rows number) }
{
    if let Some(spot) = guesses.find(number) {
        if is_there(world, number, &spot) {
            return Ok(Some(spot));
        }
    }
    let rows = world.tree().to_rows(alloc)?;
    Ok(spot_among(rows.as_slice(), number))
}

// Adds a name after a slash.
fn put_name(path: &mut Bytes, name: &Short<64>) -> Result<(), NoMemory>
    ensures { OnOk result (path.new ≡ path.old ++ (codes "/" ++ name.now)) }
{
    put_text(path, "/")?;
    path.extend(name.bytes())
}

// The names, from the last to the first, each after a slash; a slash alone, if there are none.
fn joined(alloc: Global, names: &[Short<64>]) -> Result<Bytes, NoMemory>
    ensures { IfOk result (λ path. path ≡ path_text names.now) }
{
    let mut path = Bytes::new(alloc);
    if names.is_empty() {
        put_text(&mut path, "/")?;
        return Ok(path);
    }
    let mut left = names.len();
    'names: while 0 < left {
        left -= 1;
        put_name(&mut path, &names[left])?;
    }
    Ok(path)
}

/// The path of the node of that number; none exactly if there is no such node.
pub fn path_of(
    alloc: Global,
    world: &World,
    guesses: &Guesses,
    number: u64,
) -> Result<Option<Bytes>, NoMemory>
    ensures { IfOk result (λ path. path ≡ path_of (tree_of world.now.world).rows number) }
{
    let mut names = Vec::new(alloc);
    let mut at = number;
    let mut steps = MOST_NODES;
    'up: while 0 < steps {
        if at == ROOT_NUMBER {
            return Ok(Some(joined(alloc, names.as_slice())?));
        }
        steps -= 1;
        match spot_of(alloc, world, guesses, at)? {
            Some(spot) => {
                names.push(spot.name)?;
                at = spot.directory;
            }
            None => return Ok(None),
        }
    }
    Ok(None)
}
