use am_base::NoMemory;
use am_base::name::Name;
use am_directory::command::Command;
use am_directory::replica::Replica;
use am_group::event::{Act, Event};
use am_world::world::{World, WorldRefusal};
use std::alloc::Global;

/// A place takes what comes next, and its replica is fed with that; whether there was something.
pub fn take(world: &mut World, place: Name, replica: &mut Replica) -> Result<bool, WorldRefusal> {
    let Some((number, entry)) = world.take(place)? else {
        return Ok(false);
    };
    replica.feed(number, &entry)?;
    Ok(true)
}

/// A place sends a command, where its key and its value are within their limits; whether they are.
pub fn put(
    world: &mut World,
    alloc: Global,
    place: Name,
    command: &Command,
) -> Result<bool, WorldRefusal> {
    let Some(body) = command.to_body() else {
        return Ok(false);
    };
    world.step(&Event {
        node: place,
        act: Act::send(alloc, body)?,
    })?;
    Ok(true)
}
