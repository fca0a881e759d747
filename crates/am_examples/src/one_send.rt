use am_base::body::Body;
use am_base::founding::Founding;
use am_base::name::Name;
use am_group::event::{Act, Event};
use am_world::settle::hear_all;
use am_world::world::{World, WorldRefusal};
use std::alloc::Global;

/// Place 1 sends, and each node hears what is for it; how many entries the group list has then.
pub fn one_send(alloc: Global, founding: &Founding, body: Body) -> Result<usize, WorldRefusal> {
    let mut world = World::new(alloc, founding)?;
    world.step(&Event {
        node: Name::of_byte(1),
        act: Act::send(alloc, body)?,
    })?;
    hear_all(&mut world, 0)?;
    Ok(world.group().len())
}
