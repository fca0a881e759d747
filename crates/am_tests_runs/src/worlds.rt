use am_base::body::Body;
use am_base::entry::Entry;
use am_base::founding::Founding;
use am_base::name::Name;
use am_base::names::Names;
use am_group::event::{Act, Event};
use am_group_list::delivered::deliveries;
use am_world::records::broken_at;
use am_world::settle::settle;
use am_world::world::World;
use std::test::*;

/// The founding of places 0 and 1, without resilience.
fn two_founders() -> Result<Founding, Fail> {
    Ok(Founding::new(Names::of_mask(3), 0, 64, 256).ok_or("a founding")?)
}

/// A place does an act.
fn step(world: &mut World, place: u8, act: Act) -> Result<(), Fail> {
    let node = Name::of_byte(place);
    world.step(&Event { node, act })?;
    Ok(())
}

// A member that takes twice is given the founders' View and its own send; the other one, which takes nothing, is given nothing.
#[test]
fn what_was_taken_was_given(rt: HostRuntime) -> Result<(), Fail> {
    let mut world = World::new(rt.alloc(), &two_founders()?)?;
    let body = Body::of(b"a").ok_or("a body")?;
    step(&mut world, 1, Act::send(rt.alloc(), body)?)?;
    settle(&mut world)?;
    step(&mut world, 1, Act::Take)?;
    step(&mut world, 1, Act::Take)?;
    let records = world.journal().records();
    let given = deliveries(rt.alloc(), records, Name::of_byte(1))?;
    assert!(rt; given.len() == 2);
    assert!(rt; matches!(&given[0], (1, Entry::View(_))));
    assert!(rt; matches!(&given[1], (2, Entry::Data { req: 1, .. })));
    assert!(rt; deliveries(rt.alloc(), records, Name::of_byte(0))?.is_empty());
    Ok(())
}

// Without resilience a founder that stops makes the run void, from its Stop on.
#[test]
fn a_stop_breaks_a_run(rt: HostRuntime) -> Result<(), Fail> {
    let founding = two_founders()?;
    let mut world = World::new(rt.alloc(), &founding)?;
    step(&mut world, 0, Act::Tick)?;
    step(&mut world, 1, Act::Stop)?;
    let records = world.journal().records();
    assert!(rt; records.len() == 2);
    assert!(rt; broken_at(rt.alloc(), &founding, records)? == Some(2));
    assert!(rt; broken_at(rt.alloc(), &founding, &records[..1])? == None);
    Ok(())
}
