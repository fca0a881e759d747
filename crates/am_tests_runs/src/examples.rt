use am_base::body::Body;
use am_base::founding::Founding;
use am_base::name::Name;
use am_base::names::Names;
use am_directory::command::Command;
use am_directory::replica::Replica;
use am_examples::counter::Counter;
use am_examples::one_send::one_send;
use am_examples::send_and_take::send_and_take;
use am_examples::store;
use am_group::event::{Act, Event};
use am_world::settle::settle;
use am_world::world::World;
use std::alloc::Global;
use std::test::*;

/// The founding of places from 0 on, without resilience.
fn founding(mask: u16) -> Result<Founding, Fail> {
    Ok(Founding::new(Names::of_mask(mask), 0, 64, 256).ok_or("a founding")?)
}

#[test]
fn a_send_is_numbered(rt: HostRuntime) -> Result<(), Fail> {
    let entries = one_send(rt.alloc(), &founding(3)?, Body::default())?;
    assert!(rt; entries == 2);
    Ok(())
}

/// The amounts that three nodes send.
const AMOUNTS: [(u8, u8); 3] = [(0, 5), (1, 30), (2, 7)];

/// A place sends an amount.
fn send(world: &mut World, alloc: Global, place: u8, amount: u8) -> Result<(), Fail> {
    let body = Body::of(&[amount]).ok_or("a body")?;
    let act = Act::send(alloc, body)?;
    let node = Name::of_byte(place);
    world.step(&Event { node, act })?;
    Ok(())
}

/// What a place counts that takes ten times.
fn total_at(world: &mut World, place: u8) -> Result<u32, Fail> {
    let mut counter = Counter::new(Name::of_byte(place));
    for _ in 0..10 {
        counter.take(world)?;
    }
    Ok(counter.total)
}

#[test]
fn three_nodes_count_the_same(rt: HostRuntime) -> Result<(), Fail> {
    let mut world = World::new(rt.alloc(), &founding(7)?)?;
    for (place, amount) in &AMOUNTS {
        send(&mut world, rt.alloc(), *place, *amount)?;
    }
    settle(&mut world)?;
    for place in 0..3u8 {
        let total = total_at(&mut world, place)?;
        assert!(rt; total == 42);
    }
    Ok(())
}

#[test]
fn two_threads_leave_their_records(rt: HostRuntime) -> Result<(), Fail> {
    let records = send_and_take(&rt, rt.alloc(), founding(3)?, Body::default())?;
    assert!(rt; 2 <= records);
    Ok(())
}

/// A replica of place 0, which has taken three entries.
fn replica_at(world: &mut World, alloc: Global) -> Result<Replica, Fail> {
    let mut replica = Replica::new(alloc, 1)?;
    for _ in 0..3 {
        store::take(world, Name::of_byte(0), &mut replica)?;
    }
    Ok(replica)
}

#[test]
fn a_put_is_got(rt: HostRuntime) -> Result<(), Fail> {
    let mut world = World::new(rt.alloc(), &founding(1)?)?;
    let (key, value) = (b"color".as_slice(), b"red".as_slice());
    let put = Command::Put { key, value };
    let is_put = store::put(&mut world, rt.alloc(), Name::of_byte(0), &put)?;
    assert!(rt; is_put);
    let replica = replica_at(&mut world, rt.alloc())?;
    let setting = replica.directory().get(key).ok_or("the key")?;
    assert!(rt; setting.value.bytes() == value);
    Ok(())
}
