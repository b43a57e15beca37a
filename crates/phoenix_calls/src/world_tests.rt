//! Tests of worlds: their steps, refusals and reports.
ghost use Rattle.px_base.specs.Worlds.{CarriesValues};

use crate::graphs::{FOUR, TRIANGLE, world_of};
use px_base::{Answer, Items, Order, StepFault, Update, Value};
use std::alloc::Global;
use std::process::Abort;
use std::test::Fail;
use std::thread::Threads;
use worker_world::World;

/// Asserts that the world takes a Step without updates, and what it tells other workers.
fn assert_step<R: Abort + Threads + Sync>(
    rt: &R,
    alloc: Global,
    world: &mut World,
    (epoch, round): (u32, u64),
    changed: bool,
    told: &[Update],
) -> Result<(), Fail> {
    let order = Order::Step {
        epoch,
        round,
        updates: Items::from_vec(Vec::new(alloc)),
    };
    let want = Answer::Stepped {
        epoch,
        round,
        changed,
        updates: Items::from_vec(told.to_vec(alloc)?),
    };
    assert_eq!(rt; world.step(rt, &order), Ok(want));
    Ok(())
}

/// Asserts why the world refuses a Step of round 2, which brings these updates.
fn assert_refused<R: Abort + Threads + Sync>(
    rt: &R,
    world: &mut World,
    epoch: u32,
    updates: Vec<Update>,
    why: StepFault,
)
    requires { CarriesValues updates.items }
{
    let order = Order::Step {
        epoch,
        round: 2,
        updates: Items::from_vec(updates),
    };
    assert_eq!(rt; world.step(rt, &order), Err(why));
}

/// Asserts what the world reports in the epoch.
fn assert_report<R: Abort + Threads + Sync>(
    rt: &R,
    alloc: Global,
    world: &mut World,
    epoch: u32,
    values: &[Value],
) -> Result<(), Fail> {
    let want = Answer::Reported {
        epoch,
        values: Items::from_vec(values.to_vec(alloc)?),
    };
    assert_eq!(rt; world.step(rt, &Order::Report { epoch }), Ok(want));
    Ok(())
}

/// Vertex 4 has one neighbour, dies at once, and tells so to vertex 1, which another worker has.
#[test]
fn counts_neighbours(rt: HostRuntime) -> Result<(), Fail> {
    let mut world = world_of(rt.alloc(), "kcore:2", TRIANGLE, 2, 1)?;
    let told = [Update {
        vertex: 0,
        value: 1,
    }];
    assert_step(&rt, rt.alloc(), &mut world, (1, 0), true, &told)?;
    assert_step(&rt, rt.alloc(), &mut world, (2, 1), false, &told)?;
    let late = StepFault::WrongEpoch { had: 2, got: 1 };
    assert_refused(&rt, &mut world, 1, Vec::new(rt.alloc()), late);
    let foreign = StepFault::Foreign { vertex: 0 };
    assert_refused(&rt, &mut world, 2, told.to_vec(rt.alloc())?, foreign);
    assert_report(&rt, rt.alloc(), &mut world, 2, &[1, 0])?;
    Ok(())
}

/// All vertices are coloured at once, by the colours before: the second and the third take one colour, and differ a step
/// later.
#[test]
fn colours(rt: HostRuntime) -> Result<(), Fail> {
    let mut world = world_of(rt.alloc(), "colour", FOUR, 1, 0)?;
    let rows = [
        (0, true, [0, 1, 1, 1]),
        (1, true, [0, 1, 2, 0]),
        (2, false, [0, 1, 2, 0]),
    ];
    for (round, changed, values) in rows {
        assert_step(&rt, rt.alloc(), &mut world, (1, round), changed, &[])?;
        assert_eq!(&rt; world.masters(), values.as_slice(), "round {round}");
    }
    Ok(())
}
