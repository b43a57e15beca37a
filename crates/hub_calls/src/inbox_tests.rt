//! Updates that are sent, counted and taken.
ghost use Rattle.std.specs.Prelude.{◌≡◌, false, true, OnOk};
ghost use Rattle.partitioner.specs.Cuts.{vertex_count};

use crate::graphs::{Made, new_inboxes};
use hub_table::Inboxes;
use partitioner::RouteTable;
use px_base::{Pos, TOP, Update, Value};
use std::alloc::Global;
use std::process::Abort;
use std::test::Fail;

/// Sends the value, where the worker mirrors the vertex.
fn put(inboxes: &mut Inboxes, routes: &RouteTable, row: (u32, Pos, Value)) -> Result<(), Fail>
    requires plain { inboxes.old.counting ≡ false }
    requires routes { inboxes.old.routes ≡ routes.now.to }
    ensures plain { OnOk result (inboxes.new.counting ≡ false) }
    ensures routes { OnOk result (inboxes.new.routes ≡ routes.now.to) }
{
    let (worker, vertex, value) = row;
    let Some(route) = routes.to.as_slice().get(vertex as usize) else {
        return Err(Fail::new("no such vertex"));
    };
    if value > TOP || !route.as_slice().iter().any(|j| *j == worker) {
        return Err(Fail::new("no mirror of this worker"));
    }
    inboxes.put(worker, vertex, value);
    Ok(())
}

/// All that waits for the worker, in order.
fn drained(alloc: Global, inboxes: &mut Inboxes, worker: u32) -> Result<Vec<Update>, Fail> {
    if worker >= inboxes.worker_count() {
        return Err(Fail::new("no such worker"));
    }
    let mut out = Vec::with_capacity(alloc, inboxes.len(worker) as usize)?;
    inboxes.drain(worker, &mut out);
    Ok(out)
}

fn update(vertex: Pos, value: Value) -> Update {
    Update { vertex, value }
}

/// Asserts what waits for each of the two workers, and takes it.
fn assert_waiting<R: Abort>(
    rt: &R,
    alloc: Global,
    inboxes: &mut Inboxes,
    want: [&[Update]; 2],
) -> Result<(), Fail> {
    for (worker, updates) in want.into_iter().enumerate() {
        let got = drained(alloc, inboxes, worker as u32)?;
        assert_eq!(rt; got.as_slice(), updates, "worker {worker}");
    }
    assert!(rt; inboxes.all_empty());
    Ok(())
}

/// A later value of a vertex takes the place of an earlier one, and what waits rises by vertex.
#[test]
fn values(rt: HostRuntime) -> Result<(), Fail> {
    let Made {
        routes,
        mut inboxes,
        ..
    } = new_inboxes(rt.alloc(), false)?;
    assert!(&rt; inboxes.all_empty());
    for row in [(1, 1, 7), (1, 0, 5), (0, 2, TOP), (1, 1, 3)] {
        put(&mut inboxes, &routes, row)?;
    }
    assert!(&rt; !inboxes.all_empty());
    let want: [&[Update]; 2] = [&[update(2, TOP)], &[update(0, 5), update(1, 3)]];
    assert_waiting(&rt, rt.alloc(), &mut inboxes, want)
}

/// Adds the delta to what waits for the owner of the vertex.
fn add(inboxes: &mut Inboxes, n: u32, row: (Pos, Value)) -> Result<(), Fail>
    requires counts { inboxes.old.counting ≡ true }
    requires size { n ≡ vertex_count inboxes.old.cuts }
    ensures counts { OnOk result (inboxes.new.counting ≡ true) }
    ensures size { OnOk result (n ≡ vertex_count inboxes.new.cuts) }
{
    let (vertex, delta) = row;
    if vertex >= n || delta > TOP {
        return Err(Fail::new("no such vertex"));
    }
    inboxes.add(vertex, delta);
    Ok(())
}

/// Deltas add up at the owner and stop at the greatest value, and one of 0 is an update too.
#[test]
fn deltas(rt: HostRuntime) -> Result<(), Fail> {
    let Made { mut inboxes, n, .. } = new_inboxes(rt.alloc(), true)?;
    for row in [(3, 2), (0, TOP), (2, 0), (3, 4), (0, 1)] {
        add(&mut inboxes, n, row)?;
    }
    let want: [&[Update]; 2] = [&[update(0, TOP)], &[update(2, 0), update(3, 6)]];
    assert_waiting(&rt, rt.alloc(), &mut inboxes, want)
}

/// Nothing is left of what waits once all inboxes are cleared.
#[test]
fn clearing(rt: HostRuntime) -> Result<(), Fail> {
    let Made { mut inboxes, n, .. } = new_inboxes(rt.alloc(), true)?;
    for row in [(1, 1), (2, 1)] {
        add(&mut inboxes, n, row)?;
    }
    assert!(&rt; !inboxes.all_empty());
    inboxes.clear();
    assert_waiting(&rt, rt.alloc(), &mut inboxes, [&[], &[]])
}
