//! Tests of ranks, cuts, parts and routes on a graph of four vertices.
ghost use Rattle.px_base.specs.Parts.{IsWorkerCuts};

use crate::graphs::{FOUR, graph_of};
use graph_forms::before;
use partitioner::{Cuts, RouteTable, cut, owner, parts_and_routes, routes};
use px_base::{Form, Items, Memory, Part, Pos, Rank, ReadGraph, Reads, part_fits};
use std::alloc::Global;
use std::process::Abort;
use std::test::Fail;

fn stands_before(graph: &ReadGraph, rank: Rank, a: Pos, b: Pos) -> Option<bool> {
    let n = graph.n;
    if graph.degrees.as_slice().len() == n as usize && a < n && b < n {
        Some(before(graph, rank, a, b))
    } else {
        None
    }
}

#[test]
fn orders(rt: HostRuntime) -> Result<(), Fail> {
    let graph = graph_of(rt.alloc(), FOUR, Form::Simple, Reads::All)?;
    assert_eq!(&rt; graph.degrees.as_slice(), [2, 3, 2, 1].as_slice());
    let rows = [
        (Rank::ByDegree, 1, 0, true),
        (Rank::ByDegree, 0, 2, true),
        (Rank::ByDegree, 2, 3, true),
        (Rank::ByDegree, 0, 1, false),
        (Rank::ById, 0, 1, true),
    ];
    for (rank, a, b, want) in rows {
        let got = stands_before(&graph, rank, a, b);
        assert_eq!(&rt; got, Some(want), "{rank:?}: {a} before {b}");
    }
    Ok(())
}

/// The owner of each of the n positions.
fn owners(alloc: Global, cuts: &Cuts, n: u32) -> Result<Vec<u32>, Memory>
    requires { IsWorkerCuts n cuts.now.ends }
{
    let mut owners = Vec::new(alloc);
    for pos in 0..n {
        owners.push(owner(cuts, pos))?;
    }
    Ok(owners)
}

fn assert_part<R: Abort>(rt: &R, part: &Part, mirrors: &[Pos], boundary: &[Pos]) {
    assert!(rt; part_fits(part));
    assert_eq!(rt; part.mirrors.as_slice(), mirrors);
    assert_eq!(rt; part.boundary.as_slice(), boundary);
}

/// Asserts that the part fits no more with one master less, or without its mirrors.
fn assert_misfits<R: Abort>(rt: &R, alloc: Global, mut part: Part) {
    let high = part.high;
    part.high = high.saturating_sub(1);
    assert!(rt; !part_fits(&part));
    part.high = high;
    assert!(rt; part_fits(&part));
    part.mirrors = Items::from_vec(Vec::new(alloc));
    part.mirror_starts = Items::from_vec(Vec::new(alloc));
    assert!(rt; !part_fits(&part));
}

/// Asserts the routes of the four vertices: worker 1 mirrors the first two, worker 0 the third.
fn assert_routes<R: Abort>(rt: &R, table: &RouteTable) {
    let to = table.to.as_slice();
    assert_eq!(rt; to.len(), 4);
    assert_eq!(rt; to[0].as_slice(), [1].as_slice());
    assert_eq!(rt; to[1].as_slice(), [1].as_slice());
    assert_eq!(rt; to[2].as_slice(), [0].as_slice());
    assert!(rt; to[3].as_slice().is_empty());
}

#[test]
fn parts(rt: HostRuntime) -> Result<(), Fail> {
    let graph = graph_of(rt.alloc(), FOUR, Form::Given, Reads::All)?;
    assert_eq!(&rt; graph.n, 4);
    let cuts = cut(rt.alloc(), graph.n, 2)?;
    assert_eq!(&rt; cuts.ends.as_slice(), [0, 2, 4].as_slice());
    let owners = owners(rt.alloc(), &cuts, graph.n)?;
    assert_eq!(&rt; owners.as_slice(), [0, 0, 1, 1].as_slice());
    assert_routes(&rt, &routes(rt.alloc(), &graph, &cuts)?);
    let (parts, table) = parts_and_routes(rt.alloc(), &graph.rows, &[0; 4], &cuts)?;
    assert_routes(&rt, &table);
    let mut parts = parts.into_vec();
    let second = parts.pop().ok_or("no second part")?;
    assert_part(&rt, &second, &[0, 1], &[2]);
    let first = parts.pop().ok_or("no first part")?;
    assert_part(&rt, &first, &[2], &[0, 1]);
    assert!(&rt; parts.is_empty());
    assert_misfits(&rt, rt.alloc(), first);
    Ok(())
}
