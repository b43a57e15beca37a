//! Rows by hand, and graphs of a few edges.
ghost use Rattle.std.specs.Prelude.{◌<◌, ◌↔◌, All, IsTrue};
ghost use Rattle.px_base.specs.Values.{IsWeight};

use graph_forms::build;
use px_base::{
    Edge, EdgeList, FlatLists, Form, Items, Pos, Rank, Read, ReadGraph, Reads, Row, Rows,
    RowsBuilder,
};
use row_blocks::transposed;
use std::alloc::Global;
use std::process::Abort;
use std::test::Fail;

fn put(rows: &mut RowsBuilder, source: Pos, weight: u32) -> Result<(), Fail> {
    if rows.has_room() {
        rows.push(source, weight)?;
    }
    Ok(())
}

/// Vertex 0 reads 1 with weight 5 and 2 with weight 7, vertex 1 nobody, and vertex 2 reads 0 with weight 1.
fn three_rows(alloc: Global) -> Result<Rows, Fail> {
    let mut rows = RowsBuilder::new(alloc, 3, 3)?;
    put(&mut rows, 1, 5)?;
    put(&mut rows, 2, 7)?;
    rows.end_row()?;
    rows.end_row()?;
    put(&mut rows, 0, 1)?;
    rows.end_row()?;
    Ok(rows.finish())
}

/// The rows' flat lists.
fn check(rt: &impl Abort, rows: &Rows, starts: &[u32], sources: &[u32], weights: &[u32]) {
    let flat = rows.flat();
    assert_eq!(rt; flat.starts, starts);
    assert_eq!(rt; flat.sources, sources);
    assert_eq!(rt; flat.weights, weights);
}

#[test]
fn rows_one_after_another(rt: HostRuntime) -> Result<(), Fail> {
    let rows = three_rows(rt.alloc())?;
    check(&rt, &rows, &[0, 2, 2, 3], &[1, 2, 0], &[5, 7, 1]);
    assert_eq!(rt; rows.row_count(), 3);
    assert_eq!(rt; rows.read_count(), 3);
    let row = rows.row(0);
    assert_eq!(rt; row.len(), 2);
    assert!(rt; !row.is_empty());
    assert_eq!(rt;
        row.read(1),
        Read {
            source: 2,
            weight: 7
        }
    );
    assert_eq!(rt; row.sources(), [1, 2].as_slice());
    assert_eq!(rt; row.weights(), [5, 7].as_slice());
    let last = rows.iter().last().map(|row| row.len());
    assert_eq!(rt; last, Some(1));
    Ok(())
}

#[test]
fn copies_and_ranges(rt: HostRuntime) -> Result<(), Fail> {
    let rows = three_rows(rt.alloc())?;
    assert_eq!(rt; rows.row_count(), 3);
    assert_eq!(rt; rows.sources_between(0, 2), [1, 2].as_slice());
    check(
        &rt,
        &rows.try_clone()?,
        &[0, 2, 2, 3],
        &[1, 2, 0],
        &[5, 7, 1],
    );
    let end = rows.copy_range(rt.alloc(), 1, 3)?;
    check(&rt, &end, &[0, 0, 1], &[0], &[1]);
    assert!(rt; rows.read_count() + end.read_count() < 1 << 25);
    let both = rows.joined(&end)?;
    check(
        &rt,
        &both,
        &[0, 2, 2, 3, 3, 4],
        &[1, 2, 0, 0],
        &[5, 7, 1, 1],
    );
    let FlatLists { starts, .. } = both.into_flat();
    assert_eq!(rt; starts.len(), 6);
    check(&rt, &Rows::new(rt.alloc()), &[], &[], &[]);
    Ok(())
}

#[test]
fn other_sources(rt: HostRuntime) -> Result<(), Fail> {
    let mut rows = three_rows(rt.alloc())?;
    rows.map_sources(|u| 9 - u.min(9));
    check(&rt, &rows, &[0, 2, 2, 3], &[8, 7, 9], &[5, 7, 1]);
    Ok(())
}

fn edge(source: Pos, target: Pos, weight: u64) -> Edge {
    Edge {
        source,
        target,
        weight,
    }
}

fn list(alloc: Global, edges: Vec<Edge>) -> Result<EdgeList, Fail> {
    let ids = vec![in alloc; 10, 20, 30]?;
    Ok(EdgeList {
        ids: Items::from_vec(ids),
        edges: Items::from_vec(edges),
    })
}

/// Edges over three vertices, two of them the same and one a loop.
fn five_edges(alloc: Global) -> Result<EdgeList, Fail> {
    let edges = vec![in alloc;
        edge(0, 1, 5),
        edge(2, 1, 3),
        edge(0, 1, 5),
        edge(1, 0, 2),
        edge(2, 2, 9),
    ]?;
    list(alloc, edges)
}

fn fits(edge: &Edge, n: u32) -> bool
    ensures { IsTrue result ↔ ((edge.now.source < n) × (edge.now.target < n) × IsWeight edge.now.weight) }
{
    edge.source < n && edge.target < n && edge.weight < 1 << 32
}

fn all_fit(edges: &[Edge], n: u32) -> bool
    ensures { IsTrue result ↔ All (λ e. (e.source < n) × (e.target < n) × IsWeight e.weight) edges.now }
{
    edges.iter().all(|edge| fits(edge, n))
}

fn graph(rt: &impl Abort, alloc: Global, form: Form, reads: Reads) -> Result<ReadGraph, Fail> {
    let list = five_edges(alloc)?;
    let count = list.ids.as_slice().len();
    assert!(rt; count < 4);
    assert!(rt; list.edges.as_slice().len() < 6);
    assert!(rt; all_fit(list.edges.as_slice(), count as u32));
    Ok(build(alloc, &list, form, reads)?)
}

#[test]
fn each_edge_read_by_its_target(rt: HostRuntime) -> Result<(), Fail> {
    let graph = graph(&rt, rt.alloc(), Form::Given, Reads::All)?;
    assert_eq!(rt; graph.n, 3);
    check(
        &rt,
        &graph.rows,
        &[0, 1, 4, 5],
        &[1, 0, 0, 2, 2],
        &[2, 5, 5, 3, 9],
    );
    assert_eq!(rt; graph.degrees.as_slice(), [1, 3, 1].as_slice());
    let copy = graph.try_clone()?;
    check(
        &rt,
        &copy.rows,
        &[0, 1, 4, 5],
        &[1, 0, 0, 2, 2],
        &[2, 5, 5, 3, 9],
    );
    Ok(())
}

#[test]
fn each_edge_read_by_its_source(rt: HostRuntime) -> Result<(), Fail> {
    let graph = graph(&rt, rt.alloc(), Form::Back, Reads::All)?;
    check(
        &rt,
        &graph.rows,
        &[0, 2, 3, 5],
        &[1, 1, 0, 1, 2],
        &[5, 5, 2, 3, 9],
    );
    Ok(())
}

#[test]
fn each_neighbour_once(rt: HostRuntime) -> Result<(), Fail> {
    let graph = graph(&rt, rt.alloc(), Form::Simple, Reads::All)?;
    check(
        &rt,
        &graph.rows,
        &[0, 1, 3, 4],
        &[1, 0, 2, 1],
        &[1, 1, 1, 1],
    );
    assert_eq!(rt; graph.degrees.as_slice(), [1, 2, 1].as_slice());
    Ok(())
}

#[test]
fn those_before_alone(rt: HostRuntime) -> Result<(), Fail> {
    let by_id = graph(&rt, rt.alloc(), Form::Simple, Reads::Earlier(Rank::ById))?;
    check(&rt, &by_id.rows, &[0, 0, 1, 2], &[0, 1], &[1, 1]);
    let by_degree = graph(
        &rt,
        rt.alloc(),
        Form::Simple,
        Reads::Earlier(Rank::ByDegree),
    )?;
    check(&rt, &by_degree.rows, &[0, 1, 1, 2], &[1, 1], &[1, 1]);
    assert_eq!(rt; by_degree.degrees.as_slice(), [1, 2, 1].as_slice());
    Ok(())
}

fn is_inside(row: &Row<'_>, n: u32) -> bool
    ensures { IsTrue result ↔ All (λ r. r.source < n) row.now }
{
    row.iter().all(|read| read.source < n)
}

fn are_inside(rows: &Rows, n: u32) -> bool
    ensures { IsTrue result ↔ All (λ row. All (λ r. r.source < n) row) rows.now }
{
    rows.iter().all(|row| is_inside(&row, n))
}

#[test]
fn turned_round(rt: HostRuntime) -> Result<(), Fail> {
    let graph = graph(&rt, rt.alloc(), Form::Given, Reads::All)?;
    assert!(rt; are_inside(&graph.rows, 3));
    assert!(rt; graph.rows.row_count() < 4);
    let readers = transposed(rt.alloc(), 3, &graph.rows)?;
    check(
        &rt,
        &readers,
        &[0, 2, 3, 5],
        &[1, 1, 0, 1, 2],
        &[5, 5, 2, 3, 9],
    );
    Ok(())
}
