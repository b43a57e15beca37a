//! The graph of a list of edges.
ghost use Rattle.std.specs.Prelude.{◌≡◌, ◌≤◌, ◌<◌, ◌*◌, All, IfOk, length};
ghost use Rattle.px_base.specs.declared.TheConstants.{MOST_EDGES, MOST_VERTICES};
ghost use Rattle.px_base.specs.declared.program.Form.TheVariants.{Simple};
ghost use Rattle.px_base.specs.declared.program.Reads.TheVariants as reads_kind;
ghost use Rattle.px_base.specs.Graphs.{IsGraphOf, RowsFit, read_count, reads_of};
ghost use Rattle.px_base.specs.Values.{IsWeight, by_position};
ghost use Rattle.graph_forms.specs.Neighbours.{form_of};
ghost use Rattle.graph_forms.specs.Ordering.{AreRowsOf};

use crate::keep::{earlier_rows, row_lengths};
use crate::order::{in_order, ordered_rows};
use crate::units::unit_rows;
use px_base::{Edge, EdgeList, Form, Items, Memory, Rank, ReadGraph, Reads, Rows};
use row_blocks::{Direction, blocks_of_edges, blocks_of_ends, rows_of_blocks};
use std::alloc::Global;

/// Rows of what one end of each edge reads, as the edges come.
fn directed(alloc: Global, n: u32, direction: Direction, edges: &[Edge]) -> Result<Rows, Memory>
    requires lines { length edges.now ≤ MOST_EDGES }
    requires ends { All (λ e. (e.source < n) × (e.target < n) × IsWeight e.weight) edges.now }
    ensures { IfOk result (λ rows. rows ≡ by_position n (reads_of (form_of direction) n edges.now)) }
{
    let blocks = blocks_of_edges(alloc, n, direction, edges)?;
    let rows = rows_of_blocks(alloc, n, &blocks)?;
    Ok(rows)
}

/// Rows of what one end of each edge reads, in order.
fn directed_in_order(
    alloc: Global,
    n: u32,
    direction: Direction,
    edges: &[Edge],
) -> Result<Rows, Memory>
    requires lines { length edges.now ≤ MOST_EDGES }
    requires ends { All (λ e. (e.source < n) × (e.target < n) × IsWeight e.weight) edges.now }
    ensures { IfOk result (λ rows. AreRowsOf (by_position n (reads_of (form_of direction) n edges.now)) rows) }
{
    let blocks = blocks_of_edges(alloc, n, direction, edges)?;
    let rows = ordered_rows(alloc, n, &blocks)?;
    Ok(rows)
}

/// Rows of what each vertex reads, where it reads each neighbour once.
fn simple(alloc: Global, n: u32, edges: &[Edge]) -> Result<Rows, Memory>
    requires lines { length edges.now ≤ MOST_EDGES }
    requires ends { All (λ e. (e.source < n) × (e.target < n)) edges.now }
    ensures { IfOk result (λ rows. rows ≡ by_position n (reads_of Simple n edges.now)) }
{
    let blocks = blocks_of_ends(alloc, n, edges)?;
    let rows = unit_rows(alloc, n, &blocks)?;
    Ok(rows)
}

/// The reads of each vertex, in some order.
fn unordered_rows(alloc: Global, n: u32, form: Form, edges: &[Edge]) -> Result<Rows, Memory>
    requires lines { length edges.now ≤ MOST_EDGES }
    requires ends { All (λ e. (e.source < n) × (e.target < n) × IsWeight e.weight) edges.now }
    ensures { IfOk result (λ rows. rows ≡ by_position n (reads_of form n edges.now)) }
{
    match form {
        Form::Given => directed(alloc, n, Direction::Forward, edges),
        Form::Back => directed(alloc, n, Direction::Backward, edges),
        Form::Simple => simple(alloc, n, edges),
    }
}

/// Simple rows are in order by themselves.
#[tactic(auto, using(crate::proofs::Graphs::simple_rows_in_order))]
fn simple_in_order(alloc: Global, n: u32, edges: &[Edge]) -> Result<Rows, Memory>
    requires lines { length edges.now ≤ MOST_EDGES }
    requires ends { All (λ e. (e.source < n) × (e.target < n)) edges.now }
    ensures { IfOk result (λ rows. AreRowsOf (by_position n (reads_of Simple n edges.now)) rows) }
{
    let rows = simple(alloc, n, edges)?;
    Ok(rows)
}

/// The reads of each vertex, in order.
fn rows_in_order(alloc: Global, n: u32, form: Form, edges: &[Edge]) -> Result<Rows, Memory>
    requires lines { length edges.now ≤ MOST_EDGES }
    requires ends { All (λ e. (e.source < n) × (e.target < n) × IsWeight e.weight) edges.now }
    ensures { IfOk result (λ rows. AreRowsOf (by_position n (reads_of form n edges.now)) rows) }
{
    match form {
        Form::Given => directed_in_order(alloc, n, Direction::Forward, edges),
        Form::Back => directed_in_order(alloc, n, Direction::Backward, edges),
        Form::Simple => simple_in_order(alloc, n, edges),
    }
}

/// The graph that keeps all reads.
fn graph_of_all(alloc: Global, n: u32, form: Form, edges: &[Edge]) -> Result<ReadGraph, Memory>
    requires lines { length edges.now ≤ MOST_EDGES }
    requires ends { All (λ e. (e.source < n) × (e.target < n) × IsWeight e.weight) edges.now }
    ensures { IfOk result (λ graph. IsGraphOf form reads_kind.All n edges.now graph) }
{
    let rows = rows_in_order(alloc, n, form, edges)?;
    let degrees = row_lengths(alloc, &rows)?;
    Ok(ReadGraph {
        n,
        rows,
        degrees: Items::from_vec(degrees),
    })
}

/// The graph that keeps the reads whose source stands before the reader.
fn graph_of_earlier(
    alloc: Global,
    n: u32,
    form: Form,
    rank: Rank,
    edges: &[Edge],
) -> Result<ReadGraph, Memory>
    requires lines { length edges.now ≤ MOST_EDGES }
    requires ends { All (λ e. (e.source < n) × (e.target < n) × IsWeight e.weight) edges.now }
    ensures { IfOk result (λ graph. IsGraphOf form (reads_kind.Earlier rank) n edges.now graph) }
{
    let all = unordered_rows(alloc, n, form, edges)?;
    let degrees = row_lengths(alloc, &all)?;
    let kept = earlier_rows(alloc, &all, rank, &degrees)?;
    drop(all);
    let rows = in_order(alloc, &kept)?;
    Ok(ReadGraph {
        n,
        rows,
        degrees: Items::from_vec(degrees),
    })
}

/// The graph of these edges over n vertices.
fn graph_of_edges(
    alloc: Global,
    n: u32,
    edges: &[Edge],
    form: Form,
    reads: Reads,
) -> Result<ReadGraph, Memory>
    requires lines { length edges.now ≤ MOST_EDGES }
    requires ends { All (λ e. (e.source < n) × (e.target < n) × IsWeight e.weight) edges.now }
    ensures { IfOk result (λ graph. IsGraphOf form reads n edges.now graph) }
{
    match reads {
        Reads::All => graph_of_all(alloc, n, form, edges),
        Reads::Earlier(rank) => graph_of_earlier(alloc, n, form, rank, edges),
    }
}

/// The graph of the edges: each vertex's reads in this form, and those of them that are kept.
/// The only error is want of memory.
#[tactic(auto, using(crate::proofs::Made::rows_fit, crate::proofs::Counting::few_reads))]
pub fn build(alloc: Global, edges: &EdgeList, form: Form, reads: Reads) -> Result<ReadGraph, Memory>
    requires vertices { length edges.now.ids ≤ MOST_VERTICES }
    requires lines { length edges.now.edges ≤ MOST_EDGES }
    requires ends { All (λ e. (e.source < length edges.now.ids) × (e.target < length edges.now.ids) × IsWeight e.weight) edges.now.edges }
    ensures graph { IfOk result (λ graph. IsGraphOf form reads (length edges.now.ids) edges.now.edges graph) }
    ensures fits { IfOk result (λ graph. RowsFit (length edges.now.ids) graph.rows) }
    ensures count { IfOk result (λ graph. read_count graph.rows ≤ 2 * length edges.now.edges) }
{
    let n = edges.ids.as_slice().len() as u32;
    let graph = graph_of_edges(alloc, n, edges.edges.as_slice(), form, reads)?;
    Ok(graph)
}
