//! The answer of a self-stabilising program: the fixed point of the pull, found in one pass in the order of the rank.
ghost use Rattle.std.specs.Prelude.{◌≡◌, ◌<◌, ◌≤◌, All, IfOk, Ok, length, vec_len};
ghost use Rattle.px_base.specs.declared.TheConstants.{MOST_READS, MOST_VERTICES};
ghost use Rattle.px_base.specs.declared.program.Class.TheVariants.{SelfStabilising};
ghost use Rattle.px_base.specs.Values.{IsValueList};
ghost use Rattle.px_base.specs.Classes.{class_of};
ghost use Rattle.px_base.specs.Graphs.{RowsFit, read_count};
ghost use Rattle.px_base.specs.Answers.{IsFixedPoint};
ghost use Rattle.ordered_solver.specs.Orders.{AreEarlier, IsReadOrder};

use crate::order::read_order;
use crate::pulls::pulled;
use px_base::{Memory, Pos, Program, ReadGraph, Rows, Value};
use std::alloc::Global;

/// The length of the longest row.
fn longest_row(rows: &Rows) -> usize
    ensures { All (λ row. length row ≤ result) rows.now }
{
    let mut longest = 0;
    for v in 0..rows.row_count() {
        longest = longest.max(rows.row(v).len());
    }
    longest
}

/// Gives each vertex what it gathers from the newest values, once, in this order.
fn settle(
    program: &Program,
    rows: &Rows,
    starts: &[Value],
    order: &[Pos],
    values: &mut Vec<Value>,
    stamps: &mut Vec<u32>,
)
    requires rows { RowsFit (length rows.now) rows.now }
    requires reads { read_count rows.now ≤ MOST_READS }
    requires starts { IsValueList (length rows.now) starts.now }
    requires order { IsReadOrder (length rows.now) rows.now order.now }
    requires turns { length order.now ≤ MOST_VERTICES }
    requires values { IsValueList (length rows.now) values.old.items }
    requires room { All (λ row. length row ≤ vec_len stamps.old) rows.now }
    requires fresh { All (λ s. s ≤ 0) stamps.old.items }
    ensures { IsFixedPoint program.now rows.now starts.now values.new.items }
{
    for (turn, v) in order.iter().enumerate() {
        let v = *v as usize;
        let stamp = turn as u32 + 1;
        let row = rows.row(v);
        values[v] = pulled(program, values.as_slice(), starts[v], &row, stamp, stamps);
    }
}

/// The fixed point of the pull: each vertex's value is what it gathers from its start value and its reads. It is found in
/// one pass over the vertices, in the order of the rank, with one pull a vertex. The only error is want of memory.
pub fn solve_in_order(
    alloc: Global,
    graph: &ReadGraph,
    program: &Program,
    starts: &[Value],
) -> Result<Vec<Value>, Memory>
    requires class { class_of program.now ≡ Ok SelfStabilising }
    requires rows { RowsFit graph.now.n graph.now.rows }
    requires earlier { AreEarlier program.now.reads graph.now }
    requires vertices { graph.now.n ≤ MOST_VERTICES }
    requires reads { read_count graph.now.rows ≤ MOST_READS }
    requires starts { IsValueList graph.now.n starts.now }
    ensures { IfOk result (λ x. IsFixedPoint program.now graph.now.rows starts.now x.items) }
{
    let rows = &graph.rows;
    let order = read_order(alloc, graph, program.reads)?;
    let mut values = vec![in alloc; 0u64; rows.row_count()]?;
    let mut stamps = vec![in alloc; 0u32; longest_row(rows)]?;
    settle(program, rows, starts, &order, &mut values, &mut stamps);
    Ok(values)
}
