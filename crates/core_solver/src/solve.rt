//! The answer of a globally correcting program: the k-core.
ghost use Rattle.std.specs.Prelude.{◌≡◌, ◌≤◌, IfOk};
ghost use Rattle.px_base.specs.declared.TheConstants.{MOST_READS, MOST_VERTICES};
ghost use Rattle.px_base.specs.Graphs.{RowsFit, read_count};
ghost use Rattle.px_base.specs.Answers.{IsKCore};
ghost use Rattle.core_solver.specs.Mutual.{AreMutual};

use crate::peeling::Peeling;
use px_base::{Memory, ReadGraph, Value};
use std::alloc::Global;

/// The k-core for as many reads as are needed: a list with 1 at each member and 0 elsewhere. Each vertex is peeled off at
/// most once, and its reads are gone through once. The only error is want of memory.
pub fn solve_core(alloc: Global, graph: &ReadGraph, needed: u32) -> Result<Vec<Value>, Memory>
    requires rows { RowsFit graph.now.n graph.now.rows }
    requires mutual { AreMutual graph.now.rows }
    requires vertices { graph.now.n ≤ MOST_VERTICES }
    requires reads { read_count graph.now.rows ≤ MOST_READS }
    ensures { IfOk result (λ x. IsKCore needed graph.now.rows x.items) }
{
    let rows = &graph.rows;
    let mut peeling = Peeling::new(alloc, rows)?;
    peeling.bury_short(needed, rows)?;
    peeling.peel(needed, rows)?;
    Ok(peeling.into_alive())
}
