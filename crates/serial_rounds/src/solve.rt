//! The answer of a program.
ghost use Rattle.std.specs.Prelude.{◌≡◌, ◌≤◌, IfOk, Ok};
ghost use Rattle.px_base.specs.declared.TheConstants.{MOST_READS, MOST_VERTICES};
ghost use Rattle.px_base.specs.declared.program.Class.TheVariants.{LocallyCorrecting};
ghost use Rattle.px_base.specs.Values.{IsValueList};
ghost use Rattle.px_base.specs.Graphs.{RowsFit, read_count};
ghost use Rattle.px_base.specs.Classes.{class_of};
ghost use Rattle.px_base.specs.Answers.{IsGreatestConsistent};

use crate::rounds::settled;
use partitioner::cut;
use program_table::core_starts;
use px_base::{Memory, Program, ReadGraph, Value};
use std::alloc::Global;
use std::thread::Threads;
use value_laws::{core_form, turn};

/// The answer of a locally correcting program, by workers in rounds on this thread. In each round each worker gets one Step
/// with all that the others sent it, until nothing changes and nothing is to be sent.
///
/// # Errors
/// `Memory` where there is no room for the parts, the worlds, what is sent or the values.
pub fn solve_in_rounds<R: Threads + Sync>(
    rt: &R,
    alloc: Global,
    graph: ReadGraph,
    program: &Program,
    starts: &[Value],
    workers: u32,
) -> Result<Vec<Value>, Memory>
    requires class { class_of program.now ≡ Ok LocallyCorrecting }
    requires rows { RowsFit graph.n graph.rows }
    requires vertices { graph.n ≤ MOST_VERTICES }
    requires reads { read_count graph.rows ≤ MOST_READS }
    requires starts { IsValueList graph.n starts.now }
    requires workers { (1 ≤ workers) × (workers ≤ 64) }
    ensures { IfOk result (λ values. IsGreatestConsistent program.now graph.rows starts.now values.items) }
{
    let core = core_form(program);
    let core_starts = core_starts(alloc, &core, starts)?;
    let cuts = cut(alloc, graph.n, workers)?;
    let mut values = settled(rt, alloc, graph, core, &core_starts, &cuts)?;
    turn(&core, &mut values);
    Ok(values)
}
