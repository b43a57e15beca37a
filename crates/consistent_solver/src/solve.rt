//! The answer of a locally correcting program: the greatest consistent list.
ghost use Rattle.std.specs.Prelude.{◌≡◌, IfOk, Ok, OnOk, length};
ghost use Rattle.px_base.specs.declared.program.Class.TheVariants.{LocallyCorrecting};
ghost use Rattle.px_base.specs.Values.{IsValueList};
ghost use Rattle.px_base.specs.Graphs.{RowsFit};
ghost use Rattle.px_base.specs.Classes.{class_of};
ghost use Rattle.px_base.specs.Answers.{IsGreatestConsistent};

use crate::following::settle;
use px_base::{Memory, Program, ReadGraph, Rows, Value};
use std::alloc::Global;
use value_laws::{core_form, turn};

/// Puts the answer in place of the start values.
fn solve_in_place(
    alloc: Global,
    program: &Program,
    n: u32,
    rows: &Rows,
    values: &mut [Value],
) -> Result<(), Memory>
    requires size { length rows.now ≡ n }
    requires class { class_of program.now ≡ Ok LocallyCorrecting }
    requires rows { RowsFit (length rows.now) rows.now }
    requires starts { IsValueList (length rows.now) values.old }
    ensures { OnOk result (IsGreatestConsistent program.now rows.now values.old values.new) }
{
    let core = core_form(program);
    turn(&core, values);
    settle(alloc, &core, n, rows, values)?;
    turn(&core, values);
    Ok(())
}

/// The answer of a locally correcting program on the graph: the greatest consistent list. It is found in core values, in place.
/// Where at most a sixteenth of the vertices have something to tell, changes are followed at once: whoever falls tells those who
/// read it, first come first told. So a vertex is looked at again only where one that it reads has fallen. Where more have, sweeps
/// over the vertices in rising order come first, 12 at most, until a sweep changes nothing; where the last of them still changes
/// something, changes are followed from there. The list of values takes 8 bytes for each vertex, and the marks of those that fell
/// take 1; to follow changes takes 8 bytes for each read and 8 for each vertex besides. Errors: want of memory.
pub fn solve_consistent(
    alloc: Global,
    graph: &ReadGraph,
    program: &Program,
    starts: &[Value],
) -> Result<Vec<Value>, Memory>
    requires class { class_of program.now ≡ Ok LocallyCorrecting }
    requires rows { RowsFit graph.now.n graph.now.rows }
    requires starts { IsValueList graph.now.n starts.now }
    ensures { IfOk result (λ x. IsGreatestConsistent program.now graph.now.rows starts.now x.items) }
{
    let mut values = Vec::from_slice(alloc, starts)?;
    solve_in_place(alloc, program, graph.n, &graph.rows, values.as_mut_slice())?;
    Ok(values)
}
