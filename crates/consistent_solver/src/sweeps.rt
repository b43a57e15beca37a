//! Sweeps over all vertices, which lower each value to the least of what its vertex reads.
ghost use Rattle.std.specs.Prelude.{◌≡◌, ◌<◌, All, IsFalse, length};
ghost use Rattle.px_base.specs.Values.{IsValue, IsValueList, IsWeight};
ghost use Rattle.px_base.specs.Classes.{is_mex};
ghost use Rattle.px_base.specs.Graphs.{RowsFit};
ghost use Rattle.px_base.specs.Rules.{least};
ghost use Rattle.consistent_solver.specs.Sweeps.{AreTold, core_edge_values, IsSwept};

use px_base::{CoreProgram, Row, Rows, Value};
use value_laws::EdgeRule;

/// How many sweeps are made at most. The table of readers costs as much as several sweeps over a graph without order.
const SWEEPS: usize = 12;

/// The least of the vertex's own value and of all that it reads.
fn lowered(core: &CoreProgram, values: &[Value], own: Value, row: &Row<'_>) -> Value
    requires sources { All (λ r. r.source < length values.now) row.now }
    requires weights { All (λ r. IsWeight r.weight) row.now }
    requires values { All IsValue values.now }
    ensures { result ≡ least own (core_edge_values core.now values.now row.now) }
{
    let mut best = own;
    for k in 0..row.len() {
        let read = row.read(k);
        best = best.min(core.value(values[read.source as usize], read.weight));
    }
    best
}

/// One sweep: each vertex in rising order takes the least of its own value and of all that it reads, from the newest values.
/// Marks those whose value fell, and says whether there are any.
fn sweep(core: &CoreProgram, rows: &Rows, values: &mut [Value], fell: &mut [bool]) -> bool
    requires rows { RowsFit (length rows.now) rows.now }
    requires values { IsValueList (length rows.now) values.old }
    requires marks { length fell.old ≡ length rows.now }
    requires fold { IsFalse (is_mex core.now.program.fold) }
    ensures { IsSwept core.now rows.now (length rows.now) values.old values.new fell.new result }
{
    let mut changed = false;
    for v in 0..rows.row_count() {
        let own = values[v];
        let least = lowered(core, values, own, &rows.row(v));
        if least < own {
            values[v] = least;
            fell[v] = true;
            changed = true;
        } else {
            fell[v] = false;
        }
    }
    changed
}

/// Sweeps until a sweep changes nothing, or until there were enough of them. Marks those whose value fell in the last one, and
/// says whether there are any.
pub fn sweep_some(core: &CoreProgram, rows: &Rows, values: &mut [Value], fell: &mut [bool]) -> bool
    requires rows { RowsFit (length rows.now) rows.now }
    requires values { IsValueList (length rows.now) values.old }
    requires marks { length fell.old ≡ length rows.now }
    requires told { AreTold core.now rows.now fell.old values.old }
    requires fold { IsFalse (is_mex core.now.program.fold) }
    ensures { IsSwept core.now rows.now (length rows.now) values.old values.new fell.new result }
{
    for _turn in 0..SWEEPS {
        if !sweep(core, rows, values, fell) {
            return false;
        }
    }
    true
}
