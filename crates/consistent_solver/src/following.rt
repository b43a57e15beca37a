//! Settles values by following changes: whoever falls tells those who read it.
ghost use Rattle.std.specs.Prelude.{◌≡◌, ◌⊎◌, ◌+◌, ◌<◌, ◌≤◌, ℕ, All, IfOk, IsFalse, OnOk, length, slice_index, sum};
ghost use Rattle.px_base.specs.Values.{IsValue, IsValueList};
ghost use Rattle.px_base.specs.Classes.{is_mex};
ghost use Rattle.px_base.specs.Graphs.{RowsFit};
ghost use Rattle.consistent_solver.specs.Sweeps.{AreTold, HasTold, IsMarked, IsSettled, IsWaitingList, TellsNothing};

use crate::sweeps::sweep_some;
use crate::waiting::Waiting;
use px_base::{CoreProgram, Memory, Row, Rows, TOP, Value};
use row_blocks::transposed;
use std::alloc::Global;
use value_laws::EdgeRule;

/// Lowers each reader's value to what it reads, the edge value of `value`, where that is less. Those that fall wait.
fn tell(
    core: &CoreProgram,
    value: Value,
    readers: &Row<'_>,
    values: &mut [Value],
    waiting: &mut Waiting,
) -> Result<(), Memory>
    requires value { IsValue value }
    requires readers { All (λ e. e.source < length values.old) readers.now }
    requires list { IsWaitingList (length values.old) waiting.old }
    ensures told { OnOk result (HasTold core.now value readers.now (length readers.now) values.old values.new waiting.old.marks.items waiting.new.marks.items) }
    ensures list { OnOk result (IsWaitingList (length values.old) waiting.new) }
    ensures falls { OnOk result (sum values.new + length waiting.new.queue.items ≤ sum values.old + length waiting.old.queue.items) }
{
    for k in 0..readers.len() {
        let entry = readers.read(k);
        let offered = core.value(value, entry.weight);
        if offered < values[entry.source as usize] {
            values[entry.source as usize] = offered;
            waiting.put(entry.source)?;
        }
    }
    Ok(())
}

/// Follows changes: the readers of the marked vertices are told of their values, those of all that fall by it are told in
/// their turn, and so on until nobody waits.
fn follow(
    alloc: Global,
    core: &CoreProgram,
    n: u32,
    rows: &Rows,
    values: &mut [Value],
    marks: Vec<bool>,
) -> Result<(), Memory>
    requires size { length rows.now ≡ n }
    requires rows { RowsFit (length rows.now) rows.now }
    requires values { IsValueList (length rows.now) values.old }
    requires marks { length marks.items ≡ length rows.now }
    requires told { AreTold core.now rows.now marks.items values.old }
    requires fold { IsFalse (is_mex core.now.program.fold) }
    ensures { OnOk result (IsSettled core.now rows.now values.old values.new) }
{
    let readers = transposed(alloc, n, rows)?;
    let mut waiting = Waiting::of(alloc, marks)?;
    while let Some(v) = waiting.take() {
        tell(
            core,
            values[v as usize],
            &readers.row(v as usize),
            values,
            &mut waiting,
        )?;
    }
    Ok(())
}

/// Marks those whose value may lower a reader's. TOP lowers none, where no edge makes a value better.
fn tellers(alloc: Global, core: &CoreProgram, values: &[Value]) -> Result<Vec<bool>, Memory>
    requires { All IsValue values.now }
    ensures one_each { IfOk result (λ marks. length marks.items ≡ length values.now) }
    ensures others { IfOk result (λ marks. (v : ℕ) → v < length values.now → IsMarked marks.items v ⊎ TellsNothing core.now (slice_index values.now v)) }
{
    let keeps_top = core.never_improves();
    let marks = values
        .iter()
        .map(move |value| *value < TOP || !keeps_top)
        .collect::<Vec<bool>>(alloc)?;
    Ok(marks)
}

/// Whether so few are marked that it is quicker to follow them than to sweep over all. Either way is right, so no clause
/// speaks of it.
fn are_few(marks: &[bool]) -> bool {
    marks.iter().filter(|mark| **mark).count() <= marks.len() / 16
}

/// Lowers values until each vertex has at most what it reads. Where few have something to tell in the beginning, these are
/// followed. Else there are some sweeps, which is all where the vertices lie in a good order, and then the changes of the
/// last sweep are followed. Errors: want of memory.
pub fn settle(
    alloc: Global,
    core: &CoreProgram,
    n: u32,
    rows: &Rows,
    values: &mut [Value],
) -> Result<(), Memory>
    requires size { length rows.now ≡ n }
    requires rows { RowsFit (length rows.now) rows.now }
    requires values { IsValueList (length rows.now) values.old }
    requires fold { IsFalse (is_mex core.now.program.fold) }
    ensures { OnOk result (IsSettled core.now rows.now values.old values.new) }
{
    let mut marks = tellers(alloc, core, values)?;
    if are_few(&marks) {
        return follow(alloc, core, n, rows, values, marks);
    }
    if sweep_some(core, rows, values, marks.as_mut_slice()) {
        follow(alloc, core, n, rows, values, marks)?;
    }
    Ok(())
}
