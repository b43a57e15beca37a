//! Which reads are kept.
ghost use Rattle.std.specs.Prelude.{◌≡◌, ◌+◌, ◌≤◌, ◌<◌, ◌++◌, ◌^◌, [], ◌∷◌, IfOk, OnOk, length, map, take};
ghost use Rattle.px_base.specs.Values.{by_position};
ghost use Rattle.px_base.specs.Graphs.{read_count};
ghost use Rattle.graph_forms.specs.Ordering.{earlier_reads};

use crate::rank::stands_before;
use px_base::{Memory, Pos, Rank, RowWeight, Rows, RowsBuilder};
use std::alloc::Global;

/// How many reads each row has.
pub fn row_lengths(alloc: Global, rows: &Rows) -> Result<Vec<u32>, Memory>
    ensures { IfOk result (λ lengths. lengths.items ≡ map (λ row. length row) rows.now) }
{
    let mut lengths = Vec::with_capacity(alloc, rows.row_count())?;
    for v in 0..rows.row_count() {
        lengths.push(rows.row(v).len() as u32)?;
    }
    Ok(lengths)
}

/// Puts the reads of v whose source stands before v behind the rows that are done.
fn keep_row(
    kept: &mut RowsBuilder,
    rows: &Rows,
    rank: Rank,
    degrees: &[u32],
    v: usize,
) -> Result<(), Memory>
    requires v { v < length rows.now }
    requires count { length rows.now < 2 ^ 32 }
    requires open { kept.old.open_row ≡ [] }
    requires room { read_count kept.old.done ≤ read_count (take v rows.now) }
    ensures { OnOk result (kept.new ≡ record { done = kept.old.done ++ earlier_reads rank degrees.now rows.now v ∷ []; open_row = [] }) }
{
    let _most = rows.read_count();
    let row = rows.row(v);
    for k in 0..row.len() {
        let read = row.read(k);
        if stands_before(rank, degrees, read.source, v as Pos) {
            kept.push(read.source, read.weight as RowWeight)?;
        }
    }
    kept.end_row()?;
    Ok(())
}

/// The reads of each vertex whose source stands before the vertex. Errors: want of memory.
pub fn earlier_rows(alloc: Global, rows: &Rows, rank: Rank, degrees: &[u32]) -> Result<Rows, Memory>
    requires { length rows.now < 2 ^ 32 }
    ensures { IfOk result (λ kept. kept ≡ by_position (length rows.now) (earlier_reads rank degrees.now rows.now)) }
{
    let mut kept = RowsBuilder::new(alloc, rows.row_count(), 0)?;
    for v in 0..rows.row_count() {
        keep_row(&mut kept, rows, rank, degrees, v)?;
    }
    Ok(kept.finish())
}
