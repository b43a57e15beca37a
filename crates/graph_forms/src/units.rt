//! Rows that read each neighbour once.
ghost use Rattle.std.specs.Prelude.{◌≡◌, ◌+◌, ◌≤◌, ◌<◌, ◌++◌, [], ◌∷◌, ℕ, All, IfOk, List, OnOk, length, map, take};
ghost use Rattle.px_base.specs.declared.TheConstants.{MOST_READS};
ghost use Rattle.px_base.specs.declared.graph.Read.{Read as ReadData};
ghost use Rattle.px_base.specs.Graphs.{read_count, row_at, unit_read};
ghost use Rattle.row_blocks.specs.Telling.{rows_told};
ghost use Rattle.row_blocks.specs.Blocks.{AreBlocks};
ghost use Rattle.graph_forms.specs.Neighbours.{IsSetOf};
ghost use Rattle.graph_forms.specs.Ordering.{AreOnce};

use px_base::{Memory, Pos, Row, Rows, RowsBuilder};
use row_blocks::{Blocks, block_count, rows_of_block};
use std::alloc::Global;

/// Leaves each vertex of the list once, and in order.
fn settle(members: &mut Vec<Pos>)
    ensures set { IsSetOf members.old.items members.new.items }
    ensures fewer { length members.new.items ≤ length members.old.items }
{
    members.sort_unstable();
    members.dedup();
}

/// Puts the sources of the row in place of what is there.
fn copy_sources(members: &mut Vec<Pos>, row: &Row<'_>) -> Result<(), Memory>
    ensures { OnOk result (members.new.items ≡ map (λ r. r.source) row.now) }
{
    members.clear();
    members.extend_from_slice(row.sources())?;
    Ok(())
}

/// Puts a row that reads each of these vertices with weight 1 behind the rows that are done.
fn push_units(rows: &mut RowsBuilder, members: &[Pos]) -> Result<(), Memory>
    requires room { read_count rows.old.done + (length rows.old.open_row + length members.now) ≤ MOST_READS }
    ensures { OnOk result (rows.new ≡ record { done = rows.old.done ++ (rows.old.open_row ++ map unit_read members.now) ∷ []; open_row = [] }) }
{
    for source in members {
        rows.push(*source, 1)?;
    }
    rows.end_row()?;
    Ok(())
}

/// Puts a row of some behind those that are done, with each source once.
fn add_row(
    rows: &mut RowsBuilder,
    scratch: &mut Vec<Pos>,
    more: &Rows,
    j: usize,
) -> Result<(), Memory>
    requires j { j < length more.now }
    requires open { rows.old.open_row ≡ [] }
    requires room { read_count rows.old.done + read_count more.now ≤ MOST_READS + read_count (take j more.now) }
    ensures open { OnOk result (rows.new.open_row ≡ []) }
    ensures done { OnOk result ((before : List (List ReadData)) → AreOnce before rows.old.done → AreOnce (before ++ row_at more.now j ∷ []) rows.new.done) }
{
    copy_sources(scratch, &more.row(j))?;
    settle(scratch);
    push_units(rows, scratch)?;
    Ok(())
}

/// Puts all rows behind those that are done, with each source once.
fn add_rows(rows: &mut RowsBuilder, scratch: &mut Vec<Pos>, more: &Rows) -> Result<(), Memory>
    requires open { rows.old.open_row ≡ [] }
    requires some { (before : List (List ReadData)) × AreOnce before rows.old.done × (read_count before + read_count more.now ≤ MOST_READS) }
    ensures open { OnOk result (rows.new.open_row ≡ []) }
    ensures done { OnOk result ((before : List (List ReadData)) → AreOnce before rows.old.done → AreOnce (before ++ more.now) rows.new.done) }
{
    for j in 0..more.row_count() {
        add_row(rows, scratch, more, j)?;
    }
    Ok(())
}

/// Rows of `n` vertices that read once, with weight 1, whom they are told in the blocks to read. Errors: want of memory.
pub fn unit_rows(alloc: Global, n: u32, blocks: &Blocks) -> Result<Rows, Memory>
    requires few { length blocks.now.told.items ≤ MOST_READS }
    requires blocks { AreBlocks n blocks.now.starts.items blocks.now.told.items }
    ensures { IfOk result (λ rows. AreOnce (rows_told n blocks.now.told.items) rows) }
{
    let mut rows = RowsBuilder::new(alloc, n as usize, blocks.told.len())?;
    let mut scratch = Vec::new(alloc);
    for b in 0..block_count(n) {
        let more = rows_of_block(alloc, n, b, blocks)?;
        add_rows(&mut rows, &mut scratch, &more)?;
    }
    Ok(rows.finish())
}
