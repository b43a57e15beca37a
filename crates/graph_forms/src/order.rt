//! Rows in order, by source and then weight.
ghost use Rattle.std.specs.Prelude.{◌≡◌, ◌+◌, ◌≤◌, ◌<◌, ◌++◌, ◌↔◌, ◌^◌, [], ◌∷◌, ℕ, All, IfOk, IsTrue, List, OnOk, length, map, take};
ghost use Rattle.std.specs.List.{AllAdjacentBelow};
ghost use Rattle.px_base.specs.declared.TheConstants.{MOST_READS};
ghost use Rattle.px_base.specs.declared.graph.Read.{Read as ReadData};
ghost use Rattle.px_base.specs.Values.{IsWeight};
ghost use Rattle.px_base.specs.Graphs.{IsRowOf, read_count, row_at};
ghost use Rattle.row_blocks.specs.Telling.{rows_told};
ghost use Rattle.row_blocks.specs.Blocks.{AreBlocks};
ghost use Rattle.graph_forms.specs.Ordering.{AreRowsOf};

use px_base::{Memory, Read, Row, RowWeight, Rows, RowsBuilder};
use row_blocks::{Blocks, block_count, rows_of_block};
use std::alloc::Global;

/// Whether each read has a higher source than the one before it.
fn rises(reads: &[Read]) -> bool
    ensures { IsTrue result ↔ AllAdjacentBelow (λ a b. a.source < b.source) reads.now (length reads.now) }
{
    reads.windows(2).all(|pair| pair[0].source < pair[1].source)
}

/// Puts the reads in order. Where they are, they are not sorted.
fn put_in_order(reads: &mut Vec<Read>)
    ensures { IsRowOf reads.old.items reads.new.items }
{
    if !rises(reads) {
        reads.sort_unstable();
    }
}

/// Puts the reads of the row in place of those that are there.
fn copy_row(reads: &mut Vec<Read>, row: &Row<'_>) -> Result<(), Memory>
    ensures reads { OnOk result (reads.new.items ≡ row.now) }
    ensures weights { OnOk result (All (λ r. IsWeight r.weight) reads.new.items) }
{
    reads.clear();
    for k in 0..row.len() {
        reads.push(row.read(k))?;
    }
    Ok(())
}

/// Puts the reads behind those of the row that is made, and ends the row.
fn push_row(rows: &mut RowsBuilder, reads: &[Read]) -> Result<(), Memory>
    requires weights { All (λ r. IsWeight r.weight) reads.now }
    requires room { read_count rows.old.done + (length rows.old.open_row + length reads.now) ≤ MOST_READS }
    ensures { OnOk result (rows.new ≡ record { done = rows.old.done ++ (rows.old.open_row ++ reads.now) ∷ []; open_row = [] }) }
{
    for read in reads {
        rows.push(read.source, read.weight as RowWeight)?;
    }
    rows.end_row()?;
    Ok(())
}

/// Puts a row of some in order behind the rows that are done.
fn add_row(
    rows: &mut RowsBuilder,
    scratch: &mut Vec<Read>,
    more: &Rows,
    j: usize,
) -> Result<(), Memory>
    requires j { j < length more.now }
    requires open { rows.old.open_row ≡ [] }
    requires room { read_count rows.old.done + read_count more.now ≤ MOST_READS + read_count (take j more.now) }
    ensures open { OnOk result (rows.new.open_row ≡ []) }
    ensures done { OnOk result ((before : List (List ReadData)) → AreRowsOf before rows.old.done → AreRowsOf (before ++ row_at more.now j ∷ []) rows.new.done) }
{
    copy_row(scratch, &more.row(j))?;
    put_in_order(scratch);
    push_row(rows, scratch)?;
    Ok(())
}

/// Puts all rows in order behind those that are done.
fn add_rows(rows: &mut RowsBuilder, scratch: &mut Vec<Read>, more: &Rows) -> Result<(), Memory>
    requires open { rows.old.open_row ≡ [] }
    requires room { read_count rows.old.done + read_count more.now ≤ MOST_READS }
    requires some { (before : List (List ReadData)) × AreRowsOf before rows.old.done }
    ensures open { OnOk result (rows.new.open_row ≡ []) }
    ensures done { OnOk result ((before : List (List ReadData)) → AreRowsOf before rows.old.done → AreRowsOf (before ++ more.now) rows.new.done) }
{
    for j in 0..more.row_count() {
        add_row(rows, scratch, more, j)?;
    }
    Ok(())
}

/// The rows of `n` vertices that are told what lies in the blocks, in order. Errors: want of memory.
pub fn ordered_rows(alloc: Global, n: u32, blocks: &Blocks) -> Result<Rows, Memory>
    requires few { length blocks.now.told.items ≤ MOST_READS }
    requires blocks { AreBlocks n blocks.now.starts.items blocks.now.told.items }
    ensures { IfOk result (λ rows. AreRowsOf (rows_told n blocks.now.told.items) rows) }
{
    let mut rows = RowsBuilder::new(alloc, n as usize, blocks.told.len())?;
    let mut scratch = Vec::new(alloc);
    for b in 0..block_count(n) {
        let more = rows_of_block(alloc, n, b, blocks)?;
        add_rows(&mut rows, &mut scratch, &more)?;
    }
    Ok(rows.finish())
}

/// The rows in order. Errors: want of memory.
pub fn in_order(alloc: Global, rows: &Rows) -> Result<Rows, Memory>
    requires { length rows.now < 2 ^ 32 }
    ensures { IfOk result (λ ordered. AreRowsOf rows.now ordered) }
{
    let mut ordered = RowsBuilder::new(alloc, rows.row_count(), rows.read_count())?;
    let mut scratch = Vec::new(alloc);
    add_rows(&mut ordered, &mut scratch, rows)?;
    Ok(ordered.finish())
}
