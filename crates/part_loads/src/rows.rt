//! Rows made from reads that come sorted by their readers.
ghost use Rattle.std.specs.Prelude.{◌≡◌, ◌≤◌, ◌<◌, ◌≢◌, ◌+◌, ◌++◌, ◌∷◌, [], All, IfOk, OnOk, length, map, take, drop};
ghost use Rattle.std.specs.List.{HoldsAt};
ghost use Rattle.px_base.specs.declared.TheConstants.{MOST_READS};
ghost use Rattle.px_base.specs.FrameFits.{IsWord};
ghost use Rattle.px_base.specs.Graphs.{read_count};
ghost use Rattle.part_loads.specs.Keeping.{AreRows, rows_by};
ghost use Rattle.part_loads.specs.Loads.{read_of};

use px_base::{Memory, Pos, RowWeight, Rows, RowsBuilder, Triple};
use std::alloc::Global;

/// How many triples in front have the target.
fn run_of(triples: &[Triple], target: Pos) -> usize
    ensures within { result ≤ length triples.now }
    ensures run { All (λ t. t.target ≡ target) (take result triples.now) }
    ensures end { result < length triples.now → HoldsAt (λ t. t.target ≢ target) triples.now result }
{
    for (i, triple) in triples.iter().enumerate() {
        if triple.target != target {
            return i;
        }
    }
    triples.len()
}

/// Puts the row that the triples make behind the rows that are done.
fn add_row(rows: &mut RowsBuilder, triples: &[Triple]) -> Result<(), Memory>
    requires words { All (λ t. IsWord t.weight) triples.now }
    requires room { read_count rows.old.done + (length rows.old.open_row + length triples.now) ≤ MOST_READS }
    ensures { OnOk result (rows.new ≡ record { done = rows.old.done ++ (rows.old.open_row ++ map read_of triples.now) ∷ []; open_row = [] }) }
{
    for triple in triples {
        rows.push(triple.source, triple.weight as RowWeight)?;
    }
    rows.end_row()?;
    Ok(())
}

/// The rows of the vertices of the range, of which these are the reads. The reads of one vertex stand together, behind those
/// of the vertices before it, so one pass makes all rows.
pub fn rows_of(alloc: Global, low: Pos, high: Pos, triples: &[Triple]) -> Result<Rows, Memory>
    requires range { low ≤ high }
    requires rows { AreRows low high triples.now }
    requires words { All (λ t. IsWord t.weight) triples.now }
    requires room { length triples.now ≤ MOST_READS }
    ensures rows { IfOk result (λ rows. rows ≡ rows_by low high triples.now) }
    ensures count { IfOk result (λ rows. read_count rows ≤ length triples.now) }
{
    let mut rows = RowsBuilder::new(alloc, (high - low) as usize, triples.len())?;
    let mut at = 0;
    for v in low..high {
        let rest = &triples[at..];
        let run = run_of(rest, v);
        add_row(&mut rows, &rest[..run])?;
        at += run;
    }
    Ok(rows.finish())
}
