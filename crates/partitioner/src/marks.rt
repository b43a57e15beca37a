//! Marks at the positions that rows read, and the positions marked in a range or outside it.
ghost use Rattle.std.specs.Prelude.{◌≡◌, ◌≤◌, ◌<◌, ◌-◌, ◌&&◌, ◌||◌, ℕ, false, not, All, IfOk, filter, length, slice_index_or, slice_range};
ghost use Rattle.std.specs.List.{list_any, range_with_len};
ghost use Rattle.px_base.specs.declared.TheConstants.{MOST_VERTICES};
ghost use Rattle.px_base.specs.Values.{is_listed, positions_below};
ghost use Rattle.px_base.specs.Parts.{is_within, reads_from};

use px_base::{Memory, Pos, Rows};
use std::alloc::Global;

/// Marks each of the positions.
#[tactic(auto, using(crate::proofs::Marked::marked_more))]
fn mark(marks: &mut [bool], positions: &[Pos])
    requires { All (λ u. u < length marks.old) positions.now }
    ensures { (u : ℕ) → slice_index_or marks.new u false ≡ (slice_index_or marks.old u false || is_listed positions.now u) }
{
    for at in positions {
        marks[*at as usize] = true;
    }
}

/// Marks each position that some row from `low` up to `high` reads.
#[tactic(auto, using(px_base::proofs::FlatConcat::all_between))]
pub fn mark_rows(marks: &mut [bool], rows: &Rows, low: usize, high: usize)
    requires order { low ≤ high }
    requires inside { high ≤ length rows.now }
    requires sources { All (λ row. All (λ r. r.source < length marks.old) row) rows.now }
    ensures { (u : ℕ) → slice_index_or marks.new u false ≡ (slice_index_or marks.old u false || list_any (reads_from u) (slice_range rows.now low high)) }
{
    mark(marks, rows.sources_between(low, high));
}

fn count_marked(marks: &[bool]) -> usize {
    marks.iter().filter(|mark| **mark).count()
}

fn is_marked_outside(marks: &[bool], low: Pos, high: Pos, at: Pos) -> bool
    requires { at < length marks.now }
    ensures { result ≡ (not (is_within low high at) && slice_index_or marks.now at false) }
{
    (at < low || high <= at) && marks[at as usize]
}

/// The marked positions outside the range, rising.
pub fn marked_outside(
    alloc: Global,
    marks: &[bool],
    low: Pos,
    high: Pos,
) -> Result<Vec<Pos>, Memory>
    requires { length marks.now ≤ MOST_VERTICES }
    ensures { IfOk result (λ found. found.items ≡ filter (λ u. not (is_within low high u) && slice_index_or marks.now u false) (positions_below (length marks.now))) }
{
    let mut found = Vec::with_capacity(alloc, count_marked(marks))?;
    for at in 0..marks.len() as Pos {
        if is_marked_outside(marks, low, high, at) {
            found.push(at)?;
        }
    }
    Ok(found)
}

/// The marked positions in the range, rising.
pub fn marked_inside(alloc: Global, marks: &[bool], low: Pos, high: Pos) -> Result<Vec<Pos>, Memory>
    requires range { low ≤ high }
    requires inside { high ≤ length marks.now }
    ensures { IfOk result (λ found. found.items ≡ filter (λ u. slice_index_or marks.now u false) (range_with_len low (high - low))) }
{
    let count = count_marked(&marks[low as usize..high as usize]);
    let mut found = Vec::with_capacity(alloc, count)?;
    for at in low..high {
        if marks[at as usize] {
            found.push(at)?;
        }
    }
    Ok(found)
}
