//! One part of a graph: its rows, its mirrors and its boundary.
ghost use Rattle.std.specs.Prelude.{◌≡◌, ◌≤◌, ◌<◌, ◌+◌, ◌-◌, ◌&&◌, ◌||◌, ℕ, false, not, All, IfOk, filter, length, map, take, drop, slice_index, slice_index_or, slice_range};
ghost use Rattle.std.specs.List.{list_any, range_with_len};
ghost use Rattle.px_base.specs.declared.TheConstants.{MOST_VERTICES};
ghost use Rattle.px_base.specs.Values.{IsValue, positions_below};
ghost use Rattle.px_base.specs.Graphs.{HasWeights, RowsFit, read_count};
ghost use Rattle.px_base.specs.Parts.{IsWorkerCuts, PartFits, is_within, part_count, part_of, part_rows, mirrors_of, boundary_of, reads_from};
ghost use Rattle.partitioner.specs.Pieces.{part_with};

use crate::cuts::Cuts;
use crate::marks::{mark_rows, marked_inside, marked_outside};
use px_base::{Items, Memory, Part, Pos, ReadGraph, Rows, Value};
use std::alloc::Global;

/// A mark for each position: whether some row from `low` up to `high` reads it.
#[tactic(auto, using(crate::proofs::Marked::no_mark))]
fn marks_of(alloc: Global, rows: &Rows, low: usize, high: usize) -> Result<Vec<bool>, Memory>
    requires order { low ≤ high }
    requires inside { high ≤ length rows.now }
    requires sources { All (λ row. All (λ r. r.source < length rows.now) row) rows.now }
    ensures length { IfOk result (λ marks. length marks.items ≡ length rows.now) }
    ensures marks { IfOk result (λ marks. (u : ℕ) → slice_index_or marks.items u false ≡ list_any (reads_from u) (slice_range rows.now low high)) }
{
    let mut marks = vec![in alloc; false; rows.row_count()]?;
    mark_rows(&mut marks, rows, low, high);
    Ok(marks)
}

/// The positions outside the range that its rows read, rising.
#[tactic(auto, using(crate::proofs::Marked::marked_mirrors))]
fn mirrors(alloc: Global, rows: &Rows, low: Pos, high: Pos) -> Result<Vec<Pos>, Memory>
    requires room { length rows.now ≤ MOST_VERTICES }
    requires order { low ≤ high }
    requires inside { high ≤ length rows.now }
    requires sources { All (λ row. All (λ r. r.source < length rows.now) row) rows.now }
    ensures { IfOk result (λ found. found.items ≡ filter (λ u. not (is_within low high u) && list_any (reads_from u) (slice_range rows.now low high)) (positions_below (length rows.now))) }
{
    let marks = marks_of(alloc, rows, low as usize, high as usize)?;
    marked_outside(alloc, marks.as_slice(), low, high)
}

/// A mark for each position: whether some row outside the range reads it.
fn marks_from_outside(alloc: Global, rows: &Rows, low: Pos, high: Pos) -> Result<Vec<bool>, Memory>
    requires low { low ≤ length rows.now }
    requires high { high ≤ length rows.now }
    requires sources { All (λ row. All (λ r. r.source < length rows.now) row) rows.now }
    ensures length { IfOk result (λ marks. length marks.items ≡ length rows.now) }
    ensures marks { IfOk result (λ marks. (u : ℕ) →
        slice_index_or marks.items u false ≡ (list_any (reads_from u) (slice_range rows.now 0 low) || list_any (reads_from u) (slice_range rows.now high (length rows.now)))) }
{
    let mut marks = marks_of(alloc, rows, 0, low as usize)?;
    mark_rows(&mut marks, rows, high as usize, rows.row_count());
    Ok(marks)
}

/// The positions in the range that rows outside it read, rising.
#[tactic(auto, using(crate::proofs::Marked::marked_boundary))]
fn boundary(alloc: Global, rows: &Rows, low: Pos, high: Pos) -> Result<Vec<Pos>, Memory>
    requires range { low ≤ high }
    requires inside { high ≤ length rows.now }
    requires sources { All (λ row. All (λ r. r.source < length rows.now) row) rows.now }
    ensures { IfOk result (λ found. found.items ≡
        filter (λ u. list_any (reads_from u) (take low rows.now) || list_any (reads_from u) (drop high rows.now)) (range_with_len low (high - low))) }
{
    let marks = marks_from_outside(alloc, rows, low, high)?;
    marked_inside(alloc, marks.as_slice(), low, high)
}

/// The values of the positions, in their order.
fn values_at(alloc: Global, values: &[Value], positions: &[Pos]) -> Result<Vec<Value>, Memory>
    requires { All (λ u. u < length values.now) positions.now }
    ensures { IfOk result (λ found. found.items ≡ map (slice_index values.now) positions.now) }
{
    let mut found = Vec::with_capacity(alloc, positions.len())?;
    for u in positions {
        found.push(values[*u as usize])?;
    }
    Ok(found)
}

/// The mirrors of part `i`, rising.
#[tactic(auto, using(crate::proofs::Fitting::sources_below, crate::proofs::Owned::low_below_high, crate::proofs::Owned::high_inside))]
fn mirrors_of_part(
    alloc: Global,
    graph: &ReadGraph,
    cuts: &Cuts,
    i: u32,
) -> Result<Vec<Pos>, Memory>
    requires rows { RowsFit graph.now.n graph.now.rows }
    requires most { graph.now.n ≤ MOST_VERTICES }
    requires cuts { IsWorkerCuts graph.now.n cuts.now.ends }
    requires part { i < part_count cuts.now.ends }
    ensures { IfOk result (λ found. found.items ≡ mirrors_of graph.now.rows cuts.now.ends i) }
{
    let ends = cuts.ends.as_slice();
    let (low, high) = (ends[i as usize], ends[i as usize + 1]);
    mirrors(alloc, &graph.rows, low, high)
}

/// The boundary of part `i`, rising.
#[tactic(auto, using(crate::proofs::Fitting::sources_below, crate::proofs::Boundaries::boundary_is, crate::proofs::Owned::low_below_high, crate::proofs::Owned::high_inside))]
fn boundary_of_part(
    alloc: Global,
    graph: &ReadGraph,
    cuts: &Cuts,
    i: u32,
) -> Result<Vec<Pos>, Memory>
    requires rows { RowsFit graph.now.n graph.now.rows }
    requires cuts { IsWorkerCuts graph.now.n cuts.now.ends }
    requires part { i < part_count cuts.now.ends }
    ensures { IfOk result (λ found. found.items ≡ boundary_of graph.now.rows cuts.now.ends i) }
{
    let ends = cuts.ends.as_slice();
    let (low, high) = (ends[i as usize], ends[i as usize + 1]);
    boundary(alloc, &graph.rows, low, high)
}

/// Copies of the rows of part `i`.
#[tactic(auto, using(crate::proofs::Owned::low_below_high, crate::proofs::Owned::high_inside))]
pub fn rows_of_part(alloc: Global, rows: &Rows, cuts: &Cuts, i: u32) -> Result<Rows, Memory>
    requires cuts { IsWorkerCuts (length rows.now) cuts.now.ends }
    requires part { i < part_count cuts.now.ends }
    ensures { IfOk result (λ own. own ≡ part_rows rows.now cuts.now.ends i) }
{
    let ends = cuts.ends.as_slice();
    let (low, high) = (ends[i as usize], ends[i as usize + 1]);
    rows.copy_range(alloc, low as usize, high as usize)
}

/// Part `i` with these rows, mirrors and boundary.
#[tactic(auto, using(crate::proofs::Owned::low_below_high, crate::proofs::Owned::high_inside))]
pub fn assemble(
    alloc: Global,
    own: Rows,
    starts: &[Value],
    cuts: &Cuts,
    i: u32,
    mirrors: Vec<Pos>,
    boundary: Vec<Pos>,
) -> Result<Part, Memory>
    requires cuts { IsWorkerCuts (length starts.now) cuts.now.ends }
    requires part { i < part_count cuts.now.ends }
    requires mirrors { All (λ u. u < length starts.now) mirrors.items }
    ensures { IfOk result (λ part. part ≡ part_with own starts.now cuts.now.ends i mirrors.items boundary.items) }
{
    let ends = cuts.ends.as_slice();
    let (low, high) = (ends[i as usize], ends[i as usize + 1]);
    let own_starts = Vec::from_slice(alloc, &starts[low as usize..high as usize])?;
    let mirror_starts = values_at(alloc, starts, mirrors.as_slice())?;
    Ok(Part {
        index: i,
        low,
        high,
        rows: own,
        starts: Items::from_vec(own_starts),
        mirrors: Items::from_vec(mirrors),
        mirror_starts: Items::from_vec(mirror_starts),
        boundary: Items::from_vec(boundary),
    })
}

/// Part `i` of the graph whose vertices have these core start values.
///
/// # Errors
/// `Memory` where there is no room for the part.
pub fn part(
    alloc: Global,
    graph: &ReadGraph,
    starts: &[Value],
    cuts: &Cuts,
    i: u32,
) -> Result<Part, Memory>
    requires rows { RowsFit graph.now.n graph.now.rows }
    requires most { graph.now.n ≤ MOST_VERTICES }
    requires cuts { IsWorkerCuts graph.now.n cuts.now.ends }
    requires one_each { length starts.now ≡ graph.now.n }
    requires values { All IsValue starts.now }
    requires part { i < part_count cuts.now.ends }
    ensures part { IfOk result (λ part. part ≡ part_of graph.now.rows starts.now cuts.now.ends i) }
    ensures fits { IfOk result (λ part. PartFits part) }
    ensures weights { IfOk result (λ part. HasWeights part.rows) }
    ensures reads { IfOk result (λ part. read_count part.rows ≤ read_count graph.now.rows) }
{
    let mirrors = mirrors_of_part(alloc, graph, cuts, i)?;
    let boundary = boundary_of_part(alloc, graph, cuts, i)?;
    let own = rows_of_part(alloc, &graph.rows, cuts, i)?;
    assemble(alloc, own, starts, cuts, i, mirrors, boundary)
}
