//! All parts of a graph at once, with the routes, in one pass over the reads.
ghost use Rattle.std.specs.Prelude.{◌≡◌, ◌≤◌, ◌<◌, ◌-◌, ◌&&◌, ◌==◌, ℕ, nat_lt, not, All, IfOk, filter, length, slice_index};
ghost use Rattle.std.specs.List.{range_with_len};
ghost use Rattle.px_base.specs.declared.TheConstants.{MOST_VERTICES};
ghost use Rattle.px_base.specs.Values.{IsValue, by_position};
ghost use Rattle.px_base.specs.Graphs.{HasWeights, RowsFit, read_count};
ghost use Rattle.px_base.specs.Parts.{IsWorkerCuts, PartFits, high_of, is_mirror, low_of, mirrors_of, part_count, part_of, part_rows, routes_of};
ghost use Rattle.partitioner.specs.Bits.{has_bit};
ghost use Rattle.partitioner.specs.Pieces.{part_with};

use crate::cuts::Cuts;
use crate::parts::{assemble, rows_of_part};
use crate::tables::{RouteTable, bit_table};
use crate::words::{Mirrored, all_mirrors, with_some_bit};
use px_base::{Items, Memory, Part, Pos, Rows, Value};
use std::alloc::Global;

/// Part `i` with these mirrors, by the words of all positions.
#[tactic(auto, using(crate::proofs::Owned::low_below_high, crate::proofs::Owned::high_inside))]
fn part_by(
    alloc: Global,
    rows: &Rows,
    starts: &[Value],
    cuts: &Cuts,
    words: &[u64],
    mirrors: Vec<Pos>,
    i: u32,
) -> Result<Part, Memory>
    requires cuts { IsWorkerCuts (length rows.now) cuts.now.ends }
    requires one_each { length starts.now ≡ length rows.now }
    requires size { length words.now ≡ length rows.now }
    requires part { i < part_count cuts.now.ends }
    requires mirrors { All (λ u. u < length starts.now) mirrors.items }
    ensures { IfOk result (λ part. part ≡
        part_with (part_rows rows.now cuts.now.ends i) starts.now cuts.now.ends i mirrors.items
        (filter (λ u. not (slice_index words.now u == 0)) (range_with_len (low_of cuts.now.ends i) (high_of cuts.now.ends i - low_of cuts.now.ends i)))) }
{
    let ends = cuts.ends.as_slice();
    let (low, high) = (ends[i as usize], ends[i as usize + 1]);
    let own = rows_of_part(alloc, rows, cuts, i)?;
    let boundary = with_some_bit(alloc, words, low, high)?;
    assemble(alloc, own, starts, cuts, i, mirrors, boundary)
}

/// The parts, by the words of all positions and the mirrors of each part.
fn parts_by(
    alloc: Global,
    rows: &Rows,
    starts: &[Value],
    cuts: &Cuts,
    words: &[u64],
    lists: Vec<Items<Pos>>,
) -> Result<Items<Part>, Memory>
    requires cuts { IsWorkerCuts (length rows.now) cuts.now.ends }
    requires one_each { length starts.now ≡ length rows.now }
    requires size { length words.now ≡ length rows.now }
    requires bits { (u k : ℕ) → has_bit (slice_index words.now u) k ≡ (nat_lt k (part_count cuts.now.ends) && is_mirror rows.now cuts.now.ends k u) }
    requires mirrors { lists.items ≡ by_position (part_count cuts.now.ends) (mirrors_of rows.now cuts.now.ends) }
    ensures { IfOk result (λ parts. parts ≡ by_position (part_count cuts.now.ends) (part_of rows.now starts.now cuts.now.ends)) }
{
    let mut parts = Vec::with_capacity(alloc, lists.len())?;
    for list in lists {
        let i = parts.len() as u32;
        let part = part_by(alloc, rows, starts, cuts, words, list.into_vec(), i)?;
        parts.push(part)?;
    }
    Ok(Items::from_vec(parts))
}

/// All parts of the graph that has these rows, and whose vertices have these core start values, in order, and the routes of all
/// positions. It takes one pass over the reads for all parts together, and a few steps for each mirror of each part. The reads
/// of each part are copied in one piece.
///
/// # Errors
/// `Memory` where there is no room for the parts or the routes.
pub fn parts_and_routes(
    alloc: Global,
    rows: &Rows,
    starts: &[Value],
    cuts: &Cuts,
) -> Result<(Items<Part>, RouteTable), Memory>
    requires rows { RowsFit (length rows.now) rows.now }
    requires most { length rows.now ≤ MOST_VERTICES }
    requires cuts { IsWorkerCuts (length rows.now) cuts.now.ends }
    requires one_each { length starts.now ≡ length rows.now }
    requires values { All IsValue starts.now }
    ensures parts { IfOk result (λ both. both.0 ≡ by_position (part_count cuts.now.ends) (part_of rows.now starts.now cuts.now.ends)) }
    ensures fits { IfOk result (λ both. All PartFits both.0) }
    ensures weights { IfOk result (λ both. All (λ part. HasWeights part.rows) both.0) }
    ensures reads { IfOk result (λ both. All (λ part. read_count part.rows ≤ read_count rows.now) both.0) }
    ensures routes { IfOk result (λ both. both.1.to ≡ routes_of rows.now cuts.now.ends) }
{
    let n = rows.row_count() as u32;
    let Mirrored { lists, words } = all_mirrors(alloc, n, rows, cuts)?;
    let routes = bit_table(alloc, words.as_slice())?;
    let parts = parts_by(alloc, rows, starts, cuts, words.as_slice(), lists)?;
    Ok((parts, routes))
}
