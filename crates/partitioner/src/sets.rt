//! Sets of positions, with 64 positions to a word. So the set of what one part reads stays in a processor's cache.
ghost use Rattle.std.specs.Prelude.{◌≡◌, ◌==◌, ◌≤◌, ◌<◌, ◌+◌, ◌*◌, ◌/◌, ◌^◌, ◌&&◌, ◌||◌, ◌++◌, ℕ, false, true, not, All, IfOk, OnOk, filter, length, slice_range};
ghost use Rattle.std.specs.List.{list_any};
ghost use Rattle.px_base.specs.Values.{is_listed, positions_below};
ghost use Rattle.px_base.specs.Parts.{is_within, reads_from};
ghost use Rattle.partitioner.specs.Bits.{has_bit, holds, word_positions};

use crate::words::{with_bit, without_lowest};
use px_base::{Memory, Pos, Rows};
use std::alloc::Global;

fn is_outside(low: Pos, high: Pos, at: Pos) -> bool
    ensures { result ≡ not (is_within low high at) }
{
    at < low || high <= at
}

/// Puts the position into the set, where it is outside the range.
fn add(set: &mut [u64], at: Pos, low: Pos, high: Pos)
    requires { at < 64 * length set.old }
    ensures { (u : ℕ) → holds set.new u ≡ (holds set.old u || (not (is_within low high u) && at == u)) }
{
    if is_outside(low, high, at) {
        let word = (at / 64) as usize;
        set[word] = with_bit(set[word], at % 64);
    }
}

/// Puts each of the positions that is outside the range into the set.
fn add_outside(set: &mut [u64], positions: &[Pos], low: Pos, high: Pos)
    requires { All (λ u. u < 64 * length set.old) positions.now }
    ensures { (u : ℕ) → holds set.new u ≡ (holds set.old u || (not (is_within low high u) && is_listed positions.now u)) }
{
    for at in positions {
        add(set, *at, low, high);
    }
}

/// Puts each position outside the range that some row of the range reads into the set.
fn add_rows(set: &mut [u64], rows: &Rows, low: Pos, high: Pos)
    requires order { low ≤ high }
    requires inside { high ≤ length rows.now }
    requires sources { All (λ row. All (λ r. r.source < 64 * length set.old) row) rows.now }
    ensures { (u : ℕ) → holds set.new u ≡ (holds set.old u || (not (is_within low high u) && list_any (reads_from u) (slice_range rows.now low high))) }
{
    add_outside(
        set,
        rows.sources_between(low as usize, high as usize),
        low,
        high,
    );
}

/// The set of the positions outside the range that some row of the range reads.
#[tactic(auto, using(crate::proofs::PositionSets::holds_none, crate::proofs::PositionSets::sources_inside))]
pub fn read_outside(alloc: Global, rows: &Rows, low: Pos, high: Pos) -> Result<Vec<u64>, Memory>
    requires order { low ≤ high }
    requires inside { high ≤ length rows.now }
    requires few { length rows.now < 2 ^ 32 }
    requires sources { All (λ row. All (λ r. r.source < length rows.now) row) rows.now }
    ensures size { IfOk result (λ set. length set.items ≡ length rows.now / 64 + 1) }
    ensures room { IfOk result (λ set. length set.items ≤ 2 ^ 26) }
    ensures holds { IfOk result (λ set. (u : ℕ) → holds set.items u ≡ (not (is_within low high u) && list_any (reads_from u) (slice_range rows.now low high))) }
{
    let mut set = vec![in alloc; 0u64; rows.row_count() / 64 + 1]?;
    add_rows(&mut set, rows, low, high);
    Ok(set)
}

/// Appends the positions of the word's bits, of which the first stands for this one.
fn push_bits(found: &mut Vec<Pos>, word: u64, first: Pos) -> Result<(), Memory>
    requires { (k : ℕ) → has_bit word k ≡ true → first + k < 2 ^ 32 }
    ensures { OnOk result (found.new.items ≡ found.old.items ++ word_positions word first) }
{
    let mut rest = word;
    while rest != 0 {
        found.push(first + rest.trailing_zeros())?;
        rest = without_lowest(rest);
    }
    Ok(())
}

fn count(set: &[u64]) -> usize {
    set.iter().fold(
        0usize,
        |sum, word| sum.wrapping_add(word.count_ones() as usize),
    )
}

/// The positions in the set, rising.
pub fn positions(alloc: Global, set: &[u64]) -> Result<Vec<Pos>, Memory>
    requires room { length set.now ≤ 2 ^ 26 }
    requires fit { (u : ℕ) → holds set.now u ≡ true → u < 2 ^ 32 }
    ensures { IfOk result (λ found. found.items ≡ filter (holds set.now) (positions_below (64 * length set.now))) }
{
    let mut found = Vec::with_capacity(alloc, count(set))?;
    for (i, word) in set.iter().enumerate() {
        push_bits(&mut found, *word, i as Pos * 64)?;
    }
    Ok(found)
}
