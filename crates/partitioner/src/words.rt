//! A word of 64 bits for each position: bit j where part j mirrors it.
ghost use Rattle.std.specs.Prelude.{◌≡◌, ◌==◌, ◌≤◌, ◌<◌, ◌+◌, ◌-◌, ◌^◌, ◌&&◌, ◌||◌, ℕ, false, true, not, nat_lt, All, IfOk, filter, length, slice_index};
ghost use Rattle.std.specs.Int.{trailing_zeros, w64};
ghost use Rattle.std.specs.List.{range_with_len};
ghost use Rattle.px_base.specs.Values.{by_position, is_listed, positions_below};
ghost use Rattle.px_base.specs.Parts.{IsWorkerCuts, is_mirror, mirrors_of, part_count};
ghost use Rattle.partitioner.specs.Bits.{HasBitsBelow, has_bit};

use crate::cuts::Cuts;
use crate::sets::{positions, read_outside};
use px_base::{Items, Memory, Pos, Rows};
use std::alloc::Global;

/// The word with bit `j` as well.
#[tactic(auto, using(crate::proofs::BitWords::with_bit_is))]
pub fn with_bit(word: u64, j: u32) -> u64
    requires { j < 64 }
    ensures { (k : ℕ) → has_bit result k ≡ (has_bit word k || k == j) }
{
    word | (1 << j)
}

/// The word without its lowest bit.
#[tactic(auto, using(crate::proofs::LowestBits::without_lowest_is, crate::proofs::LowestBits::without_lowest_below))]
pub fn without_lowest(word: u64) -> u64
    requires { 0 < word }
    ensures bits { (k : ℕ) → has_bit result k ≡ (has_bit word k && not (k == trailing_zeros w64 word)) }
    ensures less { result < word }
{
    word & (word - 1)
}

/// The bits of the word, rising.
pub fn bits_of(alloc: Global, word: u64) -> Result<Vec<u32>, Memory>
    ensures { IfOk result (λ found. (most : ℕ) → HasBitsBelow word most → found.items ≡ filter (has_bit word) (positions_below most)) }
{
    let mut found = Vec::with_capacity(alloc, word.count_ones() as usize)?;
    let mut rest = word;
    while rest != 0 {
        found.push(rest.trailing_zeros())?;
        rest = without_lowest(rest);
    }
    Ok(found)
}

/// Sets bit `j` of each of the positions.
fn set_bit(words: &mut [u64], positions: &[Pos], j: u32)
    requires bit { j < 64 }
    requires inside { All (λ u. u < length words.old) positions.now }
    ensures { (u k : ℕ) → has_bit (slice_index words.new u) k ≡ (has_bit (slice_index words.old u) k || (k == j && is_listed positions.now u)) }
{
    for at in positions {
        words[*at as usize] = with_bit(words[*at as usize], j);
    }
}

/// The mirrors of part `j`, rising.
#[tactic(auto, using(crate::proofs::Owned::low_below_high, crate::proofs::Owned::high_inside))]
fn mirrors(alloc: Global, rows: &Rows, cuts: &Cuts, j: u32) -> Result<Vec<Pos>, Memory>
    requires few { length rows.now < 2 ^ 32 }
    requires sources { All (λ row. All (λ r. r.source < length rows.now) row) rows.now }
    requires cuts { IsWorkerCuts (length rows.now) cuts.now.ends }
    requires part { j < part_count cuts.now.ends }
    ensures { IfOk result (λ found. found.items ≡ mirrors_of rows.now cuts.now.ends j) }
{
    let ends = cuts.ends.as_slice();
    let (low, high) = (ends[j as usize], ends[j as usize + 1]);
    let set = read_outside(alloc, rows, low, high)?;
    positions(alloc, set.as_slice())
}

/// What is known of the mirrors of all parts: those of each part, rising, and a word for each position, with bit j where
/// part j mirrors it.
#[derive(Drop)]
pub struct Mirrored {
    /// The mirrors of each part, rising.
    pub lists: Vec<Items<Pos>>,
    /// A word for each position: bit j where part j mirrors it.
    pub words: Vec<u64>,
}

/// The mirrors of all parts of a graph of `n` vertices. It takes one pass over the reads, and one over the mirrors.
#[tactic(auto, using(crate::proofs::BitWords::no_bit))]
pub fn all_mirrors(alloc: Global, n: u32, rows: &Rows, cuts: &Cuts) -> Result<Mirrored, Memory>
    requires one_each { length rows.now ≡ n }
    requires sources { All (λ row. All (λ r. r.source < length rows.now) row) rows.now }
    requires cuts { IsWorkerCuts (length rows.now) cuts.now.ends }
    ensures lists { IfOk result (λ all. all.lists.items ≡ by_position (part_count cuts.now.ends) (mirrors_of rows.now cuts.now.ends)) }
    ensures size { IfOk result (λ all. length all.words.items ≡ length rows.now) }
    ensures bits { IfOk result (λ all. (u k : ℕ) →
        has_bit (slice_index all.words.items u) k ≡ (nat_lt k (part_count cuts.now.ends) && is_mirror rows.now cuts.now.ends k u)) }
{
    let parts = (cuts.ends.as_slice().len() - 1) as u32;
    let mut words = vec![in alloc; 0u64; n as usize]?;
    let mut lists = Vec::with_capacity(alloc, parts as usize)?;
    for j in 0..parts {
        let found = mirrors(alloc, rows, cuts, j)?;
        set_bit(&mut words, &found, j);
        lists.push(Items::from_vec(found))?;
    }
    Ok(Mirrored { lists, words })
}

/// The positions in the range whose word has some bit, rising.
pub fn with_some_bit(alloc: Global, words: &[u64], low: Pos, high: Pos) -> Result<Vec<Pos>, Memory>
    requires range { low ≤ high }
    requires inside { high ≤ length words.now }
    ensures { IfOk result (λ found. found.items ≡ filter (λ u. not (slice_index words.now u == 0)) (range_with_len low (high - low))) }
{
    let mut found = Vec::with_capacity(alloc, (high - low) as usize)?;
    for at in low..high {
        if words[at as usize] != 0 {
            found.push(at)?;
        }
    }
    Ok(found)
}
