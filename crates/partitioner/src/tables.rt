//! The route of each position: the parts that mirror it.
ghost use Rattle.std.specs.Prelude.{◌≡◌, ◌≤◌, ◌<◌, ◌&&◌, ℕ, nat_lt, All, IfOk, filter, length, slice_index};
ghost use Rattle.px_base.specs.Values.{by_position, positions_below};
ghost use Rattle.px_base.specs.Parts.{IsWorkerCuts, is_mirror, part_count, routes_of};
ghost use Rattle.partitioner.specs.Bits.{HasBitsBelow, has_bit};

use crate::cuts::Cuts;
use crate::words::{all_mirrors, bits_of};
use px_base::{Items, Memory, ReadGraph};
use std::alloc::Global;

/// For each position the parts that mirror it, rising.
#[derive(Clone, Debug, PartialEq, Eq, Drop)]
pub struct RouteTable {
    /// The route of each position: numbers of parts, rising.
    pub to: Items<Items<u32>>,
}

/// The bits of each word, rising.
#[tactic(auto, using(px_base::proofs::Positions::by_position_more))]
pub fn bit_table(alloc: Global, words: &[u64]) -> Result<RouteTable, Memory>
    ensures { IfOk result (λ table. (most : ℕ) → ((u : ℕ) → HasBitsBelow (slice_index words.now u) most) →
        table.to ≡ by_position (length words.now) (λ u. filter (has_bit (slice_index words.now u)) (positions_below most))) }
{
    let mut to = Vec::with_capacity(alloc, words.len())?;
    for word in words {
        let route = bits_of(alloc, *word)?;
        to.push(Items::from_vec(route))?;
    }
    Ok(RouteTable {
        to: Items::from_vec(to),
    })
}

/// The route of each position: the parts that mirror it, rising. It takes one pass over the reads.
///
/// # Errors
/// `Memory` where there is no room for the table.
pub fn routes(alloc: Global, graph: &ReadGraph, cuts: &Cuts) -> Result<RouteTable, Memory>
    requires one_each { length graph.now.rows ≡ graph.now.n }
    requires sources { All (λ row. All (λ r. r.source < graph.now.n) row) graph.now.rows }
    requires cuts { IsWorkerCuts graph.now.n cuts.now.ends }
    ensures { IfOk result (λ table. table.to ≡ routes_of graph.now.rows cuts.now.ends) }
{
    let all = all_mirrors(alloc, graph.n, &graph.rows, cuts)?;
    bit_table(alloc, all.words.as_slice())
}
