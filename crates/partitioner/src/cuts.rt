//! Cuts of the vertices into blocks of nearly the same size, and the owner of a position.
ghost use Rattle.std.specs.Prelude.{◌≡◌, ◌≤◌, ◌<◌, ◌+◌, ◌*◌, ◌/◌, ◌-◌, IfOk, length, slice_index};
ghost use Rattle.px_base.specs.Parts.{IsOwner, IsWorkerCuts, block_cuts};
ghost use Rattle.partitioner.specs.Cuts.{vertex_count};

use px_base::{Items, Memory, Pos};
use std::alloc::Global;

/// Where each part begins, and at last where the last part ends: one position more than there are parts. They begin at
/// 0, never fall, and end at the number of vertices.
#[derive(Clone, Debug, PartialEq, Eq, Drop)]
pub struct Cuts {
    /// Where each part begins, and at last the number of vertices.
    pub ends: Items<Pos>,
}

#[tactic(auto, using(crate::proofs::Blocks::block_below, crate::proofs::Blocks::product_below))]
fn block_end(n: u32, workers: u32, k: u32) -> Pos
    requires some { 1 ≤ workers }
    requires within { k ≤ workers }
    ensures { result ≡ k * n / workers }
{
    (u64::from(k) * u64::from(n) / u64::from(workers)) as Pos
}

/// Cuts `n` vertices into as many parts as there are workers, of nearly the same size.
///
/// # Errors
/// `Memory` where there is no room for the cuts.
#[tactic(auto, using(px_base::proofs::Positions::by_position_more, crate::proofs::Blocks::block_cuts_are))]
pub fn cut(alloc: Global, n: u32, workers: u32) -> Result<Cuts, Memory>
    requires some { 1 ≤ workers }
    requires most { workers ≤ 64 }
    ensures ends { IfOk result (λ cuts. cuts.ends ≡ block_cuts n workers) }
    ensures cuts { IfOk result (λ cuts. IsWorkerCuts n cuts.ends) }
{
    let mut ends = Vec::with_capacity(alloc, workers as usize + 1)?;
    for k in 0..workers + 1 {
        ends.push(block_end(n, workers, k))?;
    }
    Ok(Cuts {
        ends: Items::from_vec(ends),
    })
}

/// The part that has the position. It takes one step for each part before it.
pub fn owner(cuts: &Cuts, pos: Pos) -> u32
    requires cuts { IsWorkerCuts (vertex_count cuts.now.ends) cuts.now.ends }
    requires pos { pos < vertex_count cuts.now.ends }
    ensures { IsOwner cuts.now.ends pos result }
{
    let ends = cuts.ends.as_slice();
    for i in 1..ends.len() {
        if pos < ends[i] {
            return (i - 1) as u32;
        }
    }
    prove!(false);
    0
}
