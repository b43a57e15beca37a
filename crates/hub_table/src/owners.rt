//! Whose master a vertex is, for one vertex after another.
ghost use Rattle.std.specs.Prelude.{◌≡◌, ◌<◌, ◌≤◌, ◌-◌, length, slice_index};
ghost use Rattle.px_base.specs.Parts.{IsOwner, IsWorkerCuts};
ghost use Rattle.partitioner.specs.Cuts.{vertex_count};

use partitioner::Cuts;
use px_base::Pos;

/// A part that begins at the vertex or before it: part `last`, if it does, else the first one.
fn begin_at(ends: &[Pos], last: u32, vertex: Pos) -> usize
    requires some { 2 ≤ length ends.now }
    requires first { slice_index ends.now 0 ≡ 0 }
    requires below { vertex < slice_index ends.now (length ends.now - 1) }
    ensures inside { result < length ends.now - 1 }
    ensures from { slice_index ends.now result ≤ vertex }
{
    match ends.get(last as usize) {
        Some(low) if *low <= vertex => last as usize,
        _ => 0,
    }
}

/// The part that has the vertex. It is looked for from part `last` on, so it takes one pass over the cuts for all vertices of
/// a rising list, where `last` is the answer before.
pub fn owner_from(cuts: &Cuts, last: u32, vertex: Pos) -> u32
    requires cuts { IsWorkerCuts (vertex_count cuts.now.ends) cuts.now.ends }
    requires below { vertex < vertex_count cuts.now.ends }
    ensures { IsOwner cuts.now.ends vertex result }
{
    let ends = cuts.ends.as_slice();
    for i in begin_at(ends, last, vertex) + 1..ends.len() {
        if vertex < ends[i] {
            return (i - 1) as u32;
        }
    }
    prove!(false);
    0
}
