//! The edge list of all lines: ids give way to positions.
ghost use Rattle.std.specs.Prelude.{◌≡◌, ℕ, ◌*◌, ◌<◌, ◌≤◌, ◌^◌, List, Ok, Err, IfOk, length, map, slice_index};
ghost use Rattle.px_base.specs.declared.TheConstants.{MOST_EDGES};
ghost use Rattle.px_base.specs.Values.{by_position};
ghost use Rattle.px_base.specs.Lines.{IdEdge, ends_of, EdgeListFits};
ghost use Rattle.px_base.specs.Inputs.{input_limits, result_at_end};
ghost use Rattle.edge_reader.specs.Places.{edge_at};
ghost use Rattle.edge_reader.specs.Readings.{Says};

use crate::EdgeFault;
use crate::lines::ReadLines;
use crate::places::place_ends;
use px_base::{Edge, EdgeList, Items, Memory};
use std::alloc::Global;

/// The most vertices, as a length.
const MOST_VERTICES: usize = px_base::MOST_VERTICES as usize;

/// The edges whose ends stand side by side.
#[tactic(auto, using(px_base::proofs::Positions::by_position_more))]
fn joined(alloc: Global, places: &[u32], weights: &[u32]) -> Result<Vec<Edge>, Memory>
    requires { length places.now ≡ 2 * length weights.now }
    ensures light { (k : ℕ) → slice_index weights.now k < 2 ^ 32 }
    ensures edges { IfOk result (λ edges. edges.items ≡ by_position (length weights.now) (edge_at places.now weights.now)) }
{
    let mut edges = Vec::with_capacity(alloc, weights.len())?;
    for (k, weight) in weights.iter().enumerate() {
        edges.push(Edge {
            source: places[2 * k],
            target: places[2 * k + 1],
            weight: u64::from(*weight),
        })?;
    }
    Ok(edges)
}

/// The edge list of all lines.
pub fn finish(alloc: Global, lines: ReadLines) -> Result<EdgeList, EdgeFault>
    requires few { length lines.weights.items ≤ MOST_EDGES }
    requires both { length lines.ends.items ≡ 2 * length lines.weights.items }
    ensures says { (edges : List IdEdge) → lines.ends.items ≡ ends_of edges → lines.weights.items ≡ map (λ e. e.weight) edges → Says result (result_at_end input_limits.vertices (Ok edges)) }
    ensures fits { IfOk result (λ list. EdgeListFits list) }
    ensures own { result ≡ Err EdgeFault.ReadFault → ⊥ }
{
    let ReadLines {
        mut ends,
        weights,
        ..
    } = lines;
    let ids = place_ends(alloc, ends.as_mut_slice())?;
    if ids.len() > MOST_VERTICES {
        return Err(EdgeFault::TooManyVertices);
    }
    let edges = joined(alloc, ends.as_slice(), weights.as_slice())?;
    Ok(EdgeList {
        ids: Items::from_vec(ids),
        edges: Items::from_vec(edges),
    })
}
