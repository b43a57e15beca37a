//! The vertices of which updates may come to a worker, and at which place each of them stands.
ghost use Rattle.std.specs.Prelude.{◌≡◌, ◌<◌, ◌≤◌, ◌-◌, false, IfSome, IfNone, length};
ghost use Rattle.std.specs.List.Sorted.{IsStrictlyIncreasing};
ghost use Rattle.px_base.specs.Parts.{is_within};
ghost use Rattle.px_base.specs.Values.{is_listed, place_of};
ghost use Rattle.mirror_places.specs.Tables.{IsTableOf};

use mirror_places::PlaceTable;
use px_base::{Memory, Pos};
use std::alloc::Global;
use std::marker::Model;

/// How the vertices are kept.
#[derive(Drop)]
pub enum Kept {
    /// Any vertices, rising, with a table that says where each stands.
    Listed {
        /// The vertices, rising.
        vertices: Vec<Pos>,
        /// Where each of them stands in the list.
        table: PlaceTable,
    },
    /// All from `low` on, and before `high`.
    Range {
        /// The first vertex.
        low: Pos,
        /// The vertex after the last one.
        high: Pos,
    },
}

/// Rising vertices, each of which is found in constant time.
#[derive(Drop)]
pub struct Places {
    kept: Kept,
}

impl Model for Places {
    ghost use Rattle.std.specs.Prelude.{ℕ, List};
    ghost use Rattle.hub_table.specs.Kept.{vertices_in, IsKept};

    ghost Value = { List ℕ };

    ghost view = { λ p. vertices_in p.kept };

    ghost invariant = { λ p. IsKept p.kept };
}

impl Places {
    ghost use Rattle.px_base.specs.declared.TheConstants.{MOST_VERTICES};
    ghost use Rattle.std.specs.Prelude.{◌≡◌, ◌<◌, ◌≤◌, ◌-◌, false, All, IfOk, IfSome, IfNone, length, slice_index};
    ghost use Rattle.std.specs.List.{range_with_len};
    ghost use Rattle.std.specs.List.Sorted.{IsStrictlyIncreasing};
    ghost use Rattle.px_base.specs.Values.{is_listed, place_of};

    /// These vertices. Errors: want of memory.
    pub fn listed(alloc: Global, vertices: Vec<Pos>) -> Result<Places, Memory>
        requires rising { IsStrictlyIncreasing vertices.items }
        requires below { All (λ v. v < MOST_VERTICES) vertices.items }
        ensures { IfOk result (λ places. places ≡ vertices.items) }
    {
        let table = PlaceTable::new(alloc, &vertices)?;
        Ok(Places {
            kept: Kept::Listed { vertices, table },
        })
    }

    /// All vertices from `low` on, and before `high`.
    pub fn range(low: Pos, high: Pos) -> Places
        requires order { low ≤ high }
        requires below { high ≤ MOST_VERTICES }
        ensures { result ≡ range_with_len low (high - low) }
    {
        Places {
            kept: Kept::Range { low, high },
        }
    }

    /// How many vertices there are.
    pub fn len(&self) -> usize
        ensures count { result ≡ length self.now }
        ensures rising { IsStrictlyIncreasing self.now }
        ensures few { length self.now ≤ MOST_VERTICES }
    {
        match &self.kept {
            Kept::Listed { vertices, .. } => vertices.len(),
            Kept::Range { low, high } => (*high - *low) as usize,
        }
    }

    /// The place of the vertex, if it is one of these. Among listed vertices place `next` is looked at first: of vertices that
    /// come one after another in the list, each stands at the place after the last one.
    pub fn find(&self, next: usize, vertex: Pos) -> Option<usize>
        ensures some { IfSome result (λ at. (at ≡ place_of self.now vertex) × (at < length self.now)) }
        ensures none { IfNone result (is_listed self.now vertex ≡ false) }
    {
        match &self.kept {
            Kept::Listed { vertices, table } => find_listed(vertices, table, next, vertex),
            Kept::Range { low, high } => place_within(*low, *high, vertex),
        }
    }

    /// The vertex at a place.
    pub fn vertex(&self, at: usize) -> Pos
        requires { at < length self.now }
        ensures { result ≡ slice_index self.now at }
    {
        match &self.kept {
            Kept::Listed { vertices, .. } => vertices[at],
            Kept::Range { low, .. } => *low + at as Pos,
        }
    }
}

/// The place of the vertex in the list, if it is there: `next`, where it stands there, else by the table.
#[tactic(auto, using(crate::proofs::Ranging::place_by_rise))]
fn find_listed(vertices: &[Pos], table: &PlaceTable, next: usize, vertex: Pos) -> Option<usize>
    requires rising { IsStrictlyIncreasing vertices.now }
    requires table { IsTableOf vertices.now table.now }
    ensures some { IfSome result (λ at. (at ≡ place_of vertices.now vertex) × (at < length vertices.now)) }
    ensures none { IfNone result (is_listed vertices.now vertex ≡ false) }
{
    match vertices.get(next) {
        Some(there) if *there == vertex => Some(next),
        _ => table.find(vertices, vertex),
    }
}

/// How far the vertex stands from the first of the range, if it is in it.
fn place_within(low: Pos, high: Pos, vertex: Pos) -> Option<usize>
    ensures some { IfSome result (λ at. (at ≡ vertex - low) × (low ≤ vertex) × (vertex < high)) }
    ensures none { IfNone result (is_within low high vertex ≡ false) }
{
    if low <= vertex && vertex < high {
        Some((vertex - low) as usize)
    } else {
        None
    }
}
