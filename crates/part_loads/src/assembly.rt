//! Whether the entries of a load make a part, and the part that they make.
ghost use Rattle.std.specs.Prelude.{◌≡◌, ◌≤◌, ◌↔◌, All, IfOk, IsTrue, length, map};
ghost use Rattle.px_base.specs.declared.TheConstants.{MOST_READS};
ghost use Rattle.px_base.specs.FrameFits.{IsWord};
ghost use Rattle.px_base.specs.Graphs.{read_count};
ghost use Rattle.px_base.specs.Parts.{is_within};
ghost use Rattle.part_loads.specs.Keeping.{AreCounted, AreRows, joined_part};

use crate::entries::Entries;
use crate::rows::rows_of;
use frame_bodies::never_fall;
use px_base::{Items, Memory, Part, Pos, Setup, Triple, Update, Value};
use std::alloc::{AllocError, Global};

/// Whether there are as many entries of each kind as the setup says, and a start for each master.
pub fn are_counted(setup: &Setup, entries: &Entries) -> bool
    requires { setup.now.low ≤ setup.now.high }
    ensures { IsTrue result ↔ AreCounted setup.now entries.now }
{
    entries.starts.len() == (setup.high - setup.low) as usize
        && entries.mirrors.len() == setup.mirrors as usize
        && entries.boundary.len() == setup.boundary as usize
        && entries.reads.len() == setup.reads as usize
}

fn are_within(triples: &[Triple], low: Pos, high: Pos) -> bool
    ensures { IsTrue result ↔ All (λ t. IsTrue (is_within low high t.target)) triples.now }
{
    triples.iter().all(|t| low <= t.target && t.target < high)
}

/// Whether the reads never fall, and are of masters.
pub fn are_rows(setup: &Setup, entries: &Entries) -> bool
    ensures { IsTrue result ↔ AreRows setup.now.low setup.now.high entries.now.reads }
{
    let reads = entries.reads.as_slice();
    never_fall(reads) && are_within(reads, setup.low, setup.high)
}

fn vertices_of(alloc: Global, pairs: &[Update]) -> Result<Items<Pos>, Memory>
    ensures { IfOk result (λ vertices. vertices ≡ map (λ u. u.vertex) pairs.now) }
{
    let vertices = pairs.iter().map(|u| u.vertex).collect::<Vec<Pos>>(alloc)?;
    Ok(Items::from_vec(vertices))
}

fn values_of(alloc: Global, pairs: &[Update]) -> Result<Items<Value>, Memory>
    ensures { IfOk result (λ values. values ≡ map (λ u. u.value) pairs.now) }
{
    let values = pairs.iter().map(|u| u.value).collect::<Vec<Value>>(alloc)?;
    Ok(Items::from_vec(values))
}

/// The part that the setup and the entries make.
pub fn joined_part(alloc: Global, setup: &Setup, entries: Entries) -> Result<Part, Memory>
    requires range { setup.now.low ≤ setup.now.high }
    requires rows { AreRows setup.now.low setup.now.high entries.reads }
    requires words { All (λ t. IsWord t.weight) entries.reads }
    requires room { length entries.reads ≤ MOST_READS }
    ensures part { IfOk result (λ part. part ≡ joined_part setup.now entries) }
    ensures reads { IfOk result (λ part. read_count part.rows ≤ length entries.reads) }
{
    let Entries {
        starts,
        mirrors,
        boundary,
        reads,
    } = entries;
    Ok(Part {
        index: setup.index,
        low: setup.low,
        high: setup.high,
        rows: rows_of(alloc, setup.low, setup.high, reads.as_slice())?,
        starts: Items::from_vec(starts),
        mirrors: vertices_of(alloc, mirrors.as_slice())?,
        mirror_starts: values_of(alloc, mirrors.as_slice())?,
        boundary: Items::from_vec(boundary),
    })
}
