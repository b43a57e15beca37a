//! The inboxes of all workers, as a list.
ghost use Rattle.std.specs.Prelude.{◌≡◌, ℕ, ◌==◌, ◌<◌, ◌≤◌, ◌-◌, ◌+◌, ◌++◌, [], true, All, IfOk, length, replicate, slice_index_or, slice_set, vec_len, vec_capacity};
ghost use Rattle.std.specs.List.{list_all, range_with_len};
ghost use Rattle.std.specs.List.Sorted.{IsStrictlyIncreasing};
ghost use Rattle.px_base.specs.declared.TheConstants.{MOST_VERTICES};
ghost use Rattle.px_base.specs.Values.{is_listed};
ghost use Rattle.px_base.specs.Parts.{IsWorkerCuts, low_of, high_of, part_count};
ghost use Rattle.partitioner.specs.Cuts.{vertex_count};
ghost use Rattle.hub_terms.specs.Inboxes.{box_with};
ghost use Rattle.hub_table.specs.Tables.{mails, tables};

use crate::inbox::Inbox;
use crate::places::Places;
use crate::vertices::Vertices;
use partitioner::Cuts;
use px_base::{Memory, Pos, Update, Value};
use std::alloc::Global;

/// An empty inbox for each list of vertices. Errors: want of memory.
pub fn inboxes_for(alloc: Global, lists: Vec<Vertices>) -> Result<Vec<Inbox>, Memory>
    requires rising { (j : ℕ) → j < length lists.items → IsStrictlyIncreasing (slice_index_or lists.items j []) }
    requires few { (j : ℕ) → j < length lists.items → All (λ v. v < MOST_VERTICES) (slice_index_or lists.items j []) }
    ensures tables { IfOk result (λ inboxes. tables inboxes.items ≡ lists.items) }
    ensures mails { IfOk result (λ inboxes. mails inboxes.items ≡ replicate (length lists.items) []) }
{
    let mut inboxes = Vec::with_capacity(alloc, lists.len())?;
    for list in lists {
        let places = Places::listed(alloc, list.into_vec())?;
        inboxes.push(Inbox::new(alloc, places)?)?;
    }
    Ok(inboxes)
}

/// An empty inbox for the masters of each part. Errors: want of memory.
#[tactic(auto, using(partitioner::proofs::Owned::low_below_high))]
pub fn master_inboxes(alloc: Global, cuts: &Cuts) -> Result<Vec<Inbox>, Memory>
    requires cuts { IsWorkerCuts (vertex_count cuts.now.ends) cuts.now.ends }
    requires few { vertex_count cuts.now.ends ≤ MOST_VERTICES }
    ensures count { IfOk result (λ inboxes. length inboxes.items ≡ part_count cuts.now.ends) }
    ensures tables { IfOk result (λ inboxes. (j : ℕ) → j < part_count cuts.now.ends →
        slice_index_or (tables inboxes.items) j [] ≡ range_with_len (low_of cuts.now.ends j) (high_of cuts.now.ends j - low_of cuts.now.ends j)) }
    ensures mails { IfOk result (λ inboxes. mails inboxes.items ≡ replicate (length inboxes.items) []) }
{
    let ends = cuts.ends.as_slice();
    let count = ends.len() - 1;
    let mut inboxes = Vec::with_capacity(alloc, count)?;
    for i in 0..count {
        let places = Places::range(ends[i], ends[i + 1]);
        inboxes.push(Inbox::new(alloc, places)?)?;
    }
    Ok(inboxes)
}

/// One update more for the worker.
pub fn send_at(inboxes: &mut Vec<Inbox>, at: usize, counting: bool, vertex: Pos, value: Value)
    requires inside { at < length inboxes.old.items }
    requires listed { is_listed (slice_index_or (tables inboxes.old.items) at []) vertex ≡ true }
    ensures mails { mails inboxes.new.items ≡
        slice_set (mails inboxes.old.items) at (box_with counting (record { vertex = vertex; value = value }) (slice_index_or (mails inboxes.old.items) at [])) }
    ensures tables { tables inboxes.new.items ≡ tables inboxes.old.items }
{
    inboxes[at].send(counting, vertex, value);
}

/// Whether nothing waits for any worker. It takes a look at each inbox.
pub fn all_empty(inboxes: &[Inbox]) -> bool
    ensures { result ≡ list_all (λ b. length b.mail == 0) inboxes.now }
{
    inboxes.iter().all(|inbox| inbox.is_empty())
}

/// Empties all inboxes.
pub fn clear_all(inboxes: &mut Vec<Inbox>)
    ensures mails { mails inboxes.new.items ≡ replicate (length (mails inboxes.old.items)) [] }
    ensures tables { tables inboxes.new.items ≡ tables inboxes.old.items }
{
    for at in 0..inboxes.len() {
        inboxes[at].clear();
    }
}

/// Appends all that waits for the worker, and empties its inbox.
pub fn drain_at(inboxes: &mut Vec<Inbox>, at: usize, out: &mut Vec<Update>)
    requires inside { at < length inboxes.old.items }
    requires room { vec_len out.old + length (slice_index_or (mails inboxes.old.items) at []) ≤ vec_capacity out.old }
    ensures given { out.new.items ≡ out.old.items ++ slice_index_or (mails inboxes.old.items) at [] }
    ensures mails { mails inboxes.new.items ≡ slice_set (mails inboxes.old.items) at [] }
    ensures tables { tables inboxes.new.items ≡ tables inboxes.old.items }
{
    inboxes[at].drain(out);
}
