//! Positions of ids: by a table where ids lie close together, and else by sorting.
ghost use Rattle.std.specs.Prelude.{◌≡◌, ℕ, ◌+◌, ◌<◌, ◌≤◌, ◌^◌, All, OnOk, IfOk, length, slice_index};
ghost use Rattle.px_base.specs.declared.TheConstants.{MOST_READS};
ghost use Rattle.px_base.specs.Values.{by_position};
ghost use Rattle.edge_reader.specs.Places.{ArePlaced, AreTags, AreSorted, tag_at, with_id};

use crate::marks::place_by_marks;
use px_base::Memory;
use std::alloc::Global;

/// A tag is the id of an end times this, and the end's number.
const TAG: u64 = 1 << 32;

/// Each end with its number in one word.
#[tactic(auto, using(px_base::proofs::Positions::by_position_more))]
fn tagged(alloc: Global, ends: &[u32]) -> Result<Vec<u64>, Memory>
    requires { length ends.now ≤ MOST_READS }
    ensures { IfOk result (λ tags. tags.items ≡ by_position (length ends.now) (tag_at ends.now)) }
{
    let mut tags = Vec::with_capacity(alloc, ends.len())?;
    for (number, end) in ends.iter().enumerate() {
        tags.push(u64::from(*end) * TAG + number as u64)?;
    }
    Ok(tags)
}

/// Adds the id, unless it stands at the end.
fn add_id(ids: &mut Vec<u64>, id: u64) -> Result<(), Memory>
    ensures { OnOk result (ids.new.items ≡ with_id ids.old.items id) }
{
    let count = ids.len();
    if count > 0 && ids[count - 1] == id {
        return Ok(());
    }
    ids.push(id)?;
    Ok(())
}

/// The ids of rising tags, where each end gives way to the position of its id.
fn number_tags(alloc: Global, tags: &[u64], ends: &mut [u32]) -> Result<Vec<u64>, Memory>
    requires tags { AreTags ends.old tags.now }
    requires few { length tags.now ≤ MOST_READS }
    requires rising { AreSorted tags.now }
    ensures { IfOk result (λ ids. ArePlaced ends.old ends.new ids.items) }
{
    let mut ids: Vec<u64> = Vec::new(alloc);
    for tag in tags {
        add_id(&mut ids, *tag / TAG)?;
        ends[(*tag % TAG) as usize] = (ids.len() - 1) as u32;
    }
    Ok(ids)
}

/// The rising list of all ids, where each end gives way to the position of its id, by sorting all ends.
fn place_by_tags(alloc: Global, ends: &mut [u32]) -> Result<Vec<u64>, Memory>
    requires { length ends.old ≤ MOST_READS }
    ensures { IfOk result (λ ids. ArePlaced ends.old ends.new ids.items) }
{
    let mut tags = tagged(alloc, ends)?;
    tags.sort_unstable();
    number_tags(alloc, tags.as_slice(), ends)
}

/// The greatest of the ends, or 0 where there are none.
fn greatest(ends: &[u32]) -> u32
    ensures greatest { All (λ end. end ≤ result) ends.now }
    ensures small { (k : ℕ) → slice_index ends.now k < 2 ^ 32 }
{
    let mut top = 0;
    for end in ends {
        top = top.max(*end);
    }
    top
}

/// The rising list of all ids, where each end gives way to the position of its id. A table serves where it is no longer
/// than twice the ends and a million more.
pub fn place_ends(alloc: Global, ends: &mut [u32]) -> Result<Vec<u64>, Memory>
    requires { length ends.old ≤ MOST_READS }
    ensures placed { IfOk result (λ ids. ArePlaced ends.old ends.new ids.items) }
    ensures small { (k : ℕ) → slice_index ends.old k < 2 ^ 32 }
{
    let size = greatest(ends) as usize + 1;
    if size <= 2 * ends.len() + (1 << 20) {
        place_by_marks(alloc, ends, size)
    } else {
        place_by_tags(alloc, ends)
    }
}
