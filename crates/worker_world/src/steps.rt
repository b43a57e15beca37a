//! What a Step does to lists of values: a first one, updates put in place and taken back, and what has changed.
ghost use Rattle.std.specs.Prelude.{◌≡◌, ◌++◌, ◌<◌, ◌≤◌, ◌+◌, ◌-◌, ◌||◌, All, IfOk, IsTrue, length, take, drop};
ghost use Rattle.std.specs.List.Sorted.{IsStrictlyIncreasing};
ghost use Rattle.std.specs.List.{list_any};
ghost use Rattle.px_base.specs.Parts.{PartFits, is_within};
ghost use Rattle.px_base.specs.ValueSteps.{announcements, has_changed, some_changed, updated_mirrors};
ghost use Rattle.placed_parts.specs.Places.{master_count};
ghost use Rattle.worker_world.specs.Looked.{ArePlacesOf};
ghost use Rattle.worker_world.specs.Placed.{first_values, mirrors_after};

use placed_parts::PlacedPart;
use px_base::{CoreProgram, Memory, Own, Pos, Update, Value};
use std::alloc::Global;

/// A copy of the values.
pub fn copy_of(alloc: Global, values: &[Value]) -> Result<Vec<Value>, Memory>
    ensures { IfOk result (λ copy. copy.items ≡ values.now) }
{
    Ok(Vec::from_slice(alloc, values)?)
}

/// The values of all masters, and then those of all mirrors.
fn joined(alloc: Global, masters: &[Value], mirrors: &[Value]) -> Result<Vec<Value>, Memory>
    ensures { IfOk result (λ values. values.items ≡ masters.now ++ mirrors.now) }
{
    let mut values = copy_of(alloc, masters)?;
    values.extend_from_slice(mirrors)?;
    Ok(values)
}

/// The values that a new world has, those of all masters first: the start values, or 0 where the program drops what a
/// vertex had.
pub fn first_values(
    alloc: Global,
    core: &CoreProgram,
    part: &PlacedPart,
) -> Result<Vec<Value>, Memory>
    requires { PartFits part.now }
    ensures { IfOk result (λ values. values.items ≡ first_values core.now part.now.starts ++ first_values core.now part.now.mirror_starts) }
{
    let (starts, mirrors) = (part.starts(), part.mirror_starts());
    match core.program.own {
        Own::Keep => joined(alloc, starts, mirrors),
        Own::Drop => Ok(vec![in alloc; 0; starts.len() + mirrors.len()]?),
    }
}

/// Puts the updates in place, each at its mirror.
fn apply_updates(mirrors: &[Pos], updates: &[Update], places: &[u32], values: &mut [Value])
    requires rising { IsStrictlyIncreasing mirrors.now }
    requires lengths { length values.old ≡ length mirrors.now }
    requires places { ArePlacesOf mirrors.now updates.now places.now }
    ensures { values.new ≡ updated_mirrors mirrors.now updates.now values.old }
{
    for k in 0..updates.len() {
        values[places[k] as usize] = updates[k].value;
    }
}

/// Takes them back: each mirror that has one gets the value again that it has in `before`.
fn take_back(
    mirrors: &[Pos],
    updates: &[Update],
    places: &[u32],
    before: &[Value],
    values: &mut [Value],
)
    requires rising { IsStrictlyIncreasing mirrors.now }
    requires lengths { length before.now ≡ length mirrors.now }
    requires places { ArePlacesOf mirrors.now updates.now places.now }
    requires updated { values.old ≡ updated_mirrors mirrors.now updates.now before.now }
    ensures { values.new ≡ before.now }
{
    for place in places {
        values[*place as usize] = before[*place as usize];
    }
}

/// Puts the updates in place where the values of the masters stand before those of the mirrors.
pub fn put_updates(part: &PlacedPart, updates: &[Update], places: &[u32], values: &mut Vec<Value>)
    requires fits { PartFits part.now }
    requires count { length values.old.items ≡ master_count part.now + length part.now.mirrors }
    requires places { ArePlacesOf part.now.mirrors updates.now places.now }
    ensures { values.new.items ≡ take (master_count part.now) values.old.items ++ mirrors_after part.now updates.now values.old.items }
{
    let count = part.master_count();
    let values = values.as_mut_slice();
    apply_updates(part.mirrors(), updates, places, &mut values[count..]);
}

/// Takes them back there.
pub fn take_updates_back(
    part: &PlacedPart,
    updates: &[Update],
    places: &[u32],
    before: &[Value],
    values: &mut Vec<Value>,
)
    requires fits { PartFits part.now }
    requires before { length before.now ≡ master_count part.now + length part.now.mirrors }
    requires count { length values.old.items ≡ master_count part.now + length part.now.mirrors }
    requires places { ArePlacesOf part.now.mirrors updates.now places.now }
    requires updated { drop (master_count part.now) values.old.items ≡ mirrors_after part.now updates.now before.now }
    ensures { values.new.items ≡ take (master_count part.now) values.old.items ++ drop (master_count part.now) before.now }
{
    let count = part.master_count();
    let values = values.as_mut_slice();
    take_back(
        part.mirrors(),
        updates,
        places,
        &before[count..],
        &mut values[count..],
    );
}

/// Whether some master has another value than before.
pub fn some_changed(before: &[Value], after: &[Value]) -> bool
    requires { length before.now ≡ length after.now }
    ensures { result ≡ some_changed before.now after.now }
{
    (0..after.len()).any(|k| before[k] != after[k])
}

/// Whether one of these masters has.
pub fn some_listed_changed(masters: &[u32], before: &[Value], after: &[Value]) -> bool
    requires before { All (λ k. k < length before.now) masters.now }
    requires after { All (λ k. k < length after.now) masters.now }
    ensures { result ≡ list_any (has_changed before.now after.now) masters.now }
{
    masters
        .iter()
        .any(|k| before[*k as usize] != after[*k as usize])
}

/// Whether so many masters have another value than before that all should be renewed in the next step. Either is right, so no
/// clause says which.
pub fn many_changed(before: &[Value], after: &[Value]) -> bool
    requires { length before.now ≡ length after.now }
{
    let most = after.len() / 64;
    let mut count = 0;
    for k in 0..after.len() {
        if before[k] != after[k] {
            if count == most {
                return true;
            }
            count += 1;
        }
    }
    false
}

/// Whether a master of the boundary is announced.
fn is_announced(all: bool, part: &PlacedPart, before: &[Value], after: &[Value], v: Pos) -> bool
    requires within { IsTrue (is_within part.now.low part.now.high v) }
    requires before { length before.now ≡ part.now.high - part.now.low }
    requires after { length after.now ≡ part.now.high - part.now.low }
    ensures { result ≡ (all || has_changed before.now after.now (v - part.now.low)) }
{
    let k = (v - part.low()) as usize;
    all || before[k] != after[k]
}

/// How many are announced.
fn announced_count(all: bool, part: &PlacedPart, before: &[Value], after: &[Value]) -> usize
    requires fits { PartFits part.now }
    requires before { length before.now ≡ part.now.high - part.now.low }
    requires after { length after.now ≡ part.now.high - part.now.low }
{
    let mut count: usize = 0;
    for v in part.boundary() {
        if is_announced(all, part, before, after, *v) {
            count += 1;
        }
    }
    count
}

/// The boundary masters that changed, or all of them, with their values.
pub fn announcements(
    alloc: Global,
    all: bool,
    part: &PlacedPart,
    before: &[Value],
    after: &[Value],
) -> Result<Vec<Update>, Memory>
    requires fits { PartFits part.now }
    requires before { length before.now ≡ part.now.high - part.now.low }
    requires after { length after.now ≡ part.now.high - part.now.low }
    ensures { IfOk result (λ updates. updates.items ≡ announcements all part.now before.now after.now) }
{
    let room = announced_count(all, part, before, after);
    let mut updates = Vec::with_capacity(alloc, room)?;
    for v in part.boundary() {
        if is_announced(all, part, before, after, *v) {
            updates.push(Update {
                vertex: *v,
                value: after[(*v - part.low()) as usize],
            })?;
        }
    }
    Ok(updates)
}
