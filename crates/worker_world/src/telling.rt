//! Whoever reads a place is due where the value there changes.
ghost use Rattle.std.specs.Prelude.{◌≡◌, ◌<◌, ◌+◌, ◌++◌, ℕ, true, false, All, IsTrue, length, slice_index, slice_set, take, drop};
ghost use Rattle.px_base.specs.Values.{is_listed};
ghost use Rattle.placed_parts.specs.Places.{master_count};
ghost use Rattle.worker_world.specs.Looked.{ArePlacesOf};
ghost use Rattle.worker_world.specs.Readers.{is_reader, AreReaders};
ghost use Rattle.worker_world.specs.Due.{is_due, StaysDue, IsTold, AreTold, IsUpdateTold};

use crate::due::Due;
use placed_parts::PlacedPart;
use px_base::{Update, Value};
use reader_chains::Readers;

/// The readers of a place are due.
fn tell_readers(part: &PlacedPart, readers: &Readers, place: usize, due: &mut Due)
    requires readers { AreReaders part.now readers.now }
    requires size { length due.old.marked.items ≡ master_count part.now }
    requires place { place < master_count part.now + length part.now.mirrors }
    ensures told { (k : ℕ) → is_reader readers.now place k ≡ true → is_due due.new k ≡ true }
    ensures stays { StaysDue due.old due.new }
{
    let mut left = readers.of(place);
    while !due.all {
        let Some(reader) = left.next() else {
            return;
        };
        due.add(reader);
    }
}

/// The readers of a place are due where its value becomes another one.
fn tell_of(
    part: &PlacedPart,
    readers: &Readers,
    place: usize,
    had: Value,
    value: Value,
    due: &mut Due,
)
    requires readers { AreReaders part.now readers.now }
    requires size { length due.old.marked.items ≡ master_count part.now }
    requires place { place < master_count part.now + length part.now.mirrors }
    ensures told { IsTold readers.now due.new place had value }
    ensures stays { StaysDue due.old due.new }
{
    if had != value {
        tell_readers(part, readers, place, due);
    }
}

/// Tells of the updates that are to be put among the values of masters and mirrors.
pub fn tell_of_updates(
    part: &PlacedPart,
    readers: &Readers,
    updates: &[Update],
    places: &[u32],
    values: &[Value],
    due: &mut Due,
)
    requires readers { AreReaders part.now readers.now }
    requires size { length due.old.marked.items ≡ master_count part.now }
    requires values { length values.now ≡ master_count part.now + length part.now.mirrors }
    requires places { ArePlacesOf part.now.mirrors updates.now places.now }
    ensures told { All (IsUpdateTold part.now readers.now due.new values.now) updates.now }
    ensures stays { StaysDue due.old due.new }
{
    let count = part.master_count();
    for k in 0..updates.len() {
        let place = count + places[k] as usize;
        tell_of(part, readers, place, values[place], updates[k].value, due);
    }
}

/// Puts the value of a place in, and tells of it.
fn settle(
    part: &PlacedPart,
    readers: &Readers,
    place: usize,
    next: &[Value],
    values: &mut Vec<Value>,
    due: &mut Due,
)
    requires readers { AreReaders part.now readers.now }
    requires size { length due.old.marked.items ≡ master_count part.now }
    requires next { length next.now ≡ master_count part.now + length part.now.mirrors }
    requires values { length values.old.items ≡ master_count part.now + length part.now.mirrors }
    requires place { place < master_count part.now }
    ensures values { values.new.items ≡ slice_set values.old.items place (slice_index next.now place) }
    ensures told { IsTold readers.now due.new place (slice_index values.old.items place) (slice_index next.now place) }
    ensures stays { StaysDue due.old due.new }
{
    tell_of(part, readers, place, values[place], next[place], due);
    values[place] = next[place];
}

/// Puts the next values of all masters in, and tells of each that changes.
pub fn settle_all(
    part: &PlacedPart,
    readers: &Readers,
    next: &[Value],
    values: &mut Vec<Value>,
    due: &mut Due,
)
    requires readers { AreReaders part.now readers.now }
    requires size { length due.old.marked.items ≡ master_count part.now }
    requires next { length next.now ≡ master_count part.now + length part.now.mirrors }
    requires values { length values.old.items ≡ master_count part.now + length part.now.mirrors }
    ensures settled { values.new.items ≡ take (master_count part.now) next.now ++ drop (master_count part.now) values.old.items }
    ensures told { AreTold (master_count part.now) readers.now due.new values.old.items values.new.items }
    ensures stays { StaysDue due.old due.new }
{
    for place in 0..part.master_count() {
        settle(part, readers, place, next, values, due);
    }
}

/// The same, where at most these masters change.
pub fn settle_listed(
    part: &PlacedPart,
    readers: &Readers,
    masters: &[u32],
    next: &[Value],
    values: &mut Vec<Value>,
    due: &mut Due,
)
    requires readers { AreReaders part.now readers.now }
    requires size { length due.old.marked.items ≡ master_count part.now }
    requires next { length next.now ≡ master_count part.now + length part.now.mirrors }
    requires values { length values.old.items ≡ master_count part.now + length part.now.mirrors }
    requires masters { All (λ k. k < master_count part.now) masters.now }
    requires rest { (k : ℕ) → k < master_count part.now → is_listed masters.now k ≡ false → slice_index next.now k ≡ slice_index values.old.items k }
    ensures settled { values.new.items ≡ take (master_count part.now) next.now ++ drop (master_count part.now) values.old.items }
    ensures told { AreTold (master_count part.now) readers.now due.new values.old.items values.new.items }
    ensures stays { StaysDue due.old due.new }
{
    for place in masters {
        settle(part, readers, *place as usize, next, values, due);
    }
}
