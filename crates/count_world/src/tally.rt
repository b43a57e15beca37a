//! What a step tells other workers: how often each mirror stands in the rows of those whose death is announced.
ghost use Rattle.std.specs.Prelude.{◌≡◌, ◌==◌, ◌≤◌, ◌<◌, ◌+◌, ◌-◌, ◌^◌, ℕ, All, IfOk, IfSome, if◌then◌else◌, length, map, slice_index};
ghost use Rattle.std.specs.List.Sorted.{IsStrictlyIncreasing};
ghost use Rattle.std.specs.Option.{ForSome};
ghost use Rattle.px_base.specs.declared.TheConstants.{MOST_READS, MOST_VERTICES};
ghost use Rattle.px_base.specs.Values.{one_if};
ghost use Rattle.px_base.specs.Graphs.{reads_passing};
ghost use Rattle.px_base.specs.Parts.{PartFits};
ghost use Rattle.mirror_places.specs.Tables.{IsTableOf};
ghost use Rattle.count_world.specs.Tally.{IsTally, IsClear, RaisesTally};
ghost use Rattle.count_world.specs.Told.{is_place, times_of, reads_of, told_updates};

use crate::lists::{add_if, wipe_at, zeros};
use mirror_places::PlaceTable;
use px_base::{Memory, Part, Pos, Read, Row, Update, Value};
use std::alloc::Global;

/// How often each mirror is told, and a list of those that are told something. Whatever raises a number keeps the list, so
/// that nobody has to look through all mirrors.
#[derive(Drop)]
pub struct Tally {
    /// How often each mirror is told, in the order of the mirrors.
    pub times: Vec<Value>,
    /// The places of the mirrors that are told something. It has room for all mirrors.
    pub touched: Vec<u32>,
}

/// Where the read's source stands among the mirrors, if it is one. Masters aren't looked for.
#[tactic(auto, using(crate::proofs::Telling::master_is_no_mirror, crate::proofs::Telling::found_tells))]
fn mirror_read(part: &Part, places: &PlaceTable, read: Read) -> Option<usize>
    requires fits { PartFits part.now }
    requires places { IsTableOf part.now.mirrors places.now }
    ensures within { IfSome result (λ i. i < length part.now.mirrors) }
    ensures place { (i : ℕ) → i < length part.now.mirrors → is_place result i ≡ (read.source == slice_index part.now.mirrors i) }
{
    if part.low <= read.source && read.source < part.high {
        return None;
    }
    places.find(part.mirrors.as_slice(), read.source)
}

/// Puts the mirrors with how often each of them is told.
fn told_updates(
    alloc: Global,
    mirrors: &[Pos],
    times: &[Value],
    touched: &[u32],
) -> Result<Vec<Update>, Memory>
    requires mirrors { All (λ i. i < length mirrors.now) touched.now }
    requires times { All (λ i. i < length times.now) touched.now }
    ensures { IfOk result (λ updates. updates.items ≡ map (λ i. record { vertex = slice_index mirrors.now i; value = slice_index times.now i }) touched.now) }
{
    let mut updates = Vec::with_capacity(alloc, touched.len())?;
    for i in touched {
        updates.push(Update {
            vertex: mirrors[*i as usize],
            value: times[*i as usize],
        })?;
    }
    Ok(updates)
}

impl Tally {
    /// No mirror is told anything.
    pub fn new(alloc: Global, mirrors: &[Pos]) -> Result<Tally, Memory>
        requires rising { IsStrictlyIncreasing mirrors.now }
        requires below { All (λ m. m < MOST_VERTICES) mirrors.now }
        ensures clear { IfOk result (λ tally. IsClear tally) }
        ensures size { IfOk result (λ tally. length tally.times.items ≡ length mirrors.now) }
    {
        let count = mirrors.len();
        Ok(Tally {
            times: zeros(alloc, count)?,
            touched: Vec::with_capacity(alloc, count)?,
        })
    }

    /// One more at a place, if there is one.
    fn raise_at(&mut self, at: Option<usize>)
        requires within { ForSome at (λ i. i < length self.old.times.items) }
        requires room { All (λ t. t < 2 ^ 63) self.old.times.items }
        requires tally { IsTally self.old }
        ensures { RaisesTally self.old self.new (λ i. one_if (is_place at i)) }
    {
        if let Some(i) = at {
            let before = self.times[i];
            self.times[i] = before + 1;
            add_if(before == 0, i as u32, &mut self.touched);
        }
    }

    /// Adds to each mirror how often it stands in the row.
    fn add_row(&mut self, part: &Part, places: &PlaceTable, row: &Row<'_>)
        requires fits { PartFits part.now }
        requires places { IsTableOf part.now.mirrors places.now }
        requires size { length self.old.times.items ≡ length part.now.mirrors }
        requires room { All (λ t. t + length row.now ≤ 2 ^ 63) self.old.times.items }
        requires tally { IsTally self.old }
        ensures { RaisesTally self.old self.new (λ i. reads_passing (λ u. u == slice_index part.now.mirrors i) row.now) }
    {
        for k in 0..row.len() {
            self.raise_at(mirror_read(part, places, row.read(k)));
        }
    }

    /// Adds to each mirror how often it stands in the rows of the members.
    fn add_rows(&mut self, part: &Part, places: &PlaceTable, members: &[u32])
        requires fits { PartFits part.now }
        requires places { IsTableOf part.now.mirrors places.now }
        requires members { All (λ k. k < part.now.high - part.now.low) members.now }
        requires size { length self.old.times.items ≡ length part.now.mirrors }
        requires room { All (λ t. t + reads_of part.now.rows members.now ≤ 2 ^ 63) self.old.times.items }
        requires tally { IsTally self.old }
        ensures { RaisesTally self.old self.new (λ i. times_of part.now.rows members.now (slice_index part.now.mirrors i)) }
    {
        for k in members {
            self.add_row(part, places, &part.rows.row(*k as usize));
        }
    }

    /// Counts how often each mirror stands in the rows of the members of both lists. It looks at no other rows.
    pub fn count(&mut self, part: &Part, places: &PlaceTable, again: &[u32], dying: &[u32])
        requires fits { PartFits part.now }
        requires places { IsTableOf part.now.mirrors places.now }
        requires again { All (λ k. k < part.now.high - part.now.low) again.now }
        requires dying { All (λ k. k < part.now.high - part.now.low) dying.now }
        requires few_again { reads_of part.now.rows again.now ≤ MOST_READS }
        requires few_dying { reads_of part.now.rows dying.now ≤ MOST_READS }
        requires size { length self.old.times.items ≡ length part.now.mirrors }
        requires clear { IsClear self.old }
        ensures tally { IsTally self.new }
        ensures times { self.new.times.items ≡ map (λ m. times_of part.now.rows again.now m + times_of part.now.rows dying.now m) part.now.mirrors }
    {
        self.add_rows(part, places, again);
        self.add_rows(part, places, dying);
    }

    /// Each mirror that is told something, with how often, in rising order. It puts the list in order first.
    pub fn updates(&mut self, alloc: Global, mirrors: &[Pos]) -> Result<Vec<Update>, Memory>
        requires size { length self.old.times.items ≡ length mirrors.now }
        requires tally { IsTally self.old }
        ensures updates { IfOk result (λ updates. updates.items ≡ told_updates mirrors.now self.old.times.items) }
        ensures tally { IsTally self.new }
        ensures times { self.new.times.items ≡ self.old.times.items }
    {
        self.touched.sort_unstable();
        told_updates(
            alloc,
            mirrors,
            self.times.as_slice(),
            self.touched.as_slice(),
        )
    }

    /// Tells nothing any more. It looks at those alone that were told something.
    pub fn wipe(&mut self)
        requires { IsTally self.old }
        ensures clear { IsClear self.new }
        ensures size { length self.new.times.items ≡ length self.old.times.items }
    {
        wipe_at(self.touched.as_slice(), &mut self.times);
        self.touched.clear();
    }
}
