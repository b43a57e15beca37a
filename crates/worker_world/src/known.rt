//! What a world knows of its part, by place.
ghost use Rattle.std.specs.Prelude.{◌≡◌, ◌<◌, ◌+◌, ◌++◌, ℕ, true, false, All, IfOk, IsTrue, length, slice_index, take, drop};
ghost use Rattle.px_base.specs.Values.{IsValue, is_listed};
ghost use Rattle.px_base.specs.Parts.{PartFits};
ghost use Rattle.px_base.specs.Worlds.{CarriesValues};
ghost use Rattle.px_base.specs.ValueSteps.{announcements, some_changed};
ghost use Rattle.placed_parts.specs.Places.{master_count};
ghost use Rattle.worker_world.specs.Placed.{first_values, mirrors_after, masters_after};
ghost use Rattle.worker_world.specs.ByPlace.{IsByPlace, IsNoted, IsRenewed, AreSettled, HasSameTables};
ghost use Rattle.worker_world.specs.Looked.{ArePlacesOf};
ghost use Rattle.worker_world.specs.Due.{AreTold, StaysDue};
ghost use Rattle.worker_world.specs.Readers.{AreReaders};
ghost use Rattle.mirror_places.specs.Tables.{IsTableOf};

use crate::due::Due;
use crate::pulls::{is_mex, renew_listed, renew_masters};
use crate::readers::gather_readers;
use crate::stamps::{Stamps, longest};
use crate::steps::{
    announcements, first_values, many_changed, put_updates, some_changed, some_listed_changed,
    take_updates_back,
};
use crate::telling::{settle_all, settle_listed, tell_of_updates};
use mirror_places::PlaceTable;
use placed_parts::PlacedPart;
use px_base::{CoreProgram, Memory, Update, Value};
use reader_chains::Readers;
use std::alloc::Global;
use std::mem;

/// What a world knows of its part, by place.
///
/// `values` has those of the masters and then those of the mirrors, as the reads of the part name them, so that a step finds
/// each value that is read by an index; `table` says where a mirror stands. `next` has room for the values
/// after a step, and between steps the same values, so that a step copies no list: it writes there the masters that are due,
/// and puts in force those that changed. `due` has each master that reads a place whose value has changed, by `readers`; any
/// other one would get the value that it has. `past` is the list of those that were due, while their readers become due.
/// The table of stamps is empty where the program doesn't take the least absent number.
#[derive(Drop)]
pub struct Known {
    pub readers: Readers,
    pub table: PlaceTable,
    pub values: Vec<Value>,
    pub next: Vec<Value>,
    pub due: Due,
    pub past: Vec<u32>,
    pub stamps: Stamps,
}

impl Known {
    /// What a new world knows. The table says where the mirrors stand.
    pub fn new(
        alloc: Global,
        part: &PlacedPart,
        table: PlaceTable,
        core: &CoreProgram,
    ) -> Result<Known, Memory>
        requires fits { PartFits part.now }
        requires table { IsTableOf part.now.mirrors table }
        ensures placed { IfOk result (λ known. IsByPlace part.now core.now known) }
        ensures values { IfOk result (λ known. known.values.items ≡ first_values core.now part.now.starts ++ first_values core.now part.now.mirror_starts) }
        ensures next { IfOk result (λ known. known.next.items ≡ known.values.items) }
        ensures due { IfOk result (λ known. known.due.all ≡ true) }
    {
        let room = if is_mex(core.program.fold) {
            longest(part)
        } else {
            0
        };
        let readers = gather_readers(alloc, part)?;
        let values = first_values(alloc, core, part)?;
        let next = first_values(alloc, core, part)?;
        let masters = part.master_count();
        let waiting = masters / 8 + 64;
        Ok(Known {
            readers,
            table,
            values,
            next,
            due: Due::new(alloc, masters, waiting)?,
            past: Vec::with_capacity(alloc, waiting)?,
            stamps: Stamps::new(alloc, room)?,
        })
    }

    /// Puts the updates in place, and notes the new values of all masters. Says whether some master changes. The masters'
    /// values in force stay.
    pub fn note(
        &mut self,
        part: &PlacedPart,
        core: &CoreProgram,
        updates: &[Update],
        places: &[u32],
    ) -> bool
        requires fits { PartFits part.now }
        requires placed { IsByPlace part.now core.now self.old }
        requires settled { AreSettled part.now core.now self.old }
        requires values { All IsValue self.old.values.items }
        requires places { ArePlacesOf part.now.mirrors updates.now places.now }
        requires carried { CarriesValues updates.now }
        ensures noted { IsNoted part.now core.now updates.now self.old self.new }
        ensures changed { result ≡ some_changed (take (master_count part.now) self.old.values.items) (masters_after part.now core.now updates.now self.old.values.items) }
    {
        self.update(part, updates, places);
        self.renew(part, core);
        self.changes(part)
    }

    /// Puts the updates in place. Whoever reads a mirror that changes is due.
    fn update(&mut self, part: &PlacedPart, updates: &[Update], places: &[u32])
        requires fits { PartFits part.now }
        requires readers { AreReaders part.now self.old.readers }
        requires marks { length self.old.due.marked.items ≡ master_count part.now }
        requires values { length self.old.values.items ≡ master_count part.now + length part.now.mirrors }
        requires places { ArePlacesOf part.now.mirrors updates.now places.now }
        ensures values { self.new.values.items ≡ take (master_count part.now) self.old.values.items ++ mirrors_after part.now updates.now self.old.values.items }
        ensures next { self.new.next ≡ self.old.next }
        ensures tables { HasSameTables self.old self.new }
        ensures told { AreTold (master_count part.now + length part.now.mirrors) self.old.readers self.new.due self.old.values.items self.new.values.items }
        ensures stays { StaysDue self.old.due self.new.due }
    {
        if !self.due.all {
            tell_of_updates(
                part,
                &self.readers,
                updates,
                places,
                self.values.as_slice(),
                &mut self.due,
            );
        }
        put_updates(part, updates, places, &mut self.values);
    }

    /// Notes the new values of the masters: of all of them, or of those that are due.
    fn renew(&mut self, part: &PlacedPart, core: &CoreProgram)
        requires fits { PartFits part.now }
        requires placed { IsByPlace part.now core.now self.old }
        requires settled { AreSettled part.now core.now self.old }
        requires values { All IsValue self.old.values.items }
        ensures { IsRenewed part.now core.now self.old self.new }
    {
        if self.due.all {
            renew_masters(
                part,
                core,
                self.values.as_slice(),
                &mut self.stamps,
                &mut self.next,
            );
        } else {
            renew_listed(
                part,
                core,
                self.values.as_slice(),
                self.due.waiting.as_slice(),
                &mut self.stamps,
                &mut self.next,
            );
        }
    }

    /// Whether some master has another value next.
    fn changes(&self, part: &PlacedPart) -> bool
        requires fits { PartFits part.now }
        requires values { length self.now.values.items ≡ master_count part.now + length part.now.mirrors }
        requires next { length self.now.next.items ≡ master_count part.now + length part.now.mirrors }
        requires marks { length self.now.due.marked.items ≡ master_count part.now }
        requires listed { self.now.due.all ≡ false → (k : ℕ) → k < master_count part.now → is_listed self.now.due.waiting.items k ≡ false → slice_index self.now.next.items k ≡ slice_index self.now.values.items k }
        ensures { result ≡ some_changed (take (master_count part.now) self.now.values.items) (take (master_count part.now) self.now.next.items) }
    {
        let count = part.master_count();
        let (before, after) = (&self.values[..count], &self.next[..count]);
        if self.due.all {
            some_changed(before, after)
        } else {
            some_listed_changed(self.due.waiting.as_slice(), before, after)
        }
    }

    /// What is announced of the new values.
    pub fn announced(
        &self,
        alloc: Global,
        part: &PlacedPart,
        fresh: bool,
    ) -> Result<Vec<Update>, Memory>
        requires fits { PartFits part.now }
        requires values { length self.now.values.items ≡ master_count part.now + length part.now.mirrors }
        requires next { length self.now.next.items ≡ master_count part.now + length part.now.mirrors }
        ensures { IfOk result (λ updates. updates.items ≡ announcements fresh part.now (take (master_count part.now) self.now.values.items) (take (master_count part.now) self.now.next.items)) }
    {
        let count = part.master_count();
        announcements(
            alloc,
            fresh,
            part,
            &self.values[..count],
            &self.next[..count],
        )
    }

    /// Puts what was noted in force. Whoever reads a master that changed is due in the next step. Where many of all changed,
    /// all stay due, and the lists are swapped.
    pub fn commit(&mut self, part: &PlacedPart, updates: &[Update], places: &[u32])
        requires fits { PartFits part.now }
        requires readers { AreReaders part.now self.old.readers }
        requires marks { length self.old.due.marked.items ≡ master_count part.now }
        requires values { length self.old.values.items ≡ master_count part.now + length part.now.mirrors }
        requires next { length self.old.next.items ≡ master_count part.now + length part.now.mirrors }
        requires updated { drop (master_count part.now) self.old.values.items ≡ mirrors_after part.now updates.now self.old.next.items }
        requires listed { self.old.due.all ≡ false → (k : ℕ) → k < master_count part.now → is_listed self.old.due.waiting.items k ≡ false → slice_index self.old.next.items k ≡ slice_index self.old.values.items k }
        requires places { ArePlacesOf part.now.mirrors updates.now places.now }
        ensures values { self.new.values.items ≡ take (master_count part.now) self.old.next.items ++ mirrors_after part.now updates.now self.old.next.items }
        ensures next { drop (master_count part.now) self.new.next.items ≡ drop (master_count part.now) self.new.values.items }
        ensures size { length self.new.next.items ≡ length self.new.values.items }
        ensures level { self.new.due.all ≡ false → self.new.next.items ≡ self.new.values.items }
        ensures told { AreTold (master_count part.now) self.old.readers self.new.due self.old.values.items self.new.values.items }
        ensures tables { HasSameTables self.old self.new }
    {
        if self.due.all && self.many_change(part) {
            put_updates(part, updates, places, &mut self.next);
            mem::swap(&mut self.values, &mut self.next);
        } else {
            self.settle(part);
            put_updates(part, updates, places, &mut self.next);
        }
    }

    /// Puts the new values of the masters in force.
    fn settle(&mut self, part: &PlacedPart)
        requires readers { AreReaders part.now self.old.readers }
        requires marks { length self.old.due.marked.items ≡ master_count part.now }
        requires values { length self.old.values.items ≡ master_count part.now + length part.now.mirrors }
        requires next { length self.old.next.items ≡ master_count part.now + length part.now.mirrors }
        requires listed { self.old.due.all ≡ false → (k : ℕ) → k < master_count part.now → is_listed self.old.due.waiting.items k ≡ false → slice_index self.old.next.items k ≡ slice_index self.old.values.items k }
        ensures values { self.new.values.items ≡ take (master_count part.now) self.old.next.items ++ drop (master_count part.now) self.old.values.items }
        ensures next { self.new.next ≡ self.old.next }
        ensures told { AreTold (master_count part.now) self.old.readers self.new.due self.old.values.items self.new.values.items }
        ensures tables { HasSameTables self.old self.new }
    {
        if self.due.all {
            self.due.begin(false, &mut self.past);
            settle_all(
                part,
                &self.readers,
                self.next.as_slice(),
                &mut self.values,
                &mut self.due,
            );
        } else {
            self.due.begin(false, &mut self.past);
            settle_listed(
                part,
                &self.readers,
                self.past.as_slice(),
                self.next.as_slice(),
                &mut self.values,
                &mut self.due,
            );
        }
    }

    /// Whether so many masters change that all should be renewed in the next step.
    fn many_change(&self, part: &PlacedPart) -> bool
        requires values { length self.now.values.items ≡ master_count part.now + length part.now.mirrors }
        requires next { length self.now.next.items ≡ master_count part.now + length part.now.mirrors }
    {
        let count = part.master_count();
        many_changed(&self.values[..count], &self.next[..count])
    }

    /// Takes the updates back, so that all values are as they were before they were noted. All masters are due then, since
    /// some of the next values are new ones.
    pub fn forget(&mut self, part: &PlacedPart, updates: &[Update], places: &[u32])
        requires fits { PartFits part.now }
        requires values { length self.old.values.items ≡ master_count part.now + length part.now.mirrors }
        requires next { length self.old.next.items ≡ master_count part.now + length part.now.mirrors }
        requires places { ArePlacesOf part.now.mirrors updates.now places.now }
        requires updated { drop (master_count part.now) self.old.values.items ≡ mirrors_after part.now updates.now self.old.next.items }
        ensures values { self.new.values.items ≡ take (master_count part.now) self.old.values.items ++ drop (master_count part.now) self.old.next.items }
        ensures next { self.new.next.items ≡ self.old.next.items }
        ensures due { self.new.due.all ≡ true }
        ensures tables { HasSameTables self.old self.new }
    {
        self.due.all = true;
        take_updates_back(
            part,
            updates,
            places,
            self.next.as_slice(),
            &mut self.values,
        );
    }
}
