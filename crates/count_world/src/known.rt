//! What a world that counts knows of its masters, and what a step does to it.
ghost use Rattle.std.specs.Prelude.{◌≡◌, ◌-◌, ◌<◌, ◌≤◌, ◌||◌, ℕ, All, IfOk, IsTrue, OnErr, if◌then◌else◌, length, map, replicate, slice_index};
ghost use Rattle.std.specs.Vec.{vec_capacity};
ghost use Rattle.px_base.specs.declared.TheConstants.{MOST_READS};
ghost use Rattle.px_base.specs.declared.graph.Part.{Part as PartData};
ghost use Rattle.px_base.specs.Graphs.{read_count};
ghost use Rattle.px_base.specs.Parts.{PartFits, is_within};
ghost use Rattle.count_world.specs.Census.{IsCensus};
ghost use Rattle.count_world.specs.Kept.{HasTables, IsReady};
ghost use Rattle.count_world.specs.Noted.{IsNoted, IsStepped};
ghost use Rattle.count_world.specs.Readers.{AreMasters};
ghost use Rattle.count_world.specs.Sets.{counts_off, is_updated, without};

use crate::census::{Census, master_count};
use crate::lists::{copy_list, list_again, wipe_at, zeros};
use crate::readers::{gather_readers, take_off};
use crate::saved::copy_changing;
use crate::tally::Tally;
use mirror_places::PlaceTable;
use px_base::{Memory, Part, Update, Value};
use reader_chains::Readers;
use std::alloc::Global;
use std::mem;

/// What a world knows of its masters, the tables that say whom a death concerns, and room for what a step notes: whose
/// death is told again, who died in it, and the counts and the list of before.
#[derive(Drop)]
pub struct Known {
    /// Who is alive, what each master counts, and who is to die.
    pub census: Census,
    /// The masters that read each master, once for each read.
    pub readers: Readers,
    /// Where each mirror stands among the mirrors.
    pub places: PlaceTable,
    /// The dead masters whose death a fresh Step tells again.
    pub again: Vec<u32>,
    /// Who died in the last Step. While one is prepared, it keeps the list of dying masters from before.
    pub gone: Vec<u32>,
    /// The counts from before, where a Step changes them: they are put back without memory.
    pub saved: Vec<Value>,
    /// How often each mirror is told of a death.
    pub tally: Tally,
}

impl Known {
    /// All masters are alive, and each counts its whole row.
    pub fn new(alloc: Global, part: &Part, needed: u32) -> Result<Known, Memory>
        requires fits { PartFits part.now }
        ensures ready { IfOk result (λ known. IsReady part.now known) }
        ensures needed { IfOk result (λ known. known.census.needed ≡ needed) }
        ensures alive { IfOk result (λ known. known.census.alive.items ≡ replicate (length part.now.rows) 1) }
        ensures counts { IfOk result (λ known. known.census.counts.items ≡ map length part.now.rows) }
    {
        let count = master_count(part);
        let mirrors = part.mirrors.as_slice();
        Ok(Known {
            census: Census::new(alloc, part, needed)?,
            readers: gather_readers(alloc, part)?,
            places: PlaceTable::new(alloc, mirrors)?,
            again: Vec::with_capacity(alloc, count)?,
            gone: Vec::with_capacity(alloc, count)?,
            saved: zeros(alloc, count)?,
            tally: Tally::new(alloc, mirrors)?,
        })
    }

    /// Takes off the counts what a Step does, and notes what that tells. What is to be put back without memory is kept.
    fn prepare(&mut self, part: &Part, fresh: bool, updates: &[Update])
        requires fits { PartFits part.now }
        requires reads { read_count part.now.rows ≤ MOST_READS }
        requires ready { IsReady part.now self.old }
        requires known { All (λ u. IsTrue (is_within part.now.low part.now.high u.vertex)) updates.now }
        ensures { IsNoted part.now fresh updates.now self.old self.new }
    {
        list_again(fresh, self.census.alive.as_slice(), &mut self.again);
        copy_list(self.census.dying.as_slice(), &mut self.gone);
        let counts = self.census.counts.as_slice();
        copy_changing(part, fresh, updates, counts, &mut self.saved);
        self.census.begin(part, fresh);
        let again = self.again.as_slice();
        take_off(&self.readers, again, &mut self.census);
        self.census.take_deltas(part, updates);
        let dying = self.census.dying.as_slice();
        self.tally.count(part, &self.places, again, dying);
    }

    /// Lets those on the list die, and takes their reads off the counts.
    fn commit(&mut self)
        requires census { IsCensus self.old.census }
        requires masters { AreMasters (length self.old.census.alive.items) self.old.readers }
        requires room { length self.old.census.alive.items ≤ vec_capacity self.old.gone }
        ensures census { IsCensus self.new.census }
        ensures tables { (part : PartData) → HasTables part self.old → HasTables part self.new }
        ensures needed { self.new.census.needed ≡ self.old.census.needed }
        ensures alive { self.new.census.alive.items ≡ without self.old.census.dying.items self.old.census.alive.items }
        ensures counts { self.new.census.counts.items ≡ counts_off self.old.readers self.old.census.dying.items self.old.census.counts.items }
        ensures gone { self.new.gone.items ≡ self.old.census.dying.items }
        ensures again { self.new.again ≡ self.old.again }
        ensures readers { self.new.readers ≡ self.old.readers }
        ensures tally { self.new.tally ≡ self.old.tally }
    {
        mem::swap(&mut self.census.dying, &mut self.gone);
        self.census.dying.clear();
        let gone = self.gone.as_slice();
        wipe_at(gone, &mut self.census.alive);
        take_off(&self.readers, gone, &mut self.census);
    }

    /// Puts back the counts that were changed, and the list.
    fn put_back(&mut self, part: &Part, fresh: bool, updates: &[Update])
        requires counts { length self.old.census.counts.items ≡ part.now.high - part.now.low }
        requires saved { length self.old.saved.items ≡ part.now.high - part.now.low }
        requires known { All (λ u. IsTrue (is_within part.now.low part.now.high u.vertex)) updates.now }
        ensures counts { (j : ℕ) → j < length self.old.census.counts.items → slice_index self.new.census.counts.items j ≡ (if fresh || is_updated part.now.low updates.now j then slice_index self.old.saved.items j else slice_index self.old.census.counts.items j) }
        ensures size { length self.new.census.counts.items ≡ length self.old.census.counts.items }
        ensures dying { self.new.census.dying ≡ self.old.gone }
        ensures gone { self.new.gone ≡ self.old.census.dying }
        ensures needed { self.new.census.needed ≡ self.old.census.needed }
        ensures alive { self.new.census.alive ≡ self.old.census.alive }
        ensures saved { self.new.saved ≡ self.old.saved }
        ensures again { self.new.again ≡ self.old.again }
        ensures readers { self.new.readers ≡ self.old.readers }
        ensures places { self.new.places ≡ self.old.places }
        ensures tally { self.new.tally ≡ self.old.tally }
    {
        let saved = self.saved.as_slice();
        copy_changing(part, fresh, updates, saved, &mut self.census.counts);
        mem::swap(&mut self.census.dying, &mut self.gone);
    }

    /// A Step: says whether some master dies, and what is told of it. It takes no memory but for what is told, and want of
    /// it changes nothing.
    pub fn step(
        &mut self,
        alloc: Global,
        part: &Part,
        fresh: bool,
        updates: &[Update],
    ) -> Result<(bool, Vec<Update>), Memory>
        requires fits { PartFits part.now }
        requires reads { read_count part.now.rows ≤ MOST_READS }
        requires ready { IsReady part.now self.old }
        requires known { All (λ u. IsTrue (is_within part.now.low part.now.high u.vertex)) updates.now }
        ensures ready { IsReady part.now self.new }
        ensures needed { self.new.census.needed ≡ self.old.census.needed }
        ensures ok { IfOk result (λ r. IsStepped part.now fresh updates.now self.old self.new r.0 r.1.items) }
        ensures kept_alive { OnErr result (self.new.census.alive.items ≡ self.old.census.alive.items) }
        ensures kept_counts { OnErr result (self.new.census.counts.items ≡ self.old.census.counts.items) }
    {
        self.prepare(part, fresh, updates);
        let told = self.tally.updates(alloc, part.mirrors.as_slice());
        self.tally.wipe();
        match told {
            Ok(told) => {
                self.commit();
                Ok((!self.gone.as_slice().is_empty(), told))
            }
            Err(Memory) => {
                self.put_back(part, fresh, updates);
                Err(Memory)
            }
        }
    }
}
