//! Peels off the vertices that are short of reads, until the k-core is left.
ghost use Rattle.std.specs.Prelude.{◌≡◌, ◌<◌, ◌≤◌, [], All, IfOk, IsTrue, OnOk, length, map, slice_index};
ghost use Rattle.px_base.specs.declared.TheConstants.{MOST_READS, MOST_VERTICES};
ghost use Rattle.px_base.specs.Values.{is_in};
ghost use Rattle.px_base.specs.Graphs.{RowsFit, read_count, row_at};
ghost use Rattle.core_solver.specs.Mutual.{AreMutual};
ghost use Rattle.core_solver.specs.Peelings.{HaveEnough, IsPeeling, all_alive, with_dead, with_read_less, with_short_dead, work_left};

use px_base::{Memory, Pos, Row, Rows, Value};
use std::alloc::Global;
use std::marker::Model;

/// A graph while it is peeled. A vertex dies once, when it is short of reads, and then waits to be peeled off: that takes
/// one read from each living vertex that reads it, once for each read.
#[derive(Drop)]
pub struct Peeling {
    alive: Vec<Value>,
    counts: Vec<u32>,
    dead: Vec<Pos>,
}

impl Model for Peeling {
    ghost use Rattle.core_solver.specs.Peelings.{PeelState};

    ghost Value = { PeelState };

    ghost view = { λ p. record { alive = p.alive.items; counts = p.counts.items; dead = p.dead.items } };
}

/// How many reads each row has.
fn row_lengths(alloc: Global, rows: &Rows) -> Result<Vec<u32>, Memory>
    ensures { IfOk result (λ lengths. lengths.items ≡ map (λ row. length row) rows.now) }
{
    let mut lengths = Vec::with_capacity(alloc, rows.row_count())?;
    for v in 0..rows.row_count() {
        lengths.push(rows.row(v).len() as u32)?;
    }
    Ok(lengths)
}

impl Peeling {
    /// All vertices are alive, and none waits.
    pub fn new(alloc: Global, rows: &Rows) -> Result<Peeling, Memory>
        requires { read_count rows.now ≤ MOST_READS }
        ensures { IfOk result (λ peeling. peeling ≡ all_alive rows.now) }
    {
        Ok(Peeling {
            alive: vec![in alloc; 1u64; rows.row_count()]?,
            counts: row_lengths(alloc, rows)?,
            dead: Vec::with_capacity(alloc, rows.row_count())?,
        })
    }

    /// The vertex dies.
    fn bury(&mut self, v: Pos) -> Result<(), Memory>
        requires { v < length self.old.alive }
        ensures { OnOk result (self.new ≡ with_dead self.old v) }
    {
        self.alive[v as usize] = 0;
        self.dead.push(v)?;
        Ok(())
    }

    /// The vertex dies if it is short of reads.
    fn bury_if_short(&mut self, needed: u32, v: Pos) -> Result<(), Memory>
        requires alive { v < length self.old.alive }
        requires counts { v < length self.old.counts }
        ensures { OnOk result (self.new ≡ with_short_dead needed self.old v) }
    {
        if self.counts[v as usize] < needed {
            self.bury(v)?;
        }
        Ok(())
    }

    /// Takes a read from the vertex, if it is alive.
    fn take_read(&mut self, needed: u32, u: Pos) -> Result<(), Memory>
        requires alive { u < length self.old.alive }
        requires counts { u < length self.old.counts }
        requires some { IsTrue (is_in self.old.alive u) → 0 < slice_index self.old.counts u }
        ensures { OnOk result (self.new ≡ with_read_less needed self.old u) }
    {
        if self.alive[u as usize] == 1 {
            self.counts[u as usize] -= 1;
            self.bury_if_short(needed, u)?;
        }
        Ok(())
    }

    /// Peels off a vertex with this row.
    fn take_reads(&mut self, needed: u32, rows: &Rows, row: &Row<'_>) -> Result<(), Memory>
        requires mutual { AreMutual rows.now }
        requires sources { All (λ r. r.source < length rows.now) row.now }
        requires peeling { IsPeeling needed rows.now row.now self.old }
        requires enough { HaveEnough needed (length rows.now) self.old }
        ensures peeling { OnOk result (IsPeeling needed rows.now [] self.new) }
        ensures enough { OnOk result (HaveEnough needed (length rows.now) self.new) }
        ensures work { OnOk result (work_left self.new ≡ work_left self.old) }
    {
        for k in 0..row.len() {
            self.take_read(needed, row.read(k).source)?;
        }
        Ok(())
    }

    /// All vertices die that are short of reads from the start.
    pub fn bury_short(&mut self, needed: u32, rows: &Rows) -> Result<(), Memory>
        requires vertices { length rows.now ≤ MOST_VERTICES }
        requires mutual { AreMutual rows.now }
        requires fit { RowsFit (length rows.now) rows.now }
        requires start { self.old ≡ all_alive rows.now }
        ensures peeling { OnOk result (IsPeeling needed rows.now [] self.new) }
        ensures enough { OnOk result (HaveEnough needed (length rows.now) self.new) }
    {
        for v in 0..rows.row_count() {
            self.bury_if_short(needed, v as Pos)?;
        }
        Ok(())
    }

    /// Peels off the dead until there are none.
    pub fn peel(&mut self, needed: u32, rows: &Rows) -> Result<(), Memory>
        requires mutual { AreMutual rows.now }
        requires fit { RowsFit (length rows.now) rows.now }
        requires peeling { IsPeeling needed rows.now [] self.old }
        requires enough { HaveEnough needed (length rows.now) self.old }
        ensures peeling { OnOk result (IsPeeling needed rows.now [] self.new) }
        ensures enough { OnOk result (HaveEnough needed (length rows.now) self.new) }
        ensures done { OnOk result (self.new.dead ≡ []) }
    {
        while let Some(v) = self.dead.pop() {
            self.take_reads(needed, rows, &rows.row(v as usize))?;
        }
        Ok(())
    }

    /// A list with 1 at each living vertex and 0 elsewhere.
    pub fn into_alive(self) -> Vec<Value>
        ensures { result.items ≡ self.alive }
    {
        self.alive
    }
}
