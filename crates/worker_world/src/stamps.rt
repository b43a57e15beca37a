//! The least number that is absent from a row, by a table of stamps.
ghost use Rattle.std.specs.Prelude.{◌≡◌, ◌≢◌, ◌==◌, ◌||◌, ◌<◌, ◌≤◌, ℕ, map, All, IfOk, length, slice_index};
ghost use Rattle.px_base.specs.Values.{IsValue};
ghost use Rattle.px_base.specs.Rules.{mex};
ghost use Rattle.worker_world.specs.Placed.{placed_items, read_items};
ghost use Rattle.worker_world.specs.Stamped.{IsStamped};

use crate::read_rules::{SourceRule, Unchanged, reads_weights};
use placed_parts::PlacedPart;
use px_base::{Along, CoreProgram, Memory, Pos, Row, Value};
use std::alloc::Global;
use value_laws::EdgeRule;

/// A table of stamps, to tell which numbers stand in a row: those whose stamp is the newest. A new row takes a new stamp, so
/// that nothing has to be wiped between two rows.
#[derive(Drop)]
pub struct Stamps {
    pub marks: Vec<u64>,
    pub newest: u64,
    ghost older: { All (λ mark. mark ≤ newest) marks.items },
}

fn wipe(marks: &mut [u64])
    ensures { All (λ mark. mark ≤ 0) marks.new }
{
    for mark in marks.iter_mut() {
        *mark = 0;
    }
}

/// Puts the stamp at a number, where the table has a place for it.
fn put_stamp(marks: &mut [u64], stamp: u64, item: Value)
    requires { All (λ mark. mark ≤ stamp) marks.old }
    ensures stamped { (k : ℕ) → k < length marks.old → (slice_index marks.new k == stamp) ≡ (slice_index marks.old k == stamp || item == k) }
    ensures older { All (λ mark. mark ≤ stamp) marks.new }
{
    if item < marks.len() as u64 {
        marks[item as usize] = stamp;
    }
}

/// Stamps each number that is among the edge values of the row.
fn stamp_reads(core: &CoreProgram, values: &[Value], row: &Row<'_>, stamp: u64, marks: &mut [u64])
    requires places { All (λ r. r.source < length values.now) row.now }
    requires values { All IsValue values.now }
    requires unused { All (λ mark. mark < stamp) marks.old }
    ensures stamped { IsStamped stamp (placed_items core.now values.now row.now) marks.new }
    ensures older { All (λ mark. mark ≤ stamp) marks.new }
{
    for k in 0..row.len() {
        let read = row.read(k);
        let item = core.value(values[read.source as usize], read.weight);
        put_stamp(marks, stamp, item);
    }
}

/// Stamps each number that the values at these places become.
fn stamp_at<E: SourceRule>(
    rule: &E,
    values: &[Value],
    places: &[Pos],
    stamp: u64,
    marks: &mut [u64],
)
    requires places { All (λ s. s < length values.now) places.now }
    requires values { All IsValue values.now }
    requires unused { All (λ mark. mark < stamp) marks.old }
    ensures stamped { IsStamped stamp (map (λ s. E.source_value rule.now (slice_index values.now s)) places.now) marks.new }
    ensures older { All (λ mark. mark ≤ stamp) marks.new }
{
    for place in places {
        put_stamp(marks, stamp, rule.value_from(values[*place as usize]));
    }
}

/// The same of each read of the row, whatever weights they have.
fn stamp_sources<E: SourceRule>(
    rule: &E,
    values: &[Value],
    row: &Row<'_>,
    stamp: u64,
    marks: &mut [u64],
)
    requires places { All (λ r. r.source < length values.now) row.now }
    requires values { All IsValue values.now }
    requires unused { All (λ mark. mark < stamp) marks.old }
    ensures stamped { IsStamped stamp (read_items (λ x w. E.source_value rule.now x) values.now row.now) marks.new }
    ensures older { All (λ mark. mark ≤ stamp) marks.new }
{
    stamp_at(rule, values, row.sources(), stamp, marks);
}

/// Stamps each number that is among the edge values of the row, of any program.
fn stamp_any(core: &CoreProgram, values: &[Value], row: &Row<'_>, stamp: u64, marks: &mut [u64])
    requires places { All (λ r. r.source < length values.now) row.now }
    requires values { All IsValue values.now }
    requires unused { All (λ mark. mark < stamp) marks.old }
    ensures stamped { IsStamped stamp (placed_items core.now values.now row.now) marks.new }
    ensures older { All (λ mark. mark ≤ stamp) marks.new }
{
    if reads_weights(core) {
        stamp_reads(core, values, row, stamp, marks);
    } else {
        stamp_sources(core, values, row, stamp, marks);
    }
}

/// Stamps each number that is among the edge values of the row. It looks at weights only where the program asks for them.
fn stamp_row(core: &CoreProgram, values: &[Value], row: &Row<'_>, stamp: u64, marks: &mut [u64])
    requires places { All (λ r. r.source < length values.now) row.now }
    requires values { All IsValue values.now }
    requires unused { All (λ mark. mark < stamp) marks.old }
    ensures stamped { IsStamped stamp (placed_items core.now values.now row.now) marks.new }
    ensures older { All (λ mark. mark ≤ stamp) marks.new }
{
    match (core.flipped, core.program.along) {
        (false, Along::Same) => stamp_sources(&Unchanged, values, row, stamp, marks),
        _ => stamp_any(core, values, row, stamp, marks),
    }
}

/// The first number without the stamp, or `most` where each lower number has it.
fn first_unstamped(marks: &[u64], stamp: u64, most: usize) -> usize
    requires { most ≤ length marks.now }
    ensures within { result ≤ most }
    ensures before { (k : ℕ) → k < result → slice_index marks.now k ≡ stamp }
    ensures at { result < most → slice_index marks.now result ≢ stamp }
{
    for k in 0..most {
        if marks[k] != stamp {
            return k;
        }
    }
    most
}

/// The least number that isn't among the edge values of the row. It is at most their number, so that the table need be
/// no longer than the row.
fn mex_of_row(
    core: &CoreProgram,
    values: &[Value],
    row: &Row<'_>,
    stamp: u64,
    marks: &mut [u64],
) -> Value
    requires places { All (λ r. r.source < length values.now) row.now }
    requires values { All IsValue values.now }
    requires unused { All (λ mark. mark < stamp) marks.old }
    requires room { length row.now ≤ length marks.old }
    ensures mex { result ≡ mex (placed_items core.now values.now row.now) }
    ensures older { All (λ mark. mark ≤ stamp) marks.new }
{
    stamp_row(core, values, row, stamp, marks);
    first_unstamped(marks, stamp, row.len()) as u64
}

impl Stamps {
    ghost use Rattle.std.specs.Prelude.{◌≡◌, ◌<◌, ◌≤◌, All, IfOk, length};
    ghost use Rattle.px_base.specs.Values.{IsValue};
    ghost use Rattle.px_base.specs.Rules.{mex};
    ghost use Rattle.worker_world.specs.Placed.{placed_items};

    /// A table for rows of at most this many reads.
    pub fn new(alloc: Global, longest: usize) -> Result<Stamps, Memory>
        ensures { IfOk result (λ stamps. length stamps.marks.items ≡ longest) }
    {
        Ok(Stamps {
            marks: vec![in alloc; 0; longest]?,
            newest: 0,
        })
    }

    /// Takes a stamp that no number has. After the last one all begins anew.
    fn take_stamp(&mut self) -> u64
        ensures newest { self.new.newest ≡ result }
        ensures unused { All (λ mark. mark < result) self.new.marks.items }
        ensures room { length self.new.marks.items ≡ length self.old.marks.items }
    {
        if self.newest == u64::MAX {
            wipe(self.marks.as_mut_slice());
            self.newest = 0;
        }
        self.newest += 1;
        self.newest
    }

    /// The least number that isn't among the edge values of the row.
    pub fn mex(&mut self, core: &CoreProgram, values: &[Value], row: &Row<'_>) -> Value
        requires places { All (λ r. r.source < length values.now) row.now }
        requires values { All IsValue values.now }
        requires room { length row.now ≤ length self.old.marks.items }
        ensures mex { result ≡ mex (placed_items core.now values.now row.now) }
        ensures room { length self.new.marks.items ≡ length self.old.marks.items }
    {
        let stamp = self.take_stamp();
        mex_of_row(core, values, row, stamp, self.marks.as_mut_slice())
    }
}

/// The most reads that a row of the part has.
pub fn longest(part: &PlacedPart) -> usize
    ensures { All (λ row. length row ≤ result) part.now.rows }
{
    let mut most = 0;
    for k in 0..part.rows().row_count() {
        most = part.row(k).len().max(most);
    }
    most
}
