//! Rows of reads in flat lists.
ghost use Rattle.std.specs.Prelude.{◌≡◌, ◌+◌, ◌-◌, ◌^◌, ◌<◌, ◌≤◌, ◌++◌, ◌∷◌, [], ℕ, All, IfOk, OnOk, length, map, slice_index, slice_range};
ghost use Rattle.px_base.specs.declared.TheConstants.{MOST_READS};
ghost use Rattle.px_base.specs.FlatRows.{AreFlat, row_in, rows_in};
ghost use Rattle.px_base.specs.Graphs.{HasWeights};
ghost use Rattle.std.specs.List.{flat_map};

use crate::row::Row;
use crate::{Memory, Pos, RowWeight};
use std::alloc::Global;
use std::marker::Model;

/// The flat lists of rows: where each row begins and, at the end, where the last one ends; and the sources and the weights of
/// all reads, row after row.
#[derive(Debug, Drop)]
pub struct FlatLists {
    /// Where each row begins, from 0 on, and then the number of reads. There may be none where there are no rows.
    pub starts: Vec<u32>,
    /// The vertex that each read reads.
    pub sources: Vec<Pos>,
    /// The weight of each read.
    pub weights: Vec<RowWeight>,
}

/// The flat lists of rows, lent.
#[derive(Clone, Copy)]
pub struct FlatSlices<'a> {
    /// Where each row begins, from 0 on, and then the number of reads. There may be none where there are no rows.
    pub starts: &'a [u32],
    /// The vertex that each read reads.
    pub sources: &'a [Pos],
    /// The weight of each read.
    pub weights: &'a [RowWeight],
}

/// Rows of reads, one after another in flat lists: 8 bytes a read and 4 a row. Contracts see the list of the rows.
#[derive(Debug, Drop)]
pub struct Rows {
    starts: Vec<u32>,
    sources: Vec<Pos>,
    weights: Vec<RowWeight>,
}

impl Model for Rows {
    ghost use Rattle.std.specs.Prelude.{List};
    ghost use Rattle.px_base.specs.declared.graph.Read.{Read};

    ghost Value = { List (List Read) };

    ghost use Rattle.px_base.specs.FlatRows.{AreFlat, rows_in};

    ghost view = { λ r. rows_in r.starts.items r.sources.items r.weights.items };

    ghost invariant = { λ r. AreFlat r.starts.items r.sources.items r.weights.items };
}

/// Where the row of v begins, and where it ends.
#[inline(always)]
fn bounds(starts: &[u32], v: usize) -> (usize, usize)
    requires { v + 1 < length starts.now }
    ensures begin { result.0 ≡ slice_index starts.now v }
    ensures end { result.1 ≡ slice_index starts.now (v + 1) }
{
    (starts[v] as usize, starts[v + 1] as usize)
}

/// The lists together. Each weight is within its limit, by its type.
#[inline(always)]
#[tactic(auto, using(crate::proofs::FlatMaps::have_weights))]
fn flat_slices<'a>(
    starts: &'a [u32],
    sources: &'a [Pos],
    weights: &'a [RowWeight],
) -> FlatSlices<'a>
    requires { length weights.now ≡ length sources.now }
    ensures starts { result.starts.now ≡ starts.now }
    ensures sources { result.sources.now ≡ sources.now }
    ensures weights { result.weights.now ≡ weights.now }
    ensures limit { HasWeights (rows_in starts.now sources.now weights.now) }
{
    FlatSlices {
        starts,
        sources,
        weights,
    }
}

/// The sources of the rows from `low` up to `high`.
#[inline(always)]
#[tactic(auto, using(crate::proofs::FlatRanges::starts_rise, crate::proofs::FlatRanges::starts_within))]
fn range_of<'a>(
    starts: &[u32],
    sources: &'a [Pos],
    weights: &[RowWeight],
    low: usize,
    high: usize,
) -> &'a [Pos]
    requires flat { AreFlat starts.now sources.now weights.now }
    requires order { low ≤ high }
    requires inside { high < length starts.now }
    ensures { result.now ≡ map (λ r. r.source) (flat_map (λ row. row) (slice_range (rows_in starts.now sources.now weights.now) low high)) }
{
    let begin = starts[low] as usize;
    let end = starts[high] as usize;
    &sources[begin..end]
}

/// The row of v.
#[inline(always)]
#[tactic(auto, using(crate::proofs::FlatRanges::row_order, crate::proofs::FlatRanges::row_within))]
fn row_of<'a>(starts: &'a [u32], sources: &'a [Pos], weights: &'a [RowWeight], v: usize) -> Row<'a>
    requires flat { AreFlat starts.now sources.now weights.now }
    requires v { v + 1 < length starts.now }
    ensures { result ≡ row_in starts.now sources.now weights.now v }
{
    let (begin, end) = bounds(starts, v);
    Row::from_flat(&sources[begin..end], &weights[begin..end])
}

impl Rows {
    ghost use Rattle.px_base.specs.declared.TheConstants.{MOST_READS};
    ghost use Rattle.std.specs.Prelude.{◌≡◌, ◌+◌, ◌≤◌, ◌<◌, ◌^◌, ◌++◌, ℕ, [], All, IfOk, length, map, slice_range};
    ghost use Rattle.px_base.specs.FlatRows.{AreFlat, rows_in, with_sources};
    ghost use Rattle.px_base.specs.Graphs.{HasWeights, read_count, row_at};
    ghost use Rattle.std.specs.List.{flat_map};

    /// No rows. It takes no memory.
    pub fn new(alloc: Global) -> Rows
        ensures { result ≡ [] }
    {
        Rows {
            starts: Vec::new(alloc),
            sources: Vec::new(alloc),
            weights: Vec::new(alloc),
        }
    }

    /// The rows that lie in these lists. Nothing is copied.
    pub fn from_flat(lists: FlatLists) -> Rows
        requires { AreFlat lists.starts.items lists.sources.items lists.weights.items }
        ensures { result ≡ rows_in lists.starts.items lists.sources.items lists.weights.items }
    {
        let FlatLists {
            starts,
            sources,
            weights,
        } = lists;
        Rows {
            starts,
            sources,
            weights,
        }
    }

    /// Takes the rows apart into the lists that they lie in. Nothing is copied.
    pub fn into_flat(self) -> FlatLists
        ensures flat { AreFlat result.starts.items result.sources.items result.weights.items }
        ensures rows { self ≡ rows_in result.starts.items result.sources.items result.weights.items }
    {
        let Rows {
            starts,
            sources,
            weights,
        } = self;
        FlatLists {
            starts,
            sources,
            weights,
        }
    }

    /// Lends the lists that the rows lie in.
    #[inline(always)]
    pub fn flat(&self) -> FlatSlices<'_>
        ensures flat { AreFlat result.starts.now result.sources.now result.weights.now }
        ensures rows { self.now ≡ rows_in result.starts.now result.sources.now result.weights.now }
        ensures weights { HasWeights self.now }
    {
        flat_slices(&self.starts, &self.sources, &self.weights)
    }

    /// How many rows there are.
    #[inline(always)]
    pub fn row_count(&self) -> usize
        ensures { result ≡ length self.now }
    {
        self.starts.len().saturating_sub(1)
    }

    /// How many reads all rows have together.
    #[inline(always)]
    pub fn read_count(&self) -> usize
        ensures count { result ≡ read_count self.now }
        ensures most { result ≤ MOST_READS }
    {
        self.sources.len()
    }

    /// Lends a row.
    #[inline(always)]
    pub fn row(&self, v: usize) -> Row<'_>
        requires { v < length self.now }
        ensures row { result ≡ row_at self.now v }
        ensures few { length result ≤ MOST_READS }
    {
        row_of(&self.starts, &self.sources, &self.weights, v)
    }

    /// Puts what `place` gives in place of each source, so that rows by position become rows by place. It takes no memory.
    pub fn map_sources<F: Fn(Pos) -> Pos>(&mut self, place: F)
        requires { All (λ row. All (λ r. F.pre place r.source) row) self.old }
        ensures { (f : ℕ → ℕ) → ((u to : ℕ) → F.pre place u → F.post place u to → to ≡ f u) → self.new ≡ with_sources f self.old }
    {
        map_each(&mut self.sources, place);
    }

    /// The rows, from the first one on.
    #[inline(always)]
    pub fn iter(&self) -> RowsIter<'_>
        ensures { result ≡ self.now }
    {
        RowsIter { rows: self, at: 0 }
    }

    /// Lends the sources of all reads of the rows from `low` on, up to but not including `high`, row after row.
    #[inline(always)]
    pub fn sources_between(&self, low: usize, high: usize) -> &[Pos]
        requires order { low ≤ high }
        requires inside { high ≤ length self.now }
        ensures { result.now ≡ map (λ r. r.source) (flat_map (λ row. row) (slice_range self.now low high)) }
    {
        if low == high {
            return &self.sources[..0];
        }
        range_of(&self.starts, &self.sources, &self.weights, low, high)
    }

    /// A copy of the rows. It copies three flat lists. Errors: want of memory.
    pub fn try_clone(&self) -> Result<Rows, Memory>
        ensures { IfOk result (λ copy. copy ≡ self.now) }
    {
        Ok(Rows {
            starts: self.starts.clone()?,
            sources: self.sources.clone()?,
            weights: self.weights.clone()?,
        })
    }

    /// No rows, and room for so many rows and reads before more memory is taken. Errors: want of memory.
    pub fn with_room(alloc: Global, rows: usize, reads: usize) -> Result<Rows, Memory>
        requires { rows < 2 ^ 32 }
        ensures { IfOk result (λ made. made ≡ []) }
    {
        Ok(Rows {
            starts: Vec::with_capacity(alloc, rows + 1)?,
            sources: Vec::with_capacity(alloc, reads)?,
            weights: Vec::with_capacity(alloc, reads)?,
        })
    }

    /// These rows and more behind them, which are copied. Errors: want of memory; the rows are dropped then.
    pub fn joined(self, more: &Rows) -> Result<Rows, Memory>
        requires { read_count self + read_count more.now ≤ MOST_READS }
        ensures { IfOk result (λ all. all ≡ self ++ more.now) }
    {
        if more.row_count() == 0 {
            return Ok(self);
        }
        let FlatLists {
            starts,
            sources,
            weights,
        } = self.into_flat();
        let lists = FlatLists {
            starts: begun(starts)?,
            sources,
            weights,
        };
        joined_lists(lists, &more.starts, &more.sources, &more.weights)
    }

    /// A copy of the rows from `low` on, up to but not including `high`. It copies three ranges of flat lists. Errors: want of
    /// memory.
    pub fn copy_range(&self, alloc: Global, low: usize, high: usize) -> Result<Rows, Memory>
        requires order { low ≤ high }
        requires inside { high ≤ length self.now }
        ensures { IfOk result (λ copy. copy ≡ slice_range self.now low high) }
    {
        if low == high {
            return Ok(Rows::new(alloc));
        }
        copied_range(alloc, &self.starts, &self.sources, &self.weights, low, high)
    }
}

/// The starts with a first one.
fn begun(mut starts: Vec<u32>) -> Result<Vec<u32>, Memory>
    ensures some { IfOk result (λ begun. 0 < length begun.items) }
    ensures kept { IfOk result (λ begun. 0 < length starts.items → begun.items ≡ starts.items) }
    ensures first { IfOk result (λ begun. length starts.items ≡ 0 → begun.items ≡ 0 ∷ []) }
{
    if starts.is_empty() {
        starts.push(0u32)?;
    }
    Ok(starts)
}

/// Puts starts behind others, counted from a base.
fn put_behind(starts: &mut Vec<u32>, base: u32, more: &[u32]) -> Result<(), Memory>
    requires { All (λ s. base + s < 2 ^ 32) more.now }
    ensures { OnOk result (starts.new.items ≡ starts.old.items ++ map (λ s. base + s) more.now) }
{
    for start in more {
        starts.push(base + *start)?;
    }
    Ok(())
}

/// The rows of the lists, and those of the slices behind them.
fn joined_lists(
    lists: FlatLists,
    starts: &[u32],
    sources: &[Pos],
    weights: &[RowWeight],
) -> Result<Rows, Memory>
    requires front { AreFlat lists.starts.items lists.sources.items lists.weights.items }
    requires some { 0 < length lists.starts.items }
    requires back { AreFlat starts.now sources.now weights.now }
    requires another { 0 < length starts.now }
    requires room { length lists.sources.items + length sources.now ≤ MOST_READS }
    ensures { IfOk result (λ all. all ≡ rows_in lists.starts.items lists.sources.items lists.weights.items ++ rows_in starts.now sources.now weights.now) }
{
    let mut all = lists;
    let base = all.sources.len() as u32;
    put_behind(&mut all.starts, base, &starts[1..])?;
    all.sources.extend_from_slice(sources)?;
    all.weights.extend_from_slice(weights)?;
    Ok(Rows::from_flat(all))
}

/// Puts what `place` gives in place of each number.
fn map_each<F: Fn(Pos) -> Pos>(sources: &mut Vec<Pos>, place: F)
    requires { All (λ u. F.pre place u) sources.old.items }
    ensures size { length sources.new.items ≡ length sources.old.items }
    ensures each { (f : ℕ → ℕ) → ((u to : ℕ) → F.pre place u → F.post place u to → to ≡ f u) → sources.new.items ≡ map f sources.old.items }
{
    for source in sources.iter_mut() {
        *source = place(*source);
    }
}

/// The rows from `low` up to `high`.
#[tactic(auto, using(crate::proofs::FlatRanges::starts_rise, crate::proofs::FlatRanges::starts_within))]
fn copied_range(
    alloc: Global,
    starts: &[u32],
    sources: &[Pos],
    weights: &[RowWeight],
    low: usize,
    high: usize,
) -> Result<Rows, Memory>
    requires flat { AreFlat starts.now sources.now weights.now }
    requires order { low ≤ high }
    requires inside { high < length starts.now }
    ensures { IfOk result (λ copy. copy ≡ slice_range (rows_in starts.now sources.now weights.now) low high) }
{
    let begin = starts[low] as usize;
    let end = starts[high] as usize;
    Ok(Rows {
        starts: from_first(alloc, &starts[low..high + 1])?,
        sources: Vec::from_slice(alloc, &sources[begin..end])?,
        weights: Vec::from_slice(alloc, &weights[begin..end])?,
    })
}

/// The numbers, counted from the first of them.
fn from_first(alloc: Global, starts: &[u32]) -> Result<Vec<u32>, Memory>
    requires some { 0 < length starts.now }
    requires rise { All (λ s. slice_index starts.now 0 ≤ s) starts.now }
    ensures { IfOk result (λ shifted. shifted.items ≡ map (λ s. s - slice_index starts.now 0) starts.now) }
{
    let first = starts[0];
    let shifted = starts
        .iter()
        .map(move |start| *start - first)
        .collect::<Vec<u32>>(alloc)?;
    Ok(shifted)
}

/// The rows that are left.
#[derive(Drop)]
pub struct RowsIter<'a> {
    rows: &'a Rows,
    at: usize,
}

impl<'a> Model for RowsIter<'a> {
    ghost use Rattle.std.specs.Prelude.{◌≤◌, List, length, drop};
    ghost use Rattle.px_base.specs.declared.graph.Read.{Read};

    ghost Value = { List (List Read) };

    ghost view = { λ r. drop r.at r.rows.now };

    ghost invariant = { λ r. r.at ≤ length r.rows.now };
}

impl<'a> Iterator for RowsIter<'a> {
    ghost use Rattle.std.specs.Iterator.{item_count, YieldsFirst};

    type Item = Row<'a>;

    ghost next_gives = { YieldsFirst (λ r. r) };

    ghost remaining = { item_count (λ r. r) };

    #[inline(always)]
    fn next(&mut self) -> Option<Row<'a>> {
        if self.at == self.rows.row_count() {
            return None;
        }
        let row = self.rows.row(self.at);
        self.at += 1;
        Some(row)
    }
}
