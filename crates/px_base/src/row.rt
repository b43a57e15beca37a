//! One row of reads, lent.
ghost use Rattle.std.specs.Prelude.{◌≡◌, ◌<◌, length, slice_index};
ghost use Rattle.px_base.specs.Values.{IsWeight};
ghost use Rattle.px_base.specs.FlatRows.{read_with};

use crate::{Pos, Read, RowWeight, Weight};
use std::marker::Model;

/// The reads of one vertex, lent from the flat lists of rows. Contracts see it as the list of them.
#[derive(Drop)]
pub struct Row<'a> {
    sources: &'a [Pos],
    weights: &'a [RowWeight],
}

impl<'a> Model for Row<'a> {
    ghost use Rattle.std.specs.Prelude.{◌≡◌, List, length};
    ghost use Rattle.px_base.specs.declared.graph.Read.{Read};

    ghost Value = { List Read };

    ghost use Rattle.px_base.specs.FlatRows.{reads_in};

    ghost view = { λ r. reads_in r.sources.now r.weights.now };

    ghost invariant = { λ r. length r.weights.now ≡ length r.sources.now };
}

/// The read at this place of the lists.
#[inline(always)]
fn read_in(sources: &[Pos], weights: &[RowWeight], at: usize) -> Read
    requires sources { at < length sources.now }
    requires weights { at < length weights.now }
    ensures read { result ≡ read_with (slice_index sources.now at) (slice_index weights.now at) }
    ensures weight { IsWeight result.weight }
{
    Read {
        source: sources[at],
        weight: Weight::from(weights[at]),
    }
}

impl<'a> Row<'a> {
    ghost use Rattle.std.specs.Prelude.{◌≡◌, ◌↔◌, ◌<◌, [], All, IsTrue, length, map};
    ghost use Rattle.px_base.specs.Values.{IsWeight};
    ghost use Rattle.px_base.specs.FlatRows.{read_at, reads_in};

    /// The reads with these sources and weights, which stand at the same places.
    #[inline(always)]
    pub(crate) fn from_flat(sources: &'a [Pos], weights: &'a [RowWeight]) -> Row<'a>
        requires { length weights.now ≡ length sources.now }
        ensures { result ≡ reads_in sources.now weights.now }
    {
        Row { sources, weights }
    }

    /// How many reads there are.
    #[inline(always)]
    pub fn len(&self) -> usize
        ensures { result ≡ length self.now }
    {
        self.sources.len()
    }

    /// Whether there is no read.
    #[inline(always)]
    pub fn is_empty(&self) -> bool
        ensures { IsTrue result ↔ (self.now ≡ []) }
    {
        self.len() == 0
    }

    /// The sources alone, in the order of the reads.
    #[inline(always)]
    pub fn sources(&self) -> &'a [Pos]
        ensures { result.now ≡ map (λ r. r.source) self.now }
    {
        self.sources
    }

    /// The weights alone, in the order of the reads.
    #[inline(always)]
    pub fn weights(&self) -> &'a [RowWeight]
        ensures { result.now ≡ map (λ r. r.weight) self.now }
    {
        self.weights
    }

    /// The read at this place, counted from 0.
    #[inline(always)]
    pub fn read(&self, at: usize) -> Read
        requires { at < length self.now }
        ensures read { result ≡ read_at self.now at }
        ensures weight { IsWeight result.weight }
    {
        read_in(self.sources, self.weights, at)
    }

    /// The reads, from the first one on.
    #[inline(always)]
    pub fn iter(&self) -> RowReads<'a>
        ensures reads { result ≡ self.now }
        ensures weights { All (λ r. IsWeight r.weight) self.now }
    {
        RowReads::from_flat(self.sources, self.weights)
    }
}

/// The reads of a row that are left.
#[derive(Drop)]
pub struct RowReads<'a> {
    sources: &'a [Pos],
    weights: &'a [RowWeight],
    at: usize,
}

impl<'a> Model for RowReads<'a> {
    ghost use Rattle.std.specs.Prelude.{◌≡◌, ◌≤◌, List, length, drop};
    ghost use Rattle.px_base.specs.declared.graph.Read.{Read};

    ghost Value = { List Read };

    ghost use Rattle.px_base.specs.FlatRows.{reads_in};

    ghost view = { λ r. drop r.at (reads_in r.sources.now r.weights.now) };

    ghost invariant = { λ r. (length r.weights.now ≡ length r.sources.now) × (r.at ≤ length r.sources.now) };
}

impl<'a> RowReads<'a> {
    ghost use Rattle.std.specs.Prelude.{◌≡◌, All, length};
    ghost use Rattle.px_base.specs.Values.{IsWeight};
    ghost use Rattle.px_base.specs.FlatRows.{reads_in};

    /// All reads of these lists.
    #[inline(always)]
    fn from_flat(sources: &'a [Pos], weights: &'a [RowWeight]) -> RowReads<'a>
        requires { length weights.now ≡ length sources.now }
        ensures reads { result ≡ reads_in sources.now weights.now }
        ensures weights { All (λ r. IsWeight r.weight) result }
    {
        RowReads {
            sources,
            weights,
            at: 0,
        }
    }
}

impl<'a> Iterator for RowReads<'a> {
    ghost use Rattle.std.specs.Iterator.{item_count, YieldsFirst};

    type Item = Read;

    ghost next_gives = { YieldsFirst (λ r. r) };

    ghost remaining = { item_count (λ r. r) };

    #[inline(always)]
    fn next(&mut self) -> Option<Read> {
        if self.at == self.sources.len() {
            return None;
        }
        let read = read_in(self.sources, self.weights, self.at);
        self.at += 1;
        Some(read)
    }
}
