//! Rows of reads that are made one after another.
use crate::rows::{FlatLists, Rows};
use crate::{MOST_READS, Memory, Pos, RowWeight};
use std::alloc::Global;
use std::marker::Model;

/// Rows that are made one after another. Contracts see the rows that are done, and the reads of the next one so far.
#[derive(Drop)]
pub struct RowsBuilder {
    starts: Vec<u32>,
    sources: Vec<Pos>,
    weights: Vec<RowWeight>,
}

impl Model for RowsBuilder {
    ghost use Rattle.px_base.specs.FlatRows.{AreOpen, OpenRows, open_in};

    ghost Value = { OpenRows };

    ghost view = { λ b. open_in b.starts.items b.sources.items b.weights.items };

    ghost invariant = { λ b. AreOpen b.starts.items b.sources.items b.weights.items };
}

impl RowsBuilder {
    ghost use Rattle.px_base.specs.declared.TheConstants.{MOST_READS};
    ghost use Rattle.std.specs.Prelude.{◌≡◌, ◌↔◌, ◌+◌, ◌<◌, ◌^◌, [], ◌∷◌, ◌++◌, IfOk, IsTrue, OnErr, OnOk, length};
    ghost use Rattle.px_base.specs.Graphs.{read_count};
    ghost use Rattle.px_base.specs.FlatRows.{read_with};

    /// No rows yet, and room for so many rows and reads before more memory is taken. Errors: want of memory.
    pub fn new(alloc: Global, rows: usize, reads: usize) -> Result<RowsBuilder, Memory>
        requires { rows < 2 ^ 32 }
        ensures { IfOk result (λ made. made ≡ record { done = []; open_row = [] }) }
    {
        let mut starts = Vec::with_capacity(alloc, rows + 1)?;
        starts.push(0u32)?;
        Ok(RowsBuilder {
            starts,
            sources: Vec::with_capacity(alloc, reads)?,
            weights: Vec::with_capacity(alloc, reads)?,
        })
    }

    /// Whether one read more is within the limit of reads.
    #[inline(always)]
    pub fn has_room(&self) -> bool
        ensures { IsTrue result ↔ (read_count self.now.done + length self.now.open_row < MOST_READS) }
    {
        self.sources.len() < MOST_READS
    }

    /// Puts a read at the end of the row that is made. An error changes nothing. Errors: want of memory.
    #[inline(always)]
    #[tactic(auto, using(crate::proofs::FlatGrowing::read_more, crate::proofs::FlatGrowing::opened_more))]
    pub fn push(&mut self, source: Pos, weight: RowWeight) -> Result<(), Memory>
        requires { read_count self.old.done + length self.old.open_row < MOST_READS }
        ensures ok { OnOk result (self.new ≡ record { done = self.old.done; open_row = self.old.open_row ++ read_with source weight ∷ [] }) }
        ensures kept { OnErr result (self.new ≡ self.old) }
    {
        self.weights.reserve(1)?;
        self.sources.push(source)?;
        self.weights.push_reserved(weight);
        Ok(())
    }

    /// Ends the row that is made, and begins the next one. An error changes nothing. Errors: want of memory.
    #[tactic(auto, using(crate::proofs::FlatGrowing::row_done, crate::proofs::FlatGrowing::opened_next))]
    pub fn end_row(&mut self) -> Result<(), Memory>
        ensures ok { OnOk result (self.new ≡ record { done = self.old.done ++ self.old.open_row ∷ []; open_row = [] }) }
        ensures kept { OnErr result (self.new ≡ self.old) }
    {
        self.starts.push(self.sources.len() as u32)?;
        Ok(())
    }

    /// The rows. The last one has been ended.
    #[tactic(auto, using(crate::proofs::FlatGrowing::finished))]
    pub fn finish(self) -> Rows
        requires { self.open_row ≡ [] }
        ensures { result ≡ self.done }
    {
        let RowsBuilder {
            starts,
            sources,
            weights,
        } = self;
        Rows::from_flat(FlatLists {
            starts,
            sources,
            weights,
        })
    }
}
