//! Where a position stands in a rising list, found in constant time.
use crate::blocks::{block_of, find_between, start_blocks, table_size};
use px_base::{Memory, Pos};
use std::alloc::Global;
use std::marker::Model;

/// Of a rising list, for each block of 16 positions, how many of the list's positions lie before the block. So a position
/// is looked for only among the few of its own block. Positions above the greatest of the list have no entry.
#[derive(Drop)]
pub struct PlaceTable {
    starts: Vec<u32>,
}

impl Model for PlaceTable {
    ghost use Rattle.std.specs.Prelude.{ℕ, List};

    ghost Value = { List ℕ };

    ghost view = { λ t. t.starts.items };
}

impl PlaceTable {
    ghost use Rattle.px_base.specs.declared.TheConstants.{MOST_VERTICES};
    ghost use Rattle.std.specs.Prelude.{◌≡◌, ◌<◌, true, false, All, IfOk, IfSome, IfNone, length};
    ghost use Rattle.std.specs.List.Sorted.{IsStrictlyIncreasing};
    ghost use Rattle.px_base.specs.Values.{is_listed, place_of};
    ghost use Rattle.mirror_places.specs.Tables.{IsTableOf, table_size};

    /// The table of a rising list, made in one pass. Errors: want of memory.
    pub fn new(alloc: Global, positions: &[Pos]) -> Result<PlaceTable, Memory>
        requires rising { IsStrictlyIncreasing positions.now }
        requires below { All (λ p. p < MOST_VERTICES) positions.now }
        ensures table { IfOk result (λ table. IsTableOf positions.now table) }
        ensures size { IfOk result (λ table. length table ≡ table_size positions.now) }
    {
        let mut starts = Vec::with_capacity(alloc, table_size(positions))?;
        for (k, u) in positions.iter().enumerate() {
            start_blocks(&mut starts, block_of(*u), k as u32)?;
        }
        starts.push(positions.len() as u32)?;
        Ok(PlaceTable { starts })
    }

    /// Where a position stands in the list that the table is of, if it does. It takes constant time.
    pub fn find(&self, positions: &[Pos], u: Pos) -> Option<usize>
        requires table { IsTableOf positions.now self.now }
        ensures some { IfSome result (λ at. (at ≡ place_of positions.now u) × (at < length positions.now) × (is_listed positions.now u ≡ true)) }
        ensures none { IfNone result (is_listed positions.now u ≡ false) }
    {
        let block = block_of(u);
        if self.starts.len() <= block + 1 {
            return None;
        }
        let from = self.starts[block] as usize;
        let to = self.starts[block + 1] as usize;
        find_between(positions, from, to, u)
    }
}
