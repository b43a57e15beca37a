//! A small value with parts: cells that are counted in.
use px_base::Memory;
use seat_lock::Parted;
use std::alloc::Global;

/// A board of cells, each counted in by one seat.
#[derive(Drop)]
pub struct Board {
    /// What the board is for. It never changes.
    pub job: u64,
    /// What each cell counts.
    pub cells: Vec<u64>,
}

/// What contracts see of one cell. No value of it is made.
pub struct Tally {
    /// What the board is for: a seat that enters knows no more of the value than its part.
    pub job: u64,
    /// What the cell counts.
    pub count: u64,
}

impl Parted for Board {
    ghost use Rattle.lock_tests.specs.Tallies.{tallies};

    type Part = Tally;

    ghost parts = { tallies };
}

impl Board {
    ghost use Rattle.std.specs.Prelude.{◌≡◌, length, slice_get, IfOk};
    ghost use Rattle.seat_lock.specs.Views.{OthersStay};
    ghost use Rattle.lock_tests.specs.Tallies.{tallies, raised};

    /// A board whose cells begin with these counts. Errors: want of memory.
    pub fn new(alloc: Global, job: u64, cells: &[u64]) -> Result<Board, Memory>
        ensures { IfOk result (λ board. (board.job ≡ job) × (board.cells.items ≡ cells.now)) }
    {
        let mut all = Vec::with_capacity(alloc, cells.len())?;
        all.extend_from_slice(cells)?;
        Ok(Board { job, cells: all })
    }

    /// Cell k, if there is one, counts one more, and stops at the greatest number.
    pub fn raise(&mut self, k: usize)
        ensures others { OthersStay k (tallies self.old) (tallies self.new) }
        ensures own { slice_get (tallies self.new) k ≡ raised (slice_get (tallies self.old) k) }
    {
        if k < self.cells.len() {
            self.cells[k] = self.cells[k].saturating_add(1);
        }
    }
}
