//! Which masters are alive, and how many living neighbours each of them counts.
ghost use Rattle.std.specs.Prelude.{◌≡◌, ◌≤◌, ◌<◌, ◌-◌, All, IfOk, IsTrue, if◌then◌else◌, length, map, replicate, slice_index, slice_set};
ghost use Rattle.px_base.specs.Graphs.{read_count};
ghost use Rattle.px_base.specs.Parts.{PartFits, is_within};
ghost use Rattle.px_base.specs.CountSteps.{counts_less};
ghost use Rattle.count_world.specs.Census.{IsCensus, KeepsCensus};
ghost use Rattle.count_world.specs.Sets.{falls};

use crate::lists::{add_if, list_dying};
use px_base::{Memory, Part, Update, Value};
use std::alloc::Global;

/// A flag and a count for each master, and a list of those that are alive and have too low a count. Whatever lowers a count
/// keeps the list, so nobody has to look for them.
#[derive(Drop)]
pub struct Census {
    /// How many living neighbours a master needs.
    pub needed: u32,
    /// 1 for each living master and 0 for each dead one.
    pub alive: Vec<Value>,
    /// How many living neighbours each master counts, once for each read.
    pub counts: Vec<Value>,
    /// The places of the masters that are alive and count too few. It has room for all masters.
    pub dying: Vec<u32>,
}

/// How many masters the part has.
pub fn master_count(part: &Part) -> usize
    ensures { result ≡ part.now.high - part.now.low }
{
    part.high.saturating_sub(part.low) as usize
}

/// Puts the length of its row at each master.
fn put_row_lengths(part: &Part, counts: &mut Vec<Value>)
    requires fits { PartFits part.now }
    requires counts { length counts.old.items ≡ part.now.high - part.now.low }
    ensures { counts.new.items ≡ map length part.now.rows }
{
    for k in 0..part.rows.row_count() {
        counts[k] = part.rows.row(k).len() as u64;
    }
}

/// Whether a master with this flag dies where its count falls so.
fn falls(flag: Value, before: Value, after: Value, needed: u32) -> bool
    ensures { result ≡ falls flag before after needed }
{
    let needed = u64::from(needed);
    flag == 1 && (!(before < needed) && after < needed)
}

impl Census {
    /// All masters are alive, and each counts its whole row.
    pub fn new(alloc: Global, part: &Part, needed: u32) -> Result<Census, Memory>
        requires fits { PartFits part.now }
        ensures census { IfOk result (λ census. IsCensus census) }
        ensures needed { IfOk result (λ census. census.needed ≡ needed) }
        ensures alive { IfOk result (λ census. census.alive.items ≡ replicate (length part.now.rows) 1) }
        ensures counts { IfOk result (λ census. census.counts.items ≡ map length part.now.rows) }
    {
        let count = master_count(part);
        let alive = vec![in alloc; 1; count]?;
        let mut counts = vec![in alloc; 0; count]?;
        let mut dying = Vec::with_capacity(alloc, count)?;
        put_row_lengths(part, &mut counts);
        list_dying(alive.as_slice(), counts.as_slice(), needed, &mut dying);
        Ok(Census {
            needed,
            alive,
            counts,
            dying,
        })
    }

    /// Lets each master count its whole row.
    fn count_rows(&mut self, part: &Part)
        requires fits { PartFits part.now }
        requires alive { length self.old.alive.items ≡ part.now.high - part.now.low }
        requires census { IsCensus self.old }
        ensures kept { KeepsCensus self.old self.new }
        ensures counts { self.new.counts.items ≡ map length part.now.rows }
    {
        put_row_lengths(part, &mut self.counts);
        let (alive, counts) = (self.alive.as_slice(), self.counts.as_slice());
        list_dying(alive, counts, self.needed, &mut self.dying);
    }

    /// Begins the counts anew where a Step is fresh.
    pub fn begin(&mut self, part: &Part, fresh: bool)
        requires fits { PartFits part.now }
        requires alive { length self.old.alive.items ≡ part.now.high - part.now.low }
        requires census { IsCensus self.old }
        ensures kept { KeepsCensus self.old self.new }
        ensures counts { self.new.counts.items ≡ (if fresh then map length part.now.rows else self.old.counts.items) }
    {
        if fresh {
            self.count_rows(part);
        }
    }

    /// Takes so much off the count of master `k`, and lists it if that is what makes it die.
    pub fn lower(&mut self, k: usize, amount: Value)
        requires k { k < length self.old.alive.items }
        requires census { IsCensus self.old }
        ensures kept { KeepsCensus self.old self.new }
        ensures counts { self.new.counts.items ≡ slice_set self.old.counts.items k (slice_index self.old.counts.items k - amount) }
    {
        let before = self.counts[k];
        let after = before.saturating_sub(amount);
        let dies = falls(self.alive[k], before, after, self.needed);
        self.counts[k] = after;
        add_if(dies, k as u32, &mut self.dying);
    }

    /// Takes the updates off the counts, each off its master's.
    pub fn take_deltas(&mut self, part: &Part, updates: &[Update])
        requires alive { length self.old.alive.items ≡ part.now.high - part.now.low }
        requires census { IsCensus self.old }
        requires known { All (λ u. IsTrue (is_within part.now.low part.now.high u.vertex)) updates.now }
        ensures kept { KeepsCensus self.old self.new }
        ensures counts { self.new.counts.items ≡ counts_less part.now.low updates.now self.old.counts.items }
    {
        for update in updates {
            self.lower((update.vertex - part.low) as usize, update.value);
        }
    }
}
