//! What lends the spawners of all workers.
ghost use Rattle.std.specs.Prelude.{◌≡◌, ◌≤◌, false, map, IfOk, OnErr};
ghost use Rattle.link_trait.specs.Nurseries.{NurseryView, AreBack, IsLent, IsTakenBack, with_room};

use crate::spawner::Spawner;
use px_base::Memory;

/// Lends a spawner for each worker of a run, and takes them back.
pub trait Nursery {
    /// What it lends.
    type S: Spawner;

    /// Whether its spawners are lent; how many the last lending gave, and its mark; per worker the starts, the faults and the
    /// ends that came back; the retired links; for how many spawners' lists of these there is room; whether its links
    /// tell their peers; and the plan.
    ghost shown: { Self → NurseryView };

    /// Lends so many spawners, one for each worker from 0 on.
    ///
    /// # Errors
    /// `Memory`. None is lent then.
    fn lend(&mut self, count: u32) -> Result<Vec<Self::S>, Memory>
        requires count { (1 ≤ count) × (count ≤ 64) }
        requires none_lent { (shown self.old).lent ≡ false }
        ensures ok { IfOk result (λ all. IsLent (shown self.old) (shown self.new) count (map Self.S.shown all.items)) }
        ensures err { OnErr result (shown self.new ≡ with_room (shown self.old) (shown self.new).room) };

    /// Takes all spawners of the last lending back.
    fn take_back(&mut self, spawners: Vec<Self::S>)
        requires { AreBack (shown self.old) (map Self.S.shown spawners.items) }
        ensures { IsTakenBack (shown self.old) (shown self.new) (map Self.S.shown spawners.items) };
}
