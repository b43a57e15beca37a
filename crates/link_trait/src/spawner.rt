//! What starts the links of one worker.
ghost use Rattle.std.specs.Prelude.{◌≡◌, ◌<◌, ◌≤◌, ◌^◌, None, IfOk, OnErr};
ghost use denote.Param.Send.{IsSync};
ghost use Rattle.link_trait.specs.Counts.{HasRisen};
ghost use Rattle.link_trait.specs.Links.{CanStart};
ghost use Rattle.link_trait.specs.Spawners.{SpawnerView, IsLinkOf, IsStarted, not_started, retired, discarded};

use crate::faults::StartFault;
use crate::link::Link;
use px_base::{CoreProgram, Part};
use std::sync::Wait;
use std::thread::Threads;

/// Starts the links of one worker, one after another, and takes them back. Each link that it has started comes back by `retire`
/// or `discard`, a dead one too: while one is out, none is started, and the nursery can't take the spawner back. A start may
/// raise the count of faults, whatever it answers.
pub trait Spawner: Send + Drop {
    /// What it starts.
    type L: Link;

    /// The worker; the starts, the faults and the ends of the links that came back; the retired links; the mark of the lending
    /// that gave it; the mark of the link that is out; whether its links tell their peers; and the plan.
    ghost shown: { Self → SpawnerView };

    /// Starts a link to a new worker that holds this part for this program. It may wait.
    ///
    /// # Errors
    /// `Refused`, only where the count of faults rose; `Memory`. After either no link is out.
    fn start<R: Threads + Wait + Sync>(
        &mut self,
        rt: &R,
        part: &Part,
        core: &CoreProgram,
        chunks: u32,
    ) -> Result<Self::L, StartFault>
        requires mine { part.now.index ≡ (shown self.old).worker }
        requires can { CanStart part.now core.now chunks }
        requires few { (shown self.old).starts < 2 ^ 32 }
        requires none_out { (shown self.old).out ≡ None }
        requires sync { IsSync R.row }
        ensures ok { IfOk result (λ link. IsStarted (shown self.old) (shown self.new) part.now core.now (Self.L.shown link)) }
        ensures refused { result ≡ Err StartFault.Refused → HasRisen (shown self.old).faults (shown self.new).faults }
        ensures err { OnErr result (shown self.new ≡ not_started (shown self.old) (shown self.new).faults) }
        ensures faults { (shown self.old).faults ≤ (shown self.new).faults };

    /// Takes the link back, and keeps its peer for contracts. It may wait, for a process to end, say.
    fn retire(&mut self, link: Self::L)
        requires { IsLinkOf (shown self.old) (Self.L.shown link) }
        ensures { shown self.new ≡ retired (shown self.old) (Self.L.shown link) };

    /// Takes the link back, and forgets its peer. It may wait.
    fn discard(&mut self, link: Self::L)
        requires { IsLinkOf (shown self.old) (Self.L.shown link) }
        ensures { shown self.new ≡ discarded (shown self.old) (Self.L.shown link) };
}
