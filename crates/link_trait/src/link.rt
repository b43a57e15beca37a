//! A way to one worker.
ghost use Rattle.std.specs.Prelude.{◌≡◌, IfOk, OnErr, true, false};
ghost use denote.Param.Send.{IsSync};
ghost use Rattle.px_base.specs.declared.wire.Broken.{Broken};
ghost use Rattle.link_trait.specs.Counts.{HasRisen};
ghost use Rattle.link_trait.specs.Links.{LinkView, Accepts, IsAnswered, IsDead, IsSameLink, is_told, refused_after};

use crate::faults::LinkFault;
use px_base::Answer;
use recovery::Given;
use std::sync::Wait;
use std::thread::Threads;

/// A way to one worker, which holds the worker's world and answers its orders. Where a link tells its peer, contracts see
/// that world. Any call may raise the count of ends.
pub trait Link: Send + Drop {
    /// The worker; the mark; the world of the peer, where it is told; the calls and the Reports that were answered; whether the
    /// link is alive; its ends; and the fault of the frame that it has refused, where it has.
    ghost shown: { Self → LinkView };

    /// The number of the worker.
    fn worker(&self) -> u32
        ensures { result ≡ (shown self.now).worker };

    /// Hands the order to the peer, and its answer back. The link is alive after an answer, and may be called again. It may
    /// wait. (`sync` says again what the bound on `R` says, for implementations, which don't see the bound. A caller meets it
    /// by itself.)
    ///
    /// # Errors
    /// `Ended`, only where the count of ends rose; `Broke`, with the fault of the frame that was refused, and never where the
    /// peer is told; `Memory`. After any of them the link isn't alive, and nothing is said of its peer.
    fn call<R: Threads + Wait + Sync>(&mut self, rt: &R, given: Given) -> Result<Answer, LinkFault>
        requires alive { (shown self.old).alive ≡ true }
        requires mine { given.worker ≡ (shown self.old).worker }
        requires accepted { Accepts (shown self.old).peer given.order }
        requires sync { IsSync R.row }
        ensures ok { IfOk result (λ answer. IsAnswered (shown self.old) (shown self.new) given.order answer) }
        ensures ended { result ≡ Err LinkFault.Ended → HasRisen (shown self.old).ends (shown self.new).ends }
        ensures broke { (fault : Broken) → result ≡ Err (LinkFault.Broke fault) → is_told (shown self.old) ≡ false }
        ensures refused { (shown self.new).refused ≡ refused_after (shown self.old).refused result }
        ensures dead { OnErr result (IsDead (shown self.old) (shown self.new)) }
        ensures same { IsSameLink (shown self.old) (shown self.new) };
}
