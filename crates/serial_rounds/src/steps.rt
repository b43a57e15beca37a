//! One Step of each worker.
ghost use Rattle.std.specs.Prelude.{◌≡◌, ◌<◌, ◌↔◌, [], ℕ, All, IfOk, IsTrue, OnOk, length, slice_index_or};
ghost use Rattle.px_base.specs.Worlds.{World as WorldData};
ghost use Rattle.serial_rounds.specs.declared.steps.Sent.{Sent as SentData};
ghost use Rattle.serial_rounds.specs.Stepped.{Accepts, IsStepped};
ghost use Rattle.serial_rounds.specs.Mail.{is_still};

use crate::inboxes::Inbox;
use px_base::{Answer, Items, Memory, Order, StepFault, Update};
use std::alloc::Global;
use std::thread::Threads;
use worker_world::World;

/// The epoch of every Step here: no worker is ever lost.
const EPOCH: u32 = 1;

/// What a worker answered to a Step: whether a master changed, and what is to be sent.
#[derive(Drop)]
pub struct Sent {
    /// Whether the value of a master changed.
    pub changed: bool,
    /// What is sent to the workers that mirror the masters in it.
    pub updates: Items<Update>,
}

impl Sent {
    /// Whether the worker changed nothing, and sends nothing.
    fn is_still(&self) -> bool
        ensures { result ≡ is_still self.now }
    {
        !self.changed && self.updates.as_slice().is_empty()
    }
}

/// Whether all workers changed nothing, and send nothing.
pub fn are_still(sent: &[Sent]) -> bool
    ensures { IsTrue result ↔ All (λ s. IsTrue (is_still s)) sent.now }
{
    sent.iter().all(|by_one| by_one.is_still())
}

/// Gives the inbox the room of an order that is done with.
fn give_back(inbox: &mut Inbox, order: Order)
    requires { inbox.old ≡ [] }
    ensures { inbox.new ≡ [] }
{
    match order {
        Order::Step { updates, .. } => inbox.reuse(updates),
        Order::Report { .. } => {}
    }
}

/// Gives the world a Step with all that lies in its inbox, which it accepts, and empties the inbox.
fn stepped<R: Threads + Sync>(
    rt: &R,
    alloc: Global,
    round: u64,
    world: &mut World,
    inbox: &mut Inbox,
) -> Result<Sent, Memory>
    requires { Accepts round world.old inbox.old }
    ensures step { IfOk result (λ sent. IsStepped round world.old inbox.old world.new sent) }
    ensures empty { OnOk result (inbox.new ≡ []) }
{
    let order = Order::Step {
        epoch: EPOCH,
        round,
        updates: inbox.take(alloc),
    };
    let answer = world.step(rt, &order);
    give_back(inbox, order);
    match answer {
        Ok(
            Answer::Stepped {
                changed,
                updates,
                ..
            },
        ) => Ok(Sent { changed, updates }),
        Ok(Answer::Reported { .. }) => unreachable!(),
        Err(StepFault::Memory) => Err(Memory),
        Err(StepFault::WrongEpoch { .. }) => unreachable!(),
        Err(StepFault::Foreign { .. }) => unreachable!(),
    }
}

/// Gives each world a Step with all that lies in its inbox, and empties the inboxes. Says what each worker answered, in the
/// order of the workers.
pub fn step_all<R: Threads + Sync>(
    rt: &R,
    alloc: Global,
    round: u64,
    worlds: &mut [World],
    inboxes: &mut [Inbox],
) -> Result<Vec<Sent>, Memory>
    requires count { length inboxes.old ≡ length worlds.old }
    requires accepted { (k : ℕ) (d : WorldData) → k < length worlds.old → Accepts round (slice_index_or worlds.old k d) (slice_index_or inboxes.old k []) }
    ensures count { IfOk result (λ sent. length sent.items ≡ length worlds.old) }
    ensures steps { IfOk result (λ sent. (k : ℕ) (d : WorldData) (s : SentData) → k < length worlds.old →
        IsStepped round (slice_index_or worlds.old k d) (slice_index_or inboxes.old k []) (slice_index_or worlds.new k d) (slice_index_or sent.items k s)) }
    ensures empty { OnOk result ((k : ℕ) → slice_index_or inboxes.new k [] ≡ []) }
{
    let mut sent = Vec::with_capacity(alloc, worlds.len())?;
    for i in 0..worlds.len() {
        let by_one = stepped(rt, alloc, round, &mut worlds[i], &mut inboxes[i])?;
        sent.push(by_one)?;
    }
    Ok(sent)
}
