//! The updates on their way to each worker.
ghost use Rattle.std.specs.Prelude.{◌≡◌, ◌<◌, ◌++◌, ◌∷◌, [], ℕ, All, IfOk, OnOk, length, slice_index_or, if◌then◌else◌};
ghost use Rattle.std.specs.List.Sorted.{IsStrictlyIncreasing};
ghost use Rattle.px_base.specs.Values.{is_listed};
ghost use Rattle.list_laws.specs.Routes.{AreRoutes};
ghost use Rattle.serial_rounds.specs.Mail.{mail_for, routed_to};

use crate::steps::Sent;
use px_base::{Items, Memory, Update};
use std::alloc::Global;
use std::marker::Model;
use std::mem;

/// The updates that a worker gets with its next Step. Its room is kept from round to round.
#[derive(Drop)]
pub struct Inbox {
    updates: Vec<Update>,
}

impl Model for Inbox {
    ghost use Rattle.std.specs.Prelude.{List};
    ghost use Rattle.px_base.specs.declared.wire.Update.{Update as UpdateData};

    ghost Value = { List UpdateData };

    ghost view = { λ inbox. inbox.updates.items };
}

impl Inbox {
    /// An empty inbox. It takes no memory yet.
    pub fn new(alloc: Global) -> Inbox
        ensures { result ≡ [] }
    {
        Inbox {
            updates: Vec::new(alloc),
        }
    }

    fn push(&mut self, update: Update) -> Result<(), Memory>
        ensures { OnOk result (self.new ≡ self.old ++ update ∷ []) }
    {
        self.updates.push(update)?;
        Ok(())
    }

    /// Takes all updates out, with their room.
    pub fn take(&mut self, alloc: Global) -> Items<Update>
        ensures taken { result ≡ self.old }
        ensures empty { self.new ≡ [] }
    {
        Items::from_vec(mem::replace(&mut self.updates, Vec::new(alloc)))
    }

    /// Takes the room of updates that are done with.
    pub fn reuse(&mut self, done: Items<Update>)
        ensures { self.new ≡ [] }
    {
        let mut updates = done.into_vec();
        updates.clear();
        self.updates = updates;
    }
}

/// An empty inbox for each of so many workers.
pub fn empty_inboxes(alloc: Global, count: usize) -> Result<Vec<Inbox>, Memory>
    ensures count { IfOk result (λ inboxes. length inboxes.items ≡ count) }
    ensures empty { IfOk result (λ inboxes. (j : ℕ) → slice_index_or inboxes.items j [] ≡ []) }
{
    let mut inboxes = Vec::with_capacity(alloc, count)?;
    for _ in 0..count {
        inboxes.push(Inbox::new(alloc))?;
    }
    Ok(inboxes)
}

/// Puts the update into the inbox of each worker on its route.
fn deliver_update(inboxes: &mut [Inbox], route: &[u32], update: Update) -> Result<(), Memory>
    requires rises { IsStrictlyIncreasing route.now }
    requires within { All (λ j. j < length inboxes.old) route.now }
    ensures { OnOk result ((j : ℕ) → j < length inboxes.old →
        slice_index_or inboxes.new j [] ≡ slice_index_or inboxes.old j [] ++ (if is_listed route.now j then update ∷ [] else [])) }
{
    for j in route {
        inboxes[*j as usize].push(update)?;
    }
    Ok(())
}

/// Puts each update into the inboxes of the workers on its route.
fn deliver_updates(
    inboxes: &mut [Inbox],
    routes: &[Items<u32>],
    updates: &[Update],
) -> Result<(), Memory>
    requires routes { AreRoutes (length inboxes.old) routes.now }
    requires known { All (λ u. u.vertex < length routes.now) updates.now }
    ensures { OnOk result ((j : ℕ) → j < length inboxes.old →
        slice_index_or inboxes.new j [] ≡ slice_index_or inboxes.old j [] ++ routed_to routes.now j updates.now) }
{
    for update in updates {
        let route = routes[update.vertex as usize].as_slice();
        deliver_update(inboxes, route, *update)?;
    }
    Ok(())
}

/// Puts all that the workers sent into the empty inboxes of those that mirror it, in the order of the workers.
pub fn deliver(inboxes: &mut [Inbox], routes: &[Items<u32>], sent: &[Sent]) -> Result<(), Memory>
    requires routes { AreRoutes (length inboxes.old) routes.now }
    requires known { All (λ s. All (λ u. u.vertex < length routes.now) s.updates) sent.now }
    requires empty { (j : ℕ) → slice_index_or inboxes.old j [] ≡ [] }
    ensures { OnOk result ((j : ℕ) → j < length inboxes.old → slice_index_or inboxes.new j [] ≡ mail_for routes.now j sent.now) }
{
    for by_one in sent {
        deliver_updates(inboxes, routes, by_one.updates.as_slice())?;
    }
    Ok(())
}
