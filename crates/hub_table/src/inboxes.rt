//! The updates that wait for each worker.
ghost use Rattle.std.specs.Prelude.{◌≡◌, ◌≤◌, [], IfOk, length, replicate};
ghost use Rattle.px_base.specs.declared.TheConstants.{MOST_VERTICES};
ghost use Rattle.px_base.specs.Parts.{IsWorkerCuts, part_count};
ghost use Rattle.partitioner.specs.Cuts.{vertex_count};
ghost use Rattle.list_laws.specs.Routes.{AreRoutes};
ghost use Rattle.hub_table.specs.Tables.{AreTables, mails, tables};

use crate::each::{all_empty, clear_all, drain_at, inboxes_for, master_inboxes, send_at};
use crate::inbox::Inbox;
use crate::owners::owner_from;
use crate::vertices::mirror_lists;
use partitioner::{Cuts, RouteTable};
use px_base::{Memory, Pos, Update, Value};
use shadow::Shadow;
use std::alloc::Global;
use std::marker::Model;

/// The updates that wait for each worker. Where the program counts, an update is a delta for a master of the worker, and the
/// deltas of a vertex add up; else it is the value of a mirror of the worker, and the last one counts. The worker that got the
/// last delta is kept, to find the next one from there. The routes are kept for contracts alone. Only `new` takes memory.
#[derive(Drop)]
pub struct Inboxes {
    cuts: Cuts,
    routes: Shadow<RouteTable>,
    counting: bool,
    last: u32,
    inboxes: Vec<Inbox>,
}

impl Model for Inboxes {
    ghost use Rattle.hub_terms.specs.Inboxes.{InboxesState};
    ghost use Rattle.hub_table.specs.Tables.{AreInboxes, mails, tables};

    ghost Value = { InboxesState };

    ghost view = { λ t. record { cuts = t.cuts.ends; routes = t.routes.to; counting = t.counting; boxes = mails t.inboxes.items } };

    ghost invariant = { λ t. AreInboxes (record { cuts = t.cuts.ends; routes = t.routes.to; counting = t.counting; boxes = mails t.inboxes.items }) (tables t.inboxes.items) };
}

/// A copy of the cuts. Errors: want of memory.
fn copied(cuts: &Cuts) -> Result<Cuts, Memory>
    ensures { IfOk result (λ copy. copy ≡ cuts.now) }
{
    Ok(cuts.clone()?)
}

/// An empty inbox for each part. Errors: want of memory.
fn empty_inboxes(
    alloc: Global,
    routes: &RouteTable,
    cuts: &Cuts,
    counting: bool,
) -> Result<Vec<Inbox>, Memory>
    requires cuts { IsWorkerCuts (vertex_count cuts.now.ends) cuts.now.ends }
    requires few { vertex_count cuts.now.ends ≤ MOST_VERTICES }
    requires routes { AreRoutes (part_count cuts.now.ends) routes.now.to }
    requires one_each { length routes.now.to ≡ vertex_count cuts.now.ends }
    ensures tables { IfOk result (λ inboxes. AreTables cuts.now.ends routes.now.to counting (tables inboxes.items)) }
    ensures mails { IfOk result (λ inboxes. mails inboxes.items ≡ replicate (part_count cuts.now.ends) []) }
{
    if counting {
        master_inboxes(alloc, cuts)
    } else {
        let count = cuts.ends.as_slice().len() - 1;
        inboxes_for(alloc, mirror_lists(alloc, routes.to.as_slice(), count)?)
    }
}

impl Inboxes {
    ghost use Rattle.px_base.specs.declared.TheConstants.{MOST_VERTICES};
    ghost use Rattle.std.specs.Prelude.{◌≡◌, ◌<◌, ◌≤◌, ◌+◌, ◌++◌, true, false, IfOk, length, vec_len, vec_capacity};
    ghost use Rattle.px_base.specs.Values.{IsValue};
    ghost use Rattle.px_base.specs.Parts.{IsWorkerCuts, part_count};
    ghost use Rattle.partitioner.specs.Cuts.{vertex_count};
    ghost use Rattle.list_laws.specs.Routes.{AreRoutes};
    ghost use Rattle.hub_terms.specs.HubInStep.{InboxesFit};
    ghost use Rattle.hub_terms.specs.Inboxes.{all_empty, inbox_at, is_on_route, opening_inboxes, with_added, with_cleared, with_drained, with_put};

    /// An empty inbox for each part: with a slot for each mirror of the part, or where the program counts for each master. The
    /// routes of a graph on its cuts meet the conditions (`routes_fit_inboxes`). It takes one pass over the routes, or over the
    /// cuts where the program counts. Errors: want of memory.
    pub fn new(
        alloc: Global,
        routes: &RouteTable,
        cuts: &Cuts,
        counting: bool,
    ) -> Result<Inboxes, Memory>
        requires cuts { IsWorkerCuts (vertex_count cuts.now.ends) cuts.now.ends }
        requires few { vertex_count cuts.now.ends ≤ MOST_VERTICES }
        requires routes { AreRoutes (part_count cuts.now.ends) routes.now.to }
        requires one_each { length routes.now.to ≡ vertex_count cuts.now.ends }
        ensures { IfOk result (λ t. t ≡ opening_inboxes cuts.now.ends routes.now.to counting) }
    {
        let inboxes = empty_inboxes(alloc, routes, cuts, counting)?;
        let cuts = copied(cuts)?;
        Ok(Inboxes {
            cuts,
            routes: Shadow::of(routes),
            counting,
            last: 0,
            inboxes,
        })
    }

    /// How many workers there are: one for each part. The other clauses say what holds of all inboxes: there is one for each
    /// part, and what waits in it are values for mirrors of the part, or deltas for its masters where the program counts, by
    /// rising vertex.
    pub fn worker_count(&self) -> u32
        ensures count { result ≡ part_count self.now.cuts }
        ensures cuts { IsWorkerCuts (vertex_count self.now.cuts) self.now.cuts }
        ensures one_each { length self.now.boxes ≡ part_count self.now.cuts }
        ensures fit { InboxesFit self.now }
    {
        self.inboxes.len() as u32
    }

    /// The inbox of this worker holds the value for the vertex, in place of an earlier one. It takes constant time.
    pub fn put(&mut self, worker: u32, vertex: Pos, value: Value)
        requires plain { self.old.counting ≡ false }
        requires mirrors { is_on_route self.old worker vertex ≡ true }
        requires value { IsValue value }
        ensures { self.new ≡ with_put self.old worker vertex value }
    {
        send_at(&mut self.inboxes, worker as usize, false, vertex, value);
    }

    /// Adds to the sum that the vertex has in the inbox of its owner. The sum stops at the greatest value. From the first
    /// `add` on, of 0 too, the vertex has an update there. It takes constant time, but for finding the owner, which is looked
    /// for from the owner before on: for all vertices of a rising list that is one pass over the cuts.
    pub fn add(&mut self, vertex: Pos, delta: Value)
        requires counts { self.old.counting ≡ true }
        requires below { vertex < vertex_count self.old.cuts }
        requires value { IsValue delta }
        ensures { self.new ≡ with_added self.old vertex delta }
    {
        let worker = owner_from(&self.cuts, self.last, vertex);
        self.last = worker;
        send_at(&mut self.inboxes, worker as usize, true, vertex, delta);
    }

    /// How many updates wait for the worker.
    pub fn len(&self, worker: u32) -> u32
        requires { worker < part_count self.now.cuts }
        ensures { result ≡ length (inbox_at self.now worker) }
    {
        self.inboxes[worker as usize].len()
    }

    /// Whether nothing waits for any worker.
    pub fn all_empty(&self) -> bool
        ensures { result ≡ all_empty self.now }
    {
        all_empty(&self.inboxes)
    }

    /// Empties all inboxes. It takes the time of what waits.
    pub fn clear(&mut self)
        ensures { self.new ≡ with_cleared self.old }
    {
        clear_all(&mut self.inboxes);
    }

    /// Appends all that waits for the worker, by rising vertex, and empties its inbox.
    pub fn drain(&mut self, worker: u32, out: &mut Vec<Update>)
        requires inside { worker < part_count self.old.cuts }
        requires room { vec_len out.old + length (inbox_at self.old worker) ≤ vec_capacity out.old }
        ensures given { out.new.items ≡ out.old.items ++ inbox_at self.old worker }
        ensures emptied { self.new ≡ with_drained self.old worker }
    {
        drain_at(&mut self.inboxes, worker as usize, out);
    }
}
