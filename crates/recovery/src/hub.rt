//! The hub and its events.
use crate::faults::fault_of;
use crate::given::{Given, Turn};
use crate::kept::{
    all_set, clear_all, drop_order, drop_reports, halt_after, hand_out, is_set, no_header,
    no_headers, no_orders, no_reports, note_current, why_of,
};
use crate::mail::put_current;
use crate::route_words::RouteWords;
use hub_table::Inboxes;
use hub_terms::{Halt, Limits, Why};
use membership::Members;
use partitioner::{Cuts, RouteTable};
use px_base::{Answer, Foreign, Header, Items, Loss, LossKind, Memory, Order, Value};
use shadow::Shadow;
use std::alloc::Global;
use std::marker::Model;

/// What is known of all workers, what waits for them, and what they have reported. It tells each worker what to do, takes the
/// answers, and hears of losses and joins.
#[derive(Drop)]
pub struct Hub {
    alloc: Global,
    cuts: Cuts,
    routes: RouteWords,
    counting: bool,
    members: Members,
    inboxes: Inboxes,
    halt: Option<Why>,
    orders: Shadow<Items<Option<Order>>>,
    headers: Vec<Option<Header>>,
    reported: Shadow<Items<Option<Items<Value>>>>,
    flags: Vec<bool>,
    values: Vec<Value>,
}

impl Model for Hub {
    ghost use Rattle.hub_terms.specs.Hubs.{HubState};
    ghost use Rattle.recovery.specs.Keeping.{IsHub};

    ghost Value = { HubState };

    ghost view = { λ h. record { members = h.members; inboxes = h.inboxes; halt = h.halt; orders = h.orders; reported = h.reported } };

    ghost invariant = { λ h. IsHub h.cuts.ends h.routes h.counting h.headers.items h.flags.items h.values.items (record { members = h.members; inboxes = h.inboxes; halt = h.halt; orders = h.orders; reported = h.reported }) };
}

impl Hub {
    ghost use Rattle.px_base.specs.declared.TheConstants.{MOST_VERTICES};
    ghost use Rattle.std.specs.Prelude.{◌≡◌, ◌<◌, ◌≤◌, true, false, not, None, Some, Ok, Err, IfOk, OnOk, OnErr, MatchResult, MatchBool, All, length, is_some};
    ghost use Rattle.px_base.specs.declared.wire.Order.{Order};
    ghost use Rattle.px_base.specs.declared.wire.Order.TheVariants.{Step, Report};
    ghost use Rattle.px_base.specs.Parts.{IsWorkerCuts, part_count};
    ghost use Rattle.px_base.specs.Values.{IsValue};
    ghost use Rattle.partitioner.specs.Cuts.{vertex_count};
    ghost use Rattle.list_laws.specs.Routes.{AreRoutes};
    ghost use Rattle.hub_terms.specs.declared.stops.Why.TheVariants as why;
    ghost use Rattle.hub_terms.specs.Jobs.{LimitsFit};
    ghost use Rattle.hub_terms.specs.Members.{is_spent, may_step};
    ghost use Rattle.hub_terms.specs.Systems.{HasOrder, AnswersValues};
    ghost use Rattle.hub_terms.specs.Hubs.{work, all_reported, after_turn, busy_turn, has_mail, is_quiet_hub, open_turn, opening_hub, order_at, quiet_turn, reported_at, reported_values, turn_of, waiting_at, with_order, worker_at, worker_count};
    ghost use Rattle.hub_terms.specs.HubEvents.{absorption, after_answer, after_halt, after_join, after_loss, foreign_of};
    ghost use Rattle.hub_terms.specs.HubInStep.{IsHubInStep};
    ghost use Rattle.recovery.specs.Keeping.{IsCutGraph};
    ghost use Rattle.recovery.specs.TurnFor.{IsStepTurn, turn_for};

    /// The hub before the first event: all workers are missing. Takes all memory but that of orders. Errors: want of memory.
    pub fn new(
        alloc: Global,
        routes: RouteTable,
        cuts: Cuts,
        counting: bool,
        limits: Limits,
    ) -> Result<Hub, Memory>
        requires cuts { IsWorkerCuts (vertex_count cuts.ends) cuts.ends }
        requires few { vertex_count cuts.ends ≤ MOST_VERTICES }
        requires routes { AreRoutes (part_count cuts.ends) routes.to }
        requires one_each { length routes.to ≡ vertex_count cuts.ends }
        requires limits { LimitsFit limits }
        ensures { IfOk result (λ hub. hub ≡ opening_hub cuts.ends routes.to counting limits) }
    {
        let ends = cuts.ends.as_slice();
        let count = ends.len() - 1;
        let vertices = ends[count] as usize;
        let members = Members::new(alloc, count as u32, limits)?;
        let inboxes = Inboxes::new(alloc, &routes, &cuts, counting)?;
        let routes = RouteWords::new(alloc, &routes)?;
        let headers = no_headers(alloc, count)?;
        let flags = vec![in alloc; false; count]?;
        let values = vec![in alloc; 0; vertices]?;
        Ok(Hub {
            alloc,
            cuts,
            routes,
            counting,
            members,
            inboxes,
            halt: None,
            orders: no_orders(alloc, &count),
            headers,
            reported: no_reports(alloc, &count),
            flags,
            values,
        })
    }

    /// What the type keeps of every hub.
    pub fn known(&self)
        ensures in_step { IsHubInStep self.now }
        ensures graph { IsCutGraph self.now.inboxes.cuts self.now.inboxes.routes }
    {
        let _ = &self.alloc;
    }

    /// How many workers there are, live and missing: one for each part.
    pub fn worker_count(&self) -> u32
        ensures { result ≡ worker_count self.now }
    {
        self.inboxes.worker_count()
    }

    /// Whether worker `i` has joined, and wasn't lost since.
    pub fn is_live(&self, i: u32) -> bool
        requires { i < worker_count self.now }
        ensures { result ≡ (worker_at self.now i).live }
    {
        self.members.live(i)
    }

    /// Whether worker `i` has an order that it hasn't answered yet.
    pub fn has_order(&self, i: u32) -> bool
        requires { i < worker_count self.now }
        ensures { MatchBool result (HasOrder self.now i) (order_at self.now i ≡ None) }
    {
        self.headers[i as usize].is_some()
    }

    /// The reason to stop, where there is one.
    pub fn halted(&self) -> Option<Why>
        ensures { result ≡ self.now.halt }
    {
        self.halt
    }

    /// The losses that were noted, in order.
    pub fn losses(&self) -> &[Loss]
        ensures { result.now ≡ self.now.members.losses }
    {
        self.members.losses()
    }

    /// The base: the greatest round of a live worker at the last join, 0 before the first. Rounds are counted from it.
    pub fn base_round(&self) -> u64
        ensures { result ≡ self.now.members.base }
    {
        self.members.base_round()
    }

    /// The core values that all workers have reported, one for each position.
    pub fn values(&self) -> &[Value]
        requires { all_reported self.now ≡ true }
        ensures values { result.now ≡ reported_values self.now }
        ensures one_each { length result.now ≡ vertex_count self.now.inboxes.cuts }
        ensures in_range { All IsValue result.now }
    {
        &self.values
    }

    /// Tells worker `i` what to do.
    ///
    /// # Errors
    /// `Memory`, only where the worker's turn is a Step, for its updates; the hub is then as before.
    pub fn give(&mut self, i: u32) -> Result<Turn, Memory>
        requires inside { i < worker_count self.old }
        requires live { (worker_at self.old i).live ≡ true }
        requires idle { order_at self.old i ≡ None }
        ensures turn { IfOk result (λ turn. turn ≡ turn_for i (turn_of self.old i)) }
        ensures left { OnOk result (self.new ≡ after_turn self.old i (turn_of self.old i)) }
        ensures kept { OnErr result (self.new ≡ self.old) }
        ensures wants { OnErr result (IsStepTurn (turn_of self.old i)) }
    {
        match self.halted() {
            Some(reason) => Ok(Turn::Stop(reason)),
            None => self.open_turn(i),
        }
    }

    /// The same where there is no reason to stop yet.
    fn open_turn(&mut self, i: u32) -> Result<Turn, Memory>
        requires inside { i < worker_count self.old }
        requires live { (worker_at self.old i).live ≡ true }
        requires idle { order_at self.old i ≡ None }
        requires free { self.old.halt ≡ None }
        ensures turn { IfOk result (λ turn. turn ≡ turn_for i (open_turn self.old i)) }
        ensures left { OnOk result (self.new ≡ after_turn self.old i (open_turn self.old i)) }
        ensures kept { OnErr result (self.new ≡ self.old) }
        ensures wants { OnErr result (IsStepTurn (open_turn self.old i)) }
    {
        if self.is_quiet() {
            Ok(self.quiet_turn(i))
        } else {
            self.busy_turn(i)
        }
    }

    /// The same where all is quiet.
    fn quiet_turn(&mut self, i: u32) -> Turn
        requires inside { i < worker_count self.old }
        requires live { (worker_at self.old i).live ≡ true }
        requires idle { order_at self.old i ≡ None }
        requires free { self.old.halt ≡ None }
        requires quiet { is_quiet_hub self.old ≡ true }
        ensures turn { result ≡ turn_for i (quiet_turn self.old i) }
        ensures left { self.new ≡ after_turn self.old i (quiet_turn self.old i) }
    {
        if self.all_reported() {
            Turn::Done
        } else if self.has_reported(i) {
            Turn::Wait
        } else {
            Turn::Work(self.give_report(i))
        }
    }

    /// The same where all isn't quiet.
    fn busy_turn(&mut self, i: u32) -> Result<Turn, Memory>
        requires inside { i < worker_count self.old }
        requires live { (worker_at self.old i).live ≡ true }
        requires idle { order_at self.old i ≡ None }
        requires free { self.old.halt ≡ None }
        requires busy { is_quiet_hub self.old ≡ false }
        ensures turn { IfOk result (λ turn. turn ≡ turn_for i (busy_turn self.old i)) }
        ensures left { OnOk result (self.new ≡ after_turn self.old i (busy_turn self.old i)) }
        ensures kept { OnErr result (self.new ≡ self.old) }
        ensures wants { OnErr result (IsStepTurn (busy_turn self.old i)) }
    {
        if self.may_step(i) {
            Ok(Turn::Work(self.give_step(i)?))
        } else if self.is_spent() {
            self.stop_for_rounds();
            Ok(Turn::Stop(Why::Budget))
        } else {
            Ok(Turn::Wait)
        }
    }

    /// All is quiet.
    fn is_quiet(&self) -> bool
        ensures { result ≡ is_quiet_hub self.now }
    {
        self.members.is_quiet(self.inboxes.all_empty())
    }

    /// All workers have reported in this epoch.
    fn all_reported(&self) -> bool
        ensures { result ≡ all_reported self.now }
    {
        all_set(&self.flags)
    }

    /// Worker `i` has reported in this epoch.
    fn has_reported(&self, i: u32) -> bool
        requires { i < worker_count self.now }
        ensures { result ≡ is_some (reported_at self.now i) }
    {
        is_set(&self.flags, i as usize)
    }

    /// Worker `i` may step.
    fn may_step(&self, i: u32) -> bool
        requires { i < worker_count self.now }
        ensures { result ≡ may_step self.now.members i (has_mail self.now i) }
    {
        self.members.may_step(i, self.inboxes.len(i) != 0)
    }

    /// No worker has a round left, and none has anything to answer.
    fn is_spent(&self) -> bool
        ensures { result ≡ is_spent self.now.members }
    {
        self.members.is_spent()
    }

    /// The rounds are used up.
    fn stop_for_rounds(&mut self)
        requires { self.old.halt ≡ None }
        ensures { self.new ≡ record self.old { halt = Some why.Budget } }
    {
        self.halt = Some(Why::Budget);
    }

    /// Gives worker `i` a Report.
    fn give_report(&mut self, i: u32) -> Given
        requires inside { i < worker_count self.old }
        requires live { (worker_at self.old i).live ≡ true }
        requires idle { order_at self.old i ≡ None }
        requires turn { turn_of self.old i ≡ work (Report self.old.members.epoch) }
        requires quiet { is_quiet_hub self.old ≡ true }
        ensures given { result ≡ record { worker = i; order = Report self.old.members.epoch } }
        ensures left { self.new ≡ with_order self.old i (Report self.old.members.epoch) }
    {
        let epoch = self.members.epoch();
        self.members.given(i, false);
        hand_out(
            &mut self.orders,
            &mut self.headers,
            i,
            Order::Report { epoch },
        )
    }

    /// Gives worker `i` a Step with all that waits for it. Errors: want of memory; then the hub is as before.
    fn give_step(&mut self, i: u32) -> Result<Given, Memory>
        requires inside { i < worker_count self.old }
        requires live { (worker_at self.old i).live ≡ true }
        requires idle { order_at self.old i ≡ None }
        requires turn { turn_of self.old i ≡ work (Step self.old.members.epoch (worker_at self.old i).round (waiting_at self.old i)) }
        requires may { may_step self.old.members i (has_mail self.old i) ≡ true }
        ensures given { IfOk result (λ given. given ≡ record { worker = i; order = Step self.old.members.epoch (worker_at self.old i).round (waiting_at self.old i) }) }
        ensures left { OnOk result (self.new ≡ with_order self.old i (Step self.old.members.epoch (worker_at self.old i).round (waiting_at self.old i))) }
        ensures kept { OnErr result (self.new ≡ self.old) }
    {
        let mut updates = Vec::with_capacity(self.alloc, self.inboxes.len(i) as usize)?;
        self.inboxes.drain(i, &mut updates);
        let epoch = self.members.epoch();
        let round = self.members.round(i);
        self.members.given(i, true);
        let updates = Items::from_vec(updates);
        Ok(hand_out(
            &mut self.orders,
            &mut self.headers,
            i,
            Order::Step {
                epoch,
                round,
                updates,
            },
        ))
    }

    /// Takes the answer of worker `i` to its order. Errors: what is wrong with the answer, its header first; then the hub is as
    /// before. An answer of an older epoch ends the order and changes nothing else but the worker's round.
    pub fn took(&mut self, i: u32, answer: &Answer) -> Result<(), Foreign>
        requires inside { i < worker_count self.old }
        requires asked { HasOrder self.old i }
        requires values { AnswersValues answer.now }
        ensures { MatchResult result (λ _. after_answer self.old i answer.now ≡ Ok self.new) (λ foreign. (after_answer self.old i answer.now ≡ Err foreign) × (self.new ≡ self.old)) }
    {
        match self.fault(i, answer) {
            Some(foreign) => Err(foreign),
            None => {
                self.absorb(i, answer);
                Ok(())
            }
        }
    }

    /// What is wrong with the answer of worker `i` to its order.
    fn fault(&self, i: u32, answer: &Answer) -> Option<Foreign>
        requires inside { i < worker_count self.now }
        requires asked { HasOrder self.now i }
        ensures { (order : Order) → order_at self.now i ≡ Some order → result ≡ foreign_of self.now.inboxes i order answer.now }
    {
        let header = self.headers[i as usize].unwrap_or(Header {
            kind: 0,
            epoch: 0,
            round: 0,
        });
        fault_of(&self.cuts, &self.routes, self.counting, header, i, answer)
    }

    /// Takes an answer that has nothing wrong.
    fn absorb(&mut self, i: u32, answer: &Answer)
        requires inside { i < worker_count self.old }
        requires asked { HasOrder self.old i }
        requires values { AnswersValues answer.now }
        requires right { (order : Order) → order_at self.old i ≡ Some order → foreign_of self.old.inboxes i order answer.now ≡ None }
        ensures { self.new ≡ absorption self.old i answer.now }
    {
        match answer {
            Answer::Stepped {
                epoch,
                changed,
                updates,
                ..
            } => {
                let current = *epoch == self.members.epoch();
                put_current(
                    &mut self.inboxes,
                    &self.routes,
                    self.counting,
                    updates.as_slice(),
                    current,
                );
                self.members.stepped(i, *epoch, *changed);
                drop_order(&mut self.orders, &i);
                no_header(&mut self.headers, i as usize);
            }
            Answer::Reported { epoch, values } => {
                let current = *epoch == self.members.epoch();
                note_current(
                    &mut self.reported,
                    &mut self.flags,
                    &mut self.values,
                    &self.cuts,
                    i,
                    values,
                    current,
                );
                self.members.reported(i);
                drop_order(&mut self.orders, &i);
                no_header(&mut self.headers, i as usize);
            }
        }
    }

    /// Worker `i` is lost: an epoch opens, in which every worker is due and nothing waits or is reported. The loss is noted
    /// while there is no reason to stop; one more than the limits allow is a reason to stop.
    pub fn lost(&mut self, i: u32, kind: LossKind)
        requires inside { i < worker_count self.old }
        requires live { (worker_at self.old i).live ≡ true }
        ensures { self.new ≡ after_loss self.old i kind }
    {
        let noted = self.halt.is_none();
        let limits = self.members.limits();
        self.halt = halt_after(self.halt, limits.losses, self.members.losses().len());
        self.members.lost(i, kind, noted);
        self.inboxes.clear();
        drop_order(&mut self.orders, &i);
        no_header(&mut self.headers, i as usize);
        drop_reports(&mut self.reported);
        clear_all(&mut self.flags);
    }

    /// A new worker `i` joins, at the least round of the live ones.
    pub fn joined(&mut self, i: u32)
        requires inside { i < worker_count self.old }
        requires missing { (worker_at self.old i).live ≡ false }
        requires free { self.old.halt ≡ None }
        ensures { self.new ≡ after_join self.old i }
    {
        self.members.joined(i);
    }

    /// Keeps the reason to stop where none is kept yet.
    pub fn halt(&mut self, i: u32, reason: Halt)
        ensures { self.new ≡ after_halt self.old i reason }
    {
        match self.halt {
            Some(_) => {}
            None => {
                self.halt = Some(why_of(reason, i));
            }
        }
    }
}
