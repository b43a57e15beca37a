//! Events come to a hub, one after another, and what it says of each is compared.
ghost use Rattle.std.specs.Prelude.{◌≡◌, true, IfOk};
ghost use Rattle.hub_terms.specs.Hubs.{all_reported};
ghost use Rattle.hub_terms.specs.Systems.{AnswersValues};

use crate::graphs::new_hub;
use hub_terms::{Halt, Limits, Why};
use px_base::{Answer, Foreign, Items, LossKind, Order, TOP, Update, Value};
use recovery::{Given, Hub, Turn};
use std::alloc::Global;
use std::process::Abort;
use std::test::Fail;

/// What a worker answers.
#[derive(Clone, Copy)]
pub enum Said {
    /// It stepped, in this epoch and round, changed something or not, and sends these.
    Stepped(u32, u64, bool, &'static [Update]),
    /// It reports, in this epoch, these.
    Reported(u32, &'static [Value]),
}

/// What comes of a worker.
#[derive(Clone, Copy)]
pub enum Event {
    /// It joins.
    Join(u32),
    /// It asks for a turn.
    Ask(u32),
    /// It answers.
    Answer(u32, Said),
    /// It is lost, since its output ended.
    Lose(u32),
    /// Its supervisor asks the run to stop.
    Halt(u32, Halt),
}

/// What the hub says.
#[derive(Clone, Copy)]
pub enum Says {
    /// Nothing, or that the answer is right.
    Nothing,
    /// What is wrong with the answer.
    Wrong(Foreign),
    /// That this worker is to step, in this epoch and round, with these.
    Step(u32, u32, u64, &'static [Update]),
    /// That this worker is to report, in this epoch.
    Report(u32, u32),
    /// That the worker is to wait.
    Wait,
    /// That all is done.
    Done,
    /// That the run stops.
    Stop(Why),
}

/// What came of an event.
#[derive(Drop)]
enum Came {
    Nothing,
    Wrong(Foreign),
    Turn(Turn),
}

/// The order is a Step for this worker, in this epoch and round, with these.
fn is_step(given: &Given, i: u32, epoch: u32, round: u64, updates: &[Update]) -> bool {
    match given.order() {
        Order::Step {
            epoch: now,
            round: at,
            updates: sent,
        } => given.worker() == i && *now == epoch && *at == round && sent.as_slice() == updates,
        Order::Report { .. } => false,
    }
}

/// The order is a Report for this worker, in this epoch.
fn is_report(given: &Given, i: u32, epoch: u32) -> bool {
    match given.order() {
        Order::Step { .. } => false,
        Order::Report { epoch: now } => given.worker() == i && *now == epoch,
    }
}

/// The turn is what the hub says.
fn is_turn(turn: &Turn, says: Says) -> bool {
    match (turn, says) {
        (Turn::Work(given), Says::Step(i, epoch, round, updates)) => {
            is_step(given, i, epoch, round, updates)
        }
        (Turn::Work(given), Says::Report(i, epoch)) => is_report(given, i, epoch),
        (Turn::Wait, Says::Wait) => true,
        (Turn::Done, Says::Done) => true,
        (Turn::Stop(why), Says::Stop(reason)) => *why == reason,
        _ => false,
    }
}

/// What came is what the hub says.
fn is_said(came: &Came, says: Says) -> bool {
    match (came, says) {
        (Came::Nothing, Says::Nothing) => true,
        (Came::Wrong(foreign), Says::Wrong(fault)) => *foreign == fault,
        (Came::Turn(turn), _) => is_turn(turn, says),
        _ => false,
    }
}

/// A step's answer, where it has values alone.
fn stepped(
    alloc: Global,
    epoch: u32,
    round: u64,
    changed: bool,
    updates: &[Update],
) -> Result<Answer, Fail>
    ensures { IfOk result (λ answer. AnswersValues answer) }
{
    if !updates.iter().all(|u| u.value <= TOP) {
        return Err(Fail::new("no values"));
    }
    let updates = Items::from_vec(updates.to_vec(alloc)?);
    Ok(Answer::Stepped {
        epoch,
        round,
        changed,
        updates,
    })
}

/// A report, where it has values alone.
fn reported(alloc: Global, epoch: u32, values: &[Value]) -> Result<Answer, Fail>
    ensures { IfOk result (λ answer. AnswersValues answer) }
{
    if !values.iter().all(|x| *x <= TOP) {
        return Err(Fail::new("no values"));
    }
    let values = Items::from_vec(values.to_vec(alloc)?);
    Ok(Answer::Reported { epoch, values })
}

/// The answer, where it has values alone.
fn answer_of(alloc: Global, said: Said) -> Result<Answer, Fail>
    ensures { IfOk result (λ answer. AnswersValues answer) }
{
    match said {
        Said::Stepped(epoch, round, changed, updates) => {
            stepped(alloc, epoch, round, changed, updates)
        }
        Said::Reported(epoch, values) => reported(alloc, epoch, values),
    }
}

/// The worker joins, where it is missing and the run goes on.
fn join(hub: &mut Hub, i: u32) -> Result<Came, Fail> {
    if i >= hub.worker_count() || hub.is_live(i) || hub.halted().is_some() {
        return Err(Fail::new("may not join"));
    }
    hub.joined(i);
    Ok(Came::Nothing)
}

/// The worker asks for a turn, where it is live and has answered.
fn ask(hub: &mut Hub, i: u32) -> Result<Came, Fail> {
    if i >= hub.worker_count() || !hub.is_live(i) || hub.has_order(i) {
        return Err(Fail::new("may not ask"));
    }
    let turn = hub.give(i)?;
    Ok(Came::Turn(turn))
}

/// The worker answers, where it has an order.
fn answer(alloc: Global, hub: &mut Hub, i: u32, said: Said) -> Result<Came, Fail> {
    if i >= hub.worker_count() || !hub.has_order(i) {
        return Err(Fail::new("nothing to answer"));
    }
    match hub.took(i, &answer_of(alloc, said)?) {
        Ok(()) => Ok(Came::Nothing),
        Err(foreign) => Ok(Came::Wrong(foreign)),
    }
}

/// The worker is lost, where it is live.
fn lose(hub: &mut Hub, i: u32) -> Result<Came, Fail> {
    if i >= hub.worker_count() || !hub.is_live(i) {
        return Err(Fail::new("not live"));
    }
    hub.lost(i, LossKind::Ended);
    Ok(Came::Nothing)
}

/// The event comes, where it may.
fn happen(alloc: Global, hub: &mut Hub, event: Event) -> Result<Came, Fail> {
    match event {
        Event::Join(i) => join(hub, i),
        Event::Ask(i) => ask(hub, i),
        Event::Answer(i, said) => answer(alloc, hub, i, said),
        Event::Lose(i) => lose(hub, i),
        Event::Halt(i, reason) => {
            hub.halt(i, reason);
            Ok(Came::Nothing)
        }
    }
}

/// A new hub to which all the events came, and which said at each what stands beside it.
pub fn assert_said<R: Abort>(
    rt: &R,
    alloc: Global,
    counting: bool,
    limits: Limits,
    rows: &[(Event, Says)],
) -> Result<Hub, Fail> {
    let mut hub = new_hub(alloc, counting, limits)?;
    for (k, (event, says)) in rows.iter().enumerate() {
        let came = happen(alloc, &mut hub, *event)?;
        assert!(rt; is_said(&came, *says), "row {k}");
    }
    Ok(hub)
}

/// Whether the worker is told that all is done, where it may ask.
#[tactic(auto, using(crate::proofs::Told::done_reported))]
fn is_told_done(hub: &mut Hub, i: u32) -> Result<bool, Fail>
    ensures { IfOk result (λ done. done ≡ true → all_reported hub.new ≡ true) }
{
    if i >= hub.worker_count() || !hub.is_live(i) || hub.has_order(i) {
        return Err(Fail::new("may not ask"));
    }
    match hub.give(i)? {
        Turn::Done => Ok(true),
        Turn::Work(_) | Turn::Wait | Turn::Stop(_) => Ok(false),
    }
}

/// Asserts that all is done, and that these are the values.
pub fn assert_values<R: Abort>(rt: &R, hub: &mut Hub, want: &[Value]) -> Result<(), Fail> {
    if !is_told_done(hub, 0)? {
        return Err(Fail::new("not done"));
    }
    assert_eq!(rt; hub.values(), want);
    Ok(())
}
