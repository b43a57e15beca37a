//! Orders as a hub gives them: the first Step of a worker, and a Report once all is quiet.
ghost use Rattle.std.specs.Prelude.{◌≡◌, true, [], All, IfOk, length, ◌≤◌};
ghost use Rattle.px_base.specs.Graphs.{RowsFit};
ghost use Rattle.px_base.specs.Parts.{IsWorkerCuts, part_count};
ghost use Rattle.list_laws.specs.Routes.{AreRoutes};
ghost use Rattle.link_calls.specs.Asked.{first_report, first_step};
ghost use Rattle.hub_terms.specs.Systems.{AnswersValues};

use hub_terms::Limits;
use partitioner::{Cuts, RouteTable, cut, routes};
use px_base::{Answer, Items, Order, ReadGraph, Rows, Update};
use recovery::{Given, Hub, Turn};
use std::alloc::Global;
use std::test::Fail;

/// A graph of no vertices.
fn no_graph(alloc: Global) -> ReadGraph
    ensures size { result.n ≡ 0 }
    ensures rows { result.rows ≡ [] }
{
    ReadGraph {
        n: 0,
        rows: Rows::new(alloc),
        degrees: Items::from_vec(Vec::new(alloc)),
    }
}

/// The routes of a graph of no vertices: none.
fn no_routes(alloc: Global, cuts: &Cuts) -> Result<RouteTable, Fail>
    requires { IsWorkerCuts 0 cuts.now.ends }
    ensures { IfOk result (λ routes. routes.to ≡ []) }
{
    let graph = no_graph(alloc);
    let table = routes(alloc, &graph, cuts)?;
    Ok(table)
}

/// A hub of two workers, for a graph of no vertices.
fn new_hub(alloc: Global) -> Result<Hub, Fail> {
    let cuts = cut(alloc, 0, 2)?;
    let routes = no_routes(alloc, &cuts)?;
    let limits = Limits {
        lag: 0,
        rounds: 8,
        losses: 0,
    };
    let hub = Hub::new(alloc, routes, cuts, false, limits)?;
    Ok(hub)
}

/// Worker `i` joins, where it may.
fn join(hub: &mut Hub, i: u32) -> Result<(), Fail> {
    if i >= hub.worker_count() || hub.is_live(i) || hub.halted().is_some() {
        return Err(Fail::new("no join"));
    }
    hub.joined(i);
    Ok(())
}

/// Worker `i` asks for its turn, where it may.
fn ask(hub: &mut Hub, i: u32) -> Result<Turn, Fail> {
    if i >= hub.worker_count() || !hub.is_live(i) || hub.has_order(i) {
        return Err(Fail::new("no turn"));
    }
    let turn = hub.give(i)?;
    Ok(turn)
}

/// Worker `i` has answered that nothing changed, where it was asked.
fn answer(hub: &mut Hub, alloc: Global, i: u32) -> Result<(), Fail> {
    if i >= hub.worker_count() || !hub.has_order(i) {
        return Err(Fail::new("no order"));
    }
    let none: Vec<Update> = Vec::new(alloc);
    let still = Answer::Stepped {
        epoch: 1,
        round: 0,
        changed: false,
        updates: Items::from_vec(none),
    };
    match hub.took(i, &still) {
        Ok(()) => Ok(()),
        Err(_) => Err(Fail::new("not taken")),
    }
}

/// The order is the first Step of worker `i`.
fn is_first_step(given: &Given, i: u32) -> bool
    ensures { result ≡ true → (given.now.worker ≡ i) × (given.now.order ≡ first_step) }
{
    match given.order() {
        Order::Step {
            epoch,
            round,
            updates,
        } => given.worker() == i && *epoch == 1 && *round == 0 && updates.as_slice().is_empty(),
        Order::Report { .. } => false,
    }
}

/// The order is a Report of the first epoch, for worker `i`.
fn is_first_report(given: &Given, i: u32) -> bool
    ensures { result ≡ true → (given.now.worker ≡ i) × (given.now.order ≡ first_report) }
{
    match given.order() {
        Order::Step { .. } => false,
        Order::Report { epoch } => given.worker() == i && *epoch == 1,
    }
}

/// The first Step of worker `i`.
pub fn step_for(alloc: Global, i: u32) -> Result<Given, Fail>
    ensures worker { IfOk result (λ given. given.worker ≡ i) }
    ensures order { IfOk result (λ given. given.order ≡ first_step) }
{
    let mut hub = new_hub(alloc)?;
    join(&mut hub, i)?;
    match ask(&mut hub, i)? {
        Turn::Work(given) => {
            if is_first_step(&given, i) {
                Ok(given)
            } else {
                Err(Fail::new("another order"))
            }
        }
        _ => Err(Fail::new("no order")),
    }
}

/// A Report for worker `i`, once both workers have stepped.
pub fn report_for(alloc: Global, i: u32) -> Result<Given, Fail>
    ensures worker { IfOk result (λ given. given.worker ≡ i) }
    ensures order { IfOk result (λ given. given.order ≡ first_report) }
{
    let mut hub = new_hub(alloc)?;
    for j in 0..2 {
        join(&mut hub, j)?;
    }
    for j in 0..2 {
        ask(&mut hub, j)?;
        answer(&mut hub, alloc, j)?;
    }
    match ask(&mut hub, i)? {
        Turn::Work(given) => {
            if is_first_report(&given, i) {
                Ok(given)
            } else {
                Err(Fail::new("another order"))
            }
        }
        _ => Err(Fail::new("no order")),
    }
}
