//! One turn of one worker.
ghost use Rattle.std.specs.Prelude.{◌≡◌, ◌<◌, true, is_some, None, MatchBool};
ghost use Rattle.std.specs.Option.{option_map};
ghost use Rattle.px_base.specs.declared.wire.LossKind.{LossKind as LossKindData};
ghost use Rattle.hub_terms.specs.Hubs.{order_at, worker_at, worker_count};
ghost use Rattle.hub_terms.specs.Systems.{lost, state_after};
ghost use Rattle.link_trait.specs.Spawners.{IsLinkOf, discarded};
ghost use Rattle.system_core.specs.Promises.{IsHandedOut};
ghost use Rattle.driver_laws.specs.Seats.{Fits, IsLinked, IsMissing};
ghost use Rattle.driver_laws.specs.Turns.{GoesOn, IsOver, IsReply, IsTurn};
ghost use Rattle.supervisor.specs.Teams.{IsTeamOf};

use crate::team::Team;
use link_trait::{Link, LinkFault, Spawner, StartFault};
use px_base::{Broken, LossKind, Memory};
use recovery::{Given, Halt, Turn};
use std::sync::Wait;
use std::thread::Threads;
use system_core::System;

/// Worker `i` is lost, and its link with it. Whether the run is over.
fn lose<S: Spawner>(
    i: u32,
    kind: LossKind,
    system: &mut System,
    spawner: &mut S,
    link: S::L,
) -> bool
    requires inside { i < worker_count system.old.hub }
    requires live { (worker_at system.old.hub i).live ≡ true }
    requires link { IsLinkOf (S.shown spawner.old) (S.L.shown link) }
    ensures lost { system.new ≡ state_after system.old (lost i kind) }
    ensures spawner { S.shown spawner.new ≡ discarded (S.shown spawner.old) (S.L.shown link) }
    ensures over { result ≡ is_some system.new.hub.halt }
{
    spawner.discard(link);
    system.lost(i, kind);
    system.halted().is_some()
}

/// Hands worker `i` its order, and takes its answer, or its loss. Whether the run is over.
fn work_at<S: Spawner, R: Threads + Wait + Sync>(
    rt: &R,
    i: u32,
    given: Given,
    system: &mut System,
    spawner: &mut S,
    link: &mut Option<S::L>,
    mut own: S::L,
) -> bool
    requires inside { i < worker_count system.old.hub }
    requires free { system.old.hub.halt ≡ None }
    requires given { IsHandedOut system.old i given }
    requires fits { IsLinked system.old i (S.shown spawner.old) (S.L.shown own) }
    requires none { link.old ≡ None }
    ensures reply { IsReply i system.old system.new }
    ensures idle { order_at system.new.hub i ≡ None }
    ensures fits { Fits system.new i (S.shown spawner.new) (option_map S.L.shown link.new) }
    ensures mark { (S.shown spawner.new).lent_as ≡ (S.shown spawner.old).lent_as }
    ensures went { MatchBool result (IsOver system.new) (system.new.hub.halt ≡ None) }
{
    system.known();
    match own.call(rt, given) {
        Ok(answer) => match system.took(i, &answer) {
            Ok(()) => {
                *link = Some(own);
                false
            }
            Err(foreign) => {
                let kind = LossKind::Broke(Broken::Foreign(foreign));
                lose(i, kind, system, spawner, own)
            }
        },
        Err(LinkFault::Ended) => lose(i, LossKind::Ended, system, spawner, own),
        Err(LinkFault::Broke(fault)) => lose(i, LossKind::Broke(fault), system, spawner, own),
        Err(LinkFault::Memory) => {
            system.halt(i, Halt::Memory);
            lose(i, LossKind::Ended, system, spawner, own)
        }
    }
}

/// A turn of live worker `i`. Whether the run is over.
fn ask_at<S: Spawner, R: Threads + Wait + Sync>(
    rt: &R,
    i: u32,
    system: &mut System,
    spawner: &mut S,
    link: &mut Option<S::L>,
    own: S::L,
) -> bool
    requires inside { i < worker_count system.old.hub }
    requires free { system.old.hub.halt ≡ None }
    requires idle { order_at system.old.hub i ≡ None }
    requires fits { IsLinked system.old i (S.shown spawner.old) (S.L.shown own) }
    requires none { link.old ≡ None }
    ensures turn { IsTurn i system.old system.new }
    ensures fits { Fits system.new i (S.shown spawner.new) (option_map S.L.shown link.new) }
    ensures mark { (S.shown spawner.new).lent_as ≡ (S.shown spawner.old).lent_as }
    ensures went { MatchBool result (IsOver system.new) (GoesOn i system.old system.new) }
{
    system.known();
    match system.give(i) {
        Ok(Turn::Work(given)) => work_at(rt, i, given, system, spawner, link, own),
        Ok(Turn::Wait) => {
            *link = Some(own);
            false
        }
        Ok(Turn::Done) => {
            *link = Some(own);
            true
        }
        Ok(Turn::Stop(_)) => {
            *link = Some(own);
            true
        }
        Err(Memory) => {
            system.halt(i, Halt::Memory);
            *link = Some(own);
            true
        }
    }
}

/// A turn of missing worker `i`: it is started. Whether the run is over.
fn start_at<S: Spawner, R: Threads + Wait + Sync>(
    rt: &R,
    i: u32,
    team: &Team,
    system: &mut System,
    spawner: &mut S,
    link: &mut Option<S::L>,
) -> bool
    requires inside { i < worker_count system.old.hub }
    requires team { IsTeamOf team.now system.old }
    requires free { system.old.hub.halt ≡ None }
    requires idle { order_at system.old.hub i ≡ None }
    requires fits { IsMissing system.old i (S.shown spawner.old) }
    requires none { link.old ≡ None }
    ensures turn { IsTurn i system.old system.new }
    ensures fits { Fits system.new i (S.shown spawner.new) (option_map S.L.shown link.new) }
    ensures mark { (S.shown spawner.new).lent_as ≡ (S.shown spawner.old).lent_as }
    ensures went { MatchBool result (IsOver system.new) (GoesOn i system.old system.new) }
{
    system.known();
    let part = &team.parts.as_slice()[i as usize];
    match spawner.start(rt, part, &team.core, team.chunks) {
        Ok(started) => {
            system.joined(i);
            *link = Some(started);
            false
        }
        Err(StartFault::Refused) => {
            system.halt(i, Halt::NoReplacement);
            true
        }
        Err(StartFault::Memory) => {
            system.halt(i, Halt::Memory);
            true
        }
    }
}

/// A turn of worker `i`: a missing one is started, and a live one is given an order, where there is one for it. Whether the run is
/// over. A worker that has nothing to do costs no memory.
pub fn turn_at<S: Spawner, R: Threads + Wait + Sync>(
    rt: &R,
    i: u32,
    team: &Team,
    system: &mut System,
    spawner: &mut S,
    link: &mut Option<S::L>,
) -> bool
    requires inside { i < worker_count system.old.hub }
    requires team { IsTeamOf team.now system.old }
    requires free { system.old.hub.halt ≡ None }
    requires idle { order_at system.old.hub i ≡ None }
    requires fits { Fits system.old i (S.shown spawner.old) (option_map S.L.shown link.old) }
    ensures turn { IsTurn i system.old system.new }
    ensures fits { Fits system.new i (S.shown spawner.new) (option_map S.L.shown link.new) }
    ensures mark { (S.shown spawner.new).lent_as ≡ (S.shown spawner.old).lent_as }
    ensures went { MatchBool result (IsOver system.new) (GoesOn i system.old system.new) }
{
    match link.take() {
        Some(own) => ask_at(rt, i, system, spawner, link, own),
        None => start_at(rt, i, team, system, spawner, link),
    }
}
