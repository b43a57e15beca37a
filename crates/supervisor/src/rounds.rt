//! Turns of all workers, again and again.
ghost use Rattle.std.specs.Prelude.{◌≡◌, map, None, MatchBool};
ghost use Rattle.std.specs.Option.{option_map};
ghost use Rattle.driver_laws.specs.Seats.{IsInTune, marks_of};
ghost use Rattle.driver_laws.specs.Turns.{IsNearer, IsOver, IsSameRun};
ghost use Rattle.supervisor.specs.Teams.{IsTeamOf};

use crate::team::Team;
use crate::turns::turn_at;
use link_trait::Spawner;
use std::sync::Wait;
use std::thread::Threads;
use system_core::System;

/// One turn of each worker, in rising order, until the run is over. Whether it is.
fn round<S: Spawner, R: Threads + Wait + Sync>(
    rt: &R,
    team: &Team,
    system: &mut System,
    spawners: &mut Vec<S>,
    links: &mut Vec<Option<S::L>>,
) -> bool
    requires team { IsTeamOf team.now system.old }
    requires free { system.old.hub.halt ≡ None }
    requires tune { IsInTune system.old (map S.shown spawners.old.items) (map (option_map S.L.shown) links.old.items) }
    ensures run { IsSameRun system.old system.new }
    ensures tune { IsInTune system.new (map S.shown spawners.new.items) (map (option_map S.L.shown) links.new.items) }
    ensures marks { marks_of (map S.shown spawners.new.items) ≡ marks_of (map S.shown spawners.old.items) }
    ensures went { MatchBool result (IsOver system.new) (IsNearer system.old system.new) }
{
    system.known();
    for i in 0..system.worker_count() {
        let spawner = &mut spawners[i as usize];
        let link = &mut links[i as usize];
        if turn_at(rt, i, team, system, spawner, link) {
            return true;
        }
    }
    false
}

/// Rounds of all workers, until the run is over. Each leaves fewer joins, losses, rounds and reports to come.
pub fn rounds<S: Spawner, R: Threads + Wait + Sync>(
    rt: &R,
    team: &Team,
    system: &mut System,
    spawners: &mut Vec<S>,
    links: &mut Vec<Option<S::L>>,
)
    requires team { IsTeamOf team.now system.old }
    requires free { system.old.hub.halt ≡ None }
    requires tune { IsInTune system.old (map S.shown spawners.old.items) (map (option_map S.L.shown) links.old.items) }
    ensures run { IsSameRun system.old system.new }
    ensures tune { IsInTune system.new (map S.shown spawners.new.items) (map (option_map S.L.shown) links.new.items) }
    ensures marks { marks_of (map S.shown spawners.new.items) ≡ marks_of (map S.shown spawners.old.items) }
    ensures over { IsOver system.new }
{
    while !round(rt, team, system, spawners, links) {}
}
