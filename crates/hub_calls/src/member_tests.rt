//! Workers that join, step, are lost and report.
ghost use Rattle.std.specs.Prelude.{◌≡◌, ◌<◌, ◌≤◌, OnOk, length};

use hub_terms::Limits;
use membership::Members;
use px_base::LossKind;
use std::process::Abort;
use std::test::Fail;

const LIMITS: Limits = Limits {
    lag: 1,
    rounds: 4,
    losses: 1,
};

/// What comes of a worker: it joins, is given a Step and answers it, is given a Report and answers it, or is lost.
#[derive(Clone, Copy, Debug)]
enum Event {
    Join(u32),
    Step(u32, bool),
    Report(u32),
    Lose(u32),
}

/// The worker is given a Step, where it may step, and answers it.
fn step(members: &mut Members, i: u32, changed: bool) -> Result<(), Fail>
    requires inside { i < length members.old.members }
    ensures count { length members.new.members ≡ length members.old.members }
{
    if members.round(i) > 100 || !members.may_step(i, true) {
        return Err(Fail::new("may not step"));
    }
    members.given(i, true);
    let epoch = members.epoch();
    members.stepped(i, epoch, changed);
    Ok(())
}

/// The worker is given a Report, where all is quiet and it has nothing to answer, and answers it.
fn report(members: &mut Members, i: u32) -> Result<(), Fail>
    requires inside { i < length members.old.members }
    ensures count { length members.new.members ≡ length members.old.members }
{
    if !members.may_step(i, true) || !members.is_quiet(true) {
        return Err(Fail::new("not quiet"));
    }
    members.given(i, false);
    members.reported(i);
    Ok(())
}

/// The worker is lost, where it is live.
fn lose(members: &mut Members, i: u32) -> Result<(), Fail>
    requires inside { i < length members.old.members }
    ensures count { length members.new.members ≡ length members.old.members }
{
    if !members.live(i) || members.epoch() > 100 {
        return Err(Fail::new("not live"));
    }
    let noted = members.losses().is_empty();
    members.lost(i, LossKind::Ended, noted);
    Ok(())
}

/// The event comes, where it may.
fn happen(members: &mut Members, event: Event) -> Result<(), Fail>
    requires { length members.old.members ≡ 2 }
    ensures { length members.new.members ≡ 2 }
{
    let (Event::Join(i) | Event::Step(i, _) | Event::Report(i) | Event::Lose(i)) = event;
    if i >= 2 {
        return Err(Fail::new("no such worker"));
    }
    match event {
        Event::Join(i) if !members.live(i) => members.joined(i),
        Event::Join(_) => return Err(Fail::new("not missing")),
        Event::Step(i, changed) => step(members, i, changed)?,
        Event::Report(i) => report(members, i)?,
        Event::Lose(i) => lose(members, i)?,
    }
    Ok(())
}

/// What is seen of two workers: the epoch and the base, their rounds, whether each may step with an empty inbox, and whether
/// all is quiet.
type Seen = (u32, u64, [u64; 2], [bool; 2], bool);

fn seen(members: &Members) -> Seen
    requires { length members.now.members ≡ 2 }
{
    (
        members.epoch(),
        members.base_round(),
        [members.round(0), members.round(1)],
        [members.may_step(0, false), members.may_step(1, false)],
        members.is_quiet(true),
    )
}

const ROWS: [(Event, Seen); 10] = [
    (Event::Join(0), (1, 0, [0, 0], [true, false], false)),
    (Event::Join(1), (1, 0, [0, 0], [true, true], false)),
    (Event::Step(0, true), (1, 0, [1, 0], [true, true], false)),
    (Event::Step(0, true), (1, 0, [2, 0], [false, true], false)),
    (Event::Lose(1), (2, 0, [2, 0], [true, false], false)),
    (Event::Join(1), (2, 2, [2, 2], [true, true], false)),
    (Event::Step(0, false), (2, 2, [3, 2], [false, true], false)),
    (Event::Step(1, false), (2, 2, [3, 3], [false, false], true)),
    (Event::Report(0), (2, 2, [3, 3], [false, false], true)),
    (Event::Report(1), (2, 2, [3, 3], [false, false], true)),
];

/// Asserts that all the events leave what stands beside them.
fn assert_left<R: Abort>(rt: &R, members: &mut Members) -> Result<(), Fail>
    requires { length members.old.members ≡ 2 }
{
    for row in ROWS {
        let (event, want) = row;
        happen(members, event)?;
        assert_eq!(rt; seen(members), want, "{event:?}");
    }
    Ok(())
}

/// One worker runs ahead by the lag, the other is lost and joins at its round, and both come to rest and report.
#[test]
fn two_workers_and_a_loss(rt: HostRuntime) -> Result<(), Fail> {
    let mut members = Members::new(rt.alloc(), 2, LIMITS)?;
    assert_left(&rt, &mut members)?;
    assert!(&rt; !members.is_quiet(false));
    assert_eq!(&rt; members.losses().len(), 1);
    Ok(())
}
