//! Turns, answers, losses and reasons to stop, over the graph of four vertices in two parts.
use crate::hub_events::Event::{self, Answer, Ask, Join, Lose};
use crate::hub_events::Said::{Reported, Stepped};
use crate::hub_events::Says::{self, Done, Nothing, Report, Step, Stop, Wait, Wrong};
use crate::hub_events::{assert_said, assert_values};
use hub_terms::{Halt, Limits, Why};
use px_base::{Foreign, Header, Loss, LossKind, TOP, Update};
use std::test::Fail;

/// Five rounds and no loss, where no worker runs ahead.
const NO_LOSS: Limits = Limits {
    lag: 0,
    rounds: 5,
    losses: 0,
};

/// The same with one loss.
const ONE_LOSS: Limits = Limits {
    lag: 0,
    rounds: 5,
    losses: 1,
};

/// The same with one round.
const ONE_ROUND: Limits = Limits {
    lag: 0,
    rounds: 1,
    losses: 0,
};

/// The header of the answer to the first Step.
const FIRST: Header = Header {
    kind: 9,
    epoch: 1,
    round: 0,
};

/// The header of an answer that is a round too far.
const FURTHER: Header = Header {
    kind: 9,
    epoch: 1,
    round: 1,
};

/// The header of a report.
const REPORT: Header = Header {
    kind: 10,
    epoch: 1,
    round: 0,
};

/// Both masters of worker 0.
const MASTERS: &[Update] = &[
    Update {
        vertex: 0,
        value: 0,
    },
    Update {
        vertex: 1,
        value: 4,
    },
];

/// A master of worker 0, its mirror, and a vertex of which it knows nothing.
const MIRROR: &[Update] = &[
    Update {
        vertex: 0,
        value: 0,
    },
    Update {
        vertex: 2,
        value: 1,
    },
    Update {
        vertex: 3,
        value: 1,
    },
];

/// Worker 0 is lost in the first epoch, since its output ended.
const FIRST_LOSS: [Loss; 1] = [Loss {
    worker: 0,
    epoch: 1,
    kind: LossKind::Ended,
}];

const WRONG_ANSWERS: [(Event, Says); 10] = [
    (Join(0), Nothing),
    (Ask(0), Step(0, 1, 0, &[])),
    (
        Answer(0, Stepped(1, 1, true, MIRROR)),
        Wrong(Foreign::Unordered {
            due: FIRST,
            got: FURTHER,
        }),
    ),
    (
        Answer(0, Reported(1, &[0, 0])),
        Wrong(Foreign::Unordered {
            due: FIRST,
            got: REPORT,
        }),
    ),
    (
        Answer(0, Stepped(1, 0, true, MIRROR)),
        Wrong(Foreign::Vertex { vertex: 2 }),
    ),
    (Answer(0, Stepped(1, 0, true, MASTERS)), Nothing),
    (Ask(0), Step(0, 1, 1, &[])),
    (Join(1), Nothing),
    (Lose(0), Nothing),
    (Ask(1), Stop(Why::TooManyLosses)),
];

/// What is wrong with an answer, its header first, and that it leaves the order as it was. Then one loss too many.
#[test]
fn wrong_answers_and_a_loss(rt: HostRuntime) -> Result<(), Fail> {
    let hub = assert_said(&rt, rt.alloc(), false, NO_LOSS, &WRONG_ANSWERS)?;
    assert_eq!(&rt; hub.halted(), Some(Why::TooManyLosses));
    assert_eq!(&rt; hub.base_round(), 1);
    assert_eq!(&rt; hub.losses(), FIRST_LOSS.as_slice());
    Ok(())
}

/// A value of the vertex that worker 1 has and worker 0 mirrors.
const SEVEN: &[Update] = &[Update {
    vertex: 2,
    value: 7,
}];

const OLDER_ANSWER: [(Event, Says); 9] = [
    (Join(0), Nothing),
    (Join(1), Nothing),
    (Ask(0), Step(0, 1, 0, &[])),
    (Ask(1), Step(1, 1, 0, &[])),
    (Lose(0), Nothing),
    (Answer(1, Stepped(1, 0, true, SEVEN)), Nothing),
    (Join(0), Nothing),
    (Ask(0), Step(0, 2, 1, &[])),
    (Ask(1), Step(1, 2, 1, &[])),
];

/// A worker answers a Step of the epoch before: it counts as a round, and what it sends goes nowhere.
#[test]
fn an_older_answer(rt: HostRuntime) -> Result<(), Fail> {
    let hub = assert_said(&rt, rt.alloc(), false, ONE_LOSS, &OLDER_ANSWER)?;
    assert_eq!(&rt; hub.halted(), None);
    assert_eq!(&rt; hub.base_round(), 1);
    assert_eq!(&rt; hub.losses(), FIRST_LOSS.as_slice());
    Ok(())
}

const JOIN_BEFORE: [(Event, Says); 17] = [
    (Join(0), Nothing),
    (Join(1), Nothing),
    (Ask(0), Step(0, 1, 0, &[])),
    (Ask(1), Step(1, 1, 0, &[])),
    (Answer(0, Stepped(1, 0, true, &[])), Nothing),
    (Ask(0), Wait),
    (Answer(1, Stepped(1, 0, true, SEVEN)), Nothing),
    (Ask(0), Step(0, 1, 1, SEVEN)),
    (Ask(1), Step(1, 1, 1, &[])),
    (Lose(0), Nothing),
    (Join(0), Nothing),
    (Ask(0), Step(0, 2, 1, &[])),
    (Answer(1, Stepped(1, 1, true, SEVEN)), Nothing),
    (Ask(1), Wait),
    (Answer(0, Stepped(2, 1, false, &[])), Nothing),
    (Ask(0), Wait),
    (Ask(1), Step(1, 2, 2, &[])),
];

/// A worker joins before the other one answers its Step of the epoch before: it stands a round behind, and steps alone until it
/// has come up.
#[test]
fn a_join_before_an_older_answer(rt: HostRuntime) -> Result<(), Fail> {
    let hub = assert_said(&rt, rt.alloc(), false, ONE_LOSS, &JOIN_BEFORE)?;
    assert_eq!(&rt; hub.halted(), None);
    assert_eq!(&rt; hub.base_round(), 1);
    Ok(())
}

const REPORTS: [(Event, Says); 13] = [
    (Join(0), Nothing),
    (Join(1), Nothing),
    (Ask(0), Step(0, 1, 0, &[])),
    (Ask(1), Step(1, 1, 0, &[])),
    (Answer(0, Stepped(1, 0, false, &[])), Nothing),
    (Answer(1, Stepped(1, 0, false, &[])), Nothing),
    (Ask(0), Report(0, 1)),
    (
        Answer(0, Reported(1, &[0])),
        Wrong(Foreign::Short { due: 2, got: 1 }),
    ),
    (Answer(0, Reported(1, &[0, 4])), Nothing),
    (Ask(0), Wait),
    (Ask(1), Report(1, 1)),
    (Answer(1, Reported(1, &[1, TOP])), Nothing),
    (Ask(1), Done),
];

/// Both workers come to rest and report, one of them first too little.
#[test]
fn reports(rt: HostRuntime) -> Result<(), Fail> {
    let mut hub = assert_said(&rt, rt.alloc(), false, NO_LOSS, &REPORTS)?;
    assert_values(&rt, &mut hub, [0, 4, 1, TOP].as_slice())
}

/// A value of a vertex that worker 1 mirrors.
const FOUR: &[Update] = &[Update {
    vertex: 1,
    value: 4,
}];

/// Two masters of worker 1, of which nobody mirrors the second.
const UNREAD: &[Update] = &[
    Update {
        vertex: 2,
        value: 1,
    },
    Update {
        vertex: 3,
        value: 1,
    },
];

const WAITING: [(Event, Says); 11] = [
    (Join(0), Nothing),
    (Join(1), Nothing),
    (Ask(0), Step(0, 1, 0, &[])),
    (Ask(1), Step(1, 1, 0, &[])),
    (
        Answer(1, Stepped(1, 0, false, UNREAD)),
        Wrong(Foreign::Vertex { vertex: 3 }),
    ),
    (Answer(1, Stepped(1, 0, false, &[])), Nothing),
    (Answer(0, Stepped(1, 0, false, FOUR)), Nothing),
    (Ask(0), Wait),
    (Ask(1), Step(1, 1, 1, FOUR)),
    (Answer(1, Stepped(1, 1, false, &[])), Nothing),
    (Ask(0), Report(0, 1)),
];

/// No worker changed anything, but an update waits: only when it is taken is all quiet.
#[test]
fn an_update_that_waits(rt: HostRuntime) -> Result<(), Fail> {
    assert_said(&rt, rt.alloc(), false, NO_LOSS, &WAITING)?;
    Ok(())
}

/// A delta of 0 for a vertex that worker 0 mirrors and worker 1 has.
const ZERO: &[Update] = &[Update {
    vertex: 2,
    value: 0,
}];

/// Deltas for both mirrors of worker 1, for one of them twice.
const DELTAS: &[Update] = &[
    Update {
        vertex: 1,
        value: 2,
    },
    Update {
        vertex: 0,
        value: 1,
    },
    Update {
        vertex: 1,
        value: 3,
    },
];

/// The sums of these, by rising vertex.
const SUMS: &[Update] = &[
    Update {
        vertex: 0,
        value: 1,
    },
    Update {
        vertex: 1,
        value: 5,
    },
];

const COUNTS: [(Event, Says); 8] = [
    (Join(0), Nothing),
    (Join(1), Nothing),
    (Ask(0), Step(0, 1, 0, &[])),
    (Answer(0, Stepped(1, 0, true, ZERO)), Nothing),
    (Ask(1), Step(1, 1, 0, ZERO)),
    (
        Answer(1, Stepped(1, 0, false, ZERO)),
        Wrong(Foreign::Vertex { vertex: 2 }),
    ),
    (Answer(1, Stepped(1, 0, false, DELTAS)), Nothing),
    (Ask(0), Step(0, 1, 1, SUMS)),
];

/// Where the program counts, a worker sends deltas of its mirrors, of 0 too, to their owner.
#[test]
fn deltas(rt: HostRuntime) -> Result<(), Fail> {
    assert_said(&rt, rt.alloc(), true, NO_LOSS, &COUNTS)?;
    Ok(())
}

const HALTS: [(Event, Says); 5] = [
    (Join(1), Nothing),
    (Event::Halt(0, Halt::NoReplacement), Nothing),
    (Event::Halt(1, Halt::Memory), Nothing),
    (Ask(1), Stop(Why::NoReplacement { worker: 0 })),
    (Lose(1), Nothing),
];

/// The first reason to stop stays, and no loss is noted any more.
#[test]
fn the_first_halt(rt: HostRuntime) -> Result<(), Fail> {
    let hub = assert_said(&rt, rt.alloc(), false, NO_LOSS, &HALTS)?;
    assert_eq!(&rt; hub.halted(), Some(Why::NoReplacement { worker: 0 }));
    assert!(&rt; hub.losses().is_empty());
    Ok(())
}

const SPENT: [(Event, Says); 8] = [
    (Join(0), Nothing),
    (Join(1), Nothing),
    (Ask(0), Step(0, 1, 0, &[])),
    (Ask(1), Step(1, 1, 0, &[])),
    (Answer(0, Stepped(1, 0, true, &[])), Nothing),
    (Ask(0), Wait),
    (Answer(1, Stepped(1, 0, true, &[])), Nothing),
    (Ask(1), Stop(Why::Budget)),
];

/// The rounds are used up once both workers have answered.
#[test]
fn no_round_left(rt: HostRuntime) -> Result<(), Fail> {
    let hub = assert_said(&rt, rt.alloc(), false, ONE_ROUND, &SPENT)?;
    assert_eq!(&rt; hub.halted(), Some(Why::Budget));
    Ok(())
}
