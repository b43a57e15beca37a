//! Orders, answers, and how a worker can be lost.
use crate::items::Items;
use crate::memory::Memory;
use crate::{Pos, Value};

/// A vertex, and a number that is told of it: its core value, or, where a program counts, by how much its count falls.
#[derive(Clone, Copy, Debug, PartialEq, Eq)]
pub struct Update {
    /// The vertex.
    pub vertex: Pos,
    /// The number.
    pub value: Value,
}

/// What the hub asks of a worker.
#[derive(Debug, PartialEq, Eq, Drop)]
pub enum Order {
    /// Take the updates, and renew the masters once.
    Step {
        /// 1 plus the number of losses so far.
        epoch: u32,
        /// The number of the round.
        round: u64,
        /// What other workers tell, by rising vertex.
        updates: Items<Update>,
    },
    /// Say the values of all masters.
    Report {
        /// 1 plus the number of losses so far.
        epoch: u32,
    },
}

/// What a worker answers.
#[derive(Debug, PartialEq, Eq, Drop)]
pub enum Answer {
    /// A step is done.
    Stepped {
        /// The epoch of the order.
        epoch: u32,
        /// The round of the order.
        round: u64,
        /// Whether a master has another value.
        changed: bool,
        /// What the worker tells others, by rising vertex.
        updates: Items<Update>,
    },
    /// The values of all masters.
    Reported {
        /// The epoch of the order.
        epoch: u32,
        /// A core value for each master.
        values: Items<Value>,
    },
}

/// What an answer says of the order that it answers. A report has round 0.
#[derive(Clone, Copy, Debug, PartialEq, Eq)]
pub struct Header {
    /// The kind of the frame.
    pub kind: u8,
    /// The epoch that the answer names.
    pub epoch: u32,
    /// The round that it names.
    pub round: u64,
}

/// Why a right frame is no answer to the order.
#[derive(Clone, Copy, Debug, PartialEq, Eq)]
pub enum Foreign {
    /// It answers another order.
    Unordered {
        /// The answer that is due.
        due: Header,
        /// The answer that came.
        got: Header,
    },
    /// It tells of a vertex that this worker has nothing to tell of.
    Vertex {
        /// The first such vertex.
        vertex: Pos,
    },
    /// It reports another number of values than the worker has masters.
    Short {
        /// How many masters the worker has.
        due: u32,
        /// How many values came.
        got: u64,
    },
}

/// Why what a worker sent is no answer.
#[derive(Clone, Copy, Debug, PartialEq, Eq)]
pub enum Broken {
    /// The bytes begin with no frame.
    Torn {
        /// How many bytes of whole frames stand before them.
        at: u64,
    },
    /// A frame came that is no answer.
    Other {
        /// Its kind.
        kind: u8,
    },
    /// An answer came that isn't the one to the order.
    Foreign(Foreign),
}

/// How a worker was lost.
#[derive(Clone, Copy, Debug, PartialEq, Eq)]
pub enum LossKind {
    /// Its link ended.
    Ended,
    /// What it sent is no answer.
    Broke(Broken),
}

/// The loss of a worker.
#[derive(Clone, Copy, Debug, PartialEq, Eq)]
pub struct Loss {
    /// The worker's number.
    pub worker: u32,
    /// The epoch in which it was lost.
    pub epoch: u32,
    /// How it was lost.
    pub kind: LossKind,
}

/// Why a world refuses an order.
#[derive(Clone, Copy, Debug, PartialEq, Eq)]
pub enum StepFault {
    /// The order isn't of the world's epoch.
    WrongEpoch {
        /// The world's epoch.
        had: u32,
        /// The order's epoch.
        got: u32,
    },
    /// An update is of a vertex that the world isn't told of.
    Foreign {
        /// The first such vertex.
        vertex: Pos,
    },
    /// Want of memory.
    Memory,
}

impl From<Memory> for StepFault {
    ghost use Rattle.std.specs.Prelude.{◌≡◌};
    ghost use Rattle.px_base.specs.declared.wire.StepFault.TheVariants as fault;

    ghost from_gives = { λ _ e. e ≡ fault.Memory };

    fn from(_e: Memory) -> StepFault {
        StepFault::Memory
    }
}
