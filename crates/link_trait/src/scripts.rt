//! Losses and refused starts that are scripted for a nursery in memory. The numbers of links and starts go on from one lending to
//! the next, and begin anew when scripts are put.

/// When a link ends.
#[derive(Clone, Copy, Debug, PartialEq, Eq)]
pub enum Moment {
    /// In place of its answer to the call with this number, counted from 1.
    Call(u32),
    /// In place of its answer to its first Report.
    Report,
}

/// A loss: this link of this worker ends at this moment.
#[derive(Clone, Copy, Debug, PartialEq, Eq)]
pub struct Scripted {
    /// The number of the worker, counted from 0.
    pub worker: u32,
    /// The number of the link among those of the worker, counted from 0.
    pub link: u32,
    /// When the link ends.
    pub moment: Moment,
}

/// A start of this worker that is refused.
#[derive(Clone, Copy, Debug, PartialEq, Eq)]
pub struct Refusal {
    /// The number of the worker, counted from 0.
    pub worker: u32,
    /// The number of the start among those of the worker, counted from 1.
    pub start: u32,
}
