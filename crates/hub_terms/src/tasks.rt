//! How far a run may go, and what a worker has to answer.

/// The limits of a run.
#[derive(Clone, Copy, Debug, PartialEq, Eq)]
pub struct Limits {
    /// How many rounds a worker may be ahead of another live one when it is given a Step, at most 16.
    pub lag: u32,
    /// How many rounds beyond the base a worker may step, from 1 to 2^30. The base is the greatest round of a live worker at
    /// the last join.
    pub rounds: u64,
    /// How many losses are allowed, at most 1000. One more stops the run.
    pub losses: u32,
}

/// What a worker has to answer.
#[derive(Clone, Copy, Debug, PartialEq, Eq)]
pub enum Task {
    /// No order is outstanding.
    Nothing,
    /// The outstanding order is a Step.
    Step,
    /// The outstanding order is a Report.
    Report,
}
