//! What a nursery in memory counts for each worker.
ghost use Rattle.std.specs.Prelude.{◌≡◌, replicate};

/// What came back with the spawners of one worker.
#[derive(Clone, Copy, Debug, PartialEq, Eq)]
pub struct WorkerCounts {
    /// All starts.
    pub starts: u64,
    /// All starts that were refused.
    pub faults: u64,
    /// All ends of links.
    pub ends: u64,
    /// The starts since the scripts were put.
    pub starts_since: u64,
    /// The links since the scripts were put.
    pub links_since: u64,
}

/// How many workers a nursery counts for.
pub const WORKERS: usize = 64;

/// The counts of all workers before anything came back.
pub fn no_counts() -> [WorkerCounts; WORKERS]
    ensures { result ≡ replicate 64 (record { starts = 0; faults = 0; ends = 0; starts_since = 0; links_since = 0 }) }
{
    let none = WorkerCounts {
        starts: 0,
        faults: 0,
        ends: 0,
        starts_since: 0,
        links_since: 0,
    };
    [none; WORKERS]
}
