//! Why no edge list was read.
use px_base::Memory;
use std::alloc::AllocFailed;

/// Why no edge list was read. A line's number counts from 1.
#[derive(Clone, Copy, Debug, PartialEq, Eq)]
pub enum EdgeFault {
    /// The line has one field alone.
    Missing { line: u64 },
    /// An end is no number below `ID_LIMIT`.
    BadId { line: u64 },
    /// The weight is no number below `WEIGHT_LIMIT`.
    BadWeight { line: u64 },
    /// There are more than `MOST_VERTICES` vertices.
    TooManyVertices,
    /// There are more than `MOST_EDGES` edge lines.
    TooManyEdges,
    /// There are 2^32 bytes or more.
    TooLong,
    /// The source failed.
    ReadFault,
    /// Memory was wanting.
    Memory,
}

impl From<Memory> for EdgeFault {
    ghost use Rattle.std.specs.Prelude.{◌≡◌};
    ghost use Rattle.edge_reader.specs.declared.fault.EdgeFault.TheVariants as kind;

    ghost from_gives = { λ _ e. e ≡ kind.Memory };

    fn from(_want: Memory) -> EdgeFault {
        EdgeFault::Memory
    }
}

impl<T: Drop> From<AllocFailed<T>> for EdgeFault {
    ghost use Rattle.std.specs.Prelude.{◌≡◌};
    ghost use Rattle.edge_reader.specs.declared.fault.EdgeFault.TheVariants as kind;

    ghost from_gives = { λ _ e. e ≡ kind.Memory };

    fn from(_want: AllocFailed<T>) -> EdgeFault {
        EdgeFault::Memory
    }
}
