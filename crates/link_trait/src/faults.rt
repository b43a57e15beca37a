//! Why a call of a link or a start has no answer.

use px_base::{Broken, Memory};

/// Why a link didn't answer.
#[derive(Clone, Copy, Debug, PartialEq, Eq)]
pub enum LinkFault {
    /// The link ended before its answer was whole.
    Ended,
    /// What came isn't an answer. It carries the fault of the frame that was refused.
    Broke(Broken),
    /// There wasn't enough memory.
    Memory,
}

/// Why no link was started.
#[derive(Clone, Copy, Debug, PartialEq, Eq)]
pub enum StartFault {
    /// The worker couldn't be started, or couldn't be given its part.
    Refused,
    /// There wasn't enough memory.
    Memory,
}

impl From<Memory> for LinkFault {
    ghost use Rattle.std.specs.Prelude.{◌≡◌};
    ghost use Rattle.link_trait.specs.declared.faults.LinkFault.TheVariants as fault;

    ghost from_gives = { λ _ e. e ≡ fault.Memory };

    fn from(_e: Memory) -> LinkFault {
        LinkFault::Memory
    }
}

impl From<Memory> for StartFault {
    ghost use Rattle.std.specs.Prelude.{◌≡◌};
    ghost use Rattle.link_trait.specs.declared.faults.StartFault.TheVariants as fault;

    ghost from_gives = { λ _ e. e ≡ fault.Memory };

    fn from(_e: Memory) -> StartFault {
        StartFault::Memory
    }
}
