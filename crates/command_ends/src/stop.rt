//! Why a command stops, and its exit status.
ghost use Rattle.std.specs.Prelude.{◌≡◌};
ghost use Rattle.command_ends.specs.Stops.{fault_status, stop_status};

use command_words::ProgramFault;
use edge_reader::EdgeFault;
use px_base::{Id, Refused};

/// What is wrong with a frame that a worker is served.
#[derive(Clone, Copy, Debug, PartialEq, Eq)]
pub enum FrameFault {
    /// The bytes are none.
    NotAFrame,
    /// The input ends inside it.
    Cut,
    /// The worker doesn't take it.
    Refused,
}

/// Why a command ends without a text.
#[derive(Clone, Copy, Debug, PartialEq, Eq)]
pub enum Stop {
    /// The words are none that a command has.
    BadWords,
    /// The program starts from sources, and none is given.
    NeedsSource,
    /// A source is given, and the program starts from none.
    TakesNoSource,
    /// The word PROGRAM is no program.
    Program(ProgramFault),
    /// The program has no class.
    Refused(Refused),
    /// The program has a class that the command doesn't run yet.
    ClassNotBuilt,
    /// The input has a fault, or its source failed.
    Input(EdgeFault),
    /// No edge line has the vertex.
    UnknownSource { id: Id },
    /// What begins after so many bytes of the input is no frame that a worker takes.
    Frame { at: u64, what: FrameFault },
    /// The input has more bytes of frames than a worker takes.
    TooManyFrameBytes,
    /// The sink failed.
    WriteFault,
    /// Memory was wanting.
    Memory,
}

/// The status of a fault of the input.
fn fault_status(fault: EdgeFault) -> u8
    ensures { result ≡ fault_status fault }
{
    match fault {
        EdgeFault::Missing { .. } | EdgeFault::BadId { .. } | EdgeFault::BadWeight { .. } => 3,
        EdgeFault::TooManyVertices | EdgeFault::TooManyEdges | EdgeFault::TooLong => 5,
        EdgeFault::ReadFault => 6,
        EdgeFault::Memory => 11,
    }
}

/// The status that the program exits with.
pub fn stop_status(stop: Stop) -> u8
    ensures { result ≡ stop_status stop }
{
    match stop {
        Stop::BadWords | Stop::NeedsSource | Stop::TakesNoSource => 2,
        Stop::Program(_) | Stop::Refused(_) | Stop::ClassNotBuilt => 4,
        Stop::Input(fault) => fault_status(fault),
        Stop::UnknownSource { .. } => 12,
        Stop::Frame { .. } => 13,
        Stop::TooManyFrameBytes => 5,
        Stop::WriteFault => 7,
        Stop::Memory => 11,
    }
}
