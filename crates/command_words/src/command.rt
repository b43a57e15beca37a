//! What a command line asks for.
use px_base::{Id, Items, Program, RowFault};

/// Why a PROGRAM is none: it has no `;` and is no built-in name, or it is a row with a fault.
#[derive(Clone, Copy, Debug, PartialEq, Eq)]
pub enum ProgramFault {
    /// It has no `;`, and is no built-in name.
    Unknown,
    /// It is a row with this fault.
    BadRow(RowFault),
}

/// `run PROGRAM SOURCE..`. The sources are in the order of the words, each as often as it stands.
#[derive(Debug, PartialEq, Eq, Drop)]
pub struct RunCommand {
    /// What PROGRAM says, or why it is none.
    pub program: Result<Program, ProgramFault>,
    /// The id that each SOURCE says.
    pub sources: Items<Id>,
    /// How many workers there are, 1 to 64.
    pub workers: u32,
}

/// `solve PROGRAM SOURCE..`. The sources are in the order of the words, each as often as it stands.
#[derive(Debug, PartialEq, Eq, Drop)]
pub struct SolveCommand {
    /// What PROGRAM says, or why it is none.
    pub program: Result<Program, ProgramFault>,
    /// The id that each SOURCE says.
    pub sources: Items<Id>,
    /// Whether each weight is 1, whatever the input says.
    pub unweighted: bool,
}

/// `parts PROGRAM`.
#[derive(Debug, PartialEq, Eq, Drop)]
pub struct PartsCommand {
    /// What PROGRAM says, or why it is none.
    pub program: Result<Program, ProgramFault>,
    /// How many workers there are, 1 to 64.
    pub workers: u32,
    /// Whether each weight is 1, whatever the input says.
    pub unweighted: bool,
}

/// What the words of a command line ask for.
#[derive(Debug, PartialEq, Eq, Drop)]
pub enum Command {
    /// `run`: the answer, found by workers in rounds.
    Run(RunCommand),
    /// `solve`: the answer, found on one thread.
    Solve(SolveCommand),
    /// `classify`: the class of this program.
    Classify(Result<Program, ProgramFault>),
    /// `parts`: how much of the graph each worker would have.
    Parts(PartsCommand),
    /// `worker`.
    Worker,
}
