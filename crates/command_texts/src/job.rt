//! The job of each command whose program has a class.
ghost use Rattle.std.specs.Prelude.{◌≡◌, IfErr, IfOk, IsTrue, Ok};
ghost use Rattle.px_base.specs.declared.program.Class.TheVariants.{LocallyCorrecting};
ghost use Rattle.px_base.specs.Classes.{class_of};
ghost use Rattle.px_base.specs.RowTexts.{IsRowProgram};
ghost use Rattle.px_base.specs.Starts.{needs_source};
ghost use Rattle.command_words.specs.CommandFits.{CommandFits, ProgramFits};
ghost use Rattle.command_texts.specs.Solutions.{is_decided};
ghost use Rattle.command_texts.specs.Jobs.{JobFits, check_class, check_sources, classify_job, parts_job, run_job, solve_job, with_class};

use class_checker::classify;
use command_ends::Stop;
use command_words::{Command, PartsCommand, ProgramFault, RunCommand, SolveCommand};
use px_base::{Class, Id, Items, Program, Start};

/// What is left to do of a command whose program has a class. To solve, it has sources exactly where it needs some.
#[derive(Debug, PartialEq, Eq, Drop)]
pub enum Job {
    /// Solve by workers.
    Run {
        /// The program, which is locally correcting.
        program: Program,
        /// The ids of the sources, as often as they were given.
        sources: Items<Id>,
        /// How many workers there are, 1 to 64.
        workers: u32,
    },
    /// Solve plainly, on one thread.
    Solve {
        /// The program, of any class.
        program: Program,
        /// The ids of the sources, as often as they were given.
        sources: Items<Id>,
        /// Whether each weight is 1, whatever the input says.
        unweighted: bool,
    },
    /// Tell the class.
    Classify {
        /// The class of the program.
        class: Class,
    },
    /// Count what each worker would have.
    Parts {
        /// The program, of any class.
        program: Program,
        /// How many workers there would be, 1 to 64.
        workers: u32,
        /// Whether each weight is 1, whatever the input says.
        unweighted: bool,
    },
}

/// What is left to do of a command that isn't stopped.
#[derive(Debug, PartialEq, Eq, Drop)]
pub enum Plan {
    /// Write the text of the job.
    Write(Job),
    /// Serve a worker: frames come in, and frames go out.
    Serve,
}

/// Whether a program with this start is given sources.
fn needs_source(start: Start) -> bool
    ensures { result ≡ needs_source start }
{
    matches!(start, Start::Source(_, _))
}

/// The program with its class.
fn with_class(named: Result<Program, ProgramFault>) -> Result<(Program, Class), Stop>
    requires { ProgramFits named }
    ensures class { result ≡ with_class named }
    ensures fits { IfOk result (λ it. (class_of it.0 ≡ Ok it.1) × IsRowProgram it.0) }
    ensures decided { IfErr result (λ why. IsTrue (is_decided why)) }
{
    match named {
        Err(fault) => Err(Stop::Program(fault)),
        Ok(program) => match classify(&program) {
            Err(why) => Err(Stop::Refused(why)),
            Ok(class) => Ok((program, class)),
        },
    }
}

/// Sources are given exactly where the program needs some.
fn check_sources(program: &Program, sources: &[Id]) -> Result<(), Stop>
    ensures sources { result ≡ check_sources program.now sources.now }
    ensures decided { IfErr result (λ why. IsTrue (is_decided why)) }
{
    let needed = needs_source(program.start);
    if needed && sources.is_empty() {
        return Err(Stop::NeedsSource);
    }
    if !needed && !sources.is_empty() {
        return Err(Stop::TakesNoSource);
    }
    Ok(())
}

/// `run` takes the programs that correct themselves locally.
fn check_class(class: Class) -> Result<(), Stop>
    ensures class { result ≡ check_class class }
    ensures local { IfOk result (λ _. class ≡ LocallyCorrecting) }
    ensures decided { IfErr result (λ why. IsTrue (is_decided why)) }
{
    match class {
        Class::LocallyCorrecting => Ok(()),
        Class::SelfStabilising => Err(Stop::ClassNotBuilt),
        Class::GloballyCorrecting => Err(Stop::ClassNotBuilt),
    }
}

/// What `run` leaves to do.
pub fn run_job(command: RunCommand) -> Result<Job, Stop>
    requires { CommandFits (Command.Run command) }
    ensures job { result ≡ run_job command }
    ensures fits { IfOk result (λ job. JobFits job) }
    ensures decided { IfErr result (λ why. IsTrue (is_decided why)) }
{
    let (program, class) = with_class(command.program)?;
    check_class(class)?;
    check_sources(&program, command.sources.as_slice())?;
    Ok(Job::Run {
        program,
        sources: command.sources,
        workers: command.workers,
    })
}

/// What `solve` leaves to do.
pub fn solve_job(command: SolveCommand) -> Result<Job, Stop>
    requires { CommandFits (Command.Solve command) }
    ensures job { result ≡ solve_job command }
    ensures fits { IfOk result (λ job. JobFits job) }
    ensures decided { IfErr result (λ why. IsTrue (is_decided why)) }
{
    let (program, _) = with_class(command.program)?;
    check_sources(&program, command.sources.as_slice())?;
    Ok(Job::Solve {
        program,
        sources: command.sources,
        unweighted: command.unweighted,
    })
}

/// What `classify` leaves to do.
pub fn classify_job(program: Result<Program, ProgramFault>) -> Result<Job, Stop>
    requires { CommandFits (Command.Classify program) }
    ensures job { result ≡ classify_job program }
    ensures fits { IfOk result (λ job. JobFits job) }
    ensures decided { IfErr result (λ why. IsTrue (is_decided why)) }
{
    let (_, class) = with_class(program)?;
    Ok(Job::Classify { class })
}

/// What `parts` leaves to do.
pub fn parts_job(command: PartsCommand) -> Result<Job, Stop>
    requires { CommandFits (Command.Parts command) }
    ensures job { result ≡ parts_job command }
    ensures fits { IfOk result (λ job. JobFits job) }
    ensures decided { IfErr result (λ why. IsTrue (is_decided why)) }
{
    let (program, _) = with_class(command.program)?;
    Ok(Job::Parts {
        program,
        workers: command.workers,
        unweighted: command.unweighted,
    })
}
