//! What a command leaves to do, or why it stops before its input is read.
ghost use Rattle.std.specs.Prelude.{◌≡◌, IfErr, IfOk, IfSome, IsTrue};
ghost use Rattle.command_words.specs.CommandFits.{CommandFits};
ghost use Rattle.command_texts.specs.Jobs.{JobFits};
ghost use Rattle.command_texts.specs.Plans.{PlanFits, plan_of, written};
ghost use Rattle.command_texts.specs.Solutions.{is_decided};

use crate::job::{Job, Plan, classify_job, parts_job, run_job, solve_job};
use command_ends::Stop;
use command_words::Command;

/// The text of the job is to be written.
fn written(job: Result<Job, Stop>) -> Result<Plan, Stop>
    requires fits { IfOk job (λ job. JobFits job) }
    requires decided { IfErr job (λ why. IsTrue (is_decided why)) }
    ensures plan { result ≡ written job }
    ensures fits { IfOk result (λ plan. PlanFits plan) }
    ensures decided { IfErr result (λ why. IsTrue (is_decided why)) }
{
    match job {
        Ok(job) => Ok(Plan::Write(job)),
        Err(stop) => Err(stop),
    }
}

/// What the command leaves to do, or why it stops before that: there is no command, its program is none or has no class,
/// or its sources don't go with the program.
#[tactic(auto, unfolding(crate::specs::Plans::plan_of))]
pub fn plan(command: Option<Command>) -> Result<Plan, Stop>
    requires { IfSome command (λ command. CommandFits command) }
    ensures plan { result ≡ plan_of command }
    ensures fits { IfOk result (λ plan. PlanFits plan) }
    ensures decided { IfErr result (λ why. IsTrue (is_decided why)) }
{
    match command {
        None => Err(Stop::BadWords),
        Some(Command::Run(command)) => written(run_job(command)),
        Some(Command::Solve(command)) => written(solve_job(command)),
        Some(Command::Classify(program)) => written(classify_job(program)),
        Some(Command::Parts(command)) => written(parts_job(command)),
        Some(Command::Worker) => Ok(Plan::Serve),
    }
}
