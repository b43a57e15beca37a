//! The answer of a program of any class, by the solver of its class.
ghost use Rattle.std.specs.Prelude.{◌≡◌, ◌≤◌, IfOk, IsOk};
ghost use Rattle.px_base.specs.declared.TheConstants.{MOST_READS, MOST_VERTICES};
ghost use Rattle.px_base.specs.Answers.{IsAnswer, reads_needed};
ghost use Rattle.px_base.specs.Classes.{class_of};
ghost use Rattle.px_base.specs.Graphs.{RowsFit, read_count};
ghost use Rattle.px_base.specs.Values.{IsValueList};
ghost use Rattle.answers.specs.Built.{IsBuilt};

use class_checker::classify;
use consistent_solver::solve_consistent;
use core_solver::solve_core;
use ordered_solver::solve_in_order;
use px_base::{Class, Fold, Memory, Program, ReadGraph, Value};
use std::alloc::Global;

/// How many reads of members a member of a core needs.
fn reads_needed(fold: Fold) -> u32
    ensures { result ≡ reads_needed fold }
{
    match fold {
        Fold::Count(needed) => needed,
        Fold::Least | Fold::Greatest | Fold::Mex => 0,
    }
}

/// The answer of a program that has a class on a graph that was built for it, from these start values, by position. It is
/// found plainly, on one thread: by sweeps and by following changes, in one pass in the order of the rank, or by peeling.
///
/// # Errors
/// `Memory` where there is no room for the values, or for what the way to them takes.
#[tactic(auto, using(crate::proofs::ByClass::earlier, crate::proofs::ByClass::mutual_reads, crate::proofs::ByClass::answered))]
pub fn solve(
    alloc: Global,
    graph: &ReadGraph,
    program: &Program,
    starts: &[Value],
) -> Result<Vec<Value>, Memory>
    requires accepted { IsOk (class_of program.now) }
    requires built { IsBuilt program.now graph.now }
    requires rows { RowsFit graph.now.n graph.now.rows }
    requires vertices { graph.now.n ≤ MOST_VERTICES }
    requires reads { read_count graph.now.rows ≤ MOST_READS }
    requires starts { IsValueList graph.now.n starts.now }
    ensures { IfOk result (λ x. IsAnswer program.now graph.now.rows starts.now x.items) }
{
    match classify(program) {
        Ok(Class::LocallyCorrecting) => solve_consistent(alloc, graph, program, starts),
        Ok(Class::SelfStabilising) => solve_in_order(alloc, graph, program, starts),
        Ok(Class::GloballyCorrecting) => solve_core(alloc, graph, reads_needed(program.fold)),
        Err(_) => unreachable!(),
    }
}
