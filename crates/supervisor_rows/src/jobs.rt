//! Small jobs, from the lines of their edges.
ghost use Rattle.std.specs.Prelude.{◌≡◌, ◌≤◌, IsOk, IsTrue, IfOk, length};
ghost use Rattle.px_base.specs.declared.TheConstants.{MOST_READS};
ghost use Rattle.px_base.specs.Classes.{class_of};
ghost use Rattle.px_base.specs.Graphs.{RowsFit, read_count};
ghost use Rattle.px_base.specs.Lines.{EdgeListFits};
ghost use Rattle.px_base.specs.RowTexts.{IsRowProgram};
ghost use Rattle.px_base.specs.Values.{IsValueList};
ghost use Rattle.answers.specs.Built.{IsBuilt};
ghost use Rattle.hub_terms.specs.Jobs.{LimitsFit};
ghost use Rattle.driver_laws.specs.Jobs.{IsSoundJob};

use class_checker::classify;
use edge_reader::read_edges;
use graph_forms::build;
use program_table::{builtin, core_starts, starts};
use px_base::{EdgeList, Items, Pos, Program, ReadGraph, Value};
use px_io::SureSource;
use std::alloc::Global;
use std::test::Fail;
use supervisor::{Job, Limits};
use value_laws::core_form;

/// The accepted built-in program of this name.
fn program_of(name: &str) -> Result<Program, Fail>
    ensures program { IfOk result (λ program. IsRowProgram program) }
    ensures accepted { IfOk result (λ program. IsOk (class_of program)) }
{
    match builtin(name) {
        Some(program) => {
            classify(&program)?;
            Ok(program)
        }
        None => Err(Fail::new("no such program")),
    }
}

/// The edges that the lines write, with their weights.
fn list_of(alloc: Global, lines: &str) -> Result<EdgeList, Fail>
    ensures { IfOk result (λ list. EdgeListFits list) }
{
    let mut source = SureSource::new(lines.as_bytes().to_vec(alloc)?, 4096);
    let list = read_edges(alloc, &mut source, true)?;
    Ok(list)
}

/// The program's graph of the edges.
#[tactic(auto, using(crate::proofs::Building::built_on))]
fn graph_of(alloc: Global, program: &Program, list: &EdgeList) -> Result<ReadGraph, Fail>
    requires { EdgeListFits list.now }
    ensures built { IfOk result (λ graph. IsBuilt program.now graph) }
    ensures size { IfOk result (λ graph. graph.n ≡ length list.now.ids) }
    ensures rows { IfOk result (λ graph. RowsFit graph.n graph.rows) }
    ensures reads { IfOk result (λ graph. read_count graph.rows ≤ MOST_READS) }
{
    let graph = build(alloc, list, program.form, program.reads)?;
    Ok(graph)
}

/// The core start values of the vertices, of which those at these positions are sources.
fn starts_of(
    alloc: Global,
    program: &Program,
    list: &EdgeList,
    sources: &[Pos],
) -> Result<Vec<Value>, Fail>
    requires program { IsRowProgram program.now }
    requires list { EdgeListFits list.now }
    ensures { IfOk result (λ starts. IsValueList (length list.now.ids) starts.items) }
{
    let starts = starts(alloc, program, list.ids.as_slice(), sources)?;
    let starts = core_starts(alloc, &core_form(program), starts.as_slice())?;
    Ok(starts)
}

/// Whether the limits are in range.
fn limits_fit(limits: &Limits) -> bool
    ensures { IsTrue result → LimitsFit limits.now }
{
    limits.lag <= 16 && limits.rounds >= 1 && limits.rounds <= 1 << 30 && limits.losses <= 1000
}

/// How many workers, within which limits, and in how many pieces.
#[derive(Clone, Copy)]
pub struct Team {
    /// 1 to 64.
    pub workers: u32,
    /// How far ahead, how many rounds, how many losses.
    pub limits: Limits,
    /// 1 to 64.
    pub chunks: u32,
}

/// The job of the built-in program on these lines.
pub fn job_of(
    alloc: Global,
    name: &str,
    lines: &str,
    sources: &[Pos],
    team: &Team,
) -> Result<Job, Fail>
    ensures { IfOk result IsSoundJob }
{
    let Team {
        workers,
        limits,
        chunks,
    } = *team;
    if workers < 1 || workers > 64 || chunks < 1 || chunks > 64 || !limits_fit(&limits) {
        return Err(Fail::new("not in range"));
    }
    let program = program_of(name)?;
    let list = list_of(alloc, lines)?;
    let graph = graph_of(alloc, &program, &list)?;
    let starts = Items::from_vec(starts_of(alloc, &program, &list, sources)?);
    Ok(Job {
        graph,
        starts,
        core: core_form(&program),
        workers,
        limits,
        chunks,
    })
}
