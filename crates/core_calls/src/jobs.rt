//! Small jobs for two workers, and what a run of one begins with.
ghost use Rattle.std.specs.Prelude.{◌≡◌, ◌≤◌, IsOk, IfOk, length};
ghost use Rattle.px_base.specs.declared.TheConstants.{MOST_READS};
ghost use Rattle.px_base.specs.Classes.{class_of, counts_reads};
ghost use Rattle.px_base.specs.Core.{core_form};
ghost use Rattle.px_base.specs.Graphs.{RowsFit, read_count};
ghost use Rattle.px_base.specs.Lines.{EdgeListFits};
ghost use Rattle.px_base.specs.RowTexts.{IsRowProgram};
ghost use Rattle.px_base.specs.Values.{IsValueList};
ghost use Rattle.answers.specs.Built.{IsBuilt};

use class_checker::classify;
use edge_reader::read_edges;
use graph_forms::build;
use hub_terms::Limits;
use partitioner::{Cuts, cut, part, routes};
use program_table::{builtin, core_starts, starts};
use px_base::{CoreProgram, EdgeList, Fold, Pos, Program, ReadGraph, Value};
use px_io::SureSource;
use recovery::Hub;
use shadow::Shadow;
use std::alloc::Global;
use std::marker::Model;
use std::test::Fail;
use system_core::System;
use value_laws::core_form;
use worker_world::World;

/// The accepted built-in program of this name.
fn program_of(name: &str) -> Result<Program, Fail>
    ensures program { IfOk result (λ program. IsRowProgram program) }
    ensures accepted { IfOk result (λ program. IsOk (class_of program)) }
{
    match builtin(name) {
        Some(program) => {
            classify(&program)?;
            Ok(program)
        }
        None => Err(Fail::new("no such program")),
    }
}

/// The edges that the lines write, with their weights.
fn list_of(alloc: Global, lines: &str) -> Result<EdgeList, Fail>
    ensures { IfOk result (λ list. EdgeListFits list) }
{
    let mut source = SureSource::new(lines.as_bytes().to_vec(alloc)?, 4096);
    let list = read_edges(alloc, &mut source, true)?;
    Ok(list)
}

/// The program's graph of the edges.
#[tactic(auto, using(crate::proofs::Building::built_on))]
fn graph_of(alloc: Global, program: &Program, list: &EdgeList) -> Result<ReadGraph, Fail>
    requires { EdgeListFits list.now }
    ensures built { IfOk result (λ graph. IsBuilt program.now graph) }
    ensures size { IfOk result (λ graph. graph.n ≡ length list.now.ids) }
    ensures rows { IfOk result (λ graph. RowsFit graph.n graph.rows) }
    ensures reads { IfOk result (λ graph. read_count graph.rows ≤ MOST_READS) }
{
    let graph = build(alloc, list, program.form, program.reads)?;
    Ok(graph)
}

/// The core start values of the vertices, of which those at these positions are sources.
fn starts_of(
    alloc: Global,
    program: &Program,
    list: &EdgeList,
    sources: &[Pos],
) -> Result<Vec<Value>, Fail>
    requires program { IsRowProgram program.now }
    requires list { EdgeListFits list.now }
    ensures { IfOk result (λ starts. IsValueList (length list.now.ids) starts.items) }
{
    let starts = starts(alloc, program, list.ids.as_slice(), sources)?;
    let starts = core_starts(alloc, &core_form(program), starts.as_slice())?;
    Ok(starts)
}

/// A copy of the cuts.
fn copied(cuts: &Cuts) -> Result<Cuts, Fail>
    ensures { IfOk result (λ copy. copy ≡ cuts.now) }
{
    Ok(cuts.clone()?)
}

/// Whether the program counts.
fn counts(fold: Fold) -> bool
    ensures { result ≡ counts_reads fold }
{
    match fold {
        Fold::Count(_) => true,
        Fold::Least => false,
        Fold::Greatest => false,
        Fold::Mex => false,
    }
}

/// The built-in program's graph, the program and the start values in core values, and cuts for two workers.
#[derive(Drop)]
pub struct CutJob {
    graph: ReadGraph,
    core: CoreProgram,
    starts: Vec<Value>,
    cuts: Cuts,
}

impl Model for CutJob {
    ghost use Rattle.core_calls.specs.Jobs.{IsCutJob};

    ghost Value = { Unit };

    ghost view = { λ _. tt };

    ghost invariant = { λ j. IsCutJob j.graph j.core j.starts.items j.cuts.ends };
}

impl CutJob {
    ghost use Rattle.std.specs.Prelude.{◌≡◌, false, IfOk};
    ghost use Rattle.hub_terms.specs.Jobs.{LimitsFit};

    /// The job of the program on these lines.
    pub fn new(alloc: Global, name: &str, lines: &str, sources: &[Pos]) -> Result<CutJob, Fail> {
        let program = program_of(name)?;
        let list = list_of(alloc, lines)?;
        let graph = graph_of(alloc, &program, &list)?;
        let starts = starts_of(alloc, &program, &list, sources)?;
        let core = core_form(&program);
        let cuts = cut(alloc, graph.n, 2)?;
        Ok(CutJob {
            graph,
            core,
            starts,
            cuts,
        })
    }

    /// Where each part begins, and where the last one ends.
    pub fn cuts(&self) -> &[Pos] {
        self.cuts.ends.as_slice()
    }

    /// The new world of worker `i`.
    pub fn world(&self, alloc: Global, i: u32) -> Result<World, Fail> {
        if self.cuts.ends.as_slice().len() <= i as usize + 1 {
            return Err(Fail::new("no such worker"));
        }
        let part = part(alloc, &self.graph, self.starts.as_slice(), &self.cuts, i)?;
        Ok(World::new(alloc, part, self.core, 1)?)
    }

    /// The system before its first event, whose links tell nothing.
    pub fn system(&self, alloc: Global, limits: Limits) -> Result<System, Fail>
        requires { LimitsFit limits }
        ensures { IfOk result (λ system. system.told ≡ false) }
    {
        let routes = routes(alloc, &self.graph, &self.cuts)?;
        let cuts = copied(&self.cuts)?;
        let hub = Hub::new(alloc, routes, cuts, counts(self.core.program.fold), limits)?;
        let told = Shadow::of(&false);
        Ok(System::new(hub, &self.graph, &self.core, self.starts.as_slice(), told))
    }
}
