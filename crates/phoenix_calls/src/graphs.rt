//! The graphs, parts and worlds that the tests stand on.
ghost use Rattle.std.specs.Prelude.{◌≡◌, ◌≤◌, IfOk};
ghost use Rattle.px_base.specs.declared.TheConstants.{MOST_READS, MOST_VERTICES};
ghost use Rattle.px_base.specs.Core.{core_form};
ghost use Rattle.px_base.specs.Graphs.{HasWeights, RowsFit, read_count};
ghost use Rattle.px_base.specs.Parts.{PartFits};
ghost use Rattle.px_base.specs.Lines.{EdgeListFits};
ghost use Rattle.px_base.specs.RowTexts.{IsRowProgram};

use edge_reader::read_edges;
use graph_forms::build;
use partitioner::{cut, part};
use program_table::{builtin, core_starts, starts};
use px_base::{CoreProgram, EdgeList, Form, Part, Program, ReadGraph, Reads};
use px_io::SureSource;
use std::alloc::Global;
use std::test::Fail;
use value_laws::core_form;
use worker_world::World;

/// Four vertices, of which vertex 2 has the most neighbours.
pub const FOUR: &str = "1 2 4\n1 3 1\n3 2 2\n2 4 5\n";

/// A triangle, and a vertex with one neighbour.
pub const TRIANGLE: &str = "1 2\n1 3\n2 3\n1 4\n";

/// The edges that the lines write, with their weights.
fn list_of(alloc: Global, lines: &str) -> Result<EdgeList, Fail>
    ensures { IfOk result (λ list. EdgeListFits list) }
{
    let mut source = SureSource::new(lines.as_bytes().to_vec(alloc)?, 4096);
    let list = read_edges(alloc, &mut source, true)?;
    Ok(list)
}

/// The graph of the lines.
pub fn graph_of(alloc: Global, lines: &str, form: Form, reads: Reads) -> Result<ReadGraph, Fail>
    ensures rows { IfOk result (λ graph. RowsFit graph.n graph.rows) }
    ensures vertices { IfOk result (λ graph. graph.n ≤ MOST_VERTICES) }
{
    let list = list_of(alloc, lines)?;
    let graph = build(alloc, &list, form, reads)?;
    Ok(graph)
}

/// The built-in program of this name.
pub fn program_of(name: &str) -> Result<Program, Fail>
    ensures { IfOk result (λ program. IsRowProgram program) }
{
    match builtin(name) {
        Some(program) => Ok(program),
        None => Err(Fail::new("no such program")),
    }
}

/// A part of a program's graph, and the program in core values.
#[derive(Drop)]
pub struct Placed {
    /// The part.
    pub part: Part,
    /// The program in core values.
    pub core: CoreProgram,
}

/// Part `i` of the built-in program's graph. No vertex is a source.
pub fn placed_part(
    alloc: Global,
    name: &str,
    lines: &str,
    workers: u32,
    i: u32,
) -> Result<Placed, Fail>
    ensures fits { IfOk result (λ placed. PartFits placed.part) }
    ensures weights { IfOk result (λ placed. HasWeights placed.part.rows) }
    ensures reads { IfOk result (λ placed. read_count placed.part.rows ≤ MOST_READS) }
    ensures core { IfOk result (λ placed. placed.core ≡ core_form placed.core.program) }
{
    if workers < 1 || workers > 64 {
        return Err(Fail::new("no such number of workers"));
    }
    let program = program_of(name)?;
    let list = list_of(alloc, lines)?;
    let graph = build(alloc, &list, program.form, program.reads)?;
    let starts = starts(alloc, &program, list.ids.as_slice(), &[])?;
    let core = core_form(&program);
    let starts = core_starts(alloc, &core, starts.as_slice())?;
    let cuts = cut(alloc, graph.n, workers)?;
    if cuts.ends.as_slice().len() <= i as usize + 1 {
        return Err(Fail::new("no such part"));
    }
    let part = part(alloc, &graph, starts.as_slice(), &cuts, i)?;
    Ok(Placed { part, core })
}

/// The new world of the part.
pub fn world_on(alloc: Global, placed: Placed) -> Result<World, Fail>
    requires fits { PartFits placed.part }
    requires weights { HasWeights placed.part.rows }
    requires reads { read_count placed.part.rows ≤ MOST_READS }
    requires core { placed.core ≡ core_form placed.core.program }
{
    let Placed { part, core } = placed;
    let world = World::new(alloc, part, core, 1)?;
    Ok(world)
}

/// The new world of part `i` of the built-in program's graph. No vertex is a source.
pub fn world_of(
    alloc: Global,
    name: &str,
    lines: &str,
    workers: u32,
    i: u32,
) -> Result<World, Fail> {
    world_on(alloc, placed_part(alloc, name, lines, workers, i)?)
}
