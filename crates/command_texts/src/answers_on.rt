//! The answer text of a program on an edge list, found by workers or plainly.
ghost use Rattle.std.specs.Prelude.{◌≡◌, ◌≤◌, IfOk, IsOk, None, Ok, length};
ghost use Rattle.std.specs.List.Sorted.{IsStrictlyIncreasing};
ghost use Rattle.px_base.specs.declared.TheConstants.{MOST_READS, MOST_VERTICES};
ghost use Rattle.px_base.specs.Values.{IsValueList};
ghost use Rattle.px_base.specs.AnswerTexts.{IsAnswerOn};
ghost use Rattle.px_base.specs.Answers.{IsAnswer};
ghost use Rattle.px_base.specs.Classes.{class_of};
ghost use Rattle.px_base.specs.Graphs.{RowsFit, read_count};
ghost use Rattle.px_base.specs.Lines.{EdgeListFits};
ghost use Rattle.px_base.specs.RowTexts.{IsRowProgram};
ghost use Rattle.px_base.specs.Starts.{first_unknown, positions_of};
ghost use Rattle.answers.specs.Built.{IsBuilt};
ghost use Rattle.command_texts.specs.Ways.{WayFits};

use crate::answer_texts::answer_text;
use crate::sources::positions;
use answers::solve;
use graph_forms::build;
use program_table::starts;
use px_base::{EdgeList, Id, Memory, Pos, Program, ReadGraph, Value};
use serial_rounds::solve_in_rounds;
use std::alloc::Global;
use std::thread::Threads;

/// How a program is solved for.
#[derive(Clone, Copy, Debug, PartialEq, Eq)]
pub enum Way {
    /// By so many workers in rounds.
    Rounds { workers: u32 },
    /// At once, on one thread.
    Plainly,
}

/// The answer of the program on the graph.
fn solved<R: Threads + Sync>(
    rt: &R,
    alloc: Global,
    way: Way,
    graph: ReadGraph,
    program: &Program,
    starts: &[Value],
) -> Result<Vec<Value>, Memory>
    requires way { WayFits way program.now }
    requires built { IsBuilt program.now graph }
    requires rows { RowsFit graph.n graph.rows }
    requires vertices { graph.n ≤ MOST_VERTICES }
    requires reads { read_count graph.rows ≤ MOST_READS }
    requires starts { IsValueList graph.n starts.now }
    ensures { IfOk result (λ values. IsAnswer program.now graph.rows starts.now values.items) }
{
    match way {
        Way::Rounds { workers } => solve_in_rounds(rt, alloc, graph, program, starts, workers),
        Way::Plainly => solve(alloc, &graph, program, starts),
    }
}

/// The text of the answer of the program, where the vertices at these positions are the sources.
fn text_from<R: Threads + Sync>(
    rt: &R,
    alloc: Global,
    way: Way,
    program: &Program,
    sources: &[Pos],
    list: &EdgeList,
) -> Result<Vec<u8>, Memory>
    requires way { WayFits way program.now }
    requires numbers { IsRowProgram program.now }
    requires fits { EdgeListFits list.now }
    ensures { IfOk result (λ text. IsAnswerOn program.now sources.now list.now text.items) }
{
    let graph = build(alloc, list, program.form, program.reads)?;
    let starts = starts(alloc, program, list.ids.as_slice(), sources)?;
    let values = solved(rt, alloc, way, graph, program, starts.as_slice())?;
    let mut text = Vec::new(alloc);
    answer_text(&mut text, list.ids.as_slice(), values.as_slice())?;
    Ok(text)
}

/// The same, where the vertices with these ids are the sources. Each of them is in the list.
pub fn text_on<R: Threads + Sync>(
    rt: &R,
    alloc: Global,
    way: Way,
    program: &Program,
    sources: &[Id],
    list: &EdgeList,
) -> Result<Vec<u8>, Memory>
    requires way { WayFits way program.now }
    requires numbers { IsRowProgram program.now }
    requires fits { EdgeListFits list.now }
    requires rising { IsStrictlyIncreasing list.now.ids }
    requires known { first_unknown list.now.ids sources.now ≡ None }
    ensures { IfOk result (λ text. IsAnswerOn program.now (positions_of list.now.ids sources.now) list.now text.items) }
{
    let at = positions(alloc, list.ids.as_slice(), sources)?;
    text_from(rt, alloc, way, program, at.as_slice(), list)
}
