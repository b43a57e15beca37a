//! The text of the parts of a program's graph.
ghost use Rattle.std.specs.Prelude.{◌≤◌, IfOk, List};
ghost use Rattle.px_base.specs.Lines.{EdgeListFits, IdEdge, IsEdgeListOf};
ghost use Rattle.px_base.specs.RowTexts.{IsRowProgram};
ghost use Rattle.command_texts.specs.Texts.{IsPartsText};

use crate::parts_texts::parts_text;
use graph_forms::build;
use program_table::starts;
use px_base::{EdgeList, Memory, Program};
use std::alloc::Global;

/// The text of the parts of the program's graph on this list. No vertex is a source.
pub fn parts_on(
    alloc: Global,
    program: &Program,
    workers: u32,
    list: &EdgeList,
) -> Result<Vec<u8>, Memory>
    requires numbers { IsRowProgram program.now }
    requires workers { (1 ≤ workers) × (workers ≤ 64) }
    requires fits { EdgeListFits list.now }
    ensures { IfOk result (λ text. (edges : List IdEdge) → IsEdgeListOf edges list.now → IsPartsText program.now workers edges text.items) }
{
    let graph = build(alloc, list, program.form, program.reads)?;
    let starts = starts(alloc, program, list.ids.as_slice(), &[])?;
    parts_text(alloc, graph, starts.as_slice(), workers)
}
