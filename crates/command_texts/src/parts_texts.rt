//! A line for each worker, which counts what its part has.
ghost use Rattle.std.specs.Prelude.{◌≡◌, ◌≤◌, ◌<◌, ◌++◌, All, IfOk, OnOk, decimal, flat_map};
ghost use Rattle.px_base.specs.declared.TheConstants.{MOST_READS, MOST_VERTICES};
ghost use Rattle.px_base.specs.Graphs.{RowsFit, read_count};
ghost use Rattle.px_base.specs.Parts.{PartFits};
ghost use Rattle.px_base.specs.Values.{IsValueList};
ghost use Rattle.command_texts.specs.Texts.{line_of, parts_text};

use partitioner::{cut, parts_and_routes};
use px_base::{Memory, Part, ReadGraph, Value, write_number};
use std::alloc::Global;

/// Appends the text, and then the number.
fn write_labelled(out: &mut Vec<u8>, label: &[u8], number: u64) -> Result<(), Memory>
    ensures { OnOk result (out.new.items ≡ out.old.items ++ (label.now ++ decimal number)) }
{
    out.extend_from_slice(label)?;
    write_number(out, number)
}

/// Appends the line of a part.
fn write_part(out: &mut Vec<u8>, part: &Part) -> Result<(), Memory>
    requires fits { PartFits part.now }
    ensures { OnOk result (out.new.items ≡ out.old.items ++ line_of part.now) }
{
    write_labelled(out, b"worker ", u64::from(part.index))?;
    write_labelled(out, b": masters ", u64::from(part.high - part.low))?;
    write_labelled(out, b", mirrors ", part.mirrors.as_slice().len() as u64)?;
    write_labelled(out, b", reads ", part.rows.read_count() as u64)?;
    out.push(b'\n')?;
    Ok(())
}

/// Appends the lines of all parts.
fn write_parts(out: &mut Vec<u8>, parts: &[Part]) -> Result<(), Memory>
    requires fit { All (λ part. PartFits part) parts.now }
    ensures { OnOk result (out.new.items ≡ out.old.items ++ flat_map line_of parts.now) }
{
    for part in parts {
        write_part(out, part)?;
    }
    Ok(())
}

/// A line for each worker: how many masters, mirrors and reads its part of the graph has.
#[tactic(auto, using(crate::proofs::PartLines::all_lines))]
pub fn parts_text(
    alloc: Global,
    graph: ReadGraph,
    starts: &[Value],
    workers: u32,
) -> Result<Vec<u8>, Memory>
    requires rows { RowsFit graph.n graph.rows }
    requires vertices { graph.n ≤ MOST_VERTICES }
    requires reads { read_count graph.rows ≤ MOST_READS }
    requires starts { IsValueList graph.n starts.now }
    requires workers { (1 ≤ workers) × (workers ≤ 64) }
    ensures { IfOk result (λ text. text.items ≡ parts_text graph.rows workers) }
{
    let cuts = cut(alloc, graph.n, workers)?;
    let (parts, _) = parts_and_routes(alloc, &graph.rows, starts, &cuts)?;
    let mut text = Vec::new(alloc);
    write_parts(&mut text, parts.as_slice())?;
    Ok(text)
}
