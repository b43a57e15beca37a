//! Reads an edge list from a source, piece by piece, so that the text itself is never kept.
ghost use Rattle.std.specs.Prelude.{◌≡◌, ◌≢◌, ◌<◌, ◌≤◌, ◌⊎◌, [], Err, IfOk, OnOk, length, vec_len};
ghost use Rattle.px_base.specs.Lines.{EdgeListFits};
ghost use Rattle.px_io.specs.Causes.{Rose, RoseAtMostOnce};
ghost use Rattle.edge_reader.specs.Readings.{IsReadingOf};
ghost use Rattle.edge_reader.specs.Lists.{AreRead, ReadsAll};

use crate::EdgeFault;
use crate::finish::finish;
use crate::lines::ReadLines;
use crate::scan::Scan;
use px_base::{EdgeList, Memory};
use px_io::Source;
use std::alloc::Global;

/// The most bytes of an input.
const MOST_BYTES: u64 = (1 << 32) - 1;

/// How many bytes are asked of the source at once.
const PIECE: usize = 1 << 16;

/// A space of so many bytes.
fn zeros(alloc: Global, size: usize) -> Result<Vec<u8>, Memory>
    ensures { IfOk result (λ v. vec_len v ≡ size) }
{
    Ok(vec![in alloc; 0u8; size]?)
}

/// Reads lines to the end of the source.
fn read_lines<S: Source>(
    source: &mut S,
    space: &mut [u8],
    lines: &mut ReadLines,
) -> Result<(), EdgeFault>
    requires room { 0 < length space.old }
    requires fresh { AreRead [] lines.old }
    ensures read { ReadsAll lines.old.weighted (S.left source.old) (S.left source.new) lines.new result }
    ensures cause { result ≡ Err EdgeFault.ReadFault → Rose (S.faults source.old) (S.faults source.new) }
    ensures faults_later { S.faults source.old ≤ S.faults source.new }
    ensures first { result ≡ Err EdgeFault.ReadFault ⊎ (S.faults source.new ≡ S.faults source.old) }
    ensures uncounted { result ≢ Err EdgeFault.TooManyVertices }
    ensures ended { OnOk result (Rose (S.ends_told source.old) (S.ends_told source.new)) }
    ensures not_ended { result ≡ Err EdgeFault.ReadFault → S.ends_told source.new ≡ S.ends_told source.old }
    ensures ended_once { RoseAtMostOnce (S.ends_told source.old) (S.ends_told source.new) }
{
    let mut scan = Scan::new();
    let mut total: u64 = 0;
    loop {
        let Ok(count) = source.take(space) else {
            return Err(EdgeFault::ReadFault);
        };
        if count == 0 {
            return lines.end_line(scan.judged());
        }
        let room = MOST_BYTES - total;
        if count as u64 > room {
            lines.feed(scan, &space[..room as usize])?;
            return Err(EdgeFault::TooLong);
        }
        scan = lines.feed(scan, &space[..count])?;
        total += count as u64;
    }
}

/// Reads an edge list to the end of the source. Each line has two ids below 2^32 in decimal, and where weights are read
/// maybe a weight below 2^32; without one it is 1. Blanks and tabs stand between fields, further fields are skipped, and
/// so are lines that begin with `#` or `%` or have no field. A fault is the first on the way from front to back. At most
/// 2^32 - 1 bytes, `MOST_EDGES` edge lines and `MOST_VERTICES` vertices are allowed. A source that fails is not tried again:
/// the answer is `ReadFault` then, and it comes only where the bytes taken before are within their limits and no line that ended in
/// them has a fault. Nor is one asked again that said its end; edges come only then, and so does that there are too many
/// vertices.
pub fn read_edges<S: Source>(
    alloc: Global,
    source: &mut S,
    weighted: bool,
) -> Result<EdgeList, EdgeFault>
    ensures read { IsReadingOf weighted (S.left source.old) (S.left source.new) result }
    ensures fits { IfOk result (λ list. EdgeListFits list) }
    ensures cause { result ≡ Err EdgeFault.ReadFault → Rose (S.faults source.old) (S.faults source.new) }
    ensures faults_later { S.faults source.old ≤ S.faults source.new }
    ensures first { result ≡ Err EdgeFault.ReadFault ⊎ (S.faults source.new ≡ S.faults source.old) }
    ensures ended { OnOk result (Rose (S.ends_told source.old) (S.ends_told source.new)) }
    ensures counted { result ≡ Err EdgeFault.TooManyVertices → Rose (S.ends_told source.old) (S.ends_told source.new) }
    ensures not_ended { result ≡ Err EdgeFault.ReadFault → S.ends_told source.new ≡ S.ends_told source.old }
    ensures ended_once { RoseAtMostOnce (S.ends_told source.old) (S.ends_told source.new) }
{
    let mut space = zeros(alloc, PIECE)?;
    let mut lines = ReadLines::new(alloc, weighted);
    read_lines(source, space.as_mut_slice(), &mut lines)?;
    finish(alloc, lines)
}
