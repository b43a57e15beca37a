//! What a vertex gathers from its row, without a list of what it reads.
ghost use Rattle.std.specs.Prelude.{◌≡◌, ◌<◌, ◌≤◌, All, length, slice_index, vec_len};
ghost use Rattle.px_base.specs.Values.{IsValue, IsWeight};
ghost use Rattle.px_base.specs.Rules.{edge_value, edge_values, gather, greatest, least};

use crate::mex::mex_of;
use px_base::{Along, Fold, Program, Read, Row, Value};
use value_laws::edge_value;

/// What the source's value becomes on the read.
pub fn read_value(along: Along, values: &[Value], read: Read) -> Value
    requires source { read.source < length values.now }
    requires weight { IsWeight read.weight }
    requires values { All IsValue values.now }
    ensures { result ≡ edge_value along (slice_index values.now read.source) read.weight }
{
    edge_value(along, values[read.source as usize], read.weight)
}

/// The least of the start value and the edge values of the row.
fn least_of(along: Along, values: &[Value], start: Value, row: &Row<'_>) -> Value
    requires sources { All (λ r. r.source < length values.now) row.now }
    requires weights { All (λ r. IsWeight r.weight) row.now }
    requires values { All IsValue values.now }
    ensures { result ≡ least start (edge_values along values.now row.now) }
{
    let mut best = start;
    for k in 0..row.len() {
        best = best.min(read_value(along, values, row.read(k)));
    }
    best
}

/// The greatest of the start value and the edge values of the row.
fn greatest_of(along: Along, values: &[Value], start: Value, row: &Row<'_>) -> Value
    requires sources { All (λ r. r.source < length values.now) row.now }
    requires weights { All (λ r. IsWeight r.weight) row.now }
    requires values { All IsValue values.now }
    ensures { result ≡ greatest start (edge_values along values.now row.now) }
{
    let mut best = start;
    for k in 0..row.len() {
        best = best.max(read_value(along, values, row.read(k)));
    }
    best
}

/// What a vertex with this start value and this row gathers from the values. The stamps are for a mex: all in the table
/// are below this one before, and none is above it after.
pub fn pulled(
    program: &Program,
    values: &[Value],
    start: Value,
    row: &Row<'_>,
    stamp: u32,
    stamps: &mut Vec<u32>,
) -> Value
    requires sources { All (λ r. r.source < length values.now) row.now }
    requires weights { All (λ r. IsWeight r.weight) row.now }
    requires values { All IsValue values.now }
    requires room { length row.now ≤ vec_len stamps.old }
    requires fresh { All (λ s. s < stamp) stamps.old.items }
    ensures value { result ≡ gather program.now.fold start (edge_values program.now.along values.now row.now) }
    ensures old { All (λ s. s ≤ stamp) stamps.new.items }
    ensures room { vec_len stamps.new ≡ vec_len stamps.old }
{
    match program.fold {
        Fold::Least => least_of(program.along, values, start, row),
        Fold::Greatest => greatest_of(program.along, values, start, row),
        Fold::Mex => mex_of(program.along, values, row, stamp, stamps),
        Fold::Count(_) => start,
    }
}
