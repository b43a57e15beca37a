//! The mex of a row by a table of stamps, in time linear in the row. The table is made once: each vertex has a stamp of
//! its own, so that nothing has to be wiped between two rows.
ghost use Rattle.std.specs.Prelude.{◌≡◌, ◌==◌, ◌<◌, ◌≤◌, ℕ, true, false, All, length, slice_index, vec_len};
ghost use Rattle.px_base.specs.Values.{IsValue, IsWeight, is_listed};
ghost use Rattle.px_base.specs.Rules.{edge_values, mex};

use crate::pulls::read_value;
use px_base::{Along, Row, Value};

/// Stamps the edge values of the row that are below the row's length.
fn stamp_row(along: Along, values: &[Value], row: &Row<'_>, stamp: u32, stamps: &mut Vec<u32>)
    requires sources { All (λ r. r.source < length values.now) row.now }
    requires weights { All (λ r. IsWeight r.weight) row.now }
    requires values { All IsValue values.now }
    requires room { length row.now ≤ vec_len stamps.old }
    requires fresh { All (λ s. s < stamp) stamps.old.items }
    ensures marks { (k : ℕ) → k < length row.now → (slice_index stamps.new.items k == stamp) ≡ is_listed (edge_values along values.now row.now) k }
    ensures old { All (λ s. s ≤ stamp) stamps.new.items }
    ensures room { vec_len stamps.new ≡ vec_len stamps.old }
{
    for k in 0..row.len() {
        let value = read_value(along, values, row.read(k));
        if value < row.len() as u64 {
            stamps[value as usize] = stamp;
        }
    }
}

/// The first of `count` places without the stamp, or `count`.
fn first_without(stamps: &[u32], count: usize, stamp: u32) -> usize
    requires { count ≤ length stamps.now }
    ensures within { result ≤ count }
    ensures before { (k : ℕ) → k < result → (slice_index stamps.now k == stamp) ≡ true }
    ensures here { result < count → (slice_index stamps.now result == stamp) ≡ false }
{
    for place in 0..count {
        if stamps[place] != stamp {
            return place;
        }
    }
    count
}

/// The mex of the edge values of the row. All stamps in the table are below this one before, and none is above it after.
pub fn mex_of(
    along: Along,
    values: &[Value],
    row: &Row<'_>,
    stamp: u32,
    stamps: &mut Vec<u32>,
) -> Value
    requires sources { All (λ r. r.source < length values.now) row.now }
    requires weights { All (λ r. IsWeight r.weight) row.now }
    requires values { All IsValue values.now }
    requires room { length row.now ≤ vec_len stamps.old }
    requires fresh { All (λ s. s < stamp) stamps.old.items }
    ensures value { result ≡ mex (edge_values along values.now row.now) }
    ensures old { All (λ s. s ≤ stamp) stamps.new.items }
    ensures room { vec_len stamps.new ≡ vec_len stamps.old }
{
    stamp_row(along, values, row, stamp, stamps);
    first_without(stamps.as_slice(), row.len(), stamp) as u64
}
