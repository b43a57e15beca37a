//! Where a position stands in a rising list.
ghost use Rattle.std.specs.Prelude.{◌≡◌, ◌≤◌, ◌<◌, ◌||◌, All, IsTrue, length};
ghost use Rattle.px_base.specs.declared.TheConstants.{MOST_VERTICES};
ghost use Rattle.px_base.specs.FlatRows.{with_sources};
ghost use Rattle.px_base.specs.Parts.{is_within};
ghost use Rattle.px_base.specs.Values.{is_listed, place_of};
ghost use Rattle.mirror_places.specs.Tables.{IsTableOf};
ghost use Rattle.placed_parts.specs.Places.{place_among};

use mirror_places::PlaceTable;
use px_base::{Pos, Rows};

/// The place of a position that is in the list of the table.
pub fn place_of(positions: &[Pos], table: &PlaceTable, u: Pos) -> usize
    requires table { IsTableOf positions.now table.now }
    requires listed { IsTrue (is_listed positions.now u) }
    ensures place { result ≡ place_of positions.now u }
    ensures within { result < length positions.now }
{
    match table.find(positions, u) {
        Some(at) => at,
        None => {
            prove!(false);
            0
        }
    }
}

/// The place of a position in the range, or among the mirrors.
fn place_among(low: Pos, high: Pos, mirrors: &[Pos], table: &PlaceTable, u: Pos) -> Pos
    requires range { low ≤ high }
    requires room { high ≤ MOST_VERTICES }
    requires few { length mirrors.now ≤ MOST_VERTICES }
    requires table { IsTableOf mirrors.now table.now }
    requires known { IsTrue (is_within low high u || is_listed mirrors.now u) }
    ensures { result ≡ place_among low high mirrors.now u }
{
    if low <= u && u < high {
        u - low
    } else {
        (high - low) + place_of(mirrors, table, u) as Pos
    }
}

/// Puts its place in place of each source.
pub fn place_all(rows: &mut Rows, low: Pos, high: Pos, mirrors: &[Pos], table: &PlaceTable)
    requires range { low ≤ high }
    requires room { high ≤ MOST_VERTICES }
    requires few { length mirrors.now ≤ MOST_VERTICES }
    requires table { IsTableOf mirrors.now table.now }
    requires known { All (λ row. All (λ r. IsTrue (is_within low high r.source || is_listed mirrors.now r.source)) row) rows.old }
    ensures { rows.new ≡ with_sources (place_among low high mirrors.now) rows.old }
{
    rows.map_sources(move |u| place_among(low, high, mirrors, table, u));
}
