//! A part with places in place of the sources of its reads.
use crate::places::place_all;
use mirror_places::PlaceTable;
use px_base::{Part, Pos, Row, Rows, Value};
use std::marker::Model;

/// A part whose reads name places: the masters stand first, in order, and then the mirrors. So the value that is read is found
/// by an index. Contracts see the part with the positions.
#[derive(Debug, Drop)]
pub struct PlacedPart {
    part: Part,
}

impl Model for PlacedPart {
    ghost use Rattle.px_base.specs.declared.graph.Part.{Part as PartData};

    ghost Value = { PartData };

    ghost use Rattle.placed_parts.specs.Places.{IsPlaced, with_positions};

    ghost view = { λ p. with_positions p.part };

    ghost invariant = { λ p. IsPlaced p.part };
}

impl PlacedPart {
    ghost use Rattle.px_base.specs.declared.TheConstants.{MOST_READS};
    ghost use Rattle.std.specs.Prelude.{◌≡◌, ◌<◌, ◌≤◌, length};
    ghost use Rattle.px_base.specs.FlatRows.{with_sources};
    ghost use Rattle.px_base.specs.Graphs.{row_at};
    ghost use Rattle.px_base.specs.Parts.{PartFits};
    ghost use Rattle.mirror_places.specs.Tables.{IsTableOf};
    ghost use Rattle.placed_parts.specs.Places.{master_count, place_in, placed_row};

    /// The part with places in place of positions. They are put where the positions stood, so it takes no memory. The table
    /// says where the mirrors stand.
    pub fn new(part: Part, table: &PlaceTable) -> PlacedPart
        requires fits { PartFits part }
        requires table { IsTableOf part.mirrors table.now }
        ensures { result ≡ part }
    {
        let Part {
            index,
            low,
            high,
            mut rows,
            starts,
            mirrors,
            mirror_starts,
            boundary,
        } = part;
        place_all(&mut rows, low, high, mirrors.as_slice(), table);
        PlacedPart {
            part: Part {
                index,
                low,
                high,
                rows,
                starts,
                mirrors,
                mirror_starts,
                boundary,
            },
        }
    }

    /// The first position of the part.
    pub fn low(&self) -> Pos
        ensures { result ≡ self.now.low }
    {
        self.part.low
    }

    /// The position behind the last one of the part.
    pub fn high(&self) -> Pos
        ensures { result ≡ self.now.high }
    {
        self.part.high
    }

    /// How many masters there are.
    pub fn master_count(&self) -> usize
        ensures { result ≡ master_count self.now }
    {
        self.part.high.saturating_sub(self.part.low) as usize
    }

    /// The start values of the masters.
    pub fn starts(&self) -> &[Value]
        ensures { result.now ≡ self.now.starts }
    {
        self.part.starts.as_slice()
    }

    /// The mirrors, rising.
    pub fn mirrors(&self) -> &[Pos]
        ensures { result.now ≡ self.now.mirrors }
    {
        self.part.mirrors.as_slice()
    }

    /// The start values of the mirrors.
    pub fn mirror_starts(&self) -> &[Value]
        ensures { result.now ≡ self.now.mirror_starts }
    {
        self.part.mirror_starts.as_slice()
    }

    /// The masters that others read, rising.
    pub fn boundary(&self) -> &[Pos]
        ensures { result.now ≡ self.now.boundary }
    {
        self.part.boundary.as_slice()
    }

    /// The rows of all masters, by place.
    pub fn rows(&self) -> &Rows
        ensures { result.now ≡ with_sources (place_in self.now) self.now.rows }
    {
        &self.part.rows
    }

    /// The row of a master, by place.
    #[inline(always)]
    pub fn row(&self, k: usize) -> Row<'_>
        requires { k < length self.now.rows }
        ensures row { result ≡ placed_row self.now (row_at self.now.rows k) }
        ensures few { length result ≤ MOST_READS }
    {
        self.part.rows.row(k)
    }
}
