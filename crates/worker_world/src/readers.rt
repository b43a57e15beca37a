//! Which masters read which place.
ghost use Rattle.std.specs.Prelude.{◌≡◌, ◌<◌, true, All, IfOk, OnOk, length};
ghost use Rattle.px_base.specs.Parts.{PartFits};
ghost use Rattle.worker_world.specs.Readers.{HasGrown, ReadsRow, AreReaders, is_reader};

use placed_parts::PlacedPart;
use px_base::{Memory, Pos, Row};
use reader_chains::Readers;
use std::alloc::Global;

/// Adds the reader to each of these places.
fn add_places(readers: &mut Readers, reader: u32, places: &[Pos]) -> Result<(), Memory>
    requires places { All (λ s. s < length readers.old) places.now }
    ensures grown { OnOk result (HasGrown reader readers.old readers.new) }
    ensures reads { OnOk result (All (λ s. is_reader readers.new s reader ≡ true) places.now) }
{
    for place in places {
        readers.add(*place as usize, reader)?;
    }
    Ok(())
}

/// Adds the reader to each place in its row.
fn add_row(readers: &mut Readers, reader: u32, row: &Row<'_>) -> Result<(), Memory>
    requires row { All (λ r. r.source < length readers.old) row.now }
    ensures grown { OnOk result (HasGrown reader readers.old readers.new) }
    ensures reads { OnOk result (ReadsRow readers.new reader row.now) }
{
    add_places(readers, reader, row.sources())?;
    Ok(())
}

/// The readers of all places, in one pass over the rows.
pub fn gather_readers(alloc: Global, part: &PlacedPart) -> Result<Readers, Memory>
    requires { PartFits part.now }
    ensures { IfOk result (λ readers. AreReaders part.now readers) }
{
    let count = part.master_count();
    let places = count + part.mirrors().len();
    let mut readers = Readers::new(alloc, places, part.rows().read_count())?;
    for k in 0..count {
        add_row(&mut readers, k as u32, &part.row(k))?;
    }
    Ok(readers)
}
