//! Where the vertices of updates stand among the mirrors.
ghost use Rattle.std.specs.Prelude.{◌≡◌, ◌≤◌, ◌++◌, ◌∷◌, [], None, IfErr, IsTrue, OnOk, length};
ghost use Rattle.px_base.specs.declared.TheConstants.{MOST_VERTICES};
ghost use Rattle.px_base.specs.Values.{is_listed};
ghost use Rattle.px_base.specs.Worlds.{first_foreign};
ghost use Rattle.mirror_places.specs.Tables.{IsTableOf};
ghost use Rattle.worker_world.specs.Looked.{ArePlacesOf, IsFaultOf};

use mirror_places::PlaceTable;
use px_base::{Pos, StepFault, Update};

/// Puts a place behind those that are there, if there was room for all of them. Says whether there was room for this one too.
fn put_place(places: &mut Vec<u32>, room: bool, place: u32) -> bool
    ensures had { IsTrue result → IsTrue room }
    ensures put { IsTrue result → places.new.items ≡ places.old.items ++ place ∷ [] }
{
    room && places.push(place).is_ok()
}

/// Looks the vertex of each update up among the mirrors, once, and puts its place into the list. Errors: a vertex that is
/// no mirror, want of memory. A vertex that is no mirror is told even where memory is wanting before it.
pub fn find_places(
    mirrors: &[Pos],
    table: &PlaceTable,
    updates: &[Update],
    places: &mut Vec<u32>,
) -> Result<(), StepFault>
    requires table { IsTableOf mirrors.now table.now }
    requires few { length mirrors.now ≤ MOST_VERTICES }
    ensures taken { OnOk result (first_foreign (is_listed mirrors.now) updates.now ≡ None) }
    ensures places { OnOk result (ArePlacesOf mirrors.now updates.now places.new.items) }
    ensures fault { IfErr result (IsFaultOf (first_foreign (is_listed mirrors.now) updates.now)) }
{
    places.clear();
    let mut room = places.reserve(updates.len()).is_ok();
    for update in updates {
        let Some(at) = table.find(mirrors, update.vertex) else {
            return Err(StepFault::Foreign {
                vertex: update.vertex,
            });
        };
        room = put_place(places, room, at as u32);
    }
    if room { Ok(()) } else { Err(StepFault::Memory) }
}
