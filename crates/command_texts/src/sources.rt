//! The positions of sources that are given by their ids.
ghost use Rattle.std.specs.Prelude.{◌≡◌, ◌≤◌, ◌<◌, true, false, IfOk, IfSome, IfNone, None, Some, length};
ghost use Rattle.std.specs.List.Sorted.{IsStrictlyIncreasing};
ghost use Rattle.px_base.specs.declared.TheConstants.{MOST_VERTICES};
ghost use Rattle.px_base.specs.Values.{is_listed, place_of};
ghost use Rattle.px_base.specs.Starts.{first_unknown, positions_of};

use px_base::{Id, Memory, Pos};
use std::alloc::Global;

/// The place of the id in the rising list, if it stands there.
fn find_id(ids: &[Id], id: Id) -> Option<usize>
    requires { IsStrictlyIncreasing ids.now }
    ensures some { IfSome result (λ at. (at ≡ place_of ids.now id) × (at < length ids.now) × (is_listed ids.now id ≡ true)) }
    ensures none { IfNone result (is_listed ids.now id ≡ false) }
{
    match ids.binary_search(&id) {
        Ok(at) => Some(at),
        Err(_) => None,
    }
}

/// The first of the sources that is no id.
#[tactic(auto, using(crate::proofs::LookedUp::unknown_at, crate::proofs::LookedUp::none_unknown))]
pub fn unknown_source(ids: &[Id], sources: &[Id]) -> Option<Id>
    requires { IsStrictlyIncreasing ids.now }
    ensures { result ≡ first_unknown ids.now sources.now }
{
    for id in sources {
        if find_id(ids, *id).is_none() {
            return Some(*id);
        }
    }
    None
}

/// The position of the vertex with this id.
fn position_of(ids: &[Id], id: Id) -> Pos
    requires rising { IsStrictlyIncreasing ids.now }
    requires few { length ids.now ≤ MOST_VERTICES }
    requires known { is_listed ids.now id ≡ true }
    ensures { result ≡ place_of ids.now id }
{
    match find_id(ids, id) {
        Some(at) => at as Pos,
        None => {
            prove!(false);
            0
        }
    }
}

/// The position of each source, in their order. All of them are ids.
#[tactic(auto, using(crate::proofs::LookedUp::each_known, crate::proofs::LookedUp::positions_more))]
pub fn positions(alloc: Global, ids: &[Id], sources: &[Id]) -> Result<Vec<Pos>, Memory>
    requires rising { IsStrictlyIncreasing ids.now }
    requires few { length ids.now ≤ MOST_VERTICES }
    requires known { first_unknown ids.now sources.now ≡ None }
    ensures { IfOk result (λ found. found.items ≡ positions_of ids.now sources.now) }
{
    let mut found = Vec::with_capacity(alloc, sources.len())?;
    for id in sources {
        found.push(position_of(ids, *id))?;
    }
    Ok(found)
}
