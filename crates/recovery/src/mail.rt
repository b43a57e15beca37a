//! The updates of an answer go into the inboxes.
ghost use Rattle.std.specs.Prelude.{◌≡◌, ℕ, ◌<◌, [], ◌∷◌, All, false, if◌then◌else◌};
ghost use Rattle.partitioner.specs.Bits.{has_bit};
ghost use Rattle.partitioner.specs.Cuts.{vertex_count};
ghost use Rattle.px_base.specs.Values.{IsValue};
ghost use Rattle.px_base.specs.Worlds.{CarriesValues};
ghost use Rattle.recovery.specs.Keeping.{AreInboxesOf};
ghost use Rattle.hub_terms.specs.Inboxes.{is_on_route, with_updates};

use crate::route_words::{RouteWords, without_lowest};
use hub_table::Inboxes;
use px_base::Update;

/// The update goes to each worker whose bit the word has: those on its route.
fn put_along(inboxes: &mut Inboxes, word: u64, update: Update)
    requires plain { inboxes.old.counting ≡ false }
    requires route { (j : ℕ) → has_bit word j ≡ is_on_route inboxes.old j update.vertex }
    requires value { IsValue update.value }
    ensures { inboxes.new ≡ with_updates inboxes.old (update ∷ []) }
{
    let mut rest = word;
    while rest != 0 {
        inboxes.put(rest.trailing_zeros(), update.vertex, update.value);
        rest = without_lowest(rest);
    }
}

/// The update goes to each worker that wants it: a delta to the owner of the vertex, a value to those that mirror it.
fn put_one(inboxes: &mut Inboxes, routes: &RouteWords, counting: bool, update: Update)
    requires inboxes { AreInboxesOf routes.now counting inboxes.old }
    requires below { update.vertex < vertex_count inboxes.old.cuts }
    requires value { IsValue update.value }
    ensures { inboxes.new ≡ with_updates inboxes.old (update ∷ []) }
{
    if counting {
        inboxes.add(update.vertex, update.value);
    } else {
        put_along(inboxes, routes.word(update.vertex), update);
    }
}

/// Each update goes to the workers that want it.
fn put_all(inboxes: &mut Inboxes, routes: &RouteWords, counting: bool, updates: &[Update])
    requires inboxes { AreInboxesOf routes.now counting inboxes.old }
    requires below { All (λ u. u.vertex < vertex_count inboxes.old.cuts) updates.now }
    requires values { CarriesValues updates.now }
    ensures { inboxes.new ≡ with_updates inboxes.old updates.now }
{
    for update in updates {
        put_one(inboxes, routes, counting, *update);
    }
}

/// Each update goes to the workers that want it, where the updates are of the epoch now.
pub fn put_current(
    inboxes: &mut Inboxes,
    routes: &RouteWords,
    counting: bool,
    updates: &[Update],
    current: bool,
)
    requires inboxes { AreInboxesOf routes.now counting inboxes.old }
    requires below { All (λ u. u.vertex < vertex_count inboxes.old.cuts) updates.now }
    requires values { CarriesValues updates.now }
    ensures { inboxes.new ≡ (if current then with_updates inboxes.old updates.now else inboxes.old) }
{
    if current {
        put_all(inboxes, routes, counting, updates);
    }
}
