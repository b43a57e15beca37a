//! Takes the links back.
ghost use Rattle.std.specs.Prelude.{◌≡◌, ◌<◌, ℕ, length, map, slice_index_or, None, MatchOption, ⊤};
ghost use Rattle.std.specs.Option.{option_map};
ghost use Rattle.link_trait.specs.Spawners.{SpawnerView, IsLinkOf};
ghost use Rattle.driver_laws.specs.Endings.{released};

use link_trait::Spawner;

/// Takes the link back, where there is one. Its peer is kept for contracts where `keep` is true.
fn release_at<S: Spawner>(keep: bool, spawner: &mut S, link: &mut Option<S::L>)
    requires { MatchOption (option_map S.L.shown link.old) ⊤ (IsLinkOf (S.shown spawner.old)) }
    ensures { S.shown spawner.new ≡ released keep (S.shown spawner.old) (option_map S.L.shown link.old) }
{
    if let Some(own) = link.take() {
        if keep {
            spawner.retire(own);
        } else {
            spawner.discard(own);
        }
    }
}

/// Takes all links back.
pub fn release_all<S: Spawner>(keep: bool, spawners: &mut Vec<S>, links: &mut Vec<Option<S::L>>)
    requires count { length links.old.items ≡ length spawners.old.items }
    requires links { (k : ℕ) (p : SpawnerView) → k < length spawners.old.items →
        MatchOption (slice_index_or (map (option_map S.L.shown) links.old.items) k None) ⊤ (IsLinkOf (slice_index_or (map S.shown spawners.old.items) k p)) }
    ensures count { length spawners.new.items ≡ length spawners.old.items }
    ensures released { (k : ℕ) (p : SpawnerView) → k < length spawners.old.items →
        slice_index_or (map S.shown spawners.new.items) k p
        ≡ released keep (slice_index_or (map S.shown spawners.old.items) k p) (slice_index_or (map (option_map S.L.shown) links.old.items) k None) }
{
    for i in 0..spawners.len() {
        release_at(keep, &mut spawners[i], &mut links[i]);
    }
}
