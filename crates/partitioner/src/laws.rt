//! Laws of cuts, parts and routes.
ghost use Rattle.std.specs.Prelude.{◌≡◌, ◌≤◌, ◌<◌, ◌↔◌, ◌-◌, ℕ, List, All, IsTrue, length, slice_index};
ghost use Rattle.px_base.specs.declared.TheConstants.{MOST_VERTICES};
ghost use Rattle.px_base.specs.declared.graph.Read.{Read as ReadData};
ghost use Rattle.px_base.specs.Values.{IsValue, is_listed};
ghost use Rattle.px_base.specs.Graphs.{RowsFit};
ghost use Rattle.px_base.specs.Parts.{IsCuts, IsOwner, IsWorkerCuts, PartFits, block_cuts, mirrors_of, part_count, part_of, route_of};

/// Each position below the number of vertices has one owner.
pub fn one_owner()
    ensures some { (n : ℕ) (cuts : List ℕ) (v : ℕ) → IsCuts n cuts → v < n → (i : ℕ) × IsOwner cuts v i }
    ensures only { (n : ℕ) (cuts : List ℕ) (v i j : ℕ) → IsCuts n cuts → IsOwner cuts v i → IsOwner cuts v j → i ≡ j }
{}

/// The cuts into blocks are cuts for workers.
pub fn blocks_are_cuts()
    ensures { (n workers : ℕ) → 1 ≤ workers → workers ≤ 64 → IsWorkerCuts n (block_cuts n workers) }
{}

/// Each part of fitting rows fits.
pub fn parts_fit()
    ensures { (n : ℕ) (rows : List (List ReadData)) (starts cuts : List ℕ) (i : ℕ) → n ≤ MOST_VERTICES → RowsFit n rows → length starts ≡ n → All IsValue starts → IsWorkerCuts n cuts → i < part_count cuts →
        PartFits (part_of rows starts cuts i) }
{}

/// A vertex is a mirror of a part exactly where the part is on its route.
pub fn mirrors_are_routed()
    ensures { (rows : List (List ReadData)) (cuts : List ℕ) (v j : ℕ) → v < length rows → j < part_count cuts →
        is_listed (mirrors_of rows cuts j) v ≡ is_listed (route_of rows cuts v) j }
{}
