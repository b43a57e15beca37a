//! What `Inboxes::new` asks of routes, the routes of a graph meet.
ghost use Rattle.std.specs.Prelude.{◌≡◌, ℕ, List, length};
ghost use Rattle.px_base.specs.declared.graph.Read.{Read as ReadData};
ghost use Rattle.px_base.specs.Parts.{IsWorkerCuts, part_count, routes_of};
ghost use Rattle.partitioner.specs.Cuts.{vertex_count};
ghost use Rattle.list_laws.specs.Routes.{AreRoutes};

/// The routes of a graph on its cuts are such as inboxes are made for.
#[tactic(auto, using(list_laws::proofs::Routes::routes_fit, px_base::proofs::Positions::length_by_position))]
pub fn routes_fit_inboxes()
    ensures cuts { (n : ℕ) (cuts : List ℕ) → IsWorkerCuts n cuts → IsWorkerCuts (vertex_count cuts) cuts }
    ensures routes { (rows : List (List ReadData)) (cuts : List ℕ) → AreRoutes (part_count cuts) (routes_of rows cuts) }
    ensures one_each { (n : ℕ) (rows : List (List ReadData)) (cuts : List ℕ) → IsWorkerCuts n cuts → length rows ≡ n →
        length (routes_of rows cuts) ≡ vertex_count cuts }
{}
