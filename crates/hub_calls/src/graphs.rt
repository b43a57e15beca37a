//! A small graph in two parts, and inboxes and a hub for it.
ghost use Rattle.std.specs.Prelude.{◌≡◌, ◌≤◌, length, IfOk};
ghost use Rattle.px_base.specs.declared.TheConstants.{MOST_VERTICES};
ghost use Rattle.px_base.specs.Graphs.{RowsFit};
ghost use Rattle.px_base.specs.Lines.{EdgeListFits};
ghost use Rattle.px_base.specs.Parts.{IsWorkerCuts, part_count};
ghost use Rattle.partitioner.specs.Cuts.{vertex_count};
ghost use Rattle.list_laws.specs.Routes.{AreRoutes};

use edge_reader::read_edges;
use graph_forms::build;
use hub_table::Inboxes;
use hub_terms::Limits;
use partitioner::{Cuts, RouteTable, cut, routes};
use px_base::{EdgeList, Form, ReadGraph, Reads};
use px_io::SureSource;
use recovery::Hub;
use std::alloc::Global;
use std::test::Fail;

/// Four vertices. In two parts, worker 0 has the first two and mirrors the third, and worker 1 has the last two and mirrors the
/// first two. Nobody mirrors the fourth.
const FOUR: &str = "1 2 4\n1 3 1\n3 2 2\n2 4 5\n";

/// The edges that the lines write, with their weights.
fn list_of(alloc: Global, lines: &str) -> Result<EdgeList, Fail>
    ensures { IfOk result (λ list. EdgeListFits list) }
{
    let mut source = SureSource::new(lines.as_bytes().to_vec(alloc)?, 4096);
    let list = read_edges(alloc, &mut source, true)?;
    Ok(list)
}

/// The graph of the lines, where each target reads its source.
fn graph_of(alloc: Global, lines: &str) -> Result<ReadGraph, Fail>
    ensures rows { IfOk result (λ graph. RowsFit graph.n graph.rows) }
    ensures vertices { IfOk result (λ graph. graph.n ≤ MOST_VERTICES) }
{
    let list = list_of(alloc, lines)?;
    let graph = build(alloc, &list, Form::Given, Reads::All)?;
    Ok(graph)
}

/// The routes of the graph on these cuts.
#[tactic(auto, using(list_laws::proofs::Routes::routes_fit, px_base::proofs::Positions::length_by_position))]
fn routes_of(alloc: Global, graph: &ReadGraph, cuts: &Cuts) -> Result<RouteTable, Fail>
    requires rows { RowsFit graph.now.n graph.now.rows }
    requires cuts { IsWorkerCuts graph.now.n cuts.now.ends }
    ensures routes { IfOk result (λ routes. AreRoutes (part_count cuts.now.ends) routes.to) }
    ensures one_each { IfOk result (λ routes. length routes.to ≡ graph.now.n) }
{
    let routes = routes(alloc, graph, cuts)?;
    Ok(routes)
}

/// A graph's cuts and routes, and how many vertices there are.
#[derive(Drop)]
struct Halves {
    n: u32,
    cuts: Cuts,
    routes: RouteTable,
}

/// The two parts of the graph.
fn cut_in_two(alloc: Global) -> Result<Halves, Fail>
    ensures size { IfOk result (λ halves. halves.n ≡ vertex_count halves.cuts.ends) }
    ensures cuts { IfOk result (λ halves. IsWorkerCuts (vertex_count halves.cuts.ends) halves.cuts.ends) }
    ensures few { IfOk result (λ halves. vertex_count halves.cuts.ends ≤ MOST_VERTICES) }
    ensures routes { IfOk result (λ halves. AreRoutes (part_count halves.cuts.ends) halves.routes.to) }
    ensures one_each { IfOk result (λ halves. length halves.routes.to ≡ vertex_count halves.cuts.ends) }
{
    let graph = graph_of(alloc, FOUR)?;
    let cuts = cut(alloc, graph.n, 2)?;
    let routes = routes_of(alloc, &graph, &cuts)?;
    let n = graph.n;
    Ok(Halves { n, cuts, routes })
}

/// New inboxes, the routes that they are for, and how many vertices there are.
#[derive(Drop)]
pub struct Made {
    /// How many vertices the graph has.
    pub n: u32,
    /// The route of each vertex.
    pub routes: RouteTable,
    /// An empty inbox for each of the two workers.
    pub inboxes: Inboxes,
}

/// New inboxes for the two parts.
pub fn new_inboxes(alloc: Global, counting: bool) -> Result<Made, Fail>
    ensures routes { IfOk result (λ made. made.inboxes.routes ≡ made.routes.to) }
    ensures counting { IfOk result (λ made. made.inboxes.counting ≡ counting) }
    ensures size { IfOk result (λ made. made.n ≡ vertex_count made.inboxes.cuts) }
{
    let Halves { n, cuts, routes } = cut_in_two(alloc)?;
    let inboxes = Inboxes::new(alloc, &routes, &cuts, counting)?;
    Ok(Made { n, routes, inboxes })
}

/// A new hub for the two parts.
pub fn new_hub(alloc: Global, counting: bool, limits: Limits) -> Result<Hub, Fail> {
    if limits.lag > 16 || limits.rounds < 1 || limits.rounds > 1 << 30 || limits.losses > 1000 {
        return Err(Fail::new("no such limits"));
    }
    let Halves { cuts, routes, .. } = cut_in_two(alloc)?;
    let hub = Hub::new(alloc, routes, cuts, counting, limits)?;
    Ok(hub)
}
