//! What is wrong with an answer: its header, then its content.
ghost use Rattle.std.specs.Prelude.{◌≡◌, ◌<◌, ◌≤◌, ◌+◌, not, find, slice_index};
ghost use Rattle.px_base.specs.Parts.{is_master, part_count};
ghost use Rattle.recovery.specs.Keeping.{bare, fault_of};
ghost use Rattle.hub_terms.specs.HubEvents.{answer_header, foreign_content, may_send, same_header};

use crate::route_words::RouteWords;
use partitioner::Cuts;
use px_base::{Answer, Foreign, Header, Pos, Update};

/// The kind, the epoch and the round of the answer.
fn answer_header(answer: &Answer) -> Header
    ensures { result ≡ answer_header answer.now }
{
    match answer {
        Answer::Stepped { epoch, round, .. } => Header {
            kind: 9,
            epoch: *epoch,
            round: *round,
        },
        Answer::Reported { epoch, .. } => Header {
            kind: 10,
            epoch: *epoch,
            round: 0,
        },
    }
}

/// Both headers are the same.
fn same_header(a: &Header, b: &Header) -> bool
    ensures { result ≡ same_header a.now b.now }
{
    a.kind == b.kind && a.epoch == b.epoch && a.round == b.round
}

/// The vertex is a master of worker `i`.
fn is_master(cuts: &Cuts, i: u32, vertex: Pos) -> bool
    requires { i < part_count cuts.now.ends }
    ensures { result ≡ is_master cuts.now.ends i vertex }
{
    let ends = cuts.ends.as_slice();
    ends[i as usize] <= vertex && vertex < ends[i as usize + 1]
}

/// Worker `i` may send an update of the vertex.
fn may_send(cuts: &Cuts, routes: &RouteWords, counting: bool, i: u32, vertex: Pos) -> bool
    requires inside { i < part_count cuts.now.ends }
    requires few { i < 64 }
    ensures { result ≡ may_send (bare cuts.now.ends routes.now counting) i vertex }
{
    if counting {
        routes.is_on_route(i, vertex)
    } else {
        is_master(cuts, i, vertex) && routes.is_routed(vertex)
    }
}

/// The first update that the worker may not send.
#[tactic(auto, using(std::proofs::lemmas::List::drop_more))]
fn wrong_update(
    cuts: &Cuts,
    routes: &RouteWords,
    counting: bool,
    i: u32,
    updates: &[Update],
) -> Option<Update>
    requires inside { i < part_count cuts.now.ends }
    requires few { i < 64 }
    ensures { result ≡ find (λ u. not (may_send (bare cuts.now.ends routes.now counting) i u.vertex)) updates.now }
{
    for update in updates {
        if !may_send(cuts, routes, counting, i, update.vertex) {
            return Some(*update);
        }
    }
    None
}

/// What is wrong with what the answer brings.
fn wrong_content(
    cuts: &Cuts,
    routes: &RouteWords,
    counting: bool,
    i: u32,
    answer: &Answer,
) -> Option<Foreign>
    requires inside { i < part_count cuts.now.ends }
    requires few { i < 64 }
    requires rises { slice_index cuts.now.ends i ≤ slice_index cuts.now.ends (i + 1) }
    ensures { result ≡ foreign_content (bare cuts.now.ends routes.now counting) i answer.now }
{
    match answer {
        Answer::Stepped { updates, .. } => {
            match wrong_update(cuts, routes, counting, i, updates.as_slice()) {
                Some(update) => Some(Foreign::Vertex {
                    vertex: update.vertex,
                }),
                None => None,
            }
        }
        Answer::Reported { values, .. } => {
            let ends = cuts.ends.as_slice();
            let due = ends[i as usize + 1] - ends[i as usize];
            let got = values.as_slice().len();
            if got == due as usize {
                None
            } else {
                Some(Foreign::Short {
                    due,
                    got: got as u64,
                })
            }
        }
    }
}

/// What is wrong with the answer of worker `i` to an order with this header.
pub fn fault_of(
    cuts: &Cuts,
    routes: &RouteWords,
    counting: bool,
    header: Header,
    i: u32,
    answer: &Answer,
) -> Option<Foreign>
    requires inside { i < part_count cuts.now.ends }
    requires few { i < 64 }
    requires rises { slice_index cuts.now.ends i ≤ slice_index cuts.now.ends (i + 1) }
    ensures { result ≡ fault_of (bare cuts.now.ends routes.now counting) i header answer.now }
{
    let got = answer_header(answer);
    if same_header(&header, &got) {
        wrong_content(cuts, routes, counting, i, answer)
    } else {
        Some(Foreign::Unordered { due: header, got })
    }
}
