//! Which of two vertices stands before the other in a rank.
ghost use Rattle.std.specs.Prelude.{◌≡◌, ◌<◌, length};
ghost use Rattle.px_base.specs.Graphs.{stands_before};

use px_base::{Pos, Rank, ReadGraph};

/// Whether a stands before b in the rank: by position where the lower stands first, or by degree where the higher does,
/// and of equal degrees the lower position.
pub fn before(graph: &ReadGraph, rank: Rank, a: Pos, b: Pos) -> bool
    requires degrees { length graph.now.degrees ≡ graph.now.n }
    requires a { a < graph.now.n }
    requires b { b < graph.now.n }
    ensures { result ≡ stands_before rank graph.now.degrees a b }
{
    stands_before(rank, graph.degrees.as_slice(), a, b)
}

/// The same over the degrees alone. A vertex without an entry has the degree 0.
pub fn stands_before(rank: Rank, degrees: &[u32], a: Pos, b: Pos) -> bool
    ensures { result ≡ stands_before rank degrees.now a b }
{
    match rank {
        Rank::ById => a < b,
        Rank::ByDegree => {
            let first = degrees.get(a as usize).copied().unwrap_or(0);
            let second = degrees.get(b as usize).copied().unwrap_or(0);
            second < first || (first == second && a < b)
        }
    }
}
