//! The routes of all vertices in words: a bit for each worker.
ghost use Rattle.std.specs.Prelude.{◌≡◌, ◌==◌, ◌<◌, ◌&&◌, ◌||◌, ℕ, not, All, IfOk};
ghost use Rattle.std.specs.Int.{trailing_zeros, w64};
ghost use Rattle.px_base.specs.Values.{is_listed};
ghost use Rattle.partitioner.specs.Bits.{has_bit};
ghost use Rattle.recovery.specs.Keeping.{AreRouteWords};

use partitioner::RouteTable;
use px_base::{Items, Memory, Pos};
use shadow::Shadow;
use std::alloc::Global;
use std::marker::Model;

/// The routes of all vertices, in a word for each: bit `j` says whether worker `j` is on the vertex's route. So one look at
/// one word tells whether a worker may send an update, and who gets it. The lists themselves are kept for contracts alone.
#[derive(Drop)]
pub struct RouteWords {
    words: Vec<u64>,
    routes: Shadow<RouteTable>,
}

impl Model for RouteWords {
    ghost use Rattle.std.specs.Prelude.{ℕ, List};
    ghost use Rattle.recovery.specs.Keeping.{AreRouteWords};

    ghost Value = { List (List ℕ) };

    ghost view = { λ r. r.routes.to };

    ghost invariant = { λ r. AreRouteWords r.routes.to r.words.items };
}

/// The word with bit `j` as well.
#[tactic(auto, using(partitioner::proofs::BitWords::with_bit_is))]
fn with_bit(word: u64, j: u32) -> u64
    requires { j < 64 }
    ensures { (k : ℕ) → has_bit result k ≡ (has_bit word k || k == j) }
{
    word | (1 << j)
}

/// The word without its lowest bit.
#[tactic(auto, using(partitioner::proofs::LowestBits::without_lowest_is, partitioner::proofs::LowestBits::without_lowest_below))]
pub fn without_lowest(word: u64) -> u64
    requires { 0 < word }
    ensures bits { (k : ℕ) → has_bit result k ≡ (has_bit word k && not (k == trailing_zeros w64 word)) }
    ensures less { result < word }
{
    word & (word - 1)
}

/// Whether the word has bit `j`.
fn has_bit(word: u64, j: u32) -> bool
    requires { j < 64 }
    ensures { result ≡ has_bit word j }
{
    (word >> j) & 1 == 1
}

/// The word of a route.
#[tactic(auto, using(crate::proofs::Worded::bits_more))]
fn word_of(route: &[u32]) -> u64
    requires { All (λ j. j < 64) route.now }
    ensures { (k : ℕ) → has_bit result k ≡ is_listed route.now k }
{
    let mut word = 0;
    for j in route {
        word = with_bit(word, *j);
    }
    word
}

/// The words of all routes.
fn words_of(alloc: Global, routes: &[Items<u32>]) -> Result<Vec<u64>, Memory>
    requires { All (λ route. All (λ j. j < 64) route) routes.now }
    ensures { IfOk result (λ words. AreRouteWords routes.now words.items) }
{
    let mut words = Vec::with_capacity(alloc, routes.len())?;
    for route in routes {
        words.push(word_of(route.as_slice()))?;
    }
    Ok(words)
}

impl RouteWords {
    ghost use Rattle.std.specs.Prelude.{◌≡◌, ◌==◌, ◌<◌, ℕ, not, All, IfOk, length};
    ghost use Rattle.px_base.specs.Values.{is_listed};
    ghost use Rattle.partitioner.specs.Bits.{has_bit};
    ghost use Rattle.hub_terms.specs.Inboxes.{route_at};

    /// The words of these routes. It takes one pass over them. Errors: want of memory.
    pub fn new(alloc: Global, routes: &RouteTable) -> Result<RouteWords, Memory>
        requires { All (λ route. All (λ j. j < 64) route) routes.now.to }
        ensures { IfOk result (λ words. words ≡ routes.now.to) }
    {
        let words = words_of(alloc, routes.to.as_slice())?;
        Ok(RouteWords {
            words,
            routes: Shadow::of(routes),
        })
    }

    /// The word of the vertex, or 0 where there is no such vertex.
    pub fn word(&self, vertex: Pos) -> u64
        ensures { (j : ℕ) → has_bit result j ≡ is_listed (route_at self.now vertex) j }
    {
        match self.words.get(vertex as usize) {
            Some(word) => *word,
            None => 0,
        }
    }

    /// Worker `j` mirrors the vertex.
    pub fn is_on_route(&self, j: u32, vertex: Pos) -> bool
        requires { j < 64 }
        ensures { result ≡ is_listed (route_at self.now vertex) j }
    {
        has_bit(self.word(vertex), j)
    }

    /// Some worker mirrors the vertex.
    #[tactic(auto, using(crate::proofs::Worded::some_bit))]
    pub fn is_routed(&self, vertex: Pos) -> bool
        ensures { result ≡ not (length (route_at self.now vertex) == 0) }
    {
        self.word(vertex) != 0
    }
}
