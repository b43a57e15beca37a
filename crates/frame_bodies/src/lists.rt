//! The entries of frames: lists of values, vertices, pairs and triples.
ghost use Rattle.std.specs.Prelude.{◌≡◌, ◌+◌, ◌*◌, ◌<◌, ◌≤◌, ◌%◌, ◌++◌, All, IfOk, MatchOption, length, flat_map, vec_len, vec_capacity};
ghost use Rattle.px_base.specs.declared.TheConstants.{MOST_VERTICES};
ghost use Rattle.px_base.specs.Frames.{four_bytes, eight_bytes, pair_bytes, triple_bytes};
ghost use Rattle.px_base.specs.FrameFits.{IsWord};
ghost use Rattle.frame_bodies.specs.Widths.{IsLong, PairHasRoom, TripleHasRoom};

use crate::numbers::{put_eight, put_four};
use crate::take::{take_eight, take_four};
use px_base::{Memory, Pos, Triple, Update, Value};
use std::alloc::Global;

/// The length of the values' bytes.
#[tactic(auto, using(crate::proofs::Lengths::length_values))]
pub fn values_length(values: &[Value]) -> usize
    requires { length values.now ≤ MOST_VERTICES }
    ensures is { result ≡ length (flat_map eight_bytes values.now) }
    ensures small { result ≤ 8 * MOST_VERTICES }
{
    8 * values.len()
}

/// Appends the values, for which there is room.
#[tactic(auto, using(crate::proofs::Lengths::length_values))]
pub fn put_values(out: &mut Vec<u8>, values: &[Value])
    requires { vec_len out.old + length (flat_map eight_bytes values.now) ≤ vec_capacity out.old }
    ensures { out.new.items ≡ out.old.items ++ flat_map eight_bytes values.now }
{
    for value in values {
        put_eight(out, *value);
    }
}

/// The values in bytes of a length that is a multiple of 8.
pub fn read_values(alloc: Global, bytes: &[u8]) -> Result<Vec<Value>, Memory>
    requires { length bytes.now % 8 ≡ 0 }
    ensures is { IfOk result (λ xs. flat_map eight_bytes xs.items ≡ bytes.now) }
    ensures room { IfOk result (λ xs. All IsLong xs.items) }
{
    let mut values = Vec::with_capacity(alloc, bytes.len() / 8)?;
    let mut rest = bytes;
    while let Some((value, after)) = take_eight(rest) {
        values.push(value)?;
        rest = after;
    }
    Ok(values)
}

/// The length of the vertices' bytes.
#[tactic(auto, using(crate::proofs::Lengths::length_vertices))]
pub fn vertices_length(vertices: &[Pos]) -> usize
    requires { length vertices.now ≤ MOST_VERTICES }
    ensures is { result ≡ length (flat_map four_bytes vertices.now) }
    ensures small { result ≤ 4 * MOST_VERTICES }
{
    4 * vertices.len()
}

/// Appends the vertices, for which there is room.
#[tactic(auto, using(crate::proofs::Lengths::length_vertices))]
pub fn put_vertices(out: &mut Vec<u8>, vertices: &[Pos])
    requires { vec_len out.old + length (flat_map four_bytes vertices.now) ≤ vec_capacity out.old }
    ensures { out.new.items ≡ out.old.items ++ flat_map four_bytes vertices.now }
{
    for vertex in vertices {
        put_four(out, *vertex);
    }
}

/// The vertices in bytes of a length that is a multiple of 4.
pub fn read_vertices(alloc: Global, bytes: &[u8]) -> Result<Vec<Pos>, Memory>
    requires { length bytes.now % 4 ≡ 0 }
    ensures is { IfOk result (λ xs. flat_map four_bytes xs.items ≡ bytes.now) }
    ensures room { IfOk result (λ xs. All IsWord xs.items) }
{
    let mut vertices = Vec::with_capacity(alloc, bytes.len() / 4)?;
    let mut rest = bytes;
    while let Some((vertex, after)) = take_four(rest) {
        vertices.push(vertex)?;
        rest = after;
    }
    Ok(vertices)
}

fn put_pair(out: &mut Vec<u8>, pair: &Update)
    requires { vec_len out.old + 12 ≤ vec_capacity out.old }
    ensures items { out.new.items ≡ out.old.items ++ pair_bytes pair.now }
    ensures len { vec_len out.new ≡ vec_len out.old + 12 }
    ensures room { vec_capacity out.old ≤ vec_capacity out.new }
{
    put_four(out, pair.vertex);
    put_eight(out, pair.value);
}

/// The length of the pairs' bytes.
#[tactic(auto, using(crate::proofs::Lengths::length_pairs))]
pub fn pairs_length(pairs: &[Update]) -> usize
    requires { length pairs.now ≤ MOST_VERTICES }
    ensures is { result ≡ length (flat_map pair_bytes pairs.now) }
    ensures small { result ≤ 12 * MOST_VERTICES }
{
    12 * pairs.len()
}

/// Appends the pairs, for which there is room.
#[tactic(auto, using(crate::proofs::Lengths::length_pairs))]
pub fn put_pairs(out: &mut Vec<u8>, pairs: &[Update])
    requires { vec_len out.old + length (flat_map pair_bytes pairs.now) ≤ vec_capacity out.old }
    ensures { out.new.items ≡ out.old.items ++ flat_map pair_bytes pairs.now }
{
    for pair in pairs {
        put_pair(out, pair);
    }
}

fn take_pair(bytes: &[u8]) -> Option<(Update, &[u8])>
    ensures { MatchOption result (length bytes.now < 12) (λ p. (bytes.now ≡ pair_bytes p.0 ++ p.1.now) × PairHasRoom p.0) }
{
    let (vertex, rest) = take_four(bytes)?;
    let (value, rest) = take_eight(rest)?;
    Some((Update { vertex, value }, rest))
}

/// The pairs in bytes of a length that is a multiple of 12.
pub fn read_pairs(alloc: Global, bytes: &[u8]) -> Result<Vec<Update>, Memory>
    requires { length bytes.now % 12 ≡ 0 }
    ensures is { IfOk result (λ xs. flat_map pair_bytes xs.items ≡ bytes.now) }
    ensures room { IfOk result (λ xs. All PairHasRoom xs.items) }
{
    let mut pairs = Vec::with_capacity(alloc, bytes.len() / 12)?;
    let mut rest = bytes;
    while let Some((pair, after)) = take_pair(rest) {
        pairs.push(pair)?;
        rest = after;
    }
    Ok(pairs)
}

fn put_triple(out: &mut Vec<u8>, triple: &Triple)
    requires room { vec_len out.old + 12 ≤ vec_capacity out.old }
    requires weight { IsWord triple.now.weight }
    ensures items { out.new.items ≡ out.old.items ++ triple_bytes triple.now }
    ensures len { vec_len out.new ≡ vec_len out.old + 12 }
    ensures room { vec_capacity out.old ≤ vec_capacity out.new }
{
    put_four(out, triple.target);
    put_four(out, triple.source);
    put_four(out, triple.weight as u32);
}

/// The length of the triples' bytes.
#[tactic(auto, using(crate::proofs::Lengths::length_triples))]
pub fn triples_length(triples: &[Triple]) -> usize
    requires { length triples.now ≤ MOST_VERTICES }
    ensures is { result ≡ length (flat_map triple_bytes triples.now) }
    ensures small { result ≤ 12 * MOST_VERTICES }
{
    12 * triples.len()
}

/// Appends the triples, for which there is room.
#[tactic(auto, using(crate::proofs::Lengths::length_triples))]
pub fn put_triples(out: &mut Vec<u8>, triples: &[Triple])
    requires room { vec_len out.old + length (flat_map triple_bytes triples.now) ≤ vec_capacity out.old }
    requires weights { All (λ t. IsWord t.weight) triples.now }
    ensures { out.new.items ≡ out.old.items ++ flat_map triple_bytes triples.now }
{
    for triple in triples {
        put_triple(out, triple);
    }
}

fn take_triple(bytes: &[u8]) -> Option<(Triple, &[u8])>
    ensures { MatchOption result (length bytes.now < 12) (λ p. (bytes.now ≡ triple_bytes p.0 ++ p.1.now) × TripleHasRoom p.0) }
{
    let (target, rest) = take_four(bytes)?;
    let (source, rest) = take_four(rest)?;
    let (weight, rest) = take_four(rest)?;
    let triple = Triple {
        target,
        source,
        weight: u64::from(weight),
    };
    Some((triple, rest))
}

/// The triples in bytes of a length that is a multiple of 12.
pub fn read_triples(alloc: Global, bytes: &[u8]) -> Result<Vec<Triple>, Memory>
    requires { length bytes.now % 12 ≡ 0 }
    ensures is { IfOk result (λ xs. flat_map triple_bytes xs.items ≡ bytes.now) }
    ensures room { IfOk result (λ xs. All TripleHasRoom xs.items) }
{
    let mut triples = Vec::with_capacity(alloc, bytes.len() / 12)?;
    let mut rest = bytes;
    while let Some((triple, after)) = take_triple(rest) {
        triples.push(triple)?;
        rest = after;
    }
    Ok(triples)
}
