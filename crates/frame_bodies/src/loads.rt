//! The bodies of a load.
ghost use Rattle.std.specs.Prelude.{◌≡◌, IfOk};
ghost use Rattle.frame_bodies.specs.Bodies.{IsCandidate};

use crate::lists::{read_pairs, read_triples, read_values, read_vertices};
use crate::setup::read_setup;
use px_base::{Frame, Items, Memory};
use std::alloc::Global;

/// The setup's frame of this body.
pub fn read_setup_frame(body: &[u8]) -> Option<Frame>
    ensures { IsCandidate 1 body.now result }
{
    match read_setup(body) {
        Some(setup) => Some(Frame::Setup(setup)),
        None => None,
    }
}

/// The starts' frame of this body, within the limits or not.
pub fn read_starts(alloc: Global, body: &[u8]) -> Result<Option<Frame>, Memory>
    ensures { IfOk result (IsCandidate 2 body.now) }
{
    if body.len() % 8 != 0 {
        return Ok(None);
    }
    let values = read_values(alloc, body)?;
    Ok(Some(Frame::Starts(Items::from_vec(values))))
}

/// The mirrors' frame of this body, within the limits or not.
pub fn read_mirrors(alloc: Global, body: &[u8]) -> Result<Option<Frame>, Memory>
    ensures { IfOk result (IsCandidate 3 body.now) }
{
    if body.len() % 12 != 0 {
        return Ok(None);
    }
    let pairs = read_pairs(alloc, body)?;
    Ok(Some(Frame::Mirrors(Items::from_vec(pairs))))
}

/// The boundary's frame of this body, within the limits or not.
pub fn read_boundary(alloc: Global, body: &[u8]) -> Result<Option<Frame>, Memory>
    ensures { IfOk result (IsCandidate 4 body.now) }
{
    if body.len() % 4 != 0 {
        return Ok(None);
    }
    let vertices = read_vertices(alloc, body)?;
    Ok(Some(Frame::Boundary(Items::from_vec(vertices))))
}

/// The reads' frame of this body, within the limits or not.
pub fn read_reads(alloc: Global, body: &[u8]) -> Result<Option<Frame>, Memory>
    ensures { IfOk result (IsCandidate 5 body.now) }
{
    if body.len() % 12 != 0 {
        return Ok(None);
    }
    let triples = read_triples(alloc, body)?;
    Ok(Some(Frame::Reads(Items::from_vec(triples))))
}

/// The ready frame, where the body is empty.
pub fn read_ready(body: &[u8]) -> Option<Frame>
    ensures { IsCandidate 6 body.now result }
{
    if body.is_empty() {
        Some(Frame::Ready)
    } else {
        None
    }
}
