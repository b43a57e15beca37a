//! The table of kinds. Each kind has a line in each of the functions below that tell kinds apart, and in `write_frame` of
//! the crate above; and it has a reader and a writer of its own for its body. The kinds of orders are told apart in
//! `orders`, those of answers in `answers`.
ghost use Rattle.std.specs.Prelude.{◌≡◌, ◌^◌, ◌≤◌, IfOk, length};
ghost use Rattle.px_base.specs.Frames.{kind_of, body_of};
ghost use Rattle.px_base.specs.FrameFits.{FrameFits};
ghost use Rattle.frame_bodies.specs.Bodies.{IsCandidate, IsBody};

use crate::answers::{answer_kind, answer_length, read_reported, read_stepped};
use crate::fits::frame_fits;
use crate::lists::{pairs_length, triples_length, values_length, vertices_length};
use crate::loads::{
    read_boundary, read_mirrors, read_reads, read_ready, read_setup_frame, read_starts,
};
use crate::orders::{order_kind, order_length, read_report, read_step};
use crate::setup::SETUP_LENGTH;
use px_base::{Frame, Memory};
use std::alloc::Global;

/// The kind of a setup, as it stands in a header.
pub const SETUP: u8 = 1;

/// The kind of start values.
pub const STARTS: u8 = 2;

/// The kind of mirrors and their values.
pub const MIRRORS: u8 = 3;

/// The kind of boundary vertices.
pub const BOUNDARY: u8 = 4;

/// The kind of reads.
pub const READS: u8 = 5;

/// The kind of the frame that ends a load.
pub const READY: u8 = 6;

/// The kind of an order to step.
pub const STEP: u8 = 7;

/// The kind of an order to report.
pub const REPORT: u8 = 8;

/// The kind of an answer to a step.
pub const STEPPED: u8 = 9;

/// The kind of an answer to a report.
pub const REPORTED: u8 = 10;

/// The kind of the frame.
pub fn kind_of(frame: &Frame) -> u8
    ensures { result ≡ kind_of frame.now }
{
    match frame {
        Frame::Setup(_) => SETUP,
        Frame::Starts(_) => STARTS,
        Frame::Mirrors(_) => MIRRORS,
        Frame::Boundary(_) => BOUNDARY,
        Frame::Reads(_) => READS,
        Frame::Ready => READY,
        Frame::Order(order) => order_kind(order),
        Frame::Answer(answer) => answer_kind(answer),
    }
}

/// The length of the frame's body in bytes.
#[tactic(auto, using(crate::proofs::Lengths::body_small))]
pub fn body_length(frame: &Frame) -> usize
    requires { FrameFits frame.now }
    ensures is { result ≡ length (body_of frame.now) }
    ensures small { result ≤ 2 ^ 26 }
{
    match frame {
        Frame::Setup(_) => SETUP_LENGTH,
        Frame::Starts(values) => values_length(values.as_slice()),
        Frame::Mirrors(pairs) => pairs_length(pairs.as_slice()),
        Frame::Boundary(vertices) => vertices_length(vertices.as_slice()),
        Frame::Reads(triples) => triples_length(triples.as_slice()),
        Frame::Ready => 0,
        Frame::Order(order) => order_length(order),
        Frame::Answer(answer) => answer_length(answer),
    }
}

/// The frame of this kind and this body, within the limits or not.
fn read_candidate(alloc: Global, kind: u8, body: &[u8]) -> Result<Option<Frame>, Memory>
    ensures { IfOk result (IsCandidate kind body.now) }
{
    match kind {
        SETUP => Ok(read_setup_frame(body)),
        STARTS => read_starts(alloc, body),
        MIRRORS => read_mirrors(alloc, body),
        BOUNDARY => read_boundary(alloc, body),
        READS => read_reads(alloc, body),
        READY => Ok(read_ready(body)),
        STEP => read_step(alloc, body),
        REPORT => Ok(read_report(body)),
        STEPPED => read_stepped(alloc, body),
        REPORTED => read_reported(alloc, body),
        _ => Ok(None),
    }
}

/// The frame of this kind and this body that fits, if there is one.
pub fn read_body(alloc: Global, kind: u8, body: &[u8]) -> Result<Option<Frame>, Memory>
    ensures { IfOk result (IsBody kind body.now) }
{
    let Some(frame) = read_candidate(alloc, kind, body)? else {
        return Ok(None);
    };
    if frame_fits(&frame) {
        Ok(Some(frame))
    } else {
        Ok(None)
    }
}
