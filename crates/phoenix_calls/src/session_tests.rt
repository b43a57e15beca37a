//! Sessions that are recorded from worlds in memory, and replayed over bytes.
ghost use Rattle.std.specs.Prelude.{◌≡◌, ◌≤◌};
ghost use Rattle.px_base.specs.declared.TheConstants.{MOST_READS};
ghost use Rattle.px_base.specs.Core.{core_form};
ghost use Rattle.px_base.specs.Graphs.{HasWeights, read_count};
ghost use Rattle.px_base.specs.Parts.{PartFits};
ghost use Rattle.px_base.specs.Worlds.{CarriesValues, updates_in};

use crate::graphs::{FOUR, Placed, TRIANGLE, placed_part, world_on};
use px_base::{Frame, Items, Memory, Order, Part, Pos, Program, Row, Setup, Triple, Update};
use px_frames::{frame_fits, write_frame};
use px_io::{SureSink, SureSource};
use std::alloc::Global;
use std::process::Abort;
use std::test::Fail;
use std::thread::Threads;
use worker_serve::{ServeEnd, Session, serve};
use worker_world::World;

/// What a worker is sent, and what it answers.
#[derive(Drop)]
struct Recorded {
    input: Vec<u8>,
    output: Vec<u8>,
}

fn put(out: &mut Vec<u8>, frame: &Frame) -> Result<(), Fail> {
    if !frame_fits(frame) {
        return Err(Fail::new("a frame without a spelling"));
    }
    write_frame(out, frame)?;
    Ok(())
}

/// Appends the frame, unless it brings nothing.
fn put_some(out: &mut Vec<u8>, count: usize, frame: &Frame) -> Result<(), Fail> {
    if count > 0 {
        put(out, frame)?;
    }
    Ok(())
}

fn number(count: usize) -> u32 {
    count.min(u32::MAX as usize) as u32
}

/// Appends the reads of a row, with their reader.
fn put_row(triples: &mut Vec<Triple>, target: Pos, row: &Row<'_>) -> Result<(), Memory> {
    for k in 0..row.len() {
        let read = row.read(k);
        triples.push(Triple {
            target,
            source: read.source,
            weight: read.weight,
        })?;
    }
    Ok(())
}

/// The reads of all masters, with their readers.
fn triples_of(alloc: Global, part: &Part) -> Result<Vec<Triple>, Memory> {
    let mut triples = Vec::new(alloc);
    let mut target = part.low;
    for v in 0..part.rows.row_count() {
        put_row(&mut triples, target, &part.rows.row(v))?;
        target = target.saturating_add(1);
    }
    Ok(triples)
}

/// The mirrors with their start values.
fn mirrors_of(alloc: Global, part: &Part) -> Result<Vec<Update>, Memory> {
    let mut pairs = Vec::new(alloc);
    let starts = part.mirror_starts.as_slice();
    for (k, vertex) in part.mirrors.as_slice().iter().enumerate() {
        if k < starts.len() {
            pairs.push(Update {
                vertex: *vertex,
                value: starts[k],
            })?;
        }
    }
    Ok(pairs)
}

/// Appends the frames of the part's load.
fn put_load(alloc: Global, out: &mut Vec<u8>, part: &Part, program: Program) -> Result<(), Fail> {
    let triples = triples_of(alloc, part)?;
    let pairs = mirrors_of(alloc, part)?;
    let starts = part.starts.as_slice().to_vec(alloc)?;
    let boundary = part.boundary.as_slice().to_vec(alloc)?;
    let (masters, mirrors, border, reads) = (
        starts.len(),
        pairs.len(),
        boundary.len(),
        triples.len(),
    );
    let setup = Setup {
        index: part.index,
        low: part.low,
        high: part.high,
        program,
        chunks: 4,
        mirrors: number(mirrors),
        boundary: number(border),
        reads: number(reads),
    };
    put(out, &Frame::Setup(setup))?;
    put_some(out, masters, &Frame::Starts(Items::from_vec(starts)))?;
    put_some(out, mirrors, &Frame::Mirrors(Items::from_vec(pairs)))?;
    put_some(out, border, &Frame::Boundary(Items::from_vec(boundary)))?;
    put_some(out, reads, &Frame::Reads(Items::from_vec(triples)))?;
    put(out, &Frame::Ready)
}

/// Records the order, and what the world answers.
fn record<R: Threads + Sync>(
    rt: &R,
    world: &mut World,
    recorded: &mut Recorded,
    order: Order,
) -> Result<(), Fail>
    requires { CarriesValues (updates_in order) }
{
    match world.step(rt, &order) {
        Ok(answer) => {
            put(&mut recorded.input, &Frame::Order(order))?;
            put(&mut recorded.output, &Frame::Answer(answer))
        }
        Err(_) => Err(Fail::new("an order that is refused")),
    }
}

/// Records two steps, of which the second brings value 1 for this vertex, a fresh step, and a report.
fn recorded_session<R: Threads + Sync>(
    rt: &R,
    alloc: Global,
    placed: Placed,
    vertex: Pos,
) -> Result<Recorded, Fail>
    requires fits { PartFits placed.part }
    requires weights { HasWeights placed.part.rows }
    requires reads { read_count placed.part.rows ≤ MOST_READS }
    requires core { placed.core ≡ core_form placed.core.program }
{
    let mut recorded = Recorded {
        input: Vec::new(alloc),
        output: Vec::new(alloc),
    };
    put_load(
        alloc,
        &mut recorded.input,
        &placed.part,
        placed.core.program,
    )?;
    let mut world = world_on(alloc, placed)?;
    for (epoch, round) in [(1, 0), (2, 2)] {
        let updates = Items::from_vec(Vec::new(alloc));
        let order = Order::Step {
            epoch,
            round,
            updates,
        };
        record(rt, &mut world, &mut recorded, order)?;
        let updates = Items::from_vec([Update { vertex, value: 1 }].to_vec(alloc)?);
        let order = Order::Step {
            epoch,
            round: 3,
            updates,
        };
        record(rt, &mut world, &mut recorded, order)?;
    }
    record(rt, &mut world, &mut recorded, Order::Report { epoch: 2 })?;
    Ok(recorded)
}

/// Asserts that a session answers so, fed in pieces of this length.
fn assert_replayed<R: Abort + Threads + Sync>(
    rt: &R,
    alloc: Global,
    recorded: &Recorded,
    most: usize,
) {
    let mut session = Session::new(alloc);
    let mut out = Vec::new(alloc);
    for piece in recorded.input.chunks(most.max(1)) {
        assert_eq!(rt; session.feed(rt, piece, &mut out), Ok(()));
    }
    assert_eq!(rt; out.as_slice(), recorded.output.as_slice(), "by {most}");
}

/// How a worker that was served ended, and what it answered.
#[derive(Drop)]
struct Served {
    end: ServeEnd,
    output: Vec<u8>,
}

/// Serves a worker over a source and a sink.
fn serve_recorded<R: Threads + Sync>(
    rt: &R,
    alloc: Global,
    recorded: &Recorded,
) -> Result<Served, Memory> {
    let mut source = SureSource::new(recorded.input.as_slice().to_vec(alloc)?, 11);
    let mut sink = SureSink::new(alloc, 3);
    let end = serve(rt, alloc, &mut source, &mut sink);
    Ok(Served {
        end,
        output: sink.bytes().to_vec(alloc)?,
    })
}

/// Asserts that a worker that is served over a source and a sink answers so.
fn assert_served<R: Abort + Threads + Sync>(
    rt: &R,
    alloc: Global,
    recorded: &Recorded,
) -> Result<(), Memory> {
    let served = serve_recorded(rt, alloc, recorded)?;
    assert_eq!(rt; served.end, ServeEnd::End);
    assert_eq!(rt; served.output.as_slice(), recorded.output.as_slice());
    Ok(())
}

#[test]
fn sessions_are_replayed(rt: HostRuntime) -> Result<(), Fail> {
    // The vertex of the update is a mirror of the part, and for the last a master.
    let rows = [
        ("sssp", FOUR, 0, 2),
        ("widest", FOUR, 0, 2),
        ("colour", FOUR, 1, 1),
        ("kcore:2", TRIANGLE, 0, 0),
    ];
    for (name, lines, i, vertex) in rows {
        let placed = placed_part(rt.alloc(), name, lines, 2, i)?;
        let recorded = recorded_session(&rt, rt.alloc(), placed, vertex)?;
        for most in [1, 7, 4096] {
            assert_replayed(&rt, rt.alloc(), &recorded, most);
        }
        assert_served(&rt, rt.alloc(), &recorded)?;
    }
    Ok(())
}
