//! The command `worker`: how serving frames ends, as the end of a command.
ghost use Rattle.std.specs.Prelude.{◌≡◌, ◌≢◌, ◌≤◌};
ghost use Rattle.px_io.specs.Causes.{Rose, RoseAtMostOnce};
ghost use Rattle.phoenix_cli.specs.Calls.{IsServeRun, outcome_of, status_of};

use command_ends::{FrameFault, Stop};
use edge_reader::EdgeFault;
use px_io::{Sink, Source};
use std::alloc::Global;
use std::thread::Threads;
use worker_serve::{ServeEnd, serve};

/// What the end of a worker's serving comes to.
fn outcome_of(end: ServeEnd) -> Result<(), Stop>
    ensures { result ≡ outcome_of end }
{
    match end {
        ServeEnd::End => Ok(()),
        ServeEnd::Torn { at } => Err(Stop::Frame {
            at,
            what: FrameFault::NotAFrame,
        }),
        ServeEnd::Cut { at } => Err(Stop::Frame {
            at,
            what: FrameFault::Cut,
        }),
        ServeEnd::Refused { at } => Err(Stop::Frame {
            at,
            what: FrameFault::Refused,
        }),
        ServeEnd::TooLong => Err(Stop::TooManyFrameBytes),
        ServeEnd::ReadFault => Err(Stop::Input(EdgeFault::ReadFault)),
        ServeEnd::WriteFault => Err(Stop::WriteFault),
        ServeEnd::Memory => Err(Stop::Memory),
    }
}

/// Serves a worker: takes frames from the source, and writes a frame to the sink for each order.
pub fn serve_frames<R: Threads + Sync, S: Source, K: Sink>(
    rt: &R,
    alloc: Global,
    source: &mut S,
    sink: &mut K,
) -> Result<(), Stop>
    ensures run { IsServeRun result (S.left source.old) (S.left source.new) (K.written sink.old) (K.written sink.new) }
    ensures read_fault { status_of result ≡ 6 → Rose (S.faults source.old) (S.faults source.new) }
    ensures write_fault { status_of result ≡ 7 → Rose (K.faults sink.old) (K.faults sink.new) }
    ensures no_fault { status_of result ≢ 6 → S.faults source.new ≡ S.faults source.old }
    ensures no_write_fault { status_of result ≢ 7 → K.faults sink.new ≡ K.faults sink.old }
    ensures source_later { S.faults source.old ≤ S.faults source.new }
    ensures sink_later { K.faults sink.old ≤ K.faults sink.new }
    ensures spared { status_of result ≢ 11 → K.wants sink.new ≡ K.wants sink.old }
    ensures sink_wants { RoseAtMostOnce (K.wants sink.old) (K.wants sink.new) }
    ensures ended { status_of result ≡ 0 → Rose (S.ends_told source.old) (S.ends_told source.new) }
    ensures known { status_of result ≢ 12 }
    ensures not_ended { status_of result ≡ 6 → S.ends_told source.new ≡ S.ends_told source.old }
    ensures ended_once { RoseAtMostOnce (S.ends_told source.old) (S.ends_told source.new) }
{
    outcome_of(serve(rt, alloc, source, sink))
}
