//! Serves a worker: pieces of the source go into a session, and its answers into the sink.
ghost use Rattle.std.specs.Prelude.{◌≡◌, ◌≢◌, ◌<◌, ◌≤◌, ◌⊎◌, ℕ, List, [], Some, None, Ok, Err, IfOk, OnOk, OnErr, length, take, vec_len};
ghost use Rattle.px_base.specs.declared.wire.Answer.{Answer as AnswerData};
ghost use Rattle.px_base.specs.declared.frame.Frame.{Frame as FrameData};
ghost use Rattle.px_base.specs.FrameFits.{AreFramesOf};
ghost use Rattle.std.specs.Io.KnownBytes.{Consumes, IsAtEnd, Keeps};
ghost use Rattle.px_io.specs.Causes.{CountsEnd, Rose, RoseAtMostOnce};
ghost use Rattle.worker_serve.specs.Sessions.{Takes};
ghost use Rattle.worker_serve.specs.Streams.{BYTES, IsServed, IsPassed};

use crate::end::ServeEnd;
use crate::session::{MOST_BYTES, Session};
use px_base::Memory;
use px_io::{Failed, PutFault, Sink, Source, put_all};
use std::alloc::Global;
use std::thread::Threads;

/// How many bytes are asked of the source at once.
const PIECE: usize = 1 << 16;

/// A space of so many bytes.
fn zeros(alloc: Global, size: usize) -> Result<Vec<u8>, Memory>
    ensures { IfOk result (λ v. vec_len v ≡ size) }
{
    Ok(vec![in alloc; 0u8; size]?)
}

/// Takes some of the bytes that are left, at most as many as there is room for.
fn take_piece<S: Source>(source: &mut S, space: &mut [u8], room: u64) -> Result<usize, Failed>
    requires space { 0 < length space.old }
    requires room { 0 < room }
    ensures within { IfOk result (λ k. k ≤ length space.new) }
    ensures fits { IfOk result (λ k. k ≤ room) }
    ensures size { length space.new ≡ length space.old }
    ensures moved { IfOk result (λ k. Consumes (S.left source.old) (S.left source.new) (take k space.new)) }
    ensures ended { result ≡ Ok 0 → IsAtEnd (S.left source.new) }
    ensures kept { OnErr result (Keeps (S.left source.old) (S.left source.new)) }
    ensures failed { OnErr result (Rose (S.faults source.old) (S.faults source.new)) }
    ensures later { S.faults source.old ≤ S.faults source.new }
    ensures quiet { OnOk result (S.faults source.new ≡ S.faults source.old) }
    ensures told { CountsEnd (S.ends_told source.old) (S.ends_told source.new) result }
{
    let most = (space.len() as u64).min(room) as usize;
    source.take(&mut space[..most])
}

/// Feeds the piece to the session, and writes what it answers.
fn pass<R: Threads + Sync, K: Sink>(
    rt: &R,
    session: &mut Session,
    piece: &[u8],
    out: &mut Vec<u8>,
    sink: &mut K,
) -> Result<(), ServeEnd>
    requires { session.old.end ≡ None }
    ensures passed { IsPassed session.old piece.now session.new (K.written sink.old) (K.written sink.new) result }
    ensures write_fault { result ≡ Err ServeEnd.WriteFault → Rose (K.faults sink.old) (K.faults sink.new) }
    ensures no_write_fault { result ≢ Err ServeEnd.WriteFault → K.faults sink.new ≡ K.faults sink.old }
    ensures sink_later { K.faults sink.old ≤ K.faults sink.new }
    ensures spared { result ≢ Err ServeEnd.Memory → K.wants sink.new ≡ K.wants sink.old }
    ensures sink_wants { RoseAtMostOnce (K.wants sink.old) (K.wants sink.new) }
{
    out.clear();
    let fed = session.feed(rt, piece, out);
    match put_all(sink, out.as_slice()) {
        Ok(()) => fed,
        Err(PutFault::Failed) => Err(ServeEnd::WriteFault),
        Err(PutFault::Memory) => Err(ServeEnd::Memory),
    }
}

/// Serves pieces of the source until the session or the input ends.
fn serve_pieces<R: Threads + Sync, S: Source, K: Sink>(
    rt: &R,
    alloc: Global,
    source: &mut S,
    sink: &mut K,
    space: &mut [u8],
) -> ServeEnd
    requires { 0 < length space.old }
    ensures served { IsServed (S.left source.old) (S.left source.new) (K.written sink.old) (K.written sink.new) result }
    ensures read_fault { result ≡ ServeEnd.ReadFault → Rose (S.faults source.old) (S.faults source.new) }
    ensures no_fault { result ≢ ServeEnd.ReadFault → S.faults source.new ≡ S.faults source.old }
    ensures write_fault { result ≡ ServeEnd.WriteFault → Rose (K.faults sink.old) (K.faults sink.new) }
    ensures no_write_fault { result ≢ ServeEnd.WriteFault → K.faults sink.new ≡ K.faults sink.old }
    ensures source_later { S.faults source.old ≤ S.faults source.new }
    ensures sink_later { K.faults sink.old ≤ K.faults sink.new }
    ensures spared { result ≢ ServeEnd.Memory → K.wants sink.new ≡ K.wants sink.old }
    ensures sink_wants { RoseAtMostOnce (K.wants sink.old) (K.wants sink.new) }
    ensures ended { result ≡ ServeEnd.End → Rose (S.ends_told source.old) (S.ends_told source.new) }
    ensures not_ended { result ≡ ServeEnd.ReadFault → S.ends_told source.new ≡ S.ends_told source.old }
    ensures ended_once { RoseAtMostOnce (S.ends_told source.old) (S.ends_told source.new) }
{
    let mut session = Session::new(alloc);
    let mut out = Vec::new(alloc);
    let mut room = MOST_BYTES;
    while room > 0 {
        let count = match take_piece(source, space, room) {
            Ok(count) => count,
            Err(_) => return ServeEnd::ReadFault,
        };
        if count == 0 {
            return session.at_end();
        }
        if let Err(end) = pass(rt, &mut session, &space[..count], &mut out, sink) {
            return end;
        }
        room -= count as u64;
    }
    ServeEnd::TooLong
}

/// Serves a worker: takes frames from the source, and writes a frame to the sink for each order, before it takes more
/// bytes. It ends where the input ends, where a frame is torn or isn't taken, after 2^62 bytes, or where source, sink or
/// memory fail. The answers to all orders before that place are written then, or after a fault of the sink or want of memory
/// the front of them.
#[tactic(auto, using(crate::proofs::Ends::ends_well, crate::proofs::Passing::wants_at_once))]
pub fn serve<R: Threads + Sync, S: Source, K: Sink>(
    rt: &R,
    alloc: Global,
    source: &mut S,
    sink: &mut K,
) -> ServeEnd
    ensures served { IsServed (S.left source.old) (S.left source.new) (K.written sink.old) (K.written sink.new) result }
    ensures complete { (all : List ℕ) (frames : List FrameData) (answers : List AnswerData) → S.left source.old ≡ Some all → AreFramesOf all frames [] → Takes frames answers → length all < BYTES →
        (result ≡ ServeEnd.End) ⊎ ((result ≡ ServeEnd.ReadFault) ⊎ ((result ≡ ServeEnd.WriteFault) ⊎ (result ≡ ServeEnd.Memory))) }
    ensures read_fault { result ≡ ServeEnd.ReadFault → Rose (S.faults source.old) (S.faults source.new) }
    ensures no_fault { result ≢ ServeEnd.ReadFault → S.faults source.new ≡ S.faults source.old }
    ensures write_fault { result ≡ ServeEnd.WriteFault → Rose (K.faults sink.old) (K.faults sink.new) }
    ensures no_write_fault { result ≢ ServeEnd.WriteFault → K.faults sink.new ≡ K.faults sink.old }
    ensures source_later { S.faults source.old ≤ S.faults source.new }
    ensures sink_later { K.faults sink.old ≤ K.faults sink.new }
    ensures spared { result ≢ ServeEnd.Memory → K.wants sink.new ≡ K.wants sink.old }
    ensures sink_wants { RoseAtMostOnce (K.wants sink.old) (K.wants sink.new) }
    ensures ended { result ≡ ServeEnd.End → Rose (S.ends_told source.old) (S.ends_told source.new) }
    ensures not_ended { result ≡ ServeEnd.ReadFault → S.ends_told source.new ≡ S.ends_told source.old }
    ensures ended_once { RoseAtMostOnce (S.ends_told source.old) (S.ends_told source.new) }
{
    match zeros(alloc, PIECE) {
        Ok(mut space) => serve_pieces(rt, alloc, source, sink, space.as_mut_slice()),
        Err(Memory) => ServeEnd::Memory,
    }
}
