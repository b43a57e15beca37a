//! The whole program: words and an input come in, and a text or one line of a fault goes out, with a status.
ghost use Rattle.std.specs.Prelude.{◌≡◌, ◌≢◌, ◌≤◌, false, true, IfErr, IfOk, IsTrue, Ok, Err, None};
ghost use Rattle.px_io.specs.Causes.{Rose, RoseAtMostOnce};
ghost use Rattle.command_texts.specs.Solutions.{is_decided};
ghost use Rattle.command_texts.specs.Jobs.{JobFits, reads_source};
ghost use Rattle.command_texts.specs.Plans.{PlanFits, plan_of, plan_reads, serves_frames};
ghost use Rattle.command_words.specs.CommandWords.{command_of};
ghost use Rattle.phoenix_cli.specs.Calls.{IsCallOf, IsRunOf, IsTextRun, is_status, status_of};

use crate::serving::serve_frames;
use command_ends::{Stop, report, stop_status};
use command_texts::{Job, Plan, job_text, plan};
use command_words::read_command;
use px_base::{Memory, Words};
use px_io::{PutFault, Sink, Source, put_all};
use std::alloc::Global;
use std::thread::Threads;

/// Finds the text of the job, and writes it.
fn write_text<R: Threads + Sync, S: Source, K: Sink>(
    rt: &R,
    alloc: Global,
    job: &Job,
    source: &mut S,
    sink: &mut K,
) -> Result<(), Stop>
    requires fits { JobFits job.now }
    ensures run { IsTextRun (Ok job.now) result (S.left source.old) (S.left source.new) (K.written sink.old) (K.written sink.new) }
    ensures unread { reads_source (Ok job.now) ≡ false → source.new ≡ source.old }
    ensures reads { status_of result ≡ 6 → reads_source (Ok job.now) ≡ true }
    ensures read_fault { status_of result ≡ 6 → Rose (S.faults source.old) (S.faults source.new) }
    ensures write_fault { status_of result ≡ 7 → Rose (K.faults sink.old) (K.faults sink.new) }
    ensures no_fault { status_of result ≢ 6 → S.faults source.new ≡ S.faults source.old }
    ensures no_write_fault { status_of result ≢ 7 → K.faults sink.new ≡ K.faults sink.old }
    ensures untouched { status_of result ≢ 0 → status_of result ≢ 7 → status_of result ≢ 11 → sink.new ≡ sink.old }
    ensures source_later { S.faults source.old ≤ S.faults source.new }
    ensures sink_later { K.faults sink.old ≤ K.faults sink.new }
    ensures spared { status_of result ≢ 11 → K.wants sink.new ≡ K.wants sink.old }
    ensures sink_wants { RoseAtMostOnce (K.wants sink.old) (K.wants sink.new) }
    ensures ended { status_of result ≡ 0 → reads_source (Ok job.now) ≡ true → Rose (S.ends_told source.old) (S.ends_told source.new) }
    ensures unknown { status_of result ≡ 12 → reads_source (Ok job.now) ≡ true → Rose (S.ends_told source.old) (S.ends_told source.new) }
    ensures not_ended { status_of result ≡ 6 → S.ends_told source.new ≡ S.ends_told source.old }
    ensures ended_once { RoseAtMostOnce (S.ends_told source.old) (S.ends_told source.new) }
{
    let text = match job_text(rt, alloc, job, source) {
        Ok(text) => text,
        Err(stop) => return Err(stop),
    };
    match put_all(sink, text.as_slice()) {
        Ok(()) => Ok(()),
        Err(PutFault::Failed) => Err(Stop::WriteFault),
        Err(PutFault::Memory) => Err(Stop::Memory),
    }
}

/// Does what the plan says, unless it is a stop.
fn follow<R: Threads + Sync, S: Source, K: Sink>(
    rt: &R,
    alloc: Global,
    plan: Result<Plan, Stop>,
    source: &mut S,
    sink: &mut K,
) -> Result<(), Stop>
    requires fits { IfOk plan (λ plan. PlanFits plan) }
    requires decided { IfErr plan (λ why. IsTrue (is_decided why)) }
    ensures run { IsRunOf plan result (S.left source.old) (S.left source.new) (K.written sink.old) (K.written sink.new) }
    ensures stopped { IfErr plan (λ why. result ≡ Err why) }
    ensures unread { plan_reads plan ≡ false → source.new ≡ source.old }
    ensures reads { status_of result ≡ 6 → plan_reads plan ≡ true }
    ensures read_fault { status_of result ≡ 6 → Rose (S.faults source.old) (S.faults source.new) }
    ensures write_fault { status_of result ≡ 7 → Rose (K.faults sink.old) (K.faults sink.new) }
    ensures no_fault { status_of result ≢ 6 → S.faults source.new ≡ S.faults source.old }
    ensures no_write_fault { status_of result ≢ 7 → K.faults sink.new ≡ K.faults sink.old }
    ensures untouched { serves_frames plan ≡ false → status_of result ≢ 0 → status_of result ≢ 7 → status_of result ≢ 11 → sink.new ≡ sink.old }
    ensures source_later { S.faults source.old ≤ S.faults source.new }
    ensures sink_later { K.faults sink.old ≤ K.faults sink.new }
    ensures spared { status_of result ≢ 11 → K.wants sink.new ≡ K.wants sink.old }
    ensures sink_wants { RoseAtMostOnce (K.wants sink.old) (K.wants sink.new) }
    ensures ended { status_of result ≡ 0 → plan_reads plan ≡ true → Rose (S.ends_told source.old) (S.ends_told source.new) }
    ensures unknown { status_of result ≡ 12 → plan_reads plan ≡ true → Rose (S.ends_told source.old) (S.ends_told source.new) }
    ensures not_ended { status_of result ≡ 6 → S.ends_told source.new ≡ S.ends_told source.old }
    ensures ended_once { RoseAtMostOnce (S.ends_told source.old) (S.ends_told source.new) }
{
    match plan {
        Ok(Plan::Write(job)) => write_text(rt, alloc, &job, source, sink),
        Ok(Plan::Serve) => serve_frames(rt, alloc, source, sink),
        Err(stop) => Err(stop),
    }
}

/// Reads the words, and then does what they ask for.
fn perform<R: Threads + Sync, S: Source, K: Sink>(
    rt: &R,
    alloc: Global,
    words: &Words,
    source: &mut S,
    sink: &mut K,
) -> Result<(), Stop>
    ensures known { IsTrue (is_status (status_of result)) }
    ensures words { command_of words.now ≡ None → result ≡ Err Stop.BadWords }
    ensures run { IsRunOf (plan_of (command_of words.now)) result (S.left source.old) (S.left source.new) (K.written sink.old) (K.written sink.new) }
    ensures unread { plan_reads (plan_of (command_of words.now)) ≡ false → source.new ≡ source.old }
    ensures reads { status_of result ≡ 6 → plan_reads (plan_of (command_of words.now)) ≡ true }
    ensures read_fault { status_of result ≡ 6 → Rose (S.faults source.old) (S.faults source.new) }
    ensures write_fault { status_of result ≡ 7 → Rose (K.faults sink.old) (K.faults sink.new) }
    ensures no_fault { status_of result ≢ 6 → S.faults source.new ≡ S.faults source.old }
    ensures no_write_fault { status_of result ≢ 7 → K.faults sink.new ≡ K.faults sink.old }
    ensures untouched { serves_frames (plan_of (command_of words.now)) ≡ false → status_of result ≢ 0 → status_of result ≢ 7 → status_of result ≢ 11 → sink.new ≡ sink.old }
    ensures source_later { S.faults source.old ≤ S.faults source.new }
    ensures sink_later { K.faults sink.old ≤ K.faults sink.new }
    ensures spared { status_of result ≢ 11 → K.wants sink.new ≡ K.wants sink.old }
    ensures sink_wants { RoseAtMostOnce (K.wants sink.old) (K.wants sink.new) }
    ensures ended { status_of result ≡ 0 → plan_reads (plan_of (command_of words.now)) ≡ true → Rose (S.ends_told source.old) (S.ends_told source.new) }
    ensures unknown { status_of result ≡ 12 → plan_reads (plan_of (command_of words.now)) ≡ true → Rose (S.ends_told source.old) (S.ends_told source.new) }
    ensures not_ended { status_of result ≡ 6 → S.ends_told source.new ≡ S.ends_told source.old }
    ensures ended_once { RoseAtMostOnce (S.ends_told source.old) (S.ends_told source.new) }
{
    match read_command(alloc, words) {
        Ok(command) => follow(rt, alloc, plan(command), source, sink),
        Err(Memory) => Err(Stop::Memory),
    }
}

/// Does what the words ask for. The source gives the edge list, and is read only where a command needs one; the sink gets
/// the text of the command; where there is none, `faults` gets one line that says why. Answers the status to exit with: 0
/// where the text is written whole; 2 for words that no command has, and, for `run` and `solve`, for sources where the
/// program starts from none or none where it needs some; 3 for a line outside the grammar; 4 for a program that is none,
/// is refused, or can't be run yet; 5 where a limit is passed; 6 and 7 where the source or the sink failed; 11 where
/// memory was wanting; 12 where no edge line has a source.
///
/// `worker` serves a worker: the source gives frames, and the sink gets a frame for each order as soon as it came. 0 where
/// the input ends after a frame; 13 where what follows is no frame, ends too early, or isn't taken; 5 after 2^62 bytes. The
/// answers to all orders before are written then, and before 6 too; before 7 and 11 the front of them.
pub fn phoenix<R: Threads + Sync, S: Source, K: Sink, F: Sink>(
    rt: &R,
    alloc: Global,
    words: &Words,
    source: &mut S,
    sink: &mut K,
    faults: &mut F,
) -> u8
    ensures known { IsTrue (is_status result) }

    // The status is that of an outcome of the plan that the words make, on the bytes of the source. 0 has written the whole
    // text of the ending, 7 and 11 a prefix of it, and the others nothing; they come just where the words and the input
    // say so, but for 6, 7 and 11. A worker has written its answers to the orders that it took, or with 7 and 11 the front
    // of them. The line on `faults` says why.
    ensures call { IsCallOf (plan_of (command_of words.now)) result (S.left source.old) (S.left source.new) (K.written sink.old) (K.written sink.new)
        (F.written faults.old) (F.written faults.new) (F.faults faults.old) (F.faults faults.new) (F.wants faults.old) (F.wants faults.new) }

    // Telling words apart takes no memory, so words that no command has are 2 always.
    ensures words { command_of words.now ≡ None → result ≡ 2 }

    // What isn't needed is left alone: the source where the plan reads none, the sink without a text or a frame, `faults`
    // with 0.
    ensures unread { plan_reads (plan_of (command_of words.now)) ≡ false → source.new ≡ source.old }
    ensures untouched { serves_frames (plan_of (command_of words.now)) ≡ false → result ≢ 0 → result ≢ 7 → result ≢ 11 → sink.new ≡ sink.old }
    ensures silent { result ≡ 0 → faults.new ≡ faults.old }

    // 6 and 7: the source, which the plan reads, or the sink failed in this call, once. Where one of them failed no other
    // status comes, and where the sink wanted memory, once too, none but 11. No count falls.
    ensures reads { result ≡ 6 → plan_reads (plan_of (command_of words.now)) ≡ true }
    ensures read_fault { result ≡ 6 → Rose (S.faults source.old) (S.faults source.new) }
    ensures no_fault { result ≢ 6 → S.faults source.new ≡ S.faults source.old }
    ensures write_fault { result ≡ 7 → Rose (K.faults sink.old) (K.faults sink.new) }
    ensures no_write_fault { result ≢ 7 → K.faults sink.new ≡ K.faults sink.old }
    ensures source_later { S.faults source.old ≤ S.faults source.new }
    ensures sink_later { K.faults sink.old ≤ K.faults sink.new }
    ensures spared { result ≢ 11 → K.wants sink.new ≡ K.wants sink.old }
    ensures sink_wants { RoseAtMostOnce (K.wants sink.old) (K.wants sink.new) }

    // A source is asked until it says its end, before 0 and 12 where the plan reads it. It isn't asked again then.
    ensures ended { result ≡ 0 → plan_reads (plan_of (command_of words.now)) ≡ true → Rose (S.ends_told source.old) (S.ends_told source.new) }
    ensures unknown { result ≡ 12 → plan_reads (plan_of (command_of words.now)) ≡ true → Rose (S.ends_told source.old) (S.ends_told source.new) }
    ensures not_ended { result ≡ 6 → S.ends_told source.new ≡ S.ends_told source.old }
    ensures ended_once { RoseAtMostOnce (S.ends_told source.old) (S.ends_told source.new) }

    ensures faults_later { F.faults faults.old ≤ F.faults faults.new }
    ensures faults_wants_later { F.wants faults.old ≤ F.wants faults.new }
{
    match perform(rt, alloc, words, source, sink) {
        Ok(()) => 0,
        Err(stop) => {
            report(faults, stop);
            stop_status(stop)
        }
    }
}
