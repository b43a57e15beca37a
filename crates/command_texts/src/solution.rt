//! The text that a job comes to on its input.
ghost use Rattle.std.specs.Prelude.{◌≡◌, ◌≢◌, ◌≤◌, ◌&&◌, false, true, not, ℕ, IsTrue, Err, IfOk, Ok, OnErr, OnOk, List};
ghost use Rattle.std.specs.List.Sorted.{IsStrictlyIncreasing};
ghost use Rattle.px_base.specs.Lines.{EdgeListFits, IdEdge, IsEdgeListOf};
ghost use Rattle.px_base.specs.RowTexts.{IsRowProgram};
ghost use Rattle.px_base.specs.Starts.{uses_weight};
ghost use Rattle.px_io.specs.Causes.{Rose, RoseAtMostOnce};
ghost use Rattle.command_texts.specs.Endings.{after_edges, after_sources, classified};
ghost use Rattle.command_texts.specs.Jobs.{JobFits, reads_source, reads_weights};
ghost use Rattle.command_texts.specs.Solutions.{EndsAs, IsOfEdges, IsSolution, with_text};
ghost use Rattle.command_texts.specs.Ways.{WayFits};

use crate::Job;
use crate::answers_on::{Way, text_on};
use crate::class_texts::class_text;
use crate::parts_on::parts_on;
use crate::sources::unknown_source;
use command_ends::Stop;
use edge_reader::{EdgeFault, read_edges};
use px_base::{Along, Class, EdgeList, Id, Memory, Program};
use px_io::Source;
use std::alloc::Global;
use std::thread::Threads;

/// A text that may have wanted memory, as one that may have stopped.
fn or_stopped(text: Result<Vec<u8>, Memory>) -> Result<Vec<u8>, Stop>
    ensures ok { IfOk text (λ bytes. result ≡ Ok bytes) }
    ensures err { OnErr text (result ≡ Err Stop.Memory) }
{
    match text {
        Ok(text) => Ok(text),
        Err(Memory) => Err(Stop::Memory),
    }
}

/// The text of the answer of the program from the sources, on a list that was read.
#[tactic(auto, using(crate::proofs::ReadInputs::unknown_stops, crate::proofs::ReadInputs::answer_ends))]
fn answered<R: Threads + Sync>(
    rt: &R,
    alloc: Global,
    way: Way,
    program: &Program,
    sources: &[Id],
    list: &EdgeList,
) -> Result<Vec<u8>, Stop>
    requires way { WayFits way program.now }
    requires numbers { IsRowProgram program.now }
    requires fits { EdgeListFits list.now }
    requires rising { IsStrictlyIncreasing list.now.ids }
    ensures ends { (edges : List IdEdge) → IsEdgeListOf edges list.now → EndsAs (after_sources program.now sources.now edges) (with_text result) }
    ensures own { IsOfEdges (with_text result) }
{
    if let Some(id) = unknown_source(list.ids.as_slice(), sources) {
        return Err(Stop::UnknownSource { id });
    }
    or_stopped(text_on(rt, alloc, way, program, sources, list))
}

/// The text of a class.
fn class_line(alloc: Global, class: Class) -> Result<Vec<u8>, Stop>
    ensures ends { EndsAs (classified class) (with_text result) }
    ensures own { IsOfEdges (with_text result) }
{
    or_stopped(class_text(alloc, class))
}

/// What the job comes to on a list that was read.
fn text_of<R: Threads + Sync>(
    rt: &R,
    alloc: Global,
    job: &Job,
    list: &EdgeList,
) -> Result<Vec<u8>, Stop>
    requires job { JobFits job.now }
    requires fits { EdgeListFits list.now }
    requires rising { IsStrictlyIncreasing list.now.ids }
    ensures ends { (edges : List IdEdge) → IsEdgeListOf edges list.now → EndsAs (after_edges job.now edges) (with_text result) }
    ensures own { IsOfEdges (with_text result) }
{
    match job {
        Job::Run {
            program,
            sources,
            workers,
        } => {
            let way = Way::Rounds { workers: *workers };
            answered(rt, alloc, way, program, sources.as_slice(), list)
        }
        Job::Solve {
            program,
            sources,
            ..
        } => answered(rt, alloc, Way::Plainly, program, sources.as_slice(), list),
        Job::Classify { class } => class_line(alloc, *class),
        Job::Parts {
            program,
            workers,
            ..
        } => or_stopped(parts_on(alloc, program, *workers, list)),
    }
}

/// Whether the edge value depends on the weight of the read.
fn uses_weight(along: Along) -> bool
    ensures { result ≡ uses_weight along }
{
    match along {
        Along::PlusWeight | Along::FloorWeight | Along::CapWeight => true,
        Along::Same | Along::Plus(_) | Along::Minus(_) => false,
    }
}

/// Whether the job reads the weights of the input.
fn reads_weights(job: &Job) -> bool
    ensures { result ≡ reads_weights (Ok job.now) }
{
    match job {
        Job::Run { program, .. } => uses_weight(program.along),
        Job::Solve {
            program,
            unweighted,
            ..
        } => uses_weight(program.along) && !*unweighted,
        Job::Classify { .. } => false,
        Job::Parts {
            program,
            unweighted,
            ..
        } => uses_weight(program.along) && !*unweighted,
    }
}

/// Reads the source to its end, and answers what the job comes to on that input.
fn text_of_input<R: Threads + Sync, S: Source>(
    rt: &R,
    alloc: Global,
    job: &Job,
    source: &mut S,
) -> Result<Vec<u8>, Stop>
    requires job { JobFits job.now }
    requires reads { reads_source (Ok job.now) ≡ true }
    ensures solution { IsSolution (Ok job.now) (S.left source.old) (S.left source.new) (with_text result) }
    ensures read { result ≡ Err (Stop.Input EdgeFault.ReadFault) → Rose (S.faults source.old) (S.faults source.new) }
    ensures unwritten { result ≡ Err Stop.WriteFault → ⊥ }
    ensures faults_later { S.faults source.old ≤ S.faults source.new }
    ensures no_fault { result ≢ Err (Stop.Input EdgeFault.ReadFault) → S.faults source.new ≡ S.faults source.old }
    ensures ended { OnOk result (Rose (S.ends_told source.old) (S.ends_told source.new)) }
    ensures unknown { (id : ℕ) → result ≡ Err (Stop.UnknownSource id) → Rose (S.ends_told source.old) (S.ends_told source.new) }
    ensures counted { result ≡ Err (Stop.Input EdgeFault.TooManyVertices) → Rose (S.ends_told source.old) (S.ends_told source.new) }
    ensures not_ended { result ≡ Err (Stop.Input EdgeFault.ReadFault) → S.ends_told source.new ≡ S.ends_told source.old }
    ensures ended_once { RoseAtMostOnce (S.ends_told source.old) (S.ends_told source.new) }
{
    match read_edges(alloc, source, reads_weights(job)) {
        Ok(list) => text_of(rt, alloc, job, &list),
        Err(fault) => Err(Stop::Input(fault)),
    }
}

/// The text of the job, or why there is none. A job that doesn't read its input leaves the source as it is.
pub fn job_text<R: Threads + Sync, S: Source>(
    rt: &R,
    alloc: Global,
    job: &Job,
    source: &mut S,
) -> Result<Vec<u8>, Stop>
    requires { JobFits job.now }
    ensures solution { IsSolution (Ok job.now) (S.left source.old) (S.left source.new) (with_text result) }
    ensures unread { reads_source (Ok job.now) ≡ false → source.new ≡ source.old }
    ensures read { result ≡ Err (Stop.Input EdgeFault.ReadFault) → Rose (S.faults source.old) (S.faults source.new) }
    ensures reads { result ≡ Err (Stop.Input EdgeFault.ReadFault) → reads_source (Ok job.now) ≡ true }
    ensures unwritten { result ≡ Err Stop.WriteFault → ⊥ }
    ensures faults_later { S.faults source.old ≤ S.faults source.new }
    ensures no_fault { result ≢ Err (Stop.Input EdgeFault.ReadFault) → S.faults source.new ≡ S.faults source.old }
    ensures ended { reads_source (Ok job.now) ≡ true → OnOk result (Rose (S.ends_told source.old) (S.ends_told source.new)) }
    ensures unknown { (id : ℕ) → reads_source (Ok job.now) ≡ true → result ≡ Err (Stop.UnknownSource id) → Rose (S.ends_told source.old) (S.ends_told source.new) }
    ensures counted { result ≡ Err (Stop.Input EdgeFault.TooManyVertices) → Rose (S.ends_told source.old) (S.ends_told source.new) }
    ensures not_ended { result ≡ Err (Stop.Input EdgeFault.ReadFault) → S.ends_told source.new ≡ S.ends_told source.old }
    ensures ended_once { RoseAtMostOnce (S.ends_told source.old) (S.ends_told source.new) }
{
    match job {
        Job::Classify { class } => class_line(alloc, *class),
        _ => text_of_input(rt, alloc, job, source),
    }
}
