//! The laws.
ghost use Rattle.std.specs.Prelude.{◌≡◌, ◌≤◌, ℕ, IsOk, List};
ghost use Rattle.px_base.specs.declared.TheConstants.{MOST_READS, MOST_VERTICES};
ghost use Rattle.px_base.specs.declared.graph.ReadGraph.{ReadGraph as ReadGraphData};
ghost use Rattle.px_base.specs.declared.program.Program.{Program as ProgramData};
ghost use Rattle.px_base.specs.Classes.{class_of};
ghost use Rattle.px_base.specs.Core.{core_form};
ghost use Rattle.px_base.specs.Graphs.{RowsFit, read_count};
ghost use Rattle.px_base.specs.RowTexts.{IsRowProgram};
ghost use Rattle.px_base.specs.Values.{IsValueList};
ghost use Rattle.answers.specs.Built.{IsBuilt};
ghost use Rattle.hub_terms.specs.Jobs.{Job, IsSound, job_of};
ghost use Rattle.hub_terms.specs.Valid.{IsCoreAnswer};

/// A sound job has an answer in core values, and no second one.
pub fn every_sound_job_has_one_answer()
    ensures exists { (job : Job) → IsSound job → (a : List ℕ) × IsCoreAnswer job a }
    ensures only { (job : Job) (a b : List ℕ) → IsSound job → IsCoreAnswer job a → IsCoreAnswer job b → a ≡ b }
{}

/// An accepted program with the graph that was built for it and a core start value for each vertex is a sound job.
pub fn built_jobs_are_sound()
    ensures { (p : ProgramData) (graph : ReadGraphData) (starts : List ℕ) →
        IsOk (class_of p) → IsRowProgram p →
        IsBuilt p graph → RowsFit graph.n graph.rows → graph.n ≤ MOST_VERTICES → read_count graph.rows ≤ MOST_READS →
        IsValueList graph.n starts →
        IsSound (job_of graph (core_form p) starts) }
{}
