//! Each program with a class has one answer.
ghost use Rattle.std.specs.Prelude.{◌≡◌, ◌≤◌, ℕ, List, IsOk};
ghost use Rattle.px_base.specs.declared.TheConstants.{MOST_READS};
ghost use Rattle.px_base.specs.declared.graph.ReadGraph.{ReadGraph as ReadGraphData};
ghost use Rattle.px_base.specs.declared.program.Program.{Program as ProgramData};
ghost use Rattle.px_base.specs.Answers.{IsAnswer};
ghost use Rattle.px_base.specs.Classes.{class_of};
ghost use Rattle.px_base.specs.Graphs.{RowsFit, read_count};
ghost use Rattle.px_base.specs.Values.{IsValueList};
ghost use Rattle.answers.specs.Built.{IsBuilt};

/// Every program with a class has an answer on every graph that was built for it, and no other.
pub fn every_program_has_one_answer()
    ensures exists { (p : ProgramData) (graph : ReadGraphData) (starts : List ℕ) →
        IsOk (class_of p) → IsBuilt p graph → RowsFit graph.n graph.rows → read_count graph.rows ≤ MOST_READS → IsValueList graph.n starts →
        (x : List ℕ) × IsAnswer p graph.rows starts x }
    ensures only { (p : ProgramData) (graph : ReadGraphData) (starts x y : List ℕ) →
        IsBuilt p graph → IsAnswer p graph.rows starts x → IsAnswer p graph.rows starts y → x ≡ y }
{}
