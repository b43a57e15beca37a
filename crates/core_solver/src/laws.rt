//! Each graph has one k-core.
ghost use Rattle.std.specs.Prelude.{◌≡◌, ℕ, List, length};
ghost use Rattle.px_base.specs.declared.graph.Edge.{Edge as EdgeData};
ghost use Rattle.px_base.specs.declared.graph.Read.{Read as ReadData};
ghost use Rattle.px_base.specs.declared.graph.ReadGraph.{ReadGraph as ReadGraphData};
ghost use Rattle.px_base.specs.declared.program.Form.TheVariants.{Simple};
ghost use Rattle.px_base.specs.declared.program.Reads.TheVariants as reads_kind;
ghost use Rattle.px_base.specs.Graphs.{IsGraphOf};
ghost use Rattle.px_base.specs.Answers.{IsKCore};
ghost use Rattle.core_solver.specs.Mutual.{AreMutual};

/// Each graph has one k-core, for each k. In the simple form of a graph with all its reads, reading is mutual.
pub fn greatest_core()
    ensures exists { (k : ℕ) (rows : List (List ReadData)) → (x : List ℕ) × IsKCore k rows x }
    ensures only { (k : ℕ) (rows : List (List ReadData)) (x y : List ℕ) → IsKCore k rows x → IsKCore k rows y → x ≡ y }
    ensures simple_is_mutual { (n : ℕ) (edges : List EdgeData) (graph : ReadGraphData) → IsGraphOf Simple reads_kind.All n edges graph → AreMutual graph.rows }
{}
