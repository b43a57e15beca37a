//! Where reads go by an order, the pull has one fixed point.
ghost use Rattle.std.specs.Prelude.{◌≡◌, ◌<◌, ◌≤◌, ℕ, All, List, Ok, length};
ghost use Rattle.px_base.specs.declared.TheConstants.{MOST_READS};
ghost use Rattle.px_base.specs.declared.graph.Edge.{Edge as EdgeData};
ghost use Rattle.px_base.specs.declared.graph.Read.{Read as ReadData};
ghost use Rattle.px_base.specs.declared.graph.ReadGraph.{ReadGraph as ReadGraphData};
ghost use Rattle.px_base.specs.declared.program.Form.{Form as FormData};
ghost use Rattle.px_base.specs.declared.program.Rank.{Rank as RankData};
ghost use Rattle.px_base.specs.declared.program.Reads.TheVariants.{Earlier};
ghost use Rattle.px_base.specs.declared.program.Program.{Program as ProgramData};
ghost use Rattle.px_base.specs.declared.program.Class.TheVariants.{SelfStabilising};
ghost use Rattle.px_base.specs.Values.{IsValueList};
ghost use Rattle.px_base.specs.Classes.{class_of};
ghost use Rattle.px_base.specs.Graphs.{IsGraphOf, RowsFit, read_count};
ghost use Rattle.px_base.specs.Laws.{IsOrdered};
ghost use Rattle.px_base.specs.Answers.{IsFixedPoint};
ghost use Rattle.ordered_solver.specs.Orders.{AreEarlier};

/// Where each source stands before its reader in some strict order of the positions, the pull has one fixed point. The
/// graph of earlier reads by either rank is such.
pub fn fixed_point_of_earlier_reads()
    ensures exists { (p : ProgramData) (rows : List (List ReadData)) (starts : List ℕ) →
        class_of p ≡ Ok SelfStabilising → IsOrdered rows → RowsFit (length rows) rows → IsValueList (length rows) starts → read_count rows ≤ MOST_READS →
        (x : List ℕ) × IsFixedPoint p rows starts x }
    ensures only { (p : ProgramData) (rows : List (List ReadData)) (starts x y : List ℕ) →
        IsOrdered rows → IsFixedPoint p rows starts x → IsFixedPoint p rows starts y → x ≡ y }
    ensures earlier { (form : FormData) (rank : RankData) (n : ℕ) (edges : List EdgeData) (graph : ReadGraphData) →
        IsGraphOf form (Earlier rank) n edges graph → AreEarlier (Earlier rank) graph }
    ensures ordered { (form : FormData) (rank : RankData) (n : ℕ) (edges : List EdgeData) (graph : ReadGraphData) →
        All (λ e. (e.source < n) × (e.target < n)) edges → IsGraphOf form (Earlier rank) n edges graph → IsOrdered graph.rows }
{}
