//! What is within the limits of an input is within those of an edge list.
ghost use Rattle.std.specs.Prelude.{◌≡◌, Bool, List, Ok, ℕ};
ghost use Rattle.px_base.specs.declared.graph.EdgeList.{EdgeList as EdgeListData};
ghost use Rattle.px_base.specs.Inputs.{input_limits, input_of};
ghost use Rattle.px_base.specs.Lines.{EdgeListFits, IdEdge, IsEdgeListOf};

/// The edges of an input within the limits have no list but such as is within the limits.
pub fn inputs_fit()
    ensures { (weighted : Bool) (bytes : List ℕ) (edges : List IdEdge) (list : EdgeListData) → input_of input_limits weighted bytes ≡ Ok edges →
        IsEdgeListOf edges list → EdgeListFits list }
{}
