//! That the frames of a part are a whole load, and that this load makes the part.
ghost use Rattle.std.specs.Prelude.{◌≡◌, ◌^◌, ◌≤◌, ◌<◌, ℕ, List, All, length};
ghost use Rattle.px_base.specs.declared.TheConstants.{MOST_READS, MOST_VERTICES};
ghost use Rattle.px_base.specs.declared.graph.Part.{Part as PartData};
ghost use Rattle.px_base.specs.declared.graph.ReadGraph.{ReadGraph as ReadGraphData};
ghost use Rattle.px_base.specs.declared.graph.Edge.{Edge as EdgeData};
ghost use Rattle.px_base.specs.declared.program.Form.{Form as FormData};
ghost use Rattle.px_base.specs.declared.program.Program.{Program as ProgramData};
ghost use Rattle.px_base.specs.declared.program.Reads.{Reads as ReadsData};
ghost use Rattle.px_base.specs.FrameFits.{FrameFits, SetupFits};
ghost use Rattle.px_base.specs.Graphs.{IsGraphOf, RowsFit, read_count};
ghost use Rattle.px_base.specs.Parts.{IsWorkerCuts, part_count, part_of};
ghost use Rattle.px_base.specs.Values.{IsValue};
ghost use Rattle.px_base.specs.RowTexts.{IsRowProgram};
ghost use Rattle.part_loads.specs.Loads.{AreInOrder, IsWhole, loaded_part};
ghost use Rattle.load_laws.specs.PartFrames.{IsLoadable, load_of};

/// Each part whose rows are in order, with any program of a row and 1 to 64 chunks, has a load in frames of at most `most`
/// entries, for each `most` that a frame may have: its setup and its frames fit and are in order, it is whole, and it makes the
/// part.
pub fn parts_have_frames()
    ensures setup { (part : PartData) (program : ProgramData) (chunks most : ℕ) →
        IsLoadable part → IsRowProgram program → 1 ≤ chunks → chunks ≤ 64 →
        SetupFits (load_of part program chunks most).setup }
    ensures frames { (part : PartData) (program : ProgramData) (chunks most : ℕ) →
        IsLoadable part → 1 ≤ most → most ≤ 2 ^ 20 →
        All FrameFits (load_of part program chunks most).pieces }
    ensures order { (part : PartData) (program : ProgramData) (chunks most : ℕ) →
        AreInOrder (load_of part program chunks most).pieces }
    ensures part { (part : PartData) (program : ProgramData) (chunks most : ℕ) →
        IsLoadable part → 1 ≤ most →
        loaded_part (load_of part program chunks most) ≡ part }
    ensures whole { (part : PartData) (program : ProgramData) (chunks most : ℕ) →
        IsLoadable part → 1 ≤ most →
        IsWhole (load_of part program chunks most) }
{}

/// The parts of a graph of edges within the limits have loads, in any cuts for workers and from any start values.
pub fn graph_parts_have_frames()
    ensures { (form : FormData) (reads : ReadsData) (n : ℕ) (edges : List EdgeData) (graph : ReadGraphData) (starts cuts : List ℕ) (i : ℕ) →
        IsGraphOf form reads n edges graph → n ≤ MOST_VERTICES → RowsFit n graph.rows → read_count graph.rows ≤ MOST_READS →
        length starts ≡ n → All IsValue starts → IsWorkerCuts n cuts → i < part_count cuts →
        IsLoadable (part_of graph.rows starts cuts i) }
{}
