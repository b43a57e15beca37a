//! Each input has one text, and each ending too.
ghost use Rattle.std.specs.Prelude.{◌≡◌, ◌≢◌, ◌≤◌, ◌*◌, ℕ, List, Ok, length};
ghost use Rattle.px_base.specs.declared.graph.Edge.{Edge as EdgeData};
ghost use Rattle.px_base.specs.declared.graph.EdgeList.{EdgeList as EdgeListData};
ghost use Rattle.px_base.specs.declared.graph.ReadGraph.{ReadGraph as ReadGraphData};
ghost use Rattle.px_base.specs.declared.program.Form.{Form as FormData};
ghost use Rattle.px_base.specs.declared.program.Program.{Program as ProgramData};
ghost use Rattle.px_base.specs.declared.program.Reads.{Reads as ReadsData};
ghost use Rattle.px_base.specs.AnswerTexts.{IsAnswerText};
ghost use Rattle.px_base.specs.Graphs.{IsGraphOf, read_count};
ghost use Rattle.px_base.specs.Lines.{IdEdge, IsEdgeListOf};
ghost use Rattle.command_ends.specs.declared.stop.Stop.{Stop as StopData};
ghost use Rattle.command_texts.specs.declared.job.Job.{Job as JobData};
ghost use Rattle.command_texts.specs.Endings.{Ending, IsEndingText, ending_of, stopped};
ghost use Rattle.command_texts.specs.Jobs.{JobFits};

/// Edges have a list, a list has a graph of each form, with at most two reads for each edge, and there is no second one. A
/// program's answer on edges has no second text.
pub fn every_input_has_one_text()
    ensures some_list { (edges : List IdEdge) → (list : EdgeListData) × IsEdgeListOf edges list }
    ensures list { (edges : List IdEdge) (a b : EdgeListData) → IsEdgeListOf edges a → IsEdgeListOf edges b → a ≡ b }
    ensures some_graph { (form : FormData) (reads : ReadsData) (n : ℕ) (edges : List EdgeData) → (graph : ReadGraphData) × IsGraphOf form reads n edges graph }
    ensures graph { (form : FormData) (reads : ReadsData) (n : ℕ) (edges : List EdgeData) (g h : ReadGraphData) →
        IsGraphOf form reads n edges g → IsGraphOf form reads n edges h → g ≡ h }
    ensures few { (form : FormData) (reads : ReadsData) (n : ℕ) (edges : List EdgeData) (graph : ReadGraphData) →
        IsGraphOf form reads n edges graph → read_count graph.rows ≤ 2 * length edges }
    ensures text { (p : ProgramData) (sources : List ℕ) (edges : List IdEdge) (s t : List ℕ) →
        IsAnswerText p sources edges s → IsAnswerText p sources edges t → s ≡ t }
{}

/// However a job ends on some bytes: by a stop, or it has a text, and no second one.
pub fn every_ending_has_one_text()
    ensures exists { (this : JobData) (bytes : List ℕ) → JobFits this → ((why : StopData) → ending_of (Ok this) bytes ≢ stopped why) →
        (text : List ℕ) × IsEndingText (ending_of (Ok this) bytes) text }
    ensures only { (ending : Ending) (s t : List ℕ) → IsEndingText ending s → IsEndingText ending t → s ≡ t }
{}
