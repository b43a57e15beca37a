//! What the answers of programs say of walks and paths.
ghost use Rattle.std.specs.Prelude.{◌≡◌, ◌<◌, ◌≤◌, ◌↔◌, ℕ, All, Bool, IsFalse, List, Ok, Some, codes, length, slice_index, sum};
ghost use Rattle.px_base.specs.declared.TheConstants.{MOST_VERTICES};
ghost use Rattle.px_base.specs.declared.graph.EdgeList.{EdgeList as EdgeListData};
ghost use Rattle.px_base.specs.declared.graph.Read.{Read as ReadData};
ghost use Rattle.px_base.specs.declared.graph.ReadGraph.{ReadGraph as ReadGraphData};
ghost use Rattle.px_base.specs.declared.program.Form.TheVariants.{Given, Simple};
ghost use Rattle.px_base.specs.declared.program.Program.{Program as ProgramData};
ghost use Rattle.px_base.specs.declared.program.Class.TheVariants.{LocallyCorrecting, SelfStabilising};
ghost use Rattle.px_base.specs.declared.program.Reads.TheVariants as reads_kind;
ghost use Rattle.px_base.specs.AnswerTexts.{IsAnswerText};
ghost use Rattle.px_base.specs.Answers.{IsAnswer, IsAsGoodAs, IsFixedPoint, IsGreatestConsistent};
ghost use Rattle.px_base.specs.Classes.{class_of, is_mex};
ghost use Rattle.px_base.specs.Graphs.{IsGraphOf, RowsFit};
ghost use Rattle.px_base.specs.Inputs.{input_limits, input_of};
ghost use Rattle.px_base.specs.Laws.{IsOrdered};
ghost use Rattle.px_base.specs.Lines.{EdgeListFits, IdEdge, IsEdgeListOf};
ghost use Rattle.px_base.specs.ProgramNames.{builtin_of, components, levels, sssp, widest};
ghost use Rattle.px_base.specs.Programs.{bfs};
ghost use Rattle.px_base.specs.Starts.{starts_of};
ghost use Rattle.px_base.specs.Values.{IsValue, IsValueList};
ghost use Rattle.path_laws.specs.ByIds.{AreConnected, IsIdRiseTo, IsIdSourcePath, IsLeastOf, SaysOfEach};
ghost use Rattle.path_laws.specs.Paths.{IsConnected, IsPath, IsRisingChainTo, IsSourcePath};
ghost use Rattle.path_laws.specs.Readings.{IsGreatestLength, IsGreatestWidth, IsLeastCost, IsLeastId};
ghost use Rattle.walk_terms.specs.Walks.{IsSourceWalk, IsWalk, IsWalkTo, LeadsTo, ReadBefore, carried};

/// The answer of a locally correcting program has at each vertex the best that a start value becomes along a walk to it:
/// it is at least as good as what any start value becomes along any walk, and some start value becomes it along some walk.
pub fn answers_are_best_walks()
    ensures none_better { (p : ProgramData) (rows : List (List ReadData)) (starts x : List ℕ) → class_of p ≡ Ok LocallyCorrecting →
        RowsFit (length rows) rows → IsValueList (length rows) starts → IsGreatestConsistent p rows starts x →
        (u v : ℕ) (weights : List ℕ) → v < length rows → IsWalk rows u v weights →
        IsAsGoodAs p.fold (slice_index x v) (carried p (slice_index starts u) weights) }
    ensures attained { (p : ProgramData) (rows : List (List ReadData)) (starts x : List ℕ) → class_of p ≡ Ok LocallyCorrecting →
        RowsFit (length rows) rows → IsValueList (length rows) starts → IsGreatestConsistent p rows starts x →
        (v : ℕ) → v < length rows →
        (u : ℕ) × (weights : List ℕ) × IsWalk rows u v weights × (slice_index x v ≡ carried p (slice_index starts u) weights) }
{}

/// The same of the answer of a self-stabilising program that takes the least or the greatest. That it is attained asks that the
/// vertices have places in some order in which each read is of a vertex before its reader.
pub fn ordered_answers_are_best_walks()
    ensures none_better { (p : ProgramData) (rows : List (List ReadData)) (starts x : List ℕ) → class_of p ≡ Ok SelfStabilising → IsFalse (is_mex p.fold) →
        RowsFit (length rows) rows → IsValueList (length rows) starts → IsFixedPoint p rows starts x →
        (u v : ℕ) (weights : List ℕ) → v < length rows → IsWalk rows u v weights →
        IsAsGoodAs p.fold (slice_index x v) (carried p (slice_index starts u) weights) }
    ensures attained { (p : ProgramData) (rows : List (List ReadData)) (starts x : List ℕ) → class_of p ≡ Ok SelfStabilising → IsFalse (is_mex p.fold) →
        IsOrdered rows → IsFixedPoint p rows starts x →
        (v : ℕ) → v < length rows →
        (u : ℕ) × (weights : List ℕ) × IsWalk rows u v weights × (slice_index x v ≡ carried p (slice_index starts u) weights) }
{}

/// The answers of built-in programs, each in words that say what it is for. `bfs` has the least number of reads of a walk from a
/// source, and `sssp` the least sum of weights; both have `TOP` exactly where no such walk leads. `widest` has the greatest
/// width of a walk from a source. `components` has the least id of a vertex from which a walk leads. `levels` has the greatest
/// number of reads of a walk, where each read is of a vertex before its reader.
pub fn built_in_answers()
    ensures names { (builtin_of (codes "bfs") ≡ Some bfs) × (builtin_of (codes "sssp") ≡ Some sssp) × (builtin_of (codes "widest") ≡ Some widest)
        × (builtin_of (codes "components") ≡ Some components) × (builtin_of (codes "levels") ≡ Some levels) }
    ensures bfs { (rows : List (List ReadData)) (ids sources x : List ℕ) → RowsFit (length ids) rows → length ids ≤ MOST_VERTICES →
        IsAnswer bfs rows (starts_of bfs.start ids sources) x →
        (v : ℕ) → v < length ids → IsLeastCost length (IsSourceWalk rows sources v) (slice_index x v) }
    ensures sssp { (rows : List (List ReadData)) (ids sources x : List ℕ) → RowsFit (length ids) rows → length ids ≤ MOST_VERTICES →
        IsAnswer sssp rows (starts_of sssp.start ids sources) x →
        (v : ℕ) → v < length ids → IsLeastCost sum (IsSourceWalk rows sources v) (slice_index x v) }
    ensures widest { (rows : List (List ReadData)) (ids sources x : List ℕ) → RowsFit (length ids) rows →
        IsAnswer widest rows (starts_of widest.start ids sources) x →
        (v : ℕ) → v < length ids → IsGreatestWidth (IsSourceWalk rows sources v) (slice_index x v) }
    ensures components { (rows : List (List ReadData)) (ids sources x : List ℕ) → RowsFit (length ids) rows → All IsValue ids →
        IsAnswer components rows (starts_of components.start ids sources) x →
        (v : ℕ) → v < length ids → IsLeastId ids (λ u. LeadsTo rows u v) (slice_index x v) }
    ensures levels { (rows : List (List ReadData)) (ids sources x : List ℕ) → RowsFit (length ids) rows → length ids ≤ MOST_VERTICES → ReadBefore rows →
        IsAnswer levels rows (starts_of levels.start ids sources) x →
        (v : ℕ) → v < length ids → IsGreatestLength (IsWalkTo rows v) (slice_index x v) }
{}

/// In the graph of an edge list as given, the walks are the paths along its edges. In the simple form a walk leads from one vertex
/// to another exactly where the edges connect them.
pub fn walks_follow_edges()
    ensures given { (list : EdgeListData) (graph : ReadGraphData) (u v : ℕ) (weights : List ℕ) → EdgeListFits list →
        IsGraphOf Given reads_kind.All (length list.ids) list.edges graph → IsWalk graph.rows u v weights ↔ IsPath list.edges u v weights }
    ensures simple { (list : EdgeListData) (graph : ReadGraphData) (u v : ℕ) → EdgeListFits list →
        IsGraphOf Simple reads_kind.All (length list.ids) list.edges graph → LeadsTo graph.rows u v ↔ IsConnected list.edges u v }
{}

/// The answers of built-in programs on the graph of an edge list within the limits. `bfs` has the least number of edges of a path
/// from a source, and `sssp` the least sum of weights; both have `TOP` exactly where no path leads. `widest` has the greatest width
/// of a path from a source. `components` has the least id of a vertex that is connected. `levels` has the greatest number of edges
/// of a chain that goes up to the vertex.
pub fn built_in_answers_on_edges()
    ensures bfs { (list : EdgeListData) (graph : ReadGraphData) (sources x : List ℕ) → EdgeListFits list →
        IsGraphOf bfs.form bfs.reads (length list.ids) list.edges graph → IsAnswer bfs graph.rows (starts_of bfs.start list.ids sources) x →
        (v : ℕ) → v < length list.ids → IsLeastCost length (IsSourcePath list.edges sources v) (slice_index x v) }
    ensures sssp { (list : EdgeListData) (graph : ReadGraphData) (sources x : List ℕ) → EdgeListFits list →
        IsGraphOf sssp.form sssp.reads (length list.ids) list.edges graph → IsAnswer sssp graph.rows (starts_of sssp.start list.ids sources) x →
        (v : ℕ) → v < length list.ids → IsLeastCost sum (IsSourcePath list.edges sources v) (slice_index x v) }
    ensures widest { (list : EdgeListData) (graph : ReadGraphData) (sources x : List ℕ) → EdgeListFits list →
        IsGraphOf widest.form widest.reads (length list.ids) list.edges graph → IsAnswer widest graph.rows (starts_of widest.start list.ids sources) x →
        (v : ℕ) → v < length list.ids → IsGreatestWidth (IsSourcePath list.edges sources v) (slice_index x v) }
    ensures components { (list : EdgeListData) (graph : ReadGraphData) (sources x : List ℕ) → EdgeListFits list →
        IsGraphOf components.form components.reads (length list.ids) list.edges graph → IsAnswer components graph.rows (starts_of components.start list.ids sources) x →
        (v : ℕ) → v < length list.ids → IsLeastId list.ids (λ u. IsConnected list.edges u v) (slice_index x v) }
    ensures levels { (list : EdgeListData) (graph : ReadGraphData) (sources x : List ℕ) → EdgeListFits list →
        IsGraphOf levels.form levels.reads (length list.ids) list.edges graph → IsAnswer levels graph.rows (starts_of levels.start list.ids sources) x →
        (v : ℕ) → v < length list.ids → IsGreatestLength (IsRisingChainTo list.edges v) (slice_index x v) }
{}

/// The texts of built-in programs on the edges of an input, in words of these edges with their ends named by ids: one line for each
/// id, by rising id, with the value that `built_in_answers_on_edges` says.
pub fn built_in_texts()
    ensures bfs { (weighted : Bool) (bytes sources text : List ℕ) (edges : List IdEdge) → input_of input_limits weighted bytes ≡ Ok edges →
        IsAnswerText bfs sources edges text → SaysOfEach edges (λ id x. IsLeastCost length (IsIdSourcePath edges sources id) x) text }
    ensures sssp { (weighted : Bool) (bytes sources text : List ℕ) (edges : List IdEdge) → input_of input_limits weighted bytes ≡ Ok edges →
        IsAnswerText sssp sources edges text → SaysOfEach edges (λ id x. IsLeastCost sum (IsIdSourcePath edges sources id) x) text }
    ensures widest { (weighted : Bool) (bytes sources text : List ℕ) (edges : List IdEdge) → input_of input_limits weighted bytes ≡ Ok edges →
        IsAnswerText widest sources edges text → SaysOfEach edges (λ id x. IsGreatestWidth (IsIdSourcePath edges sources id) x) text }
    ensures components { (weighted : Bool) (bytes sources text : List ℕ) (edges : List IdEdge) → input_of input_limits weighted bytes ≡ Ok edges →
        IsAnswerText components sources edges text → SaysOfEach edges (λ id x. IsLeastOf (λ a. AreConnected edges a id) x) text }
    ensures levels { (weighted : Bool) (bytes sources text : List ℕ) (edges : List IdEdge) → input_of input_limits weighted bytes ≡ Ok edges →
        IsAnswerText levels sources edges text → SaysOfEach edges (λ id x. IsGreatestLength (IsIdRiseTo edges id) x) text }
{}
