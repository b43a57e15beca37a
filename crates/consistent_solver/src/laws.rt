//! Laws of consistent lists: there is a greatest one, and renewals lead to it.
ghost use Rattle.std.specs.Prelude.{◌≡◌, ◌≤◌, ◌<◌, ◌↔◌, ◌⊎◌, ℕ, suc, Bool, List, All, IsFalse, IsTrue, Ok, length, map, slice_index, sum};
ghost use Rattle.px_base.specs.declared.graph.Read.{Read as ReadData};
ghost use Rattle.px_base.specs.declared.program.Program.{Program as ProgramData};
ghost use Rattle.px_base.specs.declared.program.CoreProgram.{CoreProgram as CoreProgramData};
ghost use Rattle.px_base.specs.declared.program.Class.TheVariants.{LocallyCorrecting};
ghost use Rattle.px_base.specs.Values.{IsValue, IsValueList};
ghost use Rattle.px_base.specs.Graphs.{RowsFit, row_at};
ghost use Rattle.px_base.specs.Classes.{class_of, counts_reads, is_mex, keeps};
ghost use Rattle.px_base.specs.Core.{core_form, core_pull, core_value};
ghost use Rattle.px_base.specs.Starts.{core_starts_of};
ghost use Rattle.px_base.specs.Answers.{IsConsistent, IsFixedPoint, IsGreatestConsistent};
ghost use Rattle.consistent_solver.specs.CoreLists.{IsBelow, IsCoreConsistent, IsGreatestCoreConsistent, gathered_at, renewed, renewed_times, renewed_where};

/// Every locally correcting program keeps the own value, and takes the least or the greatest: in core values, the least.
pub fn locally_correcting_form()
    ensures keeps { (p : ProgramData) → class_of p ≡ Ok LocallyCorrecting → IsTrue (keeps p.own) }
    ensures no_mex { (p : ProgramData) → class_of p ≡ Ok LocallyCorrecting → IsFalse (is_mex p.fold) }
    ensures no_count { (p : ProgramData) → class_of p ≡ Ok LocallyCorrecting → IsFalse (counts_reads p.fold) }
{}

/// In core values, every consistent list is at most the start values, and at most whatever is made of a list above it by
/// renewals: of all vertices, of some of them, or of one vertex from any values that it may read, old ones as well as new.
pub fn consistent_lists_stay_below()
    ensures starts { (core : CoreProgramData) (rows : List (List ReadData)) (starts y : List ℕ) → IsFalse (is_mex core.program.fold) →
        IsCoreConsistent core rows starts y → IsBelow (length rows) y starts }
    ensures gathered { (core : CoreProgramData) (rows : List (List ReadData)) (starts y : List ℕ) (value_at : ℕ → ℕ) (v : ℕ) → IsFalse (is_mex core.program.fold) →
        IsCoreConsistent core rows starts y → v < length rows →
        All (λ r. slice_index y r.source ≤ value_at r.source) (row_at rows v) → All (λ r. IsValue (value_at r.source)) (row_at rows v) →
        slice_index y v ≤ core_pull core value_at (slice_index starts v) (row_at rows v) }
    ensures renewed { (core : CoreProgramData) (rows : List (List ReadData)) (starts y x : List ℕ) → IsFalse (is_mex core.program.fold) →
        IsCoreConsistent core rows starts y → IsValueList (length rows) x → IsBelow (length rows) y x → IsBelow (length rows) y (renewed core rows starts x) }
    ensures renewed_where { (chosen : ℕ → Bool) (core : CoreProgramData) (rows : List (List ReadData)) (starts y x : List ℕ) → IsFalse (is_mex core.program.fold) →
        IsCoreConsistent core rows starts y → IsValueList (length rows) x → IsBelow (length rows) y x → IsBelow (length rows) y (renewed_where chosen core rows starts x) }
{}

/// In core values, a vertex gathers no less from greater values. A renewal keeps values and raises none, and where it changes
/// something it lowers their sum, so renewals come to an end.
pub fn renewals_step_down()
    ensures grows { (core : CoreProgramData) (lower higher : ℕ → ℕ) (start : ℕ) (row : List ReadData) → IsFalse (is_mex core.program.fold) →
        All (λ r. lower r.source ≤ higher r.source) row → All (λ r. IsValue (higher r.source)) row →
        core_pull core lower start row ≤ core_pull core higher start row }
    ensures values { (core : CoreProgramData) (rows : List (List ReadData)) (starts x : List ℕ) → IsValueList (length rows) x →
        IsValueList (length rows) (renewed core rows starts x) }
    ensures values_where { (chosen : ℕ → Bool) (core : CoreProgramData) (rows : List (List ReadData)) (starts x : List ℕ) → IsValueList (length rows) x →
        IsValueList (length rows) (renewed_where chosen core rows starts x) }
    ensures lower { (core : CoreProgramData) (rows : List (List ReadData)) (starts x : List ℕ) → IsBelow (length rows) (renewed core rows starts x) x }
    ensures lower_where { (chosen : ℕ → Bool) (core : CoreProgramData) (rows : List (List ReadData)) (starts x : List ℕ) →
        IsBelow (length rows) (renewed_where chosen core rows starts x) x }
    ensures falls { (core : CoreProgramData) (rows : List (List ReadData)) (starts x : List ℕ) → IsValueList (length rows) x →
        (sum (renewed core rows starts x) < sum x) ⊎ (x ≡ renewed core rows starts x) }
    ensures falls_where { (chosen : ℕ → Bool) (core : CoreProgramData) (rows : List (List ReadData)) (starts x : List ℕ) → IsValueList (length rows) x →
        (sum (renewed_where chosen core rows starts x) < sum x) ⊎ (x ≡ renewed_where chosen core rows starts x) }
    ensures last { (times : ℕ) (core : CoreProgramData) (rows : List (List ReadData)) (starts x : List ℕ) →
        renewed_times (suc times) core rows starts x ≡ renewed core rows starts (renewed_times times core rows starts x) }
{}

/// In core values there is exactly one greatest consistent list. Each vertex has in it just what it gathers from it. It is
/// the list that a renewal leaves as it is and that no consistent list rises above, and the start values become it by
/// renewals.
pub fn greatest_core_list()
    ensures exists { (core : CoreProgramData) (rows : List (List ReadData)) (starts : List ℕ) → IsFalse (is_mex core.program.fold) →
        IsValueList (length rows) starts → (x : List ℕ) × IsGreatestCoreConsistent core rows starts x }
    ensures only { (core : CoreProgramData) (rows : List (List ReadData)) (starts x y : List ℕ) →
        IsGreatestCoreConsistent core rows starts x → IsGreatestCoreConsistent core rows starts y → x ≡ y }
    ensures fixed { (core : CoreProgramData) (rows : List (List ReadData)) (starts x : List ℕ) → IsFalse (is_mex core.program.fold) →
        IsValueList (length rows) starts → IsGreatestCoreConsistent core rows starts x → (v : ℕ) → v < length rows → slice_index x v ≡ gathered_at core rows starts x v }
    ensures still { (core : CoreProgramData) (rows : List (List ReadData)) (starts x : List ℕ) →
        IsValueList (length rows) x → ((y : List ℕ) → IsCoreConsistent core rows starts y → IsBelow (length rows) y x) → renewed core rows starts x ≡ x →
        IsGreatestCoreConsistent core rows starts x }
    ensures stepped { (core : CoreProgramData) (rows : List (List ReadData)) (starts x : List ℕ) → IsFalse (is_mex core.program.fold) →
        IsValueList (length rows) x → ((y : List ℕ) → IsCoreConsistent core rows starts y → IsBelow (length rows) y x) →
        (times : ℕ) × IsGreatestCoreConsistent core rows starts (renewed_times times core rows starts x) }
    ensures reached { (core : CoreProgramData) (rows : List (List ReadData)) (starts : List ℕ) → IsFalse (is_mex core.program.fold) →
        IsValueList (length rows) starts → (times : ℕ) × IsGreatestCoreConsistent core rows starts (renewed_times times core rows starts starts) }
{}

/// A locally correcting program has exactly one greatest consistent list on each graph, from any start values. It is a fixed
/// point of the pull. In core values the same lists are consistent, and the same one is the greatest. So the start values
/// become it by renewals, in core values.
pub fn greatest_consistent_list()
    ensures exists { (p : ProgramData) (rows : List (List ReadData)) (starts : List ℕ) → class_of p ≡ Ok LocallyCorrecting →
        RowsFit (length rows) rows → IsValueList (length rows) starts → (x : List ℕ) × IsGreatestConsistent p rows starts x }
    ensures only { (p : ProgramData) (rows : List (List ReadData)) (starts x y : List ℕ) →
        IsGreatestConsistent p rows starts x → IsGreatestConsistent p rows starts y → x ≡ y }
    ensures consistent { (p : ProgramData) (rows : List (List ReadData)) (starts x : List ℕ) → class_of p ≡ Ok LocallyCorrecting →
        RowsFit (length rows) rows → IsValueList (length rows) starts → IsValueList (length rows) x →
        IsConsistent p rows starts x ↔ IsCoreConsistent (core_form p) rows (core_starts_of (core_form p) starts) (map (core_value (core_form p)) x) }
    ensures turned { (p : ProgramData) (rows : List (List ReadData)) (starts x : List ℕ) → class_of p ≡ Ok LocallyCorrecting →
        RowsFit (length rows) rows → IsValueList (length rows) starts → IsValueList (length rows) x →
        IsGreatestConsistent p rows starts x ↔ IsGreatestCoreConsistent (core_form p) rows (core_starts_of (core_form p) starts) (map (core_value (core_form p)) x) }
    ensures fixed { (p : ProgramData) (rows : List (List ReadData)) (starts x : List ℕ) → class_of p ≡ Ok LocallyCorrecting →
        RowsFit (length rows) rows → IsValueList (length rows) starts → IsGreatestConsistent p rows starts x → IsFixedPoint p rows starts x }
    ensures reached { (p : ProgramData) (rows : List (List ReadData)) (starts : List ℕ) → class_of p ≡ Ok LocallyCorrecting →
        RowsFit (length rows) rows → IsValueList (length rows) starts → (times : ℕ) × IsGreatestConsistent p rows starts
        (map (core_value (core_form p)) (renewed_times times (core_form p) rows (core_starts_of (core_form p) starts) (core_starts_of (core_form p) starts))) }
{}
