//! What values become on the reads of a row, and the least of them.
ghost use Rattle.std.specs.Prelude.{◌≡◌, ◌<◌, ◌≤◌, ◌+◌, ℕ, min, map, All, IsFalse, length, slice_index};
ghost use Rattle.px_base.specs.Values.{IsValue, IsWeight, flip};
ghost use Rattle.px_base.specs.Core.{core_edge_value};
ghost use Rattle.px_base.specs.Rules.{least};
ghost use Rattle.px_base.specs.declared.TheConstants.{TOP};
ghost use Rattle.worker_world.specs.Placed.{placed_items, read_items};

use px_base::{Along, CoreProgram, Pos, Row, TOP, Value, Weight};
use value_laws::{EdgeRule, flip};

/// What a core value becomes on a read. The commonest rules have a type of their own, so that the loop over a row has no
/// test of the program in it.
trait ReadRule {
    ghost read_value: { Self → ℕ → ℕ → ℕ };

    /// What the value `x` becomes on a read with the weight `w`.
    fn value_read(&self, x: Value, w: Weight) -> Value
        requires value { IsValue x }
        requires weight { IsWeight w }
        ensures { result ≡ read_value self.now x w };
}

/// The same of a program that doesn't ask for the weight of a read, so that the loop over a row goes through its sources
/// alone.
pub trait SourceRule {
    ghost source_value: { Self → ℕ → ℕ };

    /// What the value `x` becomes on a read.
    fn value_from(&self, x: Value) -> Value
        requires { IsValue x }
        ensures { result ≡ source_value self.now x };
}

/// The value stays as it is.
#[derive(Clone, Copy)]
pub struct Unchanged;

/// So much is added.
#[derive(Clone, Copy)]
struct PlusConstant {
    n: u64,
}

/// The weight is added.
#[derive(Clone, Copy)]
struct PlusItsWeight;

/// The weight is the most, in values that are turned round.
#[derive(Clone, Copy)]
struct CapTurnedRound;

impl SourceRule for Unchanged {
    ghost source_value = { λ _ x. x };

    fn value_from(&self, x: Value) -> Value {
        x
    }
}

impl SourceRule for PlusConstant {
    ghost source_value = { λ rule x. min (x + rule.n) TOP };

    fn value_from(&self, x: Value) -> Value {
        x.saturating_add(self.n).min(TOP)
    }
}

impl SourceRule for CoreProgram {
    ghost source_value = { λ core x. core_edge_value core x 0 };

    fn value_from(&self, x: Value) -> Value {
        self.value(x, 0)
    }
}

impl ReadRule for PlusItsWeight {
    ghost read_value = { λ _ x w. min (x + w) TOP };

    fn value_read(&self, x: Value, w: Weight) -> Value {
        (x + w).min(TOP)
    }
}

impl ReadRule for CapTurnedRound {
    ghost read_value = { λ _ x w. flip (min (flip x) w) };

    fn value_read(&self, x: Value, w: Weight) -> Value {
        flip(flip(x).min(w))
    }
}

impl ReadRule for CoreProgram {
    ghost read_value = { core_edge_value };

    fn value_read(&self, x: Value, w: Weight) -> Value {
        self.value(x, w)
    }
}

/// Whether the program asks for the weights of reads.
pub fn reads_weights(core: &CoreProgram) -> bool
    ensures { IsFalse result → (x w : ℕ) → core_edge_value core.now x 0 ≡ core_edge_value core.now x w }
{
    match core.program.along {
        Along::Same => false,
        Along::Plus(_) => false,
        Along::Minus(_) => false,
        Along::PlusWeight => true,
        Along::FloorWeight => true,
        Along::CapWeight => true,
    }
}

/// The least of the start value and what the values become on the reads of the row.
fn least_read<E: ReadRule>(rule: &E, values: &[Value], start: Value, row: &Row<'_>) -> Value
    requires places { All (λ r. r.source < length values.now) row.now }
    requires values { All IsValue values.now }
    ensures { result ≡ least start (read_items (E.read_value rule.now) values.now row.now) }
{
    let mut best = start;
    for k in 0..row.len() {
        let read = row.read(k);
        best = best.min(rule.value_read(values[read.source as usize], read.weight));
    }
    best
}

/// The least of the start value and what the values at these places become.
fn least_at<E: SourceRule>(rule: &E, values: &[Value], start: Value, places: &[Pos]) -> Value
    requires places { All (λ s. s < length values.now) places.now }
    requires values { All IsValue values.now }
    ensures { result ≡ least start (map (λ s. E.source_value rule.now (slice_index values.now s)) places.now) }
{
    let mut best = start;
    for place in places {
        best = best.min(rule.value_from(values[*place as usize]));
    }
    best
}

/// The least of the start value and what the values become on the reads of the row, whatever weights they have.
fn least_of_sources<E: SourceRule>(rule: &E, values: &[Value], start: Value, row: &Row<'_>) -> Value
    requires places { All (λ r. r.source < length values.now) row.now }
    requires values { All IsValue values.now }
    ensures { result ≡ least start (read_items (λ x w. E.source_value rule.now x) values.now row.now) }
{
    least_at(rule, values, start, row.sources())
}

/// The least of the start value and the edge values of the row, of any program.
fn least_of_any(core: &CoreProgram, values: &[Value], start: Value, row: &Row<'_>) -> Value
    requires places { All (λ r. r.source < length values.now) row.now }
    requires values { All IsValue values.now }
    ensures { result ≡ least start (placed_items core.now values.now row.now) }
{
    if reads_weights(core) {
        least_read(core, values, start, row)
    } else {
        least_of_sources(core, values, start, row)
    }
}

/// The least of the start value and the edge values of the row.
pub fn least_of_row(core: &CoreProgram, values: &[Value], start: Value, row: &Row<'_>) -> Value
    requires places { All (λ r. r.source < length values.now) row.now }
    requires values { All IsValue values.now }
    ensures { result ≡ least start (placed_items core.now values.now row.now) }
{
    match (core.flipped, core.program.along) {
        (false, Along::Same) => least_of_sources(&Unchanged, values, start, row),
        (false, Along::Plus(n)) => least_of_sources(&PlusConstant { n }, values, start, row),
        (false, Along::PlusWeight) => least_read(&PlusItsWeight, values, start, row),
        (true, Along::CapWeight) => least_read(&CapTurnedRound, values, start, row),
        _ => least_of_any(core, values, start, row),
    }
}
