//! What a core value becomes on a read, and whether it may become better there.
ghost use Rattle.std.specs.Prelude.{◌≡◌, ◌≤◌, ◌↔◌, ℕ, IsTrue};
ghost use Rattle.px_base.specs.Values.{IsValue, IsWeight};
ghost use Rattle.px_base.specs.Classes.{may_lower, may_raise};
ghost use Rattle.px_base.specs.Core.{core_edge_value};
ghost use Rattle.px_base.specs.Laws.{NeverImproves};
ghost use Rattle.value_laws.specs.EdgeLaws.{core_in_range, core_monotone};

use crate::values::{edge_value, flip};
use px_base::{Along, CoreProgram, Value, Weight};

/// What values become on reads, where less is better.
pub trait EdgeRule {
    /// What the value becomes on a read with the weight.
    ghost read_value: { Self → ℕ → ℕ → ℕ };

    /// What the value `x` becomes on a read with the weight `w`.
    fn value(&self, x: Value, w: Weight) -> Value
        requires value { IsValue x }
        requires weight { IsWeight w }
        ensures { result ≡ read_value self.now x w };

    /// Whether no value becomes less on a read, so that none becomes better.
    fn never_improves(&self) -> bool
        ensures { IsTrue result ↔ ((x w : ℕ) → IsValue x → IsWeight w → x ≤ read_value self.now x w) };

    /// A value stays one.
    ghost in_range: { (rule : Self) (x w : ℕ) → IsValue x → IsWeight w → IsValue (read_value rule x w) };

    /// Of two values that are read with the same weight the greater stays at least as great.
    ghost monotone: { (rule : Self) (a b w : ℕ) → IsValue b → a ≤ b → read_value rule a w ≤ read_value rule b w };
}

fn may_lower(along: Along) -> bool
    ensures { result ≡ may_lower along }
{
    match along {
        Along::CapWeight => true,
        Along::Minus(n) => 0 < n,
        Along::Same => false,
        Along::Plus(_) => false,
        Along::PlusWeight => false,
        Along::FloorWeight => false,
    }
}

fn may_raise(along: Along) -> bool
    ensures { result ≡ may_raise along }
{
    match along {
        Along::Plus(n) => 0 < n,
        Along::PlusWeight => true,
        Along::FloorWeight => true,
        Along::Same => false,
        Along::CapWeight => false,
        Along::Minus(_) => false,
    }
}

impl EdgeRule for CoreProgram {
    ghost read_value = { core_edge_value };

    ghost in_range = { core_in_range };

    ghost monotone = { core_monotone };

    fn value(&self, x: Value, w: Weight) -> Value
        requires value { IsValue x }
        requires weight { IsWeight w }
        ensures { result ≡ core_edge_value self.now x w }
    {
        if self.flipped {
            flip(edge_value(self.program.along, flip(x), w))
        } else {
            edge_value(self.program.along, x, w)
        }
    }

    fn never_improves(&self) -> bool
        ensures { IsTrue result ↔ NeverImproves self.now }
    {
        if self.flipped {
            !may_raise(self.program.along)
        } else {
            !may_lower(self.program.along)
        }
    }
}
