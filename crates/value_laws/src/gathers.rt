//! What a vertex gathers: the least, or the least number that is absent.
ghost use Rattle.std.specs.Prelude.{◌≡◌, ℕ, List, length};
ghost use Rattle.px_base.specs.Values.{IsValue};
ghost use Rattle.px_base.specs.Rules.{least, mex};
ghost use Rattle.value_laws.specs.GatherLaws.{least_in_range, mex_in_range};

use crate::absent::least_absent;
use px_base::Value;

/// What a vertex makes of its start value and of the values that it reads.
pub trait Gather {
    /// What is made of the start value and the items.
    ghost gathered: { Self → ℕ → List ℕ → ℕ };

    /// The value of a vertex with this start value that reads these items.
    fn gather(&self, start: Value, items: &[Value]) -> Value
        ensures { result ≡ gathered self.now start items.now };

    /// What is gathered is a value, where the start value and the number of items are.
    ghost in_range: { (rule : Self) (start : ℕ) (items : List ℕ) → IsValue start → IsValue (length items) → IsValue (gathered rule start items) };
}

/// Takes the least of the start value and the items.
#[derive(Clone, Copy, Debug, PartialEq, Eq)]
pub struct LeastGather;

impl Gather for LeastGather {
    ghost gathered = { λ _ start items. least start items };

    ghost in_range = { λ _ start items is_value _. least_in_range start items is_value };

    fn gather(&self, start: Value, items: &[Value]) -> Value
        ensures { result ≡ least start items.now }
    {
        let mut best = start;
        for item in items {
            best = best.min(*item);
        }
        best
    }
}

/// Takes the least number that isn't among the items. The start value isn't read.
#[derive(Clone, Copy, Debug, PartialEq, Eq)]
pub struct MexGather;

impl Gather for MexGather {
    ghost gathered = { λ _ _ items. mex items };

    ghost in_range = { λ _ _ items _ few. mex_in_range items few };

    fn gather(&self, _start: Value, items: &[Value]) -> Value
        ensures { result ≡ mex items.now }
    {
        least_absent(items)
    }
}
