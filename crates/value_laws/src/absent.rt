//! The least number that is absent from a list. 64 candidates are looked for in one pass, as the bits of a word, so that
//! no memory is taken.
ghost use Rattle.std.specs.Prelude.{◌≡◌, ◌==◌, ◌<◌, ◌+◌, ◌||◌, ℕ};
ghost use Rattle.px_base.specs.Rules.{mex};
ghost use Rattle.value_laws.specs.Candidates.{has_bit, MarksFrom};

use px_base::Value;

/// The word with bit `item - low` as well, where there is such a bit.
#[tactic(auto, using(crate::proofs::FirstAbsent::marked, crate::proofs::FirstAbsent::unmarked_below, crate::proofs::FirstAbsent::unmarked_past))]
fn with_item(word: u64, low: Value, item: Value) -> u64
    ensures { (k : ℕ) → k < 64 → has_bit result k ≡ (has_bit word k || item == low + k) }
{
    if item < low {
        return word;
    }
    let at = item - low;
    if at < 64 { word | (1 << at) } else { word }
}

/// The word whose bit `k` says whether `low + k` is among the items.
#[tactic(auto, using(crate::proofs::FirstAbsent::marks_more))]
fn marks_from(items: &[Value], low: Value) -> u64
    ensures { MarksFrom low items.now result }
{
    let mut word = 0;
    for item in items {
        word = with_item(word, low, *item);
    }
    word
}

/// The least number that isn't among the items.
pub fn least_absent(items: &[Value]) -> Value
    ensures { result ≡ mex items.now }
{
    let mut low = 0;
    let mut word = marks_from(items, low);
    while word == u64::MAX {
        low += 64;
        word = marks_from(items, low);
    }
    low + u64::from(word.trailing_ones())
}
