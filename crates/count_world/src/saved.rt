//! Counts that a step may change, kept so that they can be put back where memory is wanting.
ghost use Rattle.std.specs.Prelude.{◌≡◌, ◌-◌, ◌<◌, ◌||◌, ℕ, All, IsTrue, if◌then◌else◌, length, slice_index};
ghost use Rattle.px_base.specs.Parts.{is_within};
ghost use Rattle.count_world.specs.Sets.{AreSaved, is_updated};

use px_base::{Part, Update, Value};

/// Copies those at the masters that are updated.
fn copy_updated(part: &Part, updates: &[Update], from: &[Value], to: &mut Vec<Value>)
    requires from { length from.now ≡ part.now.high - part.now.low }
    requires to { length to.old.items ≡ part.now.high - part.now.low }
    requires known { All (λ u. IsTrue (is_within part.now.low part.now.high u.vertex)) updates.now }
    ensures size { length to.new.items ≡ length to.old.items }
    ensures copied { (j : ℕ) → j < length to.old.items → slice_index to.new.items j ≡ (if is_updated part.now.low updates.now j then slice_index from.now j else slice_index to.old.items j) }
{
    for update in updates {
        let k = (update.vertex - part.low) as usize;
        to[k] = from[k];
    }
}

/// Copies all counts where a Step is fresh, and else those that are updated.
pub fn copy_changing(
    part: &Part,
    fresh: bool,
    updates: &[Update],
    from: &[Value],
    to: &mut Vec<Value>,
)
    requires from { length from.now ≡ part.now.high - part.now.low }
    requires to { length to.old.items ≡ part.now.high - part.now.low }
    requires known { All (λ u. IsTrue (is_within part.now.low part.now.high u.vertex)) updates.now }
    ensures size { length to.new.items ≡ length to.old.items }
    ensures copied { (j : ℕ) → j < length to.old.items → slice_index to.new.items j ≡ (if fresh || is_updated part.now.low updates.now j then slice_index from.now j else slice_index to.old.items j) }
{
    if fresh {
        to.as_mut_slice().copy_from_slice(from);
    } else {
        copy_updated(part, updates, from, to);
    }
}
