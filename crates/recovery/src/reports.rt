//! The reported values, by position.
ghost use Rattle.std.specs.Prelude.{◌≡◌, ◌≤◌, ◌-◌, length};
ghost use Rattle.recovery.specs.Reports.{overwritten};

use px_base::Value;

/// The values stand from `low` on, and before `high`.
pub fn copy_between(values: &mut Vec<Value>, low: usize, high: usize, reported: &[Value])
    requires range { low ≤ high }
    requires inside { high ≤ length values.old.items }
    requires size { length reported.now ≡ high - low }
    ensures { values.new.items ≡ overwritten values.old.items low high reported.now }
{
    values[low..high].copy_from_slice(reported);
}
