//! New values of masters from the values of all masters and mirrors.
ghost use Rattle.std.specs.Prelude.{◌≡◌, ◌<◌, ◌≤◌, ◌+◌, ◌++◌, ℕ, true, false, All, IsTrue, IsFalse, length, slice_index, take, drop};
ghost use Rattle.px_base.specs.Values.{IsValue, is_listed};
ghost use Rattle.px_base.specs.Classes.{is_mex};
ghost use Rattle.px_base.specs.Parts.{PartFits};
ghost use Rattle.px_base.specs.ValueSteps.{renewed_value, renewed_masters};
ghost use Rattle.placed_parts.specs.Places.{master_count};
ghost use Rattle.worker_world.specs.Placed.{renewed_at};

use crate::read_rules::least_of_row;
use crate::stamps::Stamps;
use placed_parts::PlacedPart;
use px_base::{CoreProgram, Fold, Own, Value};

/// The new value of a master that has this one and gathered that one.
fn renewed_value(core: &CoreProgram, value: Value, pulled: Value) -> Value
    ensures { result ≡ renewed_value core.now value pulled }
{
    match core.program.own {
        Own::Keep => value.min(pulled),
        Own::Drop => pulled,
    }
}

/// Writes the new value of each master that gathers the least, from the values of all masters and mirrors.
fn write_least(part: &PlacedPart, core: &CoreProgram, values: &[Value], next: &mut [Value])
    requires fits { PartFits part.now }
    requires count { length values.now ≡ master_count part.now + length part.now.mirrors }
    requires values { All IsValue values.now }
    requires next { length next.old ≡ master_count part.now }
    requires fold { IsFalse (is_mex core.now.program.fold) }
    ensures { next.new ≡ renewed_masters part.now core.now (take (master_count part.now) values.now) (drop (master_count part.now) values.now) }
{
    let starts = part.starts();
    for k in 0..next.len() {
        let pulled = least_of_row(core, values, starts[k], &part.row(k));
        next[k] = renewed_value(core, values[k], pulled);
    }
}

/// The same of each master that gathers the least absent number.
fn write_mex(
    part: &PlacedPart,
    core: &CoreProgram,
    values: &[Value],
    stamps: &mut Stamps,
    next: &mut [Value],
)
    requires fits { PartFits part.now }
    requires count { length values.now ≡ master_count part.now + length part.now.mirrors }
    requires values { All IsValue values.now }
    requires next { length next.old ≡ master_count part.now }
    requires fold { IsTrue (is_mex core.now.program.fold) }
    requires stamps { All (λ row. length row ≤ length stamps.old.marks.items) part.now.rows }
    ensures renewed { next.new ≡ renewed_masters part.now core.now (take (master_count part.now) values.now) (drop (master_count part.now) values.now) }
    ensures stamps { length stamps.new.marks.items ≡ length stamps.old.marks.items }
{
    for k in 0..next.len() {
        let pulled = stamps.mex(core, values, &part.row(k));
        next[k] = renewed_value(core, values[k], pulled);
    }
}

/// Whether the program takes the least absent number.
pub fn is_mex(fold: Fold) -> bool
    ensures { result ≡ is_mex fold }
{
    match fold {
        Fold::Mex => true,
        Fold::Least => false,
        Fold::Greatest => false,
        Fold::Count(_) => false,
    }
}

/// Writes the new value of each master where the values of the masters stand first, and leaves the rest.
fn write_masters(
    part: &PlacedPart,
    core: &CoreProgram,
    values: &[Value],
    stamps: &mut Stamps,
    next: &mut [Value],
)
    requires fits { PartFits part.now }
    requires count { length values.now ≡ master_count part.now + length part.now.mirrors }
    requires values { All IsValue values.now }
    requires next { length next.old ≡ master_count part.now + length part.now.mirrors }
    requires stamps { IsTrue (is_mex core.now.program.fold) → All (λ row. length row ≤ length stamps.old.marks.items) part.now.rows }
    ensures renewed { next.new ≡ renewed_masters part.now core.now (take (master_count part.now) values.now) (drop (master_count part.now) values.now) ++ drop (master_count part.now) next.old }
    ensures stamps { length stamps.new.marks.items ≡ length stamps.old.marks.items }
{
    let masters = &mut next[..part.master_count()];
    if is_mex(core.program.fold) {
        write_mex(part, core, values, stamps, masters);
    } else {
        write_least(part, core, values, masters);
    }
}

/// Renews all masters in a list of the values of masters and mirrors.
pub fn renew_masters(
    part: &PlacedPart,
    core: &CoreProgram,
    values: &[Value],
    stamps: &mut Stamps,
    next: &mut Vec<Value>,
)
    requires fits { PartFits part.now }
    requires count { length values.now ≡ master_count part.now + length part.now.mirrors }
    requires values { All IsValue values.now }
    requires next { length next.old.items ≡ master_count part.now + length part.now.mirrors }
    requires stamps { IsTrue (is_mex core.now.program.fold) → All (λ row. length row ≤ length stamps.old.marks.items) part.now.rows }
    ensures renewed { next.new.items ≡ renewed_masters part.now core.now (take (master_count part.now) values.now) (drop (master_count part.now) values.now) ++ drop (master_count part.now) next.old.items }
    ensures stamps { length stamps.new.marks.items ≡ length stamps.old.marks.items }
{
    write_masters(part, core, values, stamps, next.as_mut_slice());
}

/// The new value of one master, from the values of all masters and mirrors.
fn renewed_one(
    part: &PlacedPart,
    core: &CoreProgram,
    values: &[Value],
    stamps: &mut Stamps,
    k: usize,
) -> Value
    requires fits { PartFits part.now }
    requires count { length values.now ≡ master_count part.now + length part.now.mirrors }
    requires values { All IsValue values.now }
    requires k { k < master_count part.now }
    requires stamps { IsTrue (is_mex core.now.program.fold) → All (λ row. length row ≤ length stamps.old.marks.items) part.now.rows }
    ensures renewed { result ≡ renewed_at part.now core.now values.now k }
    ensures stamps { length stamps.new.marks.items ≡ length stamps.old.marks.items }
{
    let row = part.row(k);
    let pulled = if is_mex(core.program.fold) {
        stamps.mex(core, values, &row)
    } else {
        least_of_row(core, values, part.starts()[k], &row)
    };
    renewed_value(core, values[k], pulled)
}

/// Renews the listed masters in a list of the values of masters and mirrors.
pub fn renew_listed(
    part: &PlacedPart,
    core: &CoreProgram,
    values: &[Value],
    masters: &[u32],
    stamps: &mut Stamps,
    next: &mut Vec<Value>,
)
    requires fits { PartFits part.now }
    requires count { length values.now ≡ master_count part.now + length part.now.mirrors }
    requires values { All IsValue values.now }
    requires masters { All (λ k. k < master_count part.now) masters.now }
    requires next { length next.old.items ≡ master_count part.now + length part.now.mirrors }
    requires stamps { IsTrue (is_mex core.now.program.fold) → All (λ row. length row ≤ length stamps.old.marks.items) part.now.rows }
    ensures renewed { (k : ℕ) → is_listed masters.now k ≡ true → slice_index next.new.items k ≡ renewed_at part.now core.now values.now k }
    ensures kept { (k : ℕ) → is_listed masters.now k ≡ false → slice_index next.new.items k ≡ slice_index next.old.items k }
    ensures size { length next.new.items ≡ length next.old.items }
    ensures stamps { length stamps.new.marks.items ≡ length stamps.old.marks.items }
{
    for master in masters {
        let k = *master as usize;
        next[k] = renewed_one(part, core, values, stamps, k);
    }
}
