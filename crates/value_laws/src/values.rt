//! Values, core values, and what a value becomes on a read.
ghost use Rattle.std.specs.Prelude.{◌≡◌, All, map};
ghost use Rattle.px_base.specs.Values.{IsValue, IsWeight, flip};
ghost use Rattle.px_base.specs.Classes.{takes_greatest};
ghost use Rattle.px_base.specs.Rules.{edge_value};
ghost use Rattle.px_base.specs.Core.{core_form, core_value};

use px_base::{Along, CoreProgram, Fold, Program, TOP, Value, Weight};

/// The value as far below `TOP` as `x` is above 0. Twice it is `x` again.
pub fn flip(x: Value) -> Value
    requires { IsValue x }
    ensures value { result ≡ flip x }
    ensures twice { flip result ≡ x }
{
    TOP - x
}

/// What the value `x` becomes on a read with the weight `w`. It stops at 0 and at `TOP`.
pub fn edge_value(along: Along, x: Value, w: Weight) -> Value
    requires value { IsValue x }
    requires weight { IsWeight w }
    ensures value { result ≡ edge_value along x w }
    ensures in_range { IsValue result }
{
    match along {
        Along::Same => x,
        Along::Plus(n) => x.saturating_add(n).min(TOP),
        Along::PlusWeight => (x + w).min(TOP),
        Along::FloorWeight => x.max(w),
        Along::CapWeight => x.min(w),
        Along::Minus(n) => x.saturating_sub(n),
    }
}

fn takes_greatest(fold: Fold) -> bool
    ensures { result ≡ takes_greatest fold }
{
    match fold {
        Fold::Greatest => true,
        Fold::Least => false,
        Fold::Mex => false,
        Fold::Count(_) => false,
    }
}

/// The program as it is computed in core values: they are flipped exactly where it takes the greatest.
pub fn core_form(program: &Program) -> CoreProgram
    ensures { result ≡ core_form program.now }
{
    CoreProgram {
        program: *program,
        flipped: takes_greatest(program.fold),
    }
}

fn flip_all(values: &mut [Value])
    requires { All IsValue values.old }
    ensures { values.new ≡ map flip values.old }
{
    for value in values.iter_mut() {
        *value = flip(*value);
    }
}

/// Puts core values in place of values, or values in place of core values.
pub fn turn(core: &CoreProgram, values: &mut [Value])
    requires { All IsValue values.old }
    ensures { values.new ≡ map (core_value core.now) values.old }
{
    if core.flipped {
        flip_all(values);
    }
}
