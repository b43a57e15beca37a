//! Where a position stands in a rising list.
ghost use Rattle.std.specs.Prelude.{◌≡◌, ◌<◌, true, false, IfSome, IfNone, length};
ghost use Rattle.std.specs.List.Sorted.{IsStrictlyIncreasing};
ghost use Rattle.px_base.specs.Values.{is_listed, place_of};

use crate::Pos;

/// Where a position stands in a rising list, if it does.
pub fn find_place(positions: &[Pos], u: Pos) -> Option<usize>
    requires { IsStrictlyIncreasing positions.now }
    ensures some { IfSome result (λ at. (at ≡ place_of positions.now u) × (at < length positions.now) × (is_listed positions.now u ≡ true)) }
    ensures none { IfNone result (is_listed positions.now u ≡ false) }
{
    match positions.binary_search(&u) {
        Ok(at) => Some(at),
        Err(_) => None,
    }
}
