//! Laws of the flip and of the least.
ghost use Rattle.std.specs.Prelude.{◌≡◌, ◌≤◌, ◌↔◌, ℕ, List};
ghost use Rattle.std.specs.List.{AllZip};
ghost use Rattle.px_base.specs.Values.{IsValue, flip};
ghost use Rattle.px_base.specs.Rules.{least};

/// The flip turns the order of the values, and twice it is nothing.
pub fn flip_turns_the_order()
    ensures values { (x : ℕ) → IsValue (flip x) }
    ensures twice { (x : ℕ) → IsValue x → flip (flip x) ≡ x }
    ensures turns { (x y : ℕ) → IsValue x → IsValue y → (x ≤ y) ↔ (flip y ≤ flip x) }
{}

/// The least grows with the start value, and with each item.
pub fn least_is_monotone()
    ensures start { (a b : ℕ) (items : List ℕ) → a ≤ b → least a items ≤ least b items }
    ensures items { (start : ℕ) (a b : List ℕ) → AllZip (λ x y. x ≤ y) a b → least start a ≤ least start b }
{}
