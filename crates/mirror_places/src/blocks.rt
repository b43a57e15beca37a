//! Blocks of 16 positions, each of which is looked through in one line of the cache.
ghost use Rattle.std.specs.Prelude.{◌≡◌, ◌≢◌, ◌+◌, ◌*◌, ◌<◌, ◌≤◌, ℕ, max, IfSome, IfNone, OnOk, length, slice_index};
ghost use Rattle.mirror_places.specs.Tables.{table_size};
ghost use Rattle.px_base.specs.declared.TheConstants.{MOST_VERTICES};

use px_base::{Memory, Pos};

/// How many positions a block has. As many entries of a list lie in one line of the cache.
const BLOCK: u32 = 16;

/// The block that a position lies in.
pub fn block_of(u: Pos) -> usize
    ensures from { 16 * result ≤ u }
    ensures to { u < 16 * (result + 1) }
{
    (u / BLOCK) as usize
}

/// How many entries the table of a rising list has.
pub fn table_size(positions: &[Pos]) -> usize
    ensures { result ≡ table_size positions.now }
{
    match positions.last() {
        Some(greatest) => block_of(*greatest) + 2,
        None => 1,
    }
}

/// Gives each block up to this one a start, if it has none.
pub fn start_blocks(starts: &mut Vec<u32>, block: usize, at: u32) -> Result<(), Memory>
    requires { block < MOST_VERTICES }
    ensures count { OnOk result (length starts.new.items ≡ max (length starts.old.items) (block + 1)) }
    ensures kept { OnOk result ((b : ℕ) → b < length starts.old.items → slice_index starts.new.items b ≡ slice_index starts.old.items b) }
    ensures added { OnOk result ((b : ℕ) → length starts.old.items ≤ b → b < length starts.new.items → slice_index starts.new.items b ≡ at) }
{
    if starts.len() <= block {
        starts.resize(block + 1, at)?;
    }
    Ok(())
}

/// The first place from `from` on and before `to` at which the position stands.
pub fn find_between(positions: &[Pos], from: usize, to: usize, u: Pos) -> Option<usize>
    requires { to ≤ length positions.now }
    ensures after { IfSome result (λ at. from ≤ at) }
    ensures some { IfSome result (λ at. (at < to) × (slice_index positions.now at ≡ u)) }
    ensures first { IfSome result (λ at. (k : ℕ) → from ≤ k → k < at → slice_index positions.now k ≢ u) }
    ensures none { IfNone result ((k : ℕ) → from ≤ k → k < to → slice_index positions.now k ≢ u) }
{
    for at in from..to {
        if positions[at] == u {
            return Some(at);
        }
    }
    None
}
