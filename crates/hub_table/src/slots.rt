//! Slots by place: an update's value stands in the slot of its vertex.
ghost use Rattle.std.specs.Prelude.{◌≡◌, ℕ, ◌+◌, ◌++◌, ◌∷◌, [], ◌<◌, ◌≤◌, true, None, All, length, map, not, slice_index_or, if◌then◌else◌, vec_capacity, vec_len};
ghost use Rattle.px_base.specs.Values.{is_listed};
ghost use Rattle.hub_terms.specs.Inboxes.{combined_value};
ghost use Rattle.hub_table.specs.Slots.{value_of, is_filled, is_some_slot, mail_before, mail_of, update_at};

use crate::places::Places;
use px_base::{Pos, TOP, Update, Value};

/// What a value makes of the one that stands in the slot: a delta is added, and another value takes its place.
pub fn combined(counting: bool, slot: Option<Value>, value: Value) -> Value
    ensures { result ≡ combined_value counting (value_of slot) value }
{
    if counting {
        slot.unwrap_or(0).saturating_add(value).min(TOP)
    } else {
        value
    }
}

/// Whether nothing stands in the slot.
pub fn is_free(slot: Option<Value>) -> bool
    ensures { result ≡ not (is_some_slot slot) }
{
    match slot {
        Some(_) => false,
        None => true,
    }
}

/// Puts the place on the list, where it is new.
pub fn add_if(is_new: bool, at: u32, used: &mut Vec<u32>)
    requires { is_new ≡ true → vec_len used.old < vec_capacity used.old }
    ensures items { used.new.items ≡ used.old.items ++ (if is_new then at ∷ [] else []) }
    ensures room { vec_capacity used.new ≡ vec_capacity used.old }
{
    if is_new {
        used.push_reserved(at);
    }
}

/// Appends the update of each of these places.
pub fn copy_used(used: &[u32], places: &Places, slots: &[Option<Value>], out: &mut Vec<Update>)
    requires places { All (λ k. k < length places.now) used.now }
    requires slots { All (λ k. k < length slots.now) used.now }
    requires room { vec_len out.old + length used.now ≤ vec_capacity out.old }
    ensures { out.new.items ≡ out.old.items ++ map (update_at places.now slots.now) used.now }
{
    for k in used {
        out.push_reserved(Update {
            vertex: places.vertex(*k as usize),
            value: slots[*k as usize].unwrap_or(0),
        });
    }
}

/// Appends the update in the slot of the vertex, if there is one.
fn push_filled(vertex: Pos, slot: Option<Value>, out: &mut Vec<Update>)
    requires { is_some_slot slot ≡ true → vec_len out.old < vec_capacity out.old }
    ensures items { out.new.items ≡ out.old.items ++ mail_before vertex slot [] }
    ensures room { vec_capacity out.new ≡ vec_capacity out.old }
{
    if let Some(value) = slot {
        out.push_reserved(Update { vertex, value });
    }
}

/// Appends all updates, slot by slot.
pub fn copy_filled(places: &Places, slots: &[Option<Value>], out: &mut Vec<Update>)
    requires size { length slots.now ≡ length places.now }
    requires room { vec_len out.old + length (mail_of places.now slots.now) ≤ vec_capacity out.old }
    ensures { out.new.items ≡ out.old.items ++ mail_of places.now slots.now }
{
    for at in 0..slots.len() {
        push_filled(places.vertex(at), slots[at], out);
    }
}

/// Empties the slots of these places.
pub fn empty_at(used: &[u32], slots: &mut Vec<Option<Value>>)
    requires inside { All (λ k. k < length slots.old.items) used.now }
    requires all { (k : ℕ) → is_filled slots.old.items k ≡ true → is_listed used.now k ≡ true }
    ensures none { (k : ℕ) → slice_index_or slots.new.items k None ≡ None }
    ensures size { length slots.new.items ≡ length slots.old.items }
{
    for k in used {
        slots[*k as usize] = None;
    }
}
