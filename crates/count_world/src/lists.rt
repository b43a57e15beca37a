//! Lists of masters or mirrors by place, with room for all of them.
ghost use Rattle.std.specs.Prelude.{◌≡◌, ◌≤◌, ◌<◌, ◌++◌, ◌∷◌, [], true, not, All, IfOk, if◌then◌else◌, filter, length, replicate};
ghost use Rattle.std.specs.Vec.{vec_capacity};
ghost use Rattle.px_base.specs.declared.TheConstants.{MOST_VERTICES};
ghost use Rattle.px_base.specs.Values.{is_in, positions_below};
ghost use Rattle.list_laws.specs.Sets.{IsListOf};
ghost use Rattle.count_world.specs.Sets.{is_dying, is_told_again, without};

use px_base::{Memory, Value};
use std::alloc::Global;

/// So many zeros. Errors: want of memory.
pub fn zeros(alloc: Global, count: usize) -> Result<Vec<Value>, Memory>
    ensures { IfOk result (λ zeros. zeros.items ≡ replicate count 0) }
{
    Ok(vec![in alloc; 0; count]?)
}

/// Adds the place to the list, if it is to be on it. There has to be room, so that it takes no memory.
pub fn add_if(listed: bool, k: u32, list: &mut Vec<u32>)
    requires { listed ≡ true → length list.old.items < vec_capacity list.old }
    ensures items { list.new.items ≡ list.old.items ++ (if listed then k ∷ [] else []) }
    ensures room { vec_capacity list.old ≤ vec_capacity list.new }
{
    if listed {
        let _ = list.push(k);
    }
}

/// Whether the master is alive and has too low a count.
fn is_dying(alive: &[Value], counts: &[Value], needed: u32, k: usize) -> bool
    requires alive { k < length alive.now }
    requires counts { k < length counts.now }
    ensures { result ≡ is_dying alive.now counts.now needed k }
{
    alive[k] == 1 && counts[k] < u64::from(needed)
}

/// Lists the masters that are alive and have too low a count.
pub fn list_dying(alive: &[Value], counts: &[Value], needed: u32, list: &mut Vec<u32>)
    requires counts { length counts.now ≡ length alive.now }
    requires few { length alive.now ≤ MOST_VERTICES }
    requires room { length alive.now ≤ vec_capacity list.old }
    ensures lists { IsListOf (length alive.now) (is_dying alive.now counts.now needed) list.new.items }
    ensures room { vec_capacity list.old ≤ vec_capacity list.new }
{
    list.clear();
    for k in 0..alive.len() {
        add_if(is_dying(alive, counts, needed, k), k as u32, list);
    }
}

/// Lists the masters that are dead.
fn list_dead(alive: &[Value], list: &mut Vec<u32>)
    requires few { length alive.now ≤ MOST_VERTICES }
    requires room { length alive.now ≤ vec_capacity list.old }
    ensures lists { list.new.items ≡ filter (λ k. not (is_in alive.now k)) (positions_below (length alive.now)) }
    ensures room { vec_capacity list.old ≤ vec_capacity list.new }
{
    list.clear();
    for k in 0..alive.len() {
        add_if(alive[k] != 1, k as u32, list);
    }
}

/// Lists the masters whose death is told once more: all that are dead where a Step is fresh, and else none.
pub fn list_again(fresh: bool, alive: &[Value], list: &mut Vec<u32>)
    requires few { length alive.now ≤ MOST_VERTICES }
    requires room { length alive.now ≤ vec_capacity list.old }
    ensures lists { IsListOf (length alive.now) (is_told_again fresh alive.now) list.new.items }
    ensures room { vec_capacity list.old ≤ vec_capacity list.new }
{
    if fresh {
        list_dead(alive, list);
    } else {
        list.clear();
    }
}

/// Copies a list to another that has the room for it, so that it takes no memory.
pub fn copy_list(from: &[u32], to: &mut Vec<u32>)
    requires { length from.now ≤ vec_capacity to.old }
    ensures items { to.new.items ≡ from.now }
    ensures room { vec_capacity to.old ≤ vec_capacity to.new }
{
    to.clear();
    let _ = to.extend_from_slice(from);
}

/// Writes 0 at the members.
pub fn wipe_at(members: &[u32], items: &mut Vec<Value>)
    requires { All (λ k. k < length items.old.items) members.now }
    ensures { items.new.items ≡ without members.now items.old.items }
{
    for k in members {
        items[*k as usize] = 0;
    }
}
