//! Which masters are due to be renewed.
ghost use Rattle.std.specs.Prelude.{◌≡◌, ℕ, false, slice_index_or};
ghost use Rattle.worker_world.specs.Waiting.{AreListed};

use px_base::Memory;
use std::alloc::Global;
use std::mem;

/// The masters that are due: all of them, or those that are waiting, each with a mark. The list has a fixed room, and where
/// more than that become due, all are. So becoming due wants no memory, and a step that renews most masters goes through
/// them in order.
#[derive(Drop)]
pub struct Due {
    pub all: bool,
    pub waiting: Vec<u32>,
    pub marked: Vec<bool>,
    ghost listed: { AreListed waiting.items marked.items },
}

/// Takes the marks of these masters down.
fn unmark(masters: &[u32], marked: &mut [bool])
    requires { AreListed masters.now marked.old }
    ensures { (k : ℕ) → slice_index_or marked.new k false ≡ false }
{
    for k in masters {
        marked[*k as usize] = false;
    }
}

impl Due {
    ghost use Rattle.std.specs.Prelude.{◌≡◌, ◌<◌, true, IfOk, length};
    ghost use Rattle.worker_world.specs.Due.{is_due, StaysDue};

    /// All of so many masters are due, and the list has this room.
    pub fn new(alloc: Global, masters: usize, room: usize) -> Result<Due, Memory>
        ensures all { IfOk result (λ due. due.all ≡ true) }
        ensures size { IfOk result (λ due. length due.marked.items ≡ masters) }
    {
        Ok(Due {
            all: true,
            waiting: Vec::with_capacity(alloc, room)?,
            marked: vec![in alloc; false; masters]?,
        })
    }

    /// The k-th master is due from now on.
    pub fn add(&mut self, k: u32)
        requires { k < length self.old.marked.items }
        ensures added { is_due self.new k ≡ true }
        ensures stays { StaysDue self.old self.new }
    {
        if self.all || self.marked[k as usize] {
            return;
        }
        if self.waiting.len() < self.waiting.capacity() {
            self.waiting.push_reserved(k);
            self.marked[k as usize] = true;
        } else {
            self.all = true;
        }
    }

    /// Begins anew: all masters are due, or none. The list of those that were waiting goes to `past`.
    pub fn begin(&mut self, all: bool, past: &mut Vec<u32>)
        ensures past { past.new.items ≡ self.old.waiting.items }
        ensures all { self.new.all ≡ all }
        ensures size { length self.new.marked.items ≡ length self.old.marked.items }
    {
        self.all = all;
        mem::swap(&mut self.waiting, past);
        self.waiting.clear();
        unmark(past.as_slice(), self.marked.as_mut_slice());
    }
}
