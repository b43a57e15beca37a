//! The vertices whose readers have yet to be told of their newest value.
ghost use Rattle.std.specs.Prelude.{◌≡◌, ◌+◌, ◌<◌, ◌≤◌, ◌^◌, [], IfOk, IfSome, MatchOption, OnOk, false, length, slice_set, true};
ghost use Rattle.consistent_solver.specs.Sweeps.{IsWaitingList};

use px_base::{Memory, Pos};
use std::alloc::Global;
use std::collections::VecDeque;

/// Vertices in a queue, first in and first out, with a mark at each that waits in it. So none waits twice. It takes 5 bytes
/// for each vertex of the graph.
#[derive(Drop)]
pub struct Waiting {
    /// The vertices that wait, the one that came first in front.
    pub queue: VecDeque<Pos>,
    /// Of each vertex, whether it waits.
    pub marks: Vec<bool>,
}

impl Waiting {
    /// The vertices with a mark wait, in rising order.
    pub fn of(alloc: Global, marks: Vec<bool>) -> Result<Waiting, Memory>
        requires { length marks.items < 2 ^ 32 }
        ensures list { IfOk result (λ waiting. IsWaitingList (length marks.items) waiting) }
        ensures marks { IfOk result (λ waiting. waiting.marks.items ≡ marks.items) }
    {
        let mut queue = VecDeque::with_capacity(alloc, marks.len())?;
        for (v, marked) in marks.iter().enumerate() {
            if *marked {
                queue.push_back(v as Pos)?;
            }
        }
        Ok(Waiting { queue, marks })
    }

    /// The vertex waits, last if it didn't wait yet.
    pub fn put(&mut self, v: Pos) -> Result<(), Memory>
        requires list { IsWaitingList (length self.old.marks.items) self.old }
        requires v { v < length self.old.marks.items }
        ensures list { OnOk result (IsWaitingList (length self.old.marks.items) self.new) }
        ensures marks { OnOk result (self.new.marks.items ≡ slice_set self.old.marks.items v true) }
        ensures longer { OnOk result (length self.new.queue.items ≤ length self.old.queue.items + 1) }
    {
        if !self.marks[v as usize] {
            self.marks[v as usize] = true;
            self.queue.push_back(v)?;
        }
        Ok(())
    }

    /// Takes the vertex that waits first.
    pub fn take(&mut self) -> Option<Pos>
        requires list { IsWaitingList (length self.old.marks.items) self.old }
        ensures list { IsWaitingList (length self.old.marks.items) self.new }
        ensures none { MatchOption result (self.old.queue.items ≡ []) (λ v. v < length self.old.marks.items) }
        ensures marks { IfSome result (λ v. self.new.marks.items ≡ slice_set self.old.marks.items v false) }
        ensures shorter { IfSome result (λ v. length self.new.queue.items + 1 ≡ length self.old.queue.items) }
    {
        match self.queue.pop_front() {
            Some(v) => {
                self.marks[v as usize] = false;
                Some(v)
            }
            None => None,
        }
    }
}
