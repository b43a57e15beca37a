//! The rule of the lock's table: one word, which is 0 while the lock is free, and one slot with the value.
use crate::parted::Parted;
use atomic_table::TableRule;
use std::collections::LinkedList;
use std::marker::PhantomData;
use std::snapshot::Snapshot;

/// What a seat knows. No value of it is made.
pub struct View<P> {
    /// The place of its first part among all parts, which is the seat's number.
    pub number: u64,
    /// The parts that it has, as they were last left.
    pub held: LinkedList<P>,
    /// While it is in, all parts as it found them.
    pub inside: Option<LinkedList<P>>,
}

/// What the table is told when it is made.
#[derive(Drop)]
pub struct Opening<T> {
    /// The value that it opens with, for contracts alone.
    pub value: Snapshot<T>,
    /// How many seats the lock has.
    pub seats: u32,
}

/// The rule: each part has one seat, which knows it as it was last left; the lock is free, with the value in the slot, or
/// taken by one seat, which has the slot.
pub struct LockRule<T> {
    of: PhantomData<T>,
}

impl<T: Parted> TableRule<Option<T>, View<T::Part>, Opening<T>> for LockRule<T> {
    ghost use Rattle.seat_lock.specs.Seats.{Kept, opening_view};

    ghost holds = { λ key. Kept T.parts key.seats };

    ghost first = { λ key. opening_view (T.parts key.value.value) };
}
