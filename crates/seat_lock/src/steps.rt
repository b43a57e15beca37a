//! What each step on the table tells its seat.
ghost use Rattle.seat_lock.specs.Seats.{entered, left, front, behind, both, spent};

use crate::parted::Parted;
use crate::rule::View;
use atomic_table::{Join, Play, Split};
use std::marker::PhantomData;

/// The word from 0 to one more than the seat's number, and the slot out.
pub(crate) struct Enter<T> {
    of: PhantomData<T>,
}

impl<T: Parted> Play<Option<T>, View<T::Part>> for Enter<T> {
    ghost then = { entered T.parts };
}

/// The word to 0, and the slot back.
pub(crate) struct Leave<T> {
    of: PhantomData<T>,
}

impl<T: Parted> Play<Option<T>, View<T::Part>> for Leave<T> {
    ghost then = { left T.parts };
}

/// The first part of a seat goes to a new one.
pub(crate) struct SplitFront;

impl<P> Split<View<P>> for SplitFront {
    ghost left = { behind };

    ghost right = { front };
}

/// A seat takes over the parts of another, which stand right behind its own.
pub(crate) struct JoinBehind;

impl<P> Join<View<P>> for JoinBehind {
    ghost both = { both };

    ghost spent = { spent };
}
