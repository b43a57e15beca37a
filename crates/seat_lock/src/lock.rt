//! The lock and its seats: a seat enters, has the value alone, and leaves.
ghost use Rattle.std.specs.Prelude.{◌≡◌, ◌<◌, ◌≤◌, [], length, slice_get, IfOk, vec_capacity, Some, None};
ghost use Rattle.seat_lock.specs.Views.{AreSeats, AreAllSeats, KeepsOthers, IsLeft};

use crate::bell::Bell;
use crate::parted::Parted;
use crate::rule::{LockRule, Opening, View};
use crate::steps::{Enter, JoinBehind, Leave, SplitFront};
use atomic_table::{Shared, Table};
use px_base::Memory;
use std::alloc::Global;
use std::hint::spin_loop;
use std::marker::Model;
use std::snapshot::Snapshot;
use std::sync::Wait;
use std::thread::Threads;

// How many pauses a seat that waits makes before it sleeps.
const PATIENCE: u32 = 2000;

// How many pauses it makes between two looks, at most. Each look takes the word from the processor of the seat that is in,
// so one that looks too often slows the others down.
const MOST_BETWEEN: u32 = 64;

type LockTable<T, P> = Table<Option<T>, View<P>, Opening<T>, LockRule<T>, Global>;

type SharedTable<T, P> = Shared<Option<T>, View<P>, Opening<T>, LockRule<T>>;

type TableSeat<T, P> = atomic_table::Seat<Option<T>, View<P>>;

/// A lock round one value, of which each seat has one part. Contracts see which lock it is, and how many seats it has.
#[derive(Drop)]
pub struct SeatLock<T: Parted> {
    table: LockTable<T, T::Part>,
    bell: Bell,
}

impl<T: Parted> Model for SeatLock<T> {
    ghost use Rattle.std.specs.Prelude.{◌≡◌, ◌<◌};
    ghost use Rattle.seat_lock.specs.Views.{LockView, lock_code};

    ghost Value = { LockView };

    ghost coded = { lock_code };

    ghost view = { λ l. record { name = l.table.shared.table_id; seats = l.table.shared.key.seats } };

    ghost invariant = { λ l. (l.table.shared.table_id.words ≡ 1) × (l.table.shared.table_id.slots ≡ 1) × (0 < l.table.shared.key.seats) };
}

// How long a seat has waited.
#[derive(Drop)]
struct Waited {
    // how many pauses it made since it came, or was woken
    pauses: u32,
    // what it sleeps on, once it has asked to be woken
    asked: Option<u32>,
}

/// A seat of a lock. Contracts see its lock, its number, its part as it last left it, and while it is in all parts as it
/// found them.
#[derive(Drop)]
pub struct Seat<T: Parted> {
    place: TableSeat<T, T::Part>,
    number: u32,
}

impl<T: Parted> Model for Seat<T> {
    ghost use Rattle.std.specs.Prelude.{slice_get};
    ghost use Rattle.seat_lock.specs.Views.{SeatView, seat_code};
    ghost use Rattle.seat_lock.specs.Poses.{IsPosed};

    ghost Value = { SeatView T.Part };

    ghost coded = { seat_code T.Part.code };

    ghost view = { λ s. record { lock = s.place.table_id; number = s.number; part = slice_get s.place.me.0.held 0; inside = s.place.me.0.inside } };

    ghost invariant = { λ s. IsPosed s.number s.place.me };
}

// Lets the processor rest so many times.
fn pause(times: u32) {
    for _ in 0..times {
        spin_loop();
    }
}

// Deals the seats: `rest` has all parts, and of each seat but the last one is split off.
fn deal<T: Parted>(
    shared: &SharedTable<T, T::Part>,
    rest: TableSeat<T, T::Part>,
    count: u32,
    out: &mut Vec<Seat<T>>,
)
    requires table { (rest.table_id ≡ shared.now.table_id) × (0 < shared.now.table_id.words) }
    requires all { (rest.me.0.number ≡ 0) × (rest.me.0.inside ≡ None) × (rest.me.1 ≡ []) × (length rest.me.0.held ≡ count) × (0 < count) }
    requires room { (out.old.items ≡ []) × (count ≤ vec_capacity out.old) }
    ensures { AreSeats rest.table_id rest.me.0.held out.new.items }
{
    let mut rest = rest;
    for number in 0..count - 1 {
        let place = shared.split_seat::<SplitFront>(&mut rest);
        out.push_reserved(Seat { place, number });
    }
    out.push_reserved(Seat {
        place: rest,
        number: count - 1,
    });
}

impl<T: Parted> Seat<T> {
    /// The place of the seat's part among all parts.
    pub fn number(&self) -> u32
        ensures { result ≡ self.now.number }
    {
        self.number
    }
}

impl<T: Parted> SeatLock<T> {
    /// A free lock with this value, and its seats, in the order of their parts. Errors: want of memory, and then the value
    /// is dropped.
    pub fn new(alloc: Global, value: T, seats: u32) -> Result<(SeatLock<T>, Vec<Seat<T>>), Memory>
        requires { (0 < seats) × (seats ≡ length (T.parts value)) }
        ensures lock { IfOk result (λ r. r.0.seats ≡ seats) }
        ensures seats { IfOk result (λ r. AreSeats r.0.name (T.parts value) r.1.items) }
    {
        let mut all = Vec::with_capacity(alloc, seats as usize)?;
        let mut slots = Vec::with_capacity(alloc, 1)?;
        let opening = Opening {
            value: Snapshot::of(&value),
            seats,
        };
        slots.push_reserved(Some(value));
        let Ok((table, place)) = Table::new(alloc, &[0], slots, &opening) else {
            return Err(Memory);
        };
        deal(&table.shared, place, seats, &mut all);
        let bell = Bell::new();
        Ok((SeatLock { table, bell }, all))
    }

    /// Waits until the lock is free, and takes the value out. The seat's own part is as this seat last left it; of other
    /// parts nothing is known.
    pub fn enter<R: Threads + Wait + Sync>(&self, rt: &R, seat: &mut Seat<T>) -> T
        requires lock { seat.old.lock ≡ self.now.name }
        requires out { seat.old.inside ≡ None }
        ensures part { slice_get (T.parts result) seat.old.number ≡ seat.old.part }
        ensures seat { seat.new ≡ record seat.old { inside = Some (T.parts result) } }
    {
        let word = u64::from(seat.number) + 1;
        let shared = &self.table.shared;
        let mut waited = Waited {
            pauses: 0,
            asked: None,
        };
        for _ in rt.forever() {
            let found = shared.compare_exchange::<Enter<T>>(&mut seat.place, 0, 0, word);
            if found == 0 {
                return shared.exchange(&mut seat.place, 0, None).unwrap();
            }
            self.wait(rt, &mut waited);
        }
        unreachable!()
    }

    // Looks until the lock seems free. A seat that has looked for long asks to be woken, and sleeps if it still doesn't get in.
    fn wait<R: Wait>(&self, rt: &R, waited: &mut Waited) {
        if waited.pauses < PATIENCE {
            waited.pauses = self.look(waited.pauses);
            return;
        }
        if let Some(asked) = waited.asked {
            self.bell.sleep(rt, asked);
            waited.pauses = 0;
        }
        waited.asked = Some(self.bell.ask());
    }

    // Looks until the lock seems free, or patience is at an end. The answer is how many pauses were made by then.
    fn look(&self, pauses: u32) -> u32 {
        let mut pauses = pauses;
        while pauses < PATIENCE && self.table.shared.peek(0) != 0 {
            let between = (pauses + 1).min(MOST_BETWEEN);
            pause(between);
            pauses += between;
        }
        pauses
    }

    /// The value goes back, in which only this seat's part may have changed. It doesn't wait.
    pub fn leave(&self, seat: &mut Seat<T>, value: T)
        requires lock { seat.old.lock ≡ self.now.name }
        requires others { KeepsOthers seat.old.number seat.old.inside (T.parts value) }
        ensures { seat.new ≡ record seat.old { part = slice_get (T.parts value) seat.old.number; inside = None } }
    {
        let _ = self.table.shared.exchange(&mut seat.place, 0, Some(value));
        self.table.shared.store::<Leave<T>>(&mut seat.place, 0, 0);
        self.bell.ring();
    }

    /// The value, in which each part is as its seat last left it. All seats are handed in, in their order. It doesn't wait.
    pub fn close(self, seats: Vec<Seat<T>>) -> T
        requires all { AreAllSeats self.name self.seats seats.items }
        ensures { IsLeft (T.parts result) seats.items }
    {
        let SeatLock { table, bell: _ } = self;
        let all = gather(&table.shared, seats);
        let mut closed = table.close_with(all);
        let slot = closed.take(0);
        closed.free();
        slot.unwrap()
    }
}

// Joins all seats into one, from the last one on.
fn gather<T: Parted>(shared: &SharedTable<T, T::Part>, seats: Vec<Seat<T>>) -> TableSeat<T, T::Part>
    requires table { 0 < shared.now.table_id.words }
    requires all { (0 < length seats.items) × AreAllSeats shared.now.table_id (length seats.items) seats.items }
    ensures table { result.table_id ≡ shared.now.table_id }
    ensures all { (result.me.0.number ≡ 0) × (result.me.0.inside ≡ None) × IsLeft result.me.0.held seats.items }
{
    let mut seats = seats;
    let Some(last) = seats.pop() else {
        unreachable!()
    };
    let Seat { place: mut all, .. } = last;
    while let Some(seat) = seats.pop() {
        let Seat { mut place, .. } = seat;
        shared.join_seat::<JoinBehind>(&mut place, all);
        all = place;
    }
    all
}
