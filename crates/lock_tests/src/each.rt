//! A thread for each seat, which counts in the seat's own cell.
ghost use Rattle.std.specs.Prelude.{◌≡◌, ◌<◌, ◌^◌, length, IfOk, None};
ghost use Rattle.seat_lock.specs.Views.{AreAllSeats};
ghost use Rattle.lock_tests.specs.Tallies.{tallies, IsCounted};
ghost use Rattle.lock_tests.specs.Children.{will, counted, AreCounted};

use crate::board::Board;
use px_base::Memory;
use seat_lock::{Seat, SeatLock};
use std::alloc::Global;
use std::snapshot::Snapshot;
use std::sync::Wait;
use std::thread;
use std::thread::{Promise, PromisedHandle, Scope, Threads};
use std::time::{Clock, Duration};

/// What a thread with this seat promises: that its part counts so many times more.
#[derive(Drop)]
pub struct Counts {
    seat: Snapshot<Seat<Board>>,
    times: u32,
}

impl Promise<Seat<Board>> for Counts {
    ghost kept_by = { λ p r. r ≡ counted p.seat.value p.times };
}

/// A thread that counts, or the seat where no thread could be started and the caller counted.
#[derive(Drop)]
pub enum Child {
    /// The thread, which gives its seat up at its end.
    There(PromisedHandle<Seat<Board>, Counts>),
    /// The seat, after it counted.
    Here(Seat<Board>),
}

// Counts so many times in the seat's own cell, in a passage each time, and rests inside each time where it is to.
fn count<R: Threads + Wait + Clock + Sync>(
    rt: &R,
    lock: &SeatLock<Board>,
    seat: Seat<Board>,
    times: u32,
    rest: Option<Duration>,
) -> Seat<Board>
    requires { (seat.lock ≡ lock.now.name) × (seat.inside ≡ None) }
    ensures { result ≡ counted seat times }
{
    let mut seat = seat;
    for _passage in 0..times {
        let mut board = lock.enter(rt, &mut seat);
        if let Some(rest) = rest {
            thread::sleep(rt, rest);
        }
        board.raise(seat.number() as usize);
        lock.leave(&mut seat, board);
    }
    seat
}

fn start<'s, E, R: Threads + Wait + Clock + Sync>(
    scope: &'s Scope<'s, E>,
    rt: &'s R,
    lock: &'s SeatLock<Board>,
    seat: Seat<Board>,
    times: u32,
    rest: Option<Duration>,
) -> Child
    requires { (seat.lock ≡ lock.now.name) × (seat.inside ≡ None) }
    ensures { will result ≡ counted seat times }
{
    let promise = Counts {
        seat: Snapshot::of(&seat),
        times,
    };
    let run = move || -> Seat<Board>
        requires { (seat.lock ≡ lock.now.name) × (seat.inside ≡ None) }
        ensures { result ≡ counted seat times }
    { count(rt, lock, seat, times, rest) };
    match scope.spawn_with(promise, run) {
        Ok(handle) => Child::There(handle),
        Err(refused) => Child::Here((refused.value)()),
    }
}

fn finish<R: Threads>(rt: &R, child: Child) -> Seat<Board>
    ensures { result ≡ will child }
{
    match child {
        Child::There(handle) => handle.join(rt),
        Child::Here(seat) => seat,
    }
}

fn run<'s, E, R: Threads + Wait + Clock + Sync>(
    scope: &'s Scope<'s, E>,
    rt: &'s R,
    alloc: Global,
    lock: &'s SeatLock<Board>,
    seats: Vec<Seat<Board>>,
    times: &[u32],
    rest: Option<Duration>,
) -> Result<Vec<Seat<Board>>, Memory>
    requires { AreAllSeats lock.now.name (length times.now) seats.items }
    ensures { IfOk result (λ v. AreCounted seats.items times.now v.items) }
{
    let mut children = Vec::with_capacity(alloc, times.len())?;
    let mut left = Vec::with_capacity(alloc, times.len())?;
    for seat in seats {
        let times = times[children.len()];
        children.push_reserved(start(scope, rt, lock, seat, times, rest));
    }
    for child in children {
        left.push_reserved(finish(rt, child));
    }
    Ok(left)
}

/// The board after each thread counted so many times in its own cell, with as many threads as there are cells. A thread that
/// is to rest does so inside each passage. Errors: want of memory.
pub fn count_each<R: Threads + Wait + Clock + Sync>(
    rt: &R,
    alloc: Global,
    board: Board,
    times: &[u32],
    rest: Option<Duration>,
) -> Result<Board, Memory>
    requires { (0 < length times.now) × (length times.now < 2 ^ 32) × (length board.cells.items ≡ length times.now) }
    ensures { IfOk result (λ b. IsCounted (tallies board) times.now (tallies b)) }
{
    let (lock, seats) = SeatLock::new(alloc, board, times.len() as u32)?;
    let shared = &lock;
    let seats = thread::scope(
        thread::scope_env(),
        rt,
        |scope| -> Result<Vec<Seat<Board>>, Memory>
            requires { AreAllSeats shared.now.name (length times.now) seats.items }
            ensures { IfOk result (λ v. AreCounted seats.items times.entry.now v.items) }
        { run(scope, rt, alloc, shared, seats, times, rest) },
    )?;
    Ok(lock.close(seats))
}
