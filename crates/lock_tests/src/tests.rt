//! The tests: what no clause says, that seats get in at last, and the answers once.
use crate::{Board, count_each};
use seat_lock::SeatLock;
use std::test::Fail;
use std::time::Duration;

// So often a test that waits for threads is repeated: what is lost shows in some orders of events alone.
const REPEATS: u32 = 100;

// How many microseconds a passage takes that rests: longer than a seat looks before it sleeps.
const REST: u64 = 200;

#[test]
fn each_seat_counts_in_its_own_cell(rt: HostRuntime) -> Result<(), Fail> {
    let board = Board::new(rt.alloc(), 9, &[1000, 20, 300, 0, 7])?;
    let counted = count_each(&rt, rt.alloc(), board, &[3000, 2000, 1, 0, 2500], None)?;
    assert_eq!(rt; counted.job, 9);
    assert_eq!(rt;
        counted.cells.as_slice(),
        [4000, 2020, 301, 0, 2507].as_slice()
    );
    Ok(())
}

#[test]
fn one_seat_is_enough(rt: HostRuntime) -> Result<(), Fail> {
    let board = Board::new(rt.alloc(), 1, &[5])?;
    let counted = count_each(&rt, rt.alloc(), board, &[6], None)?;
    assert_eq!(rt; counted.cells.as_slice(), [11].as_slice());
    Ok(())
}

#[test]
fn a_close_without_a_passage_gives_the_value_back(rt: HostRuntime) -> Result<(), Fail> {
    let board = Board::new(rt.alloc(), 4, &[30, 10, 20])?;
    let (lock, seats) = SeatLock::new(rt.alloc(), board, 3)?;
    for (place, seat) in seats.iter().enumerate() {
        assert_eq!(rt; seat.number() as usize, place);
    }
    let closed = lock.close(seats);
    assert_eq!(rt; closed.job, 4);
    assert_eq!(rt; closed.cells.as_slice(), [30, 10, 20].as_slice());
    Ok(())
}

#[test]
fn seats_that_sleep_are_woken(rt: HostRuntime) -> Result<(), Fail> {
    let rest = Some(Duration::from_micros(REST));
    for _repeat in 0..REPEATS {
        let board = Board::new(rt.alloc(), 2, &[0, 1, 2, 3, 4, 5, 6, 7])?;
        let counted = count_each(&rt, rt.alloc(), board, &[2, 1, 2, 1, 2, 1, 2, 1], rest)?;
        assert_eq!(rt;
            counted.cells.as_slice(),
            [2, 2, 4, 4, 6, 6, 8, 8].as_slice()
        );
    }
    Ok(())
}

#[test]
fn many_short_passages_end(rt: HostRuntime) -> Result<(), Fail> {
    for _repeat in 0..REPEATS {
        let board = Board::new(rt.alloc(), 3, &[0, 0, 0, 0, 0, 0, 0, 0, 0, 0, 0, 0])?;
        let times = [500, 499, 498, 497, 496, 495, 494, 493, 492, 491, 490, 489];
        let counted = count_each(&rt, rt.alloc(), board, &times, None)?;
        for (cell, n) in counted.cells.iter().zip(times.iter()) {
            assert!(rt; *cell == u64::from(*n));
        }
    }
    Ok(())
}
