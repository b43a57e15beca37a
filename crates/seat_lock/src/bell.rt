//! Where seats sleep that wait for the lock. No clause speaks of it.
use std::sync::Wait;
use std::sync::atomic::{AtomicU64, Ordering};

/// A count that is odd where some seat may sleep. It rises by one when a seat asks to be woken, and by one at a ring. So a
/// seat that falls asleep just as the bell rings finds another count, and stays awake.
#[derive(Drop)]
pub(crate) struct Bell {
    count: AtomicU64,
}

impl Bell {
    /// A bell at which no seat sleeps.
    pub(crate) fn new() -> Bell {
        Bell {
            count: AtomicU64::new(0),
        }
    }

    /// Asks for the next ring. The answer is what to sleep on, if the lock is then still found taken.
    pub(crate) fn ask(&self) -> u32 {
        let count = self.count.load(Ordering::SeqCst);
        if count % 2 == 1 {
            return low_bits(count);
        }
        self.rise_from(count);
        low_bits(count.wrapping_add(1))
    }

    /// Sleeps until the bell rings. It returns at once where it rang since the `ask` that answered this.
    pub(crate) fn sleep<R: Wait>(&self, rt: &R, asked: u32) {
        self.count.park(rt, asked);
    }

    /// Wakes one seat, where some may sleep. A seat that wakes asks again, for those that still sleep.
    pub(crate) fn ring(&self) {
        let count = self.count.load(Ordering::SeqCst);
        if count % 2 == 1 && self.rise_from(count) {
            self.count.wake_one();
        }
    }

    // Of those that would do so at once one does.
    fn rise_from(&self, count: u64) -> bool {
        let next = count.wrapping_add(1);
        self.count
            .compare_exchange(count, next, Ordering::SeqCst, Ordering::SeqCst)
            .is_ok()
    }
}

fn low_bits(count: u64) -> u32 {
    (count % (1 << 32)) as u32
}
