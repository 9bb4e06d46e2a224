//! How readers let a writer pass.
//!
//! Nothing here changes a result: calls that may wait are delayed, and no proof knows the count.

use std::hint::spin_loop;
use std::sync::atomic::{AtomicU64, Ordering};
use std::thread::yield_now;

// How often a reader looks for a writer before it goes on beside it. Without a bound, a reader inside
// another pass's read could wait for a writer that waits for that read.
const MOST_LOOKS: u32 = 256;

// How many of the first looks pause the processor, before the rest lend it to another thread.
const PAUSES: u32 = 32;

/// The number of `write` calls of a lock that have not returned.
#[derive(Drop)]
pub(crate) struct Writers {
    count: AtomicU64,
}

impl Writers {
    // No writer.
    pub(crate) const fn none() -> Self {
        Writers {
            count: AtomicU64::new(0),
        }
    }

    // Counts one more writer, until it leaves.
    pub(crate) fn enter(&self) {
        self.count.fetch_add(1, Ordering::SeqCst);
    }

    // Counts one writer less.
    pub(crate) fn leave(&self) {
        self.count.fetch_sub(1, Ordering::SeqCst);
    }

    // Waits while there is a writer, but not for long.
    pub(crate) fn let_pass(&self) {
        for look in 0..MOST_LOOKS {
            if self.count.load(Ordering::SeqCst) == 0 {
                return;
            }
            pause(look);
        }
    }
}

// Pauses the processor, or lends it to another thread after many looks.
pub(crate) fn pause(look: u32) {
    if look < PAUSES {
        spin_loop();
    } else {
        yield_now();
    }
}
