//! Taking the lock of the book.
use std::hint::spin_loop;
use std::sync::{Mutex, MutexGuard, Wait};
use std::thread::yield_now;

// How often a thread tries to take the lock before it sleeps.
const LOOKS: u32 = 16;

// How long a thread pauses between two tries: shortest at first, then twice as long each time.
const SHORTEST: u32 = 16;

const LONGEST: u32 = 32_768;

/// Takes a lock. A thread holds it for one turn, less than a microsecond; sleeping and waking take longer than several
/// turns. A waiting thread therefore tries several times first, with pauses that grow. Meanwhile the thread that has
/// the lock can take it again for its next turns, while the data are in its processor's cache. Once a pause has its
/// longest length, the waiting thread yields, since there may be more threads than processors.
pub(crate) fn lock<'a, T, R: Wait>(mutex: &'a Mutex<T>, rt: &R) -> MutexGuard<'a, T> {
    let mut pauses = SHORTEST;
    for _ in 0..LOOKS {
        if let Some(guard) = mutex.try_lock() {
            return guard;
        }
        pause(pauses);
        if pauses < LONGEST {
            pauses *= 2;
        } else {
            yield_now();
        }
    }
    mutex.lock(rt)
}

// Spins so many times.
fn pause(times: u32) {
    for _ in 0..times {
        spin_loop();
    }
}
