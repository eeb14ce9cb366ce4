use std::hint::spin_loop;
use std::sync::{Mutex, MutexGuard, Wait};
use std::thread;

// How often a lock that another worker holds is tried before its waiter sleeps.
const TRIES: u32 = 1000;

// How many of these tries are made at once, with pauses that grow.
const AT_ONCE: u32 = 32;

/// Takes the lock. It is held for short times, so it is tried for a while first: a waiter that sleeps is woken late, and the
/// others wait for it.
pub fn lock<'a, R: Wait, T>(rt: &R, mutex: &'a Mutex<T>) -> MutexGuard<'a, T> {
    for round in 0..TRIES {
        if let Some(guard) = mutex.try_lock() {
            return guard;
        }
        if round < AT_ONCE {
            for _ in 0..round {
                spin_loop();
            }
        } else {
            thread::yield_now();
        }
    }
    mutex.lock(rt)
}
