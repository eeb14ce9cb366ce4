use rayon::current_num_threads;
use std::sync::{Mutex, MutexGuard, Wait};
use std::thread;
use std::thread::{Threads, join_mut};

// How often it is looked whether a piece of work is at hand, before the thread that needs it sleeps.
const TRIES: u32 = 1000;

/// Work that several threads do ahead of one that needs it.
pub trait Help: Send + Sync {
    ghost use Rattle.std.specs.Thread.{IsSync};

    /// Does pieces of work, one after another, until there are no more, or no more are needed.
    fn help<R: Threads + Wait + Sync>(&self, rt: &R)
        requires { IsSync R.row };

    /// Says that no more is needed, so that helpers end.
    fn close(&self);
}

/// Calls `work` while other threads help, as many as there are processors besides.
pub fn with_help<R: Threads + Wait + Sync, H: Help, T, F: FnMut() -> T>(
    rt: &R,
    helper: &H,
    work: &mut F,
) -> T
    requires { F.pre work.old }
    ensures { F.step work.old result work.new }
{
    let helpers = current_num_threads(rt) - 1;
    if helpers == 0 {
        return work();
    }
    let (_, done) = join_mut(
        rt,
        &mut || help_in(rt, helper, helpers),
        &mut || -> T
            requires { F.pre work.now }
            ensures { F.step work.entry.now result work.exit.now }
        {
            let done = work();
            helper.close();
            done
        },
    );
    done
}

// Helps in so many threads, this one among them.
fn help_in<R: Threads + Wait + Sync, H: Help>(rt: &R, helper: &H, threads: usize) {
    thread::scope(thread::scope_env(), rt, move |scope| {
        for _ in 1..threads {
            let _ = scope.spawn(move || helper.help(rt));
        }
        helper.help(rt);
    });
}

/// Locks what another thread may be at work on. Until it isn't, something else is done, which tells whether there was anything to do.
pub fn lock_meanwhile<'m, R: Wait, T, F: Fn() -> bool>(
    rt: &R,
    locked: &'m Mutex<T>,
    meanwhile: &F,
) -> MutexGuard<'m, T>
    requires { F.pre meanwhile.now }
{
    for _ in 0..TRIES {
        if let Some(guard) = locked.try_lock() {
            return guard;
        }
        if !meanwhile() {
            thread::yield_now();
        }
    }
    locked.lock(rt)
}
