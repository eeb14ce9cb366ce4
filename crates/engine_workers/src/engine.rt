/// How the workers that decide a batch share what they work with. Replies and book are the same with each.
#[derive(Clone, Copy, Debug, PartialEq, Eq)]
pub enum Engine {
    /// One speculative core under one lock, which can keep the run's journal.
    Locked,
    /// Rows, messages and commits under locks of their own. It keeps no journal.
    Split,
    /// Parts of the batch of which no two need the same row, each decided by a worker of its own, without a lock. It keeps no journal.
    Parts,
}
