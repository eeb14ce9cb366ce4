/// Stands before each decision and after each record, so that a test can hold a message there.
pub trait Hook: Sync {
    /// Called before the message at this index is decided in this incarnation.
    fn before_decide(&self, index: u32, incarnation: u32);

    /// Called after what was decided is recorded.
    fn after_record(&self, index: u32, incarnation: u32);
}

/// A hook that does nothing.
#[derive(Clone, Copy, Debug)]
pub struct NoHook;

impl Hook for NoHook {
    fn before_decide(&self, _index: u32, _incarnation: u32) {}

    fn after_record(&self, _index: u32, _incarnation: u32) {}
}
