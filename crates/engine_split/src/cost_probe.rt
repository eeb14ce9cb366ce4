use engine_workers::Workers;
use std::time::{Clock, Duration, Instant};

// How many messages are decided between two looks at the clock.
const PIECE: u32 = 32;

// Where a piece takes longer, in microseconds, its decisions are heavy: more than 8 each. To hand a message to another thread and take
// back what it wrote costs 5 to 7.
const LIGHT: u64 = 256;

// After so many heavy pieces in a row the decisions are heavy. One alone may be a thread that the system delayed.
const PIECES: u32 = 4;

/// Watches by a clock whether decisions are so heavy that workers decide faster together than one of them alone. Where one works alone
/// anyway, none is.
#[derive(Drop)]
pub(crate) struct CostProbe {
    may_share: bool,
    // How many messages of this piece are decided, and when it began, if the clock said.
    decided: u32,
    began: Option<Instant>,
    // How many pieces in a row were heavy.
    heavy: u32,
}

impl CostProbe {
    // A watch over the first of so many workers.
    pub(crate) fn new(workers: Workers) -> CostProbe {
        CostProbe {
            may_share: workers.count() > 1,
            decided: 0,
            began: None,
            heavy: 0,
        }
    }

    // Begins now.
    pub(crate) fn begin<R: Clock>(&mut self, clock: &R) {
        self.began = Instant::now(clock).ok();
    }

    // Notes that one more message is decided.
    pub(crate) fn note<R: Clock>(&mut self, clock: &R) {
        self.decided = self.decided.saturating_add(1);
        if self.decided < PIECE {
            return;
        }
        let now = Instant::now(clock).ok();
        if is_light(self.began, now) {
            self.heavy = 0;
        } else {
            self.heavy = self.heavy.saturating_add(1);
        }
        self.decided = 0;
        self.began = now;
    }

    // Whether the decisions are heavy.
    pub(crate) fn is_heavy(&self) -> bool {
        self.may_share && self.heavy >= PIECES
    }
}

// Whether a piece that took from the one time to the other is light. Where the clock didn't say, it is not.
fn is_light(began: Option<Instant>, ended: Option<Instant>) -> bool {
    match (began, ended) {
        (Some(began), Some(ended)) => {
            ended.duration_since(began) <= Duration::from_micros(LIGHT)
        }
        _ => false,
    }
}
