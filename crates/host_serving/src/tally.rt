ghost use Rattle.std.specs.Prelude.{◌≡◌};
ghost use Rattle.host_serving.specs.Tally.{counted_one, counted};

use issuer_rows::Frame;

/// How many bodies came, and how many of them are no message. A count stays at 2^64 - 1 once it is there.
#[derive(Clone, Copy, Debug, PartialEq, Eq)]
pub struct Tally {
    /// How many bodies.
    pub bodies: u64,
    /// How many of them are no message.
    pub unreadable: u64,
}

impl Tally {
    /// One body more.
    pub fn add_one(&mut self, frame: &Frame)
        ensures { self.new ≡ counted_one self.old frame.now }
    {
        self.bodies = self.bodies.saturating_add(1);
        match frame {
            Frame::Good(_) => {}
            Frame::Bad(_) => self.unreadable = self.unreadable.saturating_add(1),
        }
    }

    /// All of these more.
    pub(crate) fn add(&mut self, frames: &[Frame])
        ensures { self.new ≡ counted self.old frames.now }
    {
        for frame in frames {
            self.add_one(frame);
        }
    }
}
