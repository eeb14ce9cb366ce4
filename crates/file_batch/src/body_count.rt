ghost use Rattle.std.specs.Prelude.{◌≡◌, ◌<◌, ◌^◌, length, count_by};
ghost use Rattle.file_batch.specs.Counting.{is_unreadable};

use issuer_rows::Frame;

/// How many bodies a batch has, and how many of them are unreadable.
#[derive(Clone, Copy, Debug, PartialEq, Eq)]
pub struct BodyCount {
    /// How many bodies it has.
    pub bodies: u32,
    /// How many of them are no message.
    pub unreadable: u32,
}

impl BodyCount {
    ghost use Rattle.std.specs.Prelude.{◌≡◌, ◌+◌, ◌<◌, ◌^◌, [], length};
    ghost use Rattle.file_batch.specs.Counting.{count_of, plus};

    /// Of no body.
    pub fn none() -> BodyCount
        ensures { result ≡ count_of [] }
    {
        BodyCount {
            bodies: 0,
            unreadable: 0,
        }
    }

    /// Of these bodies.
    pub fn of(frames: &[Frame]) -> BodyCount
        requires { length frames.now < 2 ^ 32 }
        ensures { result ≡ count_of frames.now }
    {
        BodyCount {
            bodies: frames.len() as u32,
            unreadable: unreadable_in(frames),
        }
    }

    /// Of both together.
    pub fn plus(self, more: BodyCount) -> BodyCount
        requires bodies { self.bodies + more.bodies < 2 ^ 32 }
        requires unreadable { self.unreadable + more.unreadable < 2 ^ 32 }
        ensures { result ≡ plus self more }
    {
        BodyCount {
            bodies: self.bodies + more.bodies,
            unreadable: self.unreadable + more.unreadable,
        }
    }
}

// How many of these bodies are no message.
fn unreadable_in(frames: &[Frame]) -> u32
    requires { length frames.now < 2 ^ 32 }
    ensures { result ≡ count_by is_unreadable frames.now }
{
    let mut unreadable = 0;
    for frame in frames {
        if is_unreadable(frame) {
            unreadable += 1;
        }
    }
    unreadable
}

// Whether a body is no message.
fn is_unreadable(frame: &Frame) -> bool
    ensures { result ≡ is_unreadable frame.now }
{
    matches!(frame, Frame::Bad(_))
}
