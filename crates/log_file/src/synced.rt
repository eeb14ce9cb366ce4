use crate::bodies::Bodies;

/// Bodies whose entry stands in a log and is synced. `LogWriter::append` alone makes one, so that who asks for one writes nothing ahead
/// of the log.
#[derive(Drop)]
pub struct Synced<'a> {
    bodies: &'a Bodies,
    number: u64,
}

impl<'a> Synced<'a> {
    ghost use Rattle.std.specs.Prelude.{◌≡◌};

    /// Of an entry that was just synced.
    pub(crate) fn new(bodies: &'a Bodies, number: u64) -> Synced<'a>
        ensures bodies { result.bodies.now ≡ bodies.now }
        ensures number { result.number ≡ number }
    {
        Synced { bodies, number }
    }

    /// The bodies, in order.
    pub fn bodies(&self) -> &'a Bodies
        ensures { result.now ≡ self.now.bodies.now }
    {
        self.bodies
    }

    /// The number of the entry in its log, counted from 0.
    pub fn number(&self) -> u64
        ensures { result ≡ self.now.number }
    {
        self.number
    }
}
