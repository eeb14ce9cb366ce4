use crate::link_names::LinkNames;
use host_links::WatchLinks;
use host_serving::{HostFault, Tally, Teller, Watch};
use issuer_rows::Frame;
use link_frames::LinkFault;
use std::fmt;
use std::io::Write;

/// Tells people of a host that several links share: what a `Teller` tells, and with which faults links stop, as `link 1 of IN`.
#[derive(Drop)]
pub struct LinksTeller<'a, E> {
    teller: Teller<E>,
    links: &'a [LinkNames<'a>],
}

// A link's fault, and the name of the pipe that it was read from.
#[derive(Clone, Copy, Debug, PartialEq, Eq)]
struct LinkStopped<'a> {
    fault: LinkFault,
    input: &'a str,
}

impl fmt::Display for LinkStopped<'_> {
    fn fmt<W: fmt::Write>(&self, f: &mut fmt::Formatter<W>) -> fmt::Result {
        write!(f, "{} of {}", self.fault, self.input)
    }
}

impl<'a, E: Write> LinksTeller<'a, E> {
    ghost use Rattle.std.specs.Prelude.{◌≡◌};

    /// Tells by this teller, of links with these names.
    pub fn new(teller: Teller<E>, links: &'a [LinkNames<'a>]) -> LinksTeller<'a, E>
        ensures teller { result.teller ≡ teller }
        ensures links { result.links.now ≡ links.now }
    {
        LinksTeller { teller, links }
    }
}

impl<E: Write> Watch for LinksTeller<'_, E> {
    ghost use Rattle.host_serving.specs.Telling.{TellsEntry};

    ghost hears = { λ old before messages new. TellsEntry E.contents old.teller before messages new.teller };

    fn entry_synced(&mut self, before: Tally, messages: &[Frame]) {
        self.teller.entry_synced(before, messages);
    }
}

impl<E: Write> WatchLinks for LinksTeller<'_, E> {
    fn link_stopped(&mut self, link: usize, fault: &HostFault) {
        match (fault, self.links.get(link)) {
            (HostFault::Link(fault), Some(names)) => self.teller.fault(LinkStopped {
                fault: *fault,
                input: names.input,
            }),
            _ => self.teller.fault(*fault),
        }
    }
}
