//! The history of a host's turns, which only grows. It exists in proofs alone; what threads share is its length.

ghost use Rattle.std.specs.Prelude.{◌≡◌, ◌+◌, ◌==◌, ◌<◌, ◌≤◌, ◌^◌, ◌++◌, ◌∷◌, [], length, IsTrue, MatchBool};
ghost use mathlib.Core.List.{IsPrefix};
ghost use Rattle.host_links.specs.Histories.{IsLonger, head_of};
ghost use Rattle.host_links.specs.declared.link_turn.LinkTurn.{LinkTurn as Entry};

use crate::link_turn::LinkTurn;
use crate::naming::Naming;
use issuer_rows::Frame;
use link_frames::NetworkRequest;
use log_file::Bodies;
use logbook::{Gain, Offer, Plain, Play, Rule, Seen, Start, Word};
use std::marker::{Model, PhantomData};

/// The rule of the history: the word is its length.
pub struct Counted;

impl Rule<LinkTurn, u64> for Counted {
    ghost use Rattle.std.specs.Prelude.{[]};
    ghost use base.Fml.{ftrue};
    ghost use Rattle.host_links.specs.Histories.{IsCounted};

    ghost holds = { λ cells turns. IsCounted cells turns };

    ghost first = { [] };

    ghost hinted = { λ number turns. Unit {0} };

    ghost shows = { λ turns. [] };

    ghost keeps = { λ names turns. ftrue };

    ghost moves = { λ ask before after answer. Unit {0} };
}

/// Nothing is traded for a turn.
pub struct Nothing;

impl Gain<LinkTurn, u64> for Nothing {
    ghost use base.Fml.{ftrue};

    ghost after = { λ names about answer. ftrue };
}

/// A step that adds a turn.
pub struct Add;

impl Play<LinkTurn, u64> for Add {
    ghost use Rattle.host_links.specs.Histories.{Adds};

    ghost then = { Adds };
}

/// What came in a turn, as it is at hand when the turn is added to the history.
#[derive(Clone, Copy)]
pub struct Came<'a> {
    /// The link's number.
    pub link: usize,
    /// The bytes of the frames.
    pub bytes: &'a [u8],
    /// The bodies in them that are decided.
    pub bodies: &'a Bodies,
    /// The network management requests.
    pub requests: &'a [NetworkRequest],
    /// The messages of the bodies.
    pub messages: &'a [Frame],
}

impl<'a> Plain<Came<'a>, LinkTurn, u64> for Add {
    ghost use Rattle.std.specs.Prelude.{None};

    ghost ask = { λ came. record { link = came.link; bytes = came.bytes.now; bodies = came.bodies.now; requests = came.requests.now; messages = came.messages.now } };

    ghost state = { λ came. None };
}

/// A history without a turn, which has no name yet.
pub struct Opened {
    head: Word<LinkTurn, u64, Counted>,
    seen: Seen<LinkTurn, u64, Counted>,
    pub ghost empty: { seen.log ≡ [] },
    pub ghost head_is: { head ≡ head_of seen.book },
}

impl Opened {
    /// A new history.
    pub fn new() -> Opened {
        let (seen, mut first, _second) = Seen::open(Start::alone(), 0, 0);
        Opened {
            head: Word::tracked(0, &mut first),
            seen,
        }
    }

    /// The history under a name, and the front that has seen nothing of it.
    pub fn named<J: Naming>(self) -> (History<J>, Front<J>)
        requires { self.seen.book ≡ J.book }
        ensures { result.1 ≡ [] }
    {
        let Opened { head, seen } = self;
        (
            History {
                head,
                of: PhantomData,
            },
            Front {
                turns: 0,
                seen,
                of: PhantomData,
            },
        )
    }
}

/// What all threads share of the history: its length.
#[derive(Drop)]
pub struct History<J: Naming> {
    head: Word<LinkTurn, u64, Counted>,
    of: PhantomData<J>,
    ghost head_is: { head ≡ head_of J.book },
}

/// A beginning of the history that was seen. Contracts see it as its turns.
#[derive(Drop)]
pub struct Front<J: Naming> {
    turns: u64,
    seen: Seen<LinkTurn, u64, Counted>,
    of: PhantomData<J>,
}

/// The same beginning, where it isn't said of which history.
#[derive(Drop)]
pub struct Trace {
    turns: u64,
    seen: Seen<LinkTurn, u64, Counted>,
    pub ghost len: { turns ≡ length seen.log },
}

impl<J: Naming> Model for Front<J> {
    ghost use Rattle.std.specs.Prelude.{◌≡◌, List, length};
    ghost use Rattle.host_links.specs.declared.link_turn.LinkTurn.{LinkTurn};

    ghost Value = { List LinkTurn };

    ghost view = { λ front. front.seen.log };

    ghost invariant = { λ front. (front.turns ≡ length front.seen.log) × (front.seen.book ≡ J.book) };
}

impl<J: Naming> Front<J> {
    /// How many turns it has.
    pub fn len(&self) -> u64
        ensures { result ≡ length self.now }
    {
        self.turns
    }

    /// What it is, whichever history it is of.
    pub fn trace(&self) -> Trace
        ensures seen { result.seen.log ≡ self.now }
        ensures book { result.seen.book ≡ J.book }
    {
        Trace {
            turns: self.turns,
            seen: self.seen.again(),
        }
    }

    /// The front that this trace is of.
    pub fn of(trace: &Trace) -> Front<J>
        requires { trace.now.seen.book ≡ J.book }
        ensures { result ≡ trace.now.seen.log }
    {
        Front {
            turns: trace.turns,
            seen: trace.seen.again(),
            of: PhantomData,
        }
    }

    /// A copy.
    pub fn again(&self) -> Front<J>
        ensures { result ≡ self.now }
    {
        Front {
            turns: self.turns,
            seen: self.seen.again(),
            of: PhantomData,
        }
    }

    /// Whether it is a beginning of the other. Of two beginnings of one history the shorter is.
    pub fn begins(&self, whole: &Front<J>) -> bool
        ensures { IsTrue result → IsPrefix self.now whole.now }
    {
        if self.turns > whole.turns {
            return false;
        }
        let mut both = self.seen.again();
        both.learn(&whole.seen);
        true
    }

    /// Adds a turn to all that was seen, and says whether it did. It did not where the history is longer.
    pub fn add(&mut self, history: &History<J>, came: &Came<'_>) -> bool
        requires room { length self.old < 2 ^ 62 }
        ensures { MatchBool result (self.new ≡ self.old ++ record { link = came.now.link; bytes = came.now.bytes.now; bodies = came.now.bodies.now; requests = came.now.requests.now; messages = came.now.messages.now } ∷ [])
            (IsLonger self.old self.new) }
    {
        let mut offer: Offer<LinkTurn, u64, Counted, Nothing> = self
            .seen
            .plain::<Nothing, Came<'_>, Add>(came);
        let mut pen = self.seen.no_pen();
        let turns = self.turns;
        let found = history
            .head
            .compare_exchange::<Add, Nothing>(
                turns,
                turns + 1,
                &mut self.seen,
                &mut offer,
                &mut pen,
            );
        self.turns = if found == turns { turns + 1 } else { found };
        found == turns
    }
}
