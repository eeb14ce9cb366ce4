use crate::link_names::LinkNames;
use host_serving::{MaxBatch, StatsInterval};
use std::alloc::Global;

/// What the options of a host say.
#[derive(Drop)]
pub struct Choices<'a> {
    /// How many frames it serves in one turn, at most, if that is said.
    pub max_batch: Option<MaxBatch>,
    /// After how many bodies it tells how it goes, if that is said.
    pub stats: Option<StatsInterval>,
    /// The links.
    pub links: Vec<LinkNames<'a>>,
}

impl Choices<'_> {
    ghost use Rattle.std.specs.Prelude.{◌≡◌, [], None};
    ghost use Rattle.host_commands.specs.Links.{options_of};

    /// Nothing is said.
    pub(crate) fn none<'a>(alloc: Global) -> Choices<'a>
        ensures { options_of result ≡ record { max_batch = None; stats = None; links = [] } }
    {
        Choices {
            max_batch: None,
            stats: None,
            links: Vec::new(alloc),
        }
    }
}
