use host_serving::{MaxBatch, StatsInterval};

/// How a host is to serve.
#[derive(Clone, Copy)]
pub struct Settings {
    /// How many frames it serves in one turn, at most.
    pub max_batch: MaxBatch,
    /// After how many bodies it tells how it goes, if at all.
    pub stats: Option<StatsInterval>,
}

impl Settings {
    ghost use Rattle.std.specs.Prelude.{◌≡◌};
    ghost use Rattle.host_commands.specs.Settings.{plain};

    /// Where nothing else is said: as many frames as an entry has room for, and it doesn't tell how it goes.
    pub fn plain() -> Settings
        ensures { result ≡ plain }
    {
        Settings {
            max_batch: MaxBatch::whole_entry(),
            stats: None,
        }
    }
}
