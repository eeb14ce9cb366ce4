use crate::tally::Tally;
use issuer_rows::Frame;

/// Whoever is told what stands in the log of a host.
pub trait Watch {
    ghost use Rattle.std.specs.Prelude.{List};
    ghost use Rattle.issuer_rows.specs.declared.frame.Frame.{Frame};
    ghost use Rattle.host_serving.specs.declared.tally.Tally.{Tally};

    // What it changes to be told of an entry of these messages, where so much was counted before them.
    ghost hears: { Self → Tally → List Frame → Self → Type 0 };

    /// Tells that an entry of these messages stands in the log, synced, and what was counted before them.
    fn entry_synced(&mut self, before: Tally, messages: &[Frame])
        ensures { hears self.old before messages.now self.new };
}
