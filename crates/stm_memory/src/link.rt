ghost use Rattle.std.specs.Prelude.{◌≡◌};
ghost use Rattle.std.specs.Option.{option_copied};
ghost use Rattle.stm_memory.specs.Chains.{seen_of};

use crate::seen::Seen;
use crate::version::Version;
use issuer_rows::RowVal;

/// An entry of the multi-version memory (Block-STM), in the chain of its row.
#[derive(Clone, Copy, Default)]
pub struct Link {
    /// The message that wrote it.
    pub index: u32,
    /// That message's execution.
    pub incarnation: u32,
    /// What it wrote; `None` is an ESTIMATE.
    pub value: Option<RowVal>,
}

/// What is seen where this entry is the nearest one.
pub(crate) fn seen_of(link: Option<&Link>) -> Seen
    ensures { result ≡ seen_of (option_copied link.entry) }
{
    let Some(link) = link else {
        return Seen::Base;
    };
    match link.value {
        Some(value) => {
            let version = Version {
                index: link.index,
                incarnation: link.incarnation,
            };
            Seen::Value(version, value)
        }
        None => Seen::Estimate(link.index),
    }
}
