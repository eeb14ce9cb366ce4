ghost use Rattle.std.specs.Prelude.{◌≡◌};
ghost use Rattle.std.specs.Option.{option_copied};
ghost use Rattle.split_state.specs.Sighted.{row_over, sight_of};

use issuer_rows::RowVal;
use stm_memory::{Link, Version};

/// Whose row a message sees (Block-STM): that of the nearest message before it that wrote the row.
#[derive(Clone, Copy, PartialEq, Eq)]
pub enum Sight {
    /// No message before it has an entry: the row of the opening book.
    Base,
    /// What this execution wrote.
    Put(Version),
    /// An ESTIMATE of this message: it wrote the row, was aborted, and will likely write it again.
    Estimate(u32),
}

// Whose row is seen where this entry is the nearest one.
pub(crate) fn sight_of(link: Option<&Link>) -> Sight
    ensures { result ≡ sight_of (option_copied link.entry) }
{
    let Some(link) = link else {
        return Sight::Base;
    };
    if link.value.is_none() {
        return Sight::Estimate(link.index);
    }
    Sight::Put(Version {
        index: link.index,
        incarnation: link.incarnation,
    })
}

// What the nearest entry holds is copied to a place of the caller's.
pub(crate) fn copy_value(link: Option<&Link>, row: &mut Option<RowVal>)
    ensures { row.new ≡ row_over (option_copied link.entry) row.old }
{
    if let Some(link) = link {
        if let Some(value) = &link.value {
            value.copy_to(row);
        }
    }
}
