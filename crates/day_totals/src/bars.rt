ghost use Rattle.std.specs.Prelude.{◌≡◌, ◌≤◌};
ghost use Rattle.day_totals.specs.Page.{bar_width, most_of};

use crate::total::Total;

// The greatest of totals, or 0.
pub(crate) fn most_of(totals: &[Total]) -> u64
    ensures { result ≡ most_of totals.now }
{
    let mut most = 0;
    for total in totals {
        most = most.max(total.sum);
    }
    most
}

// How wide the bar of a total is, of 300, where the greatest has 300.
pub(crate) fn bar_width(most: u64, sum: u64) -> u64
    ensures { result ≡ bar_width most sum }
{
    if most == 0 {
        return 0;
    }
    let width = u128::from(sum) * 300 / u128::from(most);
    width.min(300) as u64
}
