//! How a day went: totals over the bodies of a batch and the replies to them, for people as lines and as a page.
#![tactic(auto)]

mod bars;
mod counted;
mod counting;
mod day_totals;
mod escaping;
mod exchange;
mod figure;
mod frame;
mod greatest;
mod laws;
mod lines;
mod meaning;
mod naming;
mod page;
mod pairing;
mod rows;
mod total;
mod totals;

pub use counted::Counted;
pub use counting::counted_of;
pub use day_totals::{DayTotals, MoneyTotals, RequestTotals};
pub use escaping::escape;
pub use exchange::Exchange;
pub use figure::Figure;
pub use greatest::greatest_of;
pub use laws::texts_are_escaped;
pub use lines::lines_of;
pub use page::page_of;
pub use pairing::day_of;
pub use total::Total;
pub use totals::totals_of;
