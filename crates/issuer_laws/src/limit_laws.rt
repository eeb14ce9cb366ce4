ghost use Rattle.std.specs.Prelude.{List};
ghost use Rattle.issuer_words.specs.Words.{CardRow, Frame, Pan, Request, Rows, rows_after};
ghost use Rattle.issuer_laws.specs.Covered.{AreDaysCovered};
ghost use Rattle.issuer_laws.specs.Cards.{CodesDiffer, IsWithinLimits, LeavesDayWithin, StaysCard};

/// A card that is there stays, whatever comes: nothing of its row changes but its approvals, which never fall.
pub fn a_card_stays()
    ensures { (rows : Rows) (pan : Pan) (card : CardRow) (frames : List Frame) → StaysCard rows pan card frames }
{}

/// Where no more was spent on any day with any card that is there than the card allows, so it is after any batch.
/// A request whose identity wasn't seen and that is answered 000 leaves its own day within them, whatever was before.
pub fn no_day_passes_its_limits()
    ensures batch { (rows : Rows) (frames : List Frame) → IsWithinLimits rows → IsWithinLimits (rows_after rows frames) }
    ensures approval { (rows : Rows) (r : Request) → LeavesDayWithin rows r }
{}

/// Two requests of one card that are approved, each the first of its identity: their approval codes differ, whatever came between.
pub fn approval_codes_of_a_card_differ()
    ensures { (rows : Rows) (first second : Request) (between : List Frame) → CodesDiffer rows first between second }
{}

/// Where each day has the approvals and the money of all of its requests that can still be reversed, so it is after any batch.
pub fn days_have_what_reversals_take()
    ensures { (rows : Rows) (frames : List Frame) → AreDaysCovered rows → AreDaysCovered (rows_after rows frames) }
{}
