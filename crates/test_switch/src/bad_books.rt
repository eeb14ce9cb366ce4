//! Books that are none, told by number, place and reason.

use crate::script::play;

// Books that are none, as the one that is decided on and as the one after it. An older file of the new book stays.
const BAD_BOOKS: &str = r#"# No JSON.
put book '[
put batch BATCH
1 switch serial book batch replies after
! book 1
! book: line 1, column 1: no JSON
1 switch run book batch replies after
! book 1
! book: line 1, column 1: no JSON
1 switch audit book batch replies after
! book 1
! book: line 1, column 1: no JSON
put after 'older
1 switch serial book batch replies after
! book 1
! book: line 1, column 1: no JSON
is after 'older
1 switch run book batch replies after
! book 1
! book: line 1, column 1: no JSON
is after 'older
put after book
put book BOOK
put replies REPLIES
1 switch audit book batch replies after
! book 1
! after: line 1, column 1: no JSON

# No text.
put book fffe
put batch BATCH
1 switch serial book batch replies after
! book 1
! book: line 1, column 1: no JSON
1 switch run book batch replies after
! book 1
! book: line 1, column 1: no JSON
1 switch audit book batch replies after
! book 1
! book: line 1, column 1: no JSON
put after book
put book BOOK
put replies REPLIES
1 switch audit book batch replies after
! book 1
! after: line 1, column 1: no JSON

# Another shape.
put book '{}
put batch BATCH
1 switch serial book batch replies after
! book 2
! book: it has the keys of no version
1 switch run book batch replies after
! book 2
! book: it has the keys of no version
1 switch audit book batch replies after
! book 2
! book: it has the keys of no version
put after 'older
1 switch serial book batch replies after
! book 2
! book: it has the keys of no version
is after 'older
1 switch run book batch replies after
! book 2
! book: it has the keys of no version
is after 'older
put after book
put book BOOK
put replies REPLIES
1 switch audit book batch replies after
! book 2
! after: it has the keys of no version

# Another shape: an account that comes twice.
put book '{"accounts":[{"available":1,"currency":"978","id":"A"},{"available":1,"currency":"978","id":"A"}],"ahead":[],"budgets":[],"cards":[],"days":[],"originals":[],"version":3}
put batch BATCH
1 switch serial book batch replies after
! book 2
! book: accounts[1]: an earlier entry has its row
1 switch run book batch replies after
! book 2
! book: accounts[1]: an earlier entry has its row
1 switch audit book batch replies after
! book 2
! book: accounts[1]: an earlier entry has its row
put after book
put book BOOK
put replies REPLIES
1 switch audit book batch replies after
! book 2
! after: accounts[1]: an earlier entry has its row

# An account of a million million too much.
put book '{"accounts":[{"available":1000000000000001,"currency":"978","id":"A"}],"ahead":[],"budgets":[],"cards":[],"days":[],"originals":[],"version":3}
put batch BATCH
1 switch serial book batch replies after
! book 3
! book: accounts[0].available: not a number up to 10^15
1 switch run book batch replies after
! book 3
! book: accounts[0].available: not a number up to 10^15
1 switch audit book batch replies after
! book 3
! book: accounts[0].available: not a number up to 10^15
put after book
put book BOOK
put replies REPLIES
1 switch audit book batch replies after
! book 3
! after: accounts[0].available: not a number up to 10^15

# A card with no account.
put book '{"accounts":[],"ahead":[],"budgets":[],"cards":[{"account":"A","approvals":0,"day_amount":20000,"day_count":3,"expiry":"2812","pan":"4111110000000005","second":null,"status":"active"}],"days":[],"originals":[],"version":3}
put batch BATCH
1 switch serial book batch replies after
! book 4
! book: cards[0].account: this account isn't in the book
1 switch run book batch replies after
! book 4
! book: cards[0].account: this account isn't in the book
1 switch audit book batch replies after
! book 4
! book: cards[0].account: this account isn't in the book
put after book
put book BOOK
put replies REPLIES
1 switch audit book batch replies after
! book 4
! after: cards[0].account: this account isn't in the book
"#;

#[test]
fn a_bad_book_is_told_by_its_number(rt: HostRuntime) {
    play(&rt, rt.alloc(), BAD_BOOKS);
}
