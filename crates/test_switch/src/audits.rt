//! Audits, and the journals that runs leave and audits play.

use crate::script::play;

// One of the files is another: what differs first, or is none, is reported.
const AUDITS: &str = r#"# What differs first is told.
put book BOOK
put batch BATCH
put replies REPLIES
put after AFTER
0 switch audit book batch replies after
> same
put replies 'I83R 000100000000
3 switch audit book batch replies after
> count differs
put replies 'I83R 000100000001 0069 'R1110 7230000106808000 '164111110000000005000000 '000000000100 '0110120000000001260110120000 '06123456 '000002 '000 'TERM0001978
3 switch audit book batch replies after
> reply 0 differs
put replies REPLIES
put after '{"accounts":[{"available":9901,"currency":"978","id":"4111110000000005"}],"ahead":[],"budgets":[],"cards":[{"account":"4111110000000005","approvals":1,"day_amount":20000,"day_count":3,"expiry":"2812","pan":"4111110000000005","second":null,"status":"active"}],"days":[{"count":1,"day":"260110","pan":"4111110000000005","sum":100}],"originals":[{"account":"4111110000000005","acquirer":"123456","action":"000","amount":100,"approval":"000001","kind":"request","paid":"account","pan":"4111110000000005","processing":"000000","reversed":null,"stamp":"260110120000","stay":100,"trace":"000001"}],"version":3}
3 switch audit book batch replies after
> row acct:34313131313130303030303030303035 differs
put after AFTER
put replies 'I83R
1 switch audit book batch replies after
! batch 5
! replies: it ends within its head, which has 10 bytes
put replies REPLIES
put after
1 switch audit book batch replies after
! book 1
! after: line 1, column 0: no JSON

# What differs first in blocks is told: the second block has no reply, and another action.
put book BOOK
put file TWO_BLOCKS
put replies TWO_REPLIES
put after AFTER_BOTH
0 switch audit-blocks book file replies after
> same
put replies 'I83T 000100000000
3 switch audit-blocks book file replies after
> count differs
put replies 'I83T 000100000002 00000001 0069 'R1110 7230000106808000 '164111110000000005000000 '000000006000 '0110120000000001260110120000 '06123456 '000001 '000 'TERM0001978 00000000
3 switch audit-blocks book file replies after
> count differs
put replies 'I83T 000100000002 00000001 0069 'R1110 7230000106808000 '164111110000000005000000 '000000006000 '0110120000000001260110120000 '06123456 '000001 '000 'TERM0001978 00000001 0063 'R1110 7230000102808000 '164111110000000005000000 '000000006000 '0110120000000002260110120000 '06123456 '119 'TERM0001978
3 switch audit-blocks book file replies after
> block 1 reply 0 differs
put replies TWO_REPLIES
put after '{"accounts":[{"available":4001,"currency":"978","id":"4111110000000005"}],"ahead":[],"budgets":[],"cards":[{"account":"4111110000000005","approvals":1,"day_amount":20000,"day_count":3,"expiry":"2812","pan":"4111110000000005","second":null,"status":"active"}],"days":[{"count":1,"day":"260110","pan":"4111110000000005","sum":6000}],"originals":[{"account":"4111110000000005","acquirer":"123456","action":"000","amount":6000,"approval":"000001","kind":"request","paid":"account","pan":"4111110000000005","processing":"000000","reversed":null,"stamp":"260110120000","stay":6000,"trace":"000001"},{"account":null,"acquirer":"123456","action":"116","amount":6000,"approval":null,"kind":"request","paid":"nothing","pan":"4111110000000005","processing":"000000","reversed":null,"stamp":"260110120000","stay":0,"trace":"000002"}],"version":3}
3 switch audit-blocks book file replies after
> row acct:34313131313130303030303030303035 differs

# An empty file of an audit of blocks.
put book BOOK
put file TWO_BLOCKS
put replies TWO_REPLIES
put after AFTER_BOTH
put book
1 switch audit-blocks book file replies after
! book 1
! book: line 1, column 0: no JSON
put book BOOK
put file
1 switch audit-blocks book file replies after
! batch 5
! file: it ends within its head, which has 10 bytes
put file TWO_BLOCKS
put replies
1 switch audit-blocks book file replies after
! batch 5
! replies: it ends within its head, which has 10 bytes
put replies TWO_REPLIES
put after
1 switch audit-blocks book file replies after
! book 1
! after: line 1, column 0: no JSON
put after AFTER_BOTH
"#;

#[test]
fn the_first_difference_is_told(rt: HostRuntime) {
    play(&rt, rt.alloc(), AUDITS);
}

// Journals of runs, and others.
const JOURNALS: &str =
    r#"# A run leaves its journal, with a finish of the first version of the first message.
put book BOOK
put batch BATCH
0 switch run book batch replies after --journal journal
> decided 1
is replies REPLIES
is after AFTER
has journal 20 'f 20 '0.0 0a
0 switch audit book batch replies after --journal journal
> same

# Of a book with more than eight rows for each body the core has those that are needed. Its journal is one on the whole book all the same.
put book DAY_BOOK
put batch BATCH
0 switch serial book batch replies after
> decided 1
0 switch run book batch answers later --workers 4 --journal journal
> decided 1
is answers replies
is later after
0 switch audit book batch answers later --journal journal
> same

# Behind a fault an older journal stays, and an older new book: no book; replies in the place of the batch; a batch without its last byte.
put book
put batch BATCH
put replies REPLIES
put after AFTER
put journal '0 20 'n 0a
1 switch run book batch replies after --journal journal
! book 1
! book: line 1, column 0: no JSON
is journal '0 20 'n 0a
is after AFTER
put book BOOK
put batch REPLIES
1 switch run book batch replies after --journal journal
! batch 1
! batch: it begins with I83R, the letters of replies of a batch, where I83B is to be
is journal '0 20 'n 0a
is after AFTER
put batch 'I83B 000100000001 0062 '1100 7230010100808000 '164111110000000005000000 '000000000100 '0110120000000001260110120000 '10006123456TERM000197
1 switch run book batch replies after --journal journal
! batch 5
! batch: body 0 at byte 10: the file ends within it, 0 of 1 bodies are whole
is journal '0 20 'n 0a
is after AFTER

# A journal that stops before its message is committed has no reply; other text is none, and neither is a finish of a version that has read nothing.
put book BOOK
put batch BATCH
put replies REPLIES
put after AFTER
put journal
3 switch audit book batch replies after --journal journal
> count differs
put journal '0 20 'n 0a
3 switch audit book batch replies after --journal journal
> count differs
put journal '0 20 'n 0a '0 20 'x 0a
1 switch audit book batch replies after --journal journal
! journal 1
! journal: line 2: no entry of a journal
put journal '0 20 'n 0a '0 20 'f 20 '0.0 0a
1 switch audit book batch replies after --journal journal
! journal 2
! journal: entry 2: its decision asks for a row that isn't logged

# The journal is read last.
put book BOOK
put batch BATCH
put replies REPLIES
put after '[
1 switch audit book batch replies after --journal journal
! book 1
! after: line 1, column 1: no JSON
put after AFTER
put journal
1 switch audit book batch replies after --journal none
! file 1
! none: no such file or directory
"#;

#[test]
fn journals_are_left_and_played(rt: HostRuntime) {
    play(&rt, rt.alloc(), JOURNALS);
}
