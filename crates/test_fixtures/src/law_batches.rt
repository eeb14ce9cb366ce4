const LAW_BATCHES: &str = "# a repeat is answered alike at any later time, and charges nothing
body 1100 000001 A 6000 = 000/000001
body 1100 000002 A 6000 = 116
body 1420 000003 A 6000 request=000001 = 400
body 1101 000001 A 6000 = 000/000001
body 1101 000002 A 6000 = 116
body 1421 000003 A 6000 request=000001 = 400
has account A 10000 978
has day A 260110 0 0
has approved 000001 A 6000 000001 A 000003 0
rows 7

# an original is kept for good
body 1100 000001 A 6000 = 000/000001
body 1420 000002 A 2000 request=000001 all=6000 = 400
body 1100 000001 B 100 = 913
body 1120 000001 A 6000 = 913
body 1420 000003 A 6000 request=000001 = 913
has account A 8000 978
has account B 500 978
has approved 000001 A 6000 000001 A 000002 2000
rows 6

# a batch again changes nothing
body 1100 000001 A 100 = 000/000001
body 1120 000002 B 500 = 901
body 1100 000001 A 100 = 913
body 1120 000002 B 500 = 913
body 1101 000001 A 100 = 000/000001
body 1121 000002 B 500 = 901
has account A 9900 978
has account B 0 978
has card A 2812 active 1 3 20000 A -
has day A 260110 1 100
rows 7

# a batch with reversals again changes nothing
body 1100 000001 A 100 = 000/000001
body 1420 000002 A 40 request=000001 all=100 = 400
body 1420 000003 A 100 request=000009 = 914
body 1101 000001 A 100 = 000/000001
body 1421 000002 A 40 request=000001 all=100 = 400
body 1421 000003 A 100 request=000009 = 914
has account A 9960 978
has day A 260110 1 40
has approved 000001 A 100 000001 A 000002 40
has ahead 000009 A request 000003
rows 7

# a reversal that was refused for its short day is done the second time
put approved 000001 A 100 000001 A
put day A 260110 0 100
body 1420 000003 A 100 request=000001 = 909
body 1100 000002 A 1 = 000/000001
body 1421 000003 A 100 request=000001 = 400
body 1101 000002 A 1 = 000/000001
has account A 10099 978
has day A 260110 0 1
has approved 000001 A 100 000001 A 000003 0
rows 7

# a card stays, but for the number of its approvals
body 1100 000001 A 100 = 000/000001
body 1100 000002 A 100 account=B = 119
body 1420 000003 A 100 request=000001 = 400
body 1100 000004 A 50 = 000/000002
has card A 2812 active 2 3 20000 A -
has card B 2812 active 0 3 20000 B -
rows 8

# no day passes its limit of money, also where some of it was given back
put account A 30000 978
body 1100 000001 A 20000 = 000/000001
body 1100 000002 A 1 = 121
body 1420 000003 A 19999 request=000001 all=20000 = 400
body 1100 000004 A 2 = 121
body 1100 000005 A 1 = 000/000002
has account A 10000 978
has day A 260110 2 20000
rows 9

# no day passes its limit of approvals, and approval codes of a card differ
body 1100 000001 A 1 = 000/000001
body 1100 000002 A 1 = 000/000002
body 1420 000003 A 1 request=000001 = 400
body 1100 000004 A 1 = 000/000003
body 1100 000005 A 1 = 000/000004
body 1100 000006 A 1 = 123
has account A 9997 978
has card A 2812 active 4 3 20000 A -
has day A 260110 3 3
rows 10

# a right reversal is done, in any order of reversals
body 1100 000001 A 100 = 000/000001
body 1100 000002 A 200 = 000/000002
body 1420 000004 A 200 request=000002 = 400
body 1420 000003 A 100 request=000001 = 400
has account A 10000 978
has day A 260110 0 0
rows 7

# totals of replies reconcile: A has 100 less and 60 more, B has 200 less
body 1100 000001 A 100 = 000/000001
body 1120 000002 B 200 = 901
body 1100 000003 A 9901 = 116
body 1420 000004 A 40 request=000001 all=100 = 400
body 1120 000005 B 301 = 900
has account A 9960 978
has account B 300 978
rows 9

# two cards without a common row
body 1100 000001 A 100 = 000/000001
body 1100 000002 B 100 = 000/000001
body 1420 000003 A 100 request=000001 = 400
body 1101 000002 B 100 = 000/000001
has account A 10000 978
has account B 400 978
has day A 260110 0 0
has day B 260110 1 100
has approved 000001 A 100 000001 A 000003 0
has approved 000002 B 100 000001 B
rows 8

# messages that share no row take any order: the request of B before that of A
body 1100 000002 B 100 = 000/000001
body 1100 000001 A 100 = 000/000001
body 1101 000002 B 100 = 000/000001
body 1420 000003 A 100 request=000001 = 400
has account A 10000 978
has account B 400 978
has day A 260110 0 0
has day B 260110 1 100
has approved 000001 A 100 000001 A 000003 0
has approved 000002 B 100 000001 B
rows 8

# two cards whose prefix has a budget share its row: the first one is paid
put budget 411111 standin 400 500
body 1100 000001 A 300 = 000/000001
body 1100 000002 B 300 = 907
has budget 411111 standin 400 200
rows 8

# in the other order the other one is
put budget 411111 standin 400 500
body 1100 000002 B 300 = 000/000001
body 1100 000001 A 300 = 907
has budget 411111 standin 400 200
rows 8

# the part of the first of them is decided alone
body 1100 000001 A 100 = 000/000001
body 1420 000003 A 100 request=000001 = 400
has account A 10000 978
has day A 260110 0 0
has approved 000001 A 100 000001 A 000003 0
rows 6

# the part of the second is decided alone
body 1100 000002 B 100 = 000/000001
body 1101 000002 B 100 = 000/000001
has account B 400 978
has day B 260110 1 100
has approved 000002 B 100 000001 B
rows 6

# the first rule decides, whatever later ones would say
put card A 2512 blocked 999999 0 0 A -
body 1100 000001 4111110000000004 0 code=200000 account=NONE currency=840 = 119
body 1100 000002 A 0 account=NONE currency=840 = 110
body 1100 000003 A 20000 account=NONE currency=840 = 100
has account A 10000 978
rows 7
";

/// Batches that show what the laws say of all of them.
pub fn laws() -> &'static str {
    LAW_BATCHES
}
