const UNCHECKED_RULES: &str = "# a card's account isn't there
put card A 2812 active 0 3 20000 NONE -
body 1100 000001 A 1 currency=840 = 909
body 1120 000002 A 1 = 900
has declined 000001 A 1 909 -
has acknowledged 000002 A 1 900 -
rows 6

# the account that is named isn't there
put card A 2812 active 0 3 20000 A NONE
body 1100 000001 A 1 account=NONE = 909
body 1120 000002 A 1 account=NONE = 900
body 1100 000003 A 1 = 000/000001
has account A 9999 978
has declined 000001 A 1 909 -
has acknowledged 000002 A 1 900 -
rows 8

# the account that paid isn't there
put accepted 000001 A 100 901 NONE
body 1420 000002 A 100 advice=000001 = 914
has accepted 000001 A 100 901 NONE
rows 5

# more than 10^15 would be available
put account A 999999999999901 978
put accepted 000001 A 100 901 A
put accepted 000002 A 99 901 A
body 1420 000003 A 100 advice=000001 = 909
body 1420 000004 A 99 advice=000002 = 400
has account A 1000000000000000 978
has accepted 000001 A 100 901 A
has accepted 000002 A 99 901 A 000004 0
rows 6

# more than 10^15 would be available after a request's reversal
put account A 999999999999901 978
put approved 000001 A 100 000001 A
put approved 000002 A 99 000002 A
put day A 260110 2 199
body 1420 000003 A 100 request=000001 = 909
body 1420 000004 A 99 request=000002 = 400
has account A 1000000000000000 978
has day A 260110 1 100
has approved 000001 A 100 000001 A
has approved 000002 A 99 000002 A 000004 0
rows 7

# more than 10^15 would be left of a budget
put budget 411111 direct 0 999999999999901
put accepted 000001 A 100 901 budget
put accepted 000002 A 99 901 budget
body 1420 000003 A 100 advice=000001 = 909
body 1420 000004 A 99 advice=000002 = 400
has budget 411111 direct 0 1000000000000000
has accepted 000001 A 100 901 budget
has accepted 000002 A 99 901 budget 000004 0
rows 7
";

/// Batches that reach a rule which no book that passed `check_book` reaches.
pub fn unchecked_rules() -> &'static str {
    UNCHECKED_RULES
}
