/// The files.
pub(crate) const FORMATS: &str = "Files, numbers with their highest byte first

  batch      I83B, u16 version 1, u32 count (at most 65,536), then bodies, each behind a u16 of its length (1 to 512)
  replies    I83R, the same; a body is R and the reply's message, or F and five digits for a body that is no message
  blocks     I83M, u16 version 1, u32 blocks (at most 1,000), then of each block a u32 count and its bodies
  their      I83T, the same with replies
  replies
  log        I83L, u16 version 1, 32 bytes SHA-256 of the opening book; then entries: u32 n, u32 its complement, n bytes
             (u32 count, and bodies as in a batch), 32 bytes SHA-256 of the digest before it and these n bytes
  link       each body behind a u16 of its length, both ways; a reply is the message alone
  text       what `switch pack` reads: a body a line, in hexadecimal; # begins a comment line
  book       JSON: \"version\":3 and the lists cards, accounts, days, budgets, originals, ahead

A body is a message of ISO 8583:1993: four digits of its type, a bitmap of 8 or 16 bytes, and its elements in rising
number; a length before an element is two digits. docs/OPERATOR.md has the elements of each type and the book's fields.
";

/// In which order conditions are asked.
pub(crate) const RULES: &str =
    "Conditions in the order in which they are asked; the first that holds is answered (element 39)

A request (1100, 1101) or an advice (1120, 1121), by its identity: acquirer, trace number, local date and time
  914  its reversal came ahead (of an advice 900)      913  that of another card or kind did
       it is the repeat of a message that was decided: answered as that was
  913  another message has this identity

Then a request
  119  the processing code is no purchase (00) and no withdrawal (01)
  110  the amount is 0
  111  the card number fails the Luhn test (ISO/IEC 7812-1)
  118  there is no card                                100, 208, 209  it is blocked, lost, stolen
  101  it is expired                                   119  element 102 names none of its accounts
  909  the account has no row                          100  the account has another currency
  123  the day's approvals would be over the card's    121  the day's money would be
  909  the card's approvals are at 999,999
  907  a stand-in budget pays, and can't               000  it pays
  116  less is available than the amount               000  the account pays

Then an advice
  900  the acquirer didn't approve; no card, account or row of it; another currency
  901  a stand-in budget pays, or else the account     900  neither can

A reversal (1420, 1421), by the identity in element 56
  914  its original isn't there, or is of another card or kind
  400  it is the repeat of the original's reversal     913  the original has another one
  400  the original wasn't paid
  110  a partial one (401): element 30 isn't the original's amount, or element 4 isn't below it
  914  what paid, or the request's day, isn't there    909  what is given back doesn't fit
  400  it is given back

`switch why BOOK BATCH INDEX` says which one held for a message. docs/DEFINITIONS.md has what each writes.
";

/// What is wrong with a body.
pub(crate) const FAULTS: &str =
    "A body that is no message is answered F, two digits of its fault and three of the element that it is of, as F07011

  01  it ends within this element (000: within type or bitmap)
  02  another message type
  03  a second bitmap without a bit
  04  the type may not have this element
  05  the type must have this element
  06  a length that is no number, or out of bounds
  07  a character of another class
  08  a byte behind the last element
  09  a value that can't be, as the month 13

Faults of files and of the program are printed on standard error; `switch --help` lists them.
";

/// The commands of a day.
pub(crate) const EXAMPLE: &str = "A day, with the samples

  $ switch pack samples/day.txt day.batch
  packed 82
  $ switch run samples/book.json day.batch day.replies after.json --workers 4
  decided 82, 15 unreadable
  $ switch show day.replies | sed -n 2,3p
  1 1110 000 000001 000001
  2 1110 913 - 000001
  $ switch audit samples/book.json day.batch day.replies after.json
  same
  $ switch why samples/book.json day.batch 14 | sed -n 2p
  rule     NotSufficientFunds: less is available than the amount

The next day's book is after.json. All day long, message by message:

  $ switch serve after.json day.log < requests > replies
  $ switch replay after.json day.log day.replies evening.json
";
