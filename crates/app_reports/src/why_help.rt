/// What `switch why --help` prints.
pub const WHY_HELP: &str =
    "Says why a message of a batch was answered so: its rule, the rows that it read and wrote, and its reply

Usage: switch why <BOOK> <BATCH> <INDEX> [--json [--full-pan]]
       switch why <BOOK> <BATCH> --trace <TRACE> [--json [--full-pan]]
       switch why <BOOK> <BATCH> --card <CARD> [--json [--full-pan]]

Arguments:
  <BOOK>   The book that the batch is decided on: JSON of version 1, 2 or 3
  <BATCH>  The batch
  <INDEX>  The message's place in the batch, from 0, as `switch show` numbers them

Options:
      --trace <TRACE>  List the messages of this trace number (element 11): a line `message` each; BOOK isn't read
      --card <CARD>    List the messages of this card (element 2) so
      --json           Print JSON, an object a line
      --full-pan       Print card numbers in full in it, not masked
  -h, --help           Print help

The messages before it are decided on the book first, one after another. Files are read alone. Lines:
  message  the place, and the message; or why the body is none
  rule     the first rule of its decision table whose condition holds, and what that says
  read     a row that the decision needed, as it stood, or absent; in the order in which they were read
  wrote    a row as it stands behind the message, in the order in which they were written
  reply    the reply's type, its action code (element 39) and its approval code, or the fault
With --json an object has index, message (as `switch show --json` has it), rule, reason, read, wrote and reply. A row has
row (card, day, budget, original or account) and the members of its entry in a book, or what finds it and \"absent\": true.
Messages that are listed are objects as `switch show --json` prints them.

Amounts are in minor units; times, days and months are YYMMDDhhmmss, YYMMDD and YYMM. Card numbers are masked, and
accounts too that are named by 12 to 19 digits.

Exit status: 0 done, 1 fault, 2 usage error, or no such message.

A fault is printed on standard error as what it is of and its number there:
  file 1     BOOK or BATCH can't be opened or read
  book N     BOOK is no book, batch N: BATCH is no batch, as `switch --help` lists
  index N    BATCH has N messages alone
  output 1   standard output doesn't take what is printed
  memory 1   memory ran out
";

// What is said of words that are no command.
pub(crate) const USAGE: &str =
    "usage: switch why <BOOK> <BATCH> <INDEX> [--json [--full-pan]], or --trace <TRACE> or --card <CARD> for INDEX; `switch why --help` says more\n";
