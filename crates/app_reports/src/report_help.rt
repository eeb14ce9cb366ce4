/// What `switch report --help` prints.
pub const REPORT_HELP: &str =
    "Says how a day went: messages by type, replies by action code, sums of money, and where requests were declined

Usage: switch report <BATCH> <REPLIES> [--html <FILE>]

Arguments:
  <BATCH>    The batch of the day
  <REPLIES>  The replies to it, as `switch serial` and `switch run` write them

Options:
      --html <FILE>  Also write a page of HTML to FILE, which needs nothing else, for a browser or a printer
  -h, --help         Print help

BATCH and REPLIES are read alone. Lines, each a total with its name and what it comes to:
  bodies    a message type, 1100 to 1421, and how many; bodies that are none under `no message`
  repeats   a type of messages that are marked as repeats, 1101, 1121 or 1421, and how many
  replies   an action code (element 39), how many replies have it, and what it means
  approved  a currency code, and the amounts of its approved requests together
  declined  the same of declined requests
  reversed  the same of what accepted reversals (400) take back, those of an original that wasn't posted too
  hour      an hour of the local time (element 12), and how many requests were approved in it
  terminal  a terminal (element 41), and how many of its requests were declined: the ten most
  card      a card, and how many of its requests were declined: the ten most
Amounts are in minor units. Card numbers are masked: cards of the same first six and last four digits and of one length
are one line. From `approved` on messages that are marked as repeats are left out, since they are answered again as
their originals were.

Exit status: 0 done, 1 fault, 2 usage error, or FILE is BATCH or REPLIES.

A fault is printed on standard error as what it is of and its number there:
  file 1     BATCH or REPLIES can't be opened or read
  batch N    BATCH is no batch, or REPLIES no replies, as `switch --help` lists
  replies N  REPLIES has N replies, and BATCH another number of bodies
  file 2     FILE can't be made or written
  output 1   standard output doesn't take what is printed
  memory 1   memory ran out
";

// What is said of words that are no command.
pub(crate) const USAGE: &str =
    "usage: switch report <BATCH> <REPLIES> [--html <FILE>]; `switch report --help` says more\n";
