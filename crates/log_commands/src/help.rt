/// What `switch replay --help` prints.
pub const REPLAY_HELP: &str =
    "Decides the messages of a log again, and writes their replies and the next day's book

Usage: switch replay <BOOK> <LOG> <REPLIES> <NEWBOOK>

Arguments:
  <BOOK>     The opening book of the log. It stays as it is
  <LOG>      The log that `switch serve` wrote. It stays as it is, and no host may have it meanwhile
  <REPLIES>  Where the replies to its messages go, in blocks of 65,536: a file as `switch blocks` writes it
  <NEWBOOK>  Where the book after them goes. With it and a new log a host starts the next day

Options:
  -h, --help  Print help

REPLIES and NEWBOOK are put in place together at the end. What a crash left behind the last whole entry was never
answered: it is left out, and `torn N` on standard error says how many bytes that is.

Exit status: 0 done, 1 fault, 2 usage error.

A fault is printed on standard error as what it is of and its number there:
  file N     1 BOOK can't be opened or read, 2 an output can't be written or put in place, 3 another run writes it
  book N     BOOK is no book, as `switch --help` lists
  log N      the log: 1 is none, 2 another version, 3 of another book, 4 a host has it, 5 an entry was changed,
             6 can't be opened or read; 7 out of memory
  batch 10   the log has more than 65,536,000 messages
  memory 1   memory ran out
After a fault all files are as they were, and none is new.
";

/// What `switch audit-log --help` prints.
pub const AUDIT_LOG_HELP: &str =
    "Decides the messages of a log again, and says whether these are their replies and this is the book after them

Usage: switch audit-log <BOOK> <LOG> <REPLIES> <NEWBOOK>

Arguments:
  <BOOK>     The opening book of the log
  <LOG>      The log that `switch serve` wrote. No host may have it meanwhile
  <REPLIES>  The replies to its messages, as `switch replay` writes them
  <NEWBOOK>  The book after them

Options:
  -h, --help  Print help

It prints `same`, or what differs first: `count differs`, `block 1 reply 2 differs`, `row KEY differs`.

Exit status: 0 nothing differs, 1 fault, 2 usage error, 3 something differs.

A fault is printed on standard error as what it is of and its number there, as `switch replay --help` lists them;
besides, `batch N` where REPLIES is no block reply file, `file 1` and `book N` for NEWBOOK too, and `output 1` where
what was found can't be printed.
";
