/// What `switch archive --help` prints.
pub const ARCHIVE_HELP: &str =
    "Takes the rows of days before a date out of a book: the originals and the days of cards

Usage: switch archive <BOOK> <DATE> <NEWBOOK> <OLD>

Arguments:
  <BOOK>     The book, which stays as it is
  <DATE>     The first day that stays, YYMMDD
  <NEWBOOK>  The book without the rows of earlier days, to run on with
  <OLD>      The book that holds them, to be kept

Options:
  -h, --help  Print help

An original goes by its local date (element 12), and a card's day by its day. Cards, budgets and accounts stay in NEWBOOK,
and so do the marks of reversals that came ahead, whatever their day. OLD has the accounts, too, that paid for one of its
originals, as BOOK has them. Days are compared as they are written, so a date of 2100 is before one of 2099.

It prints how many rows went and how many NEWBOOK has. On NEWBOOK all messages of DATE and later are answered as on BOOK;
of a reversal its original's date counts. An earlier original isn't found there: its reversal is answered 914, and a
repeat of it is decided as a new message, so DATE should be older than all that may still be reversed or sent again.

Exit status: 0 done, 1 fault, 2 usage error, or two of BOOK, NEWBOOK and OLD are one file.

A fault is printed on standard error as what it is of and its number there:
  file N     1 BOOK can't be opened or read, 2 NEWBOOK or OLD can't be made or written, 3 another run writes it
  book N     BOOK is no book, as `switch --help` lists
  output 1   standard output doesn't take what is printed; NEWBOOK and OLD are in place
  memory 1   memory ran out
After any other fault all files are as they were, and none is new.
";

// What is said of words that are no command.
pub(crate) const USAGE: &str =
    "usage: switch archive <BOOK> <DATE> <NEWBOOK> <OLD>, DATE as YYMMDD; `switch archive --help` says more\n";
