/// What `switch show --json --help` prints.
pub const SHOW_JSON_HELP: &str =
    "Prints a file's messages or replies as lines of JSON, an object a line

Usage: switch show <FILE> --json [--full-pan]

Arguments:
  <FILE>  A batch, replies, blocks or replies of blocks

Options, before or behind FILE:
      --json      Print JSON; without it `switch show` prints short lines
      --full-pan  Print card numbers in full, not masked
  -h, --help      Print help

An object has its members in this order:
  block     the block's number, from 0; in files of blocks alone
  index     the place in the file or in the block, from 0
  type      the type of a message or reply, as \"1100\"
  then its elements in rising number, by the names that `switch make --help` lists; absent ones are left out
or, of a body that is no message:
  fault     how it is answered, as \"F05049\"; `switch help faults` explains it
  element   the number of the element that the fault is of, if it is of one
Amounts are numbers, in minor units; of original-amount it is the first of its two. All else is text, as it is sent; so
original has two digits of length before its acquirer. Card numbers show their first six and last four digits, and
so do accounts that are named by 12 to 19 digits.

Exit status: 0 done, 1 fault, 2 usage error.

A fault is printed on standard error as what it is of and its number there:
  file 1     FILE can't be opened or read
  batch N    FILE is none of these, as `switch --help` lists; nothing is printed
  output 1   standard output doesn't take what is printed
  memory 1   memory ran out
";

// What is said of words that are no command.
pub(crate) const USAGE: &str =
    "usage: switch show <FILE> --json [--full-pan]; `switch show --json --help` says more\n";
