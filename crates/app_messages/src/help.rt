/// What `switch unpack --help` prints.
pub const UNPACK_HELP: &str =
    "Prints the bodies of a batch, or of one block of a file of blocks, as a text: one a line, in hexadecimal, as `switch pack` reads them

Usage: switch unpack <BATCH>
       switch unpack --block <N> <BLOCKS>

Arguments:
  <BATCH>   The batch
  <BLOCKS>  The file of blocks

Options:
      --block <N>  Which block, from 0 on, as `switch show` numbers them; it may stand behind <BLOCKS>, too
  -h, --help       Print help

`switch pack` makes BATCH of these lines again, and `switch pack --blocks` makes BLOCKS of the texts of all its blocks, in order,
byte for byte. Bodies that are no message are printed, too.

Exit status: 0 done, 1 fault, 2 usage error, or no such block.

A fault is printed on standard error as what it is of and its number there:
  file 1     BATCH or BLOCKS can't be opened or read
  batch N    BATCH is no batch, or BLOCKS none of blocks, as `switch --help` lists; nothing is printed
  block N    BLOCKS has N blocks, and none of the number that was asked for
  output 1   standard output doesn't take what is printed
  memory 1   memory ran out
";

// What is said of words that are no command.
pub(crate) const UNPACK_USAGE: &str =
    "usage: switch unpack <BATCH>, or switch unpack --block <N> <BLOCKS>; `switch unpack --help` says more\n";

/// What `switch make --help` prints.
pub const MAKE_HELP: &str =
    "Prints the body of a message of ISO 8583:1993 as a line in hexadecimal, as `switch pack` reads it

Usage: switch make <TYPE> [NAME=VALUE]..

Arguments:
  <TYPE>        1100, 1101 request, 1120, 1121 advice, 1420, 1421 reversal; the second of each is its repeat
  [NAME=VALUE]  An element and its value; each at most once, in any order

Options:
  -h, --help  Print help

  Name             Element  Value
  pan              2        card number, 12 to 19 digits
  processing       3        processing code, 6 digits: 00 purchase, 01 withdrawal, and account types
  amount           4        up to 12 digits, in minor units; zeros are put in front
  transmission     7        date and time, MMDDhhmmss
  trace            11       trace number, up to 6 digits; zeros are put in front
  local-time       12       local date and time, YYMMDDhhmmss
  function         24       3 digits; of a reversal 400 (full) or 401 (partial)
  original-amount  30       amount of the original, up to 12 digits; of a partial reversal
  acquirer         32       1 to 11 digits
  reference        37       retrieval reference, 12 letters, digits or spaces
  action           39       action code, 3 digits; of an advice
  terminal         41       8 printable characters
  currency         49       3 digits
  original         56       type, trace number (6 digits), local date and time (12), and acquirer, in a row; of a reversal
  account          102      1 to 28 printable characters; of a request or an advice

All are needed but reference and account, and those that are of another type or of a partial reversal.

Example, a day written by hand:
  $ switch make 1100 pan=4111110000000005 processing=000000 amount=600 transmission=1128120000 trace=1 \\
      local-time=261128120000 function=100 acquirer=400001 terminal=TERM0001 currency=978 >> day.txt
  $ switch pack day.txt day.batch

Exit status: 0 done, 1 fault, 2 usage error, or words that make no message; then nothing is printed on standard output.
";

// What is said of words that are no command.
pub(crate) const MAKE_USAGE: &str =
    "usage: switch make <TYPE> [NAME=VALUE]..; `switch make --help` says more\n";
