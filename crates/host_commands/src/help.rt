/// What `switch serve --help` prints.
pub const SERVE_HELP: &str =
    "Answers messages as they come, on a book in memory, and loses none: a reply leaves when its message stands in the log

Usage: switch serve <BOOK> <LOG> [--link <IN> <OUT>].. [--max-batch <M>] [--stats <N>]

Arguments:
  <BOOK>  The opening book of the log: JSON of version 1, 2 or 3. It stays as it is
  <LOG>   The log of all messages that were decided on it. It is begun where it isn't there or is empty

Options:
      --link <IN> <OUT>  A link over two named pipes: messages come on IN, replies go to OUT; for up to 64 links
      --max-batch <M>    How many messages become one entry of the log, at most: 1 to 65536 [default: 65536]
      --stats <N>        Tell on standard error how it goes, each time that N messages more came: 1 or more
  -h, --help             Print help

Messages come on standard input, replies go to standard output, each behind two bytes of its length, the higher first.
Network management (1804: sign-on 801, sign-off 802, echo test 831) is answered 1814, and stands in no log.
At the start the messages that the log holds are decided again; what a crash left of an entry behind them is cut, and
`torn N` on standard error says how many bytes that was. The host ends when standard input does.

With --link the same goes over the pipes in place of standard input and output. Links are served side by side, on one
book and one log: each is answered in its own order. IN is opened first, then OUT, and each waits for its other end;
OUT is closed when IN ends. A fault of one link ends that link alone, and the host ends when all links have.

What is no message is logged and gets no reply; `unreadable I F07011` on standard error tells its number, from 0 on over
the whole log, and its fault (`switch help faults`). `decided B, U unreadable, E entries` says how it goes: how many
messages the log has, how many of them are none, and in how many entries. Lines tell of what stands in the log.

Exit status: 0 all was answered, 1 fault, 2 usage error.

A fault is printed on standard error as what it is of and its number there:
  file 1     BOOK can't be opened or read
  book N     BOOK is no book, as `switch --help` lists
  log N      the log: 1 is none, 2 another version, 3 of another book, 4 another host has it, 5 an entry was changed,
             6 can't be opened, read, written or synced; 7 out of memory
  link N     standard input: 1 ends within a message, 2 a length of 0 or over 512, 4 can't be read; standard output:
             3 a reply can't be written; 5 out of memory. With --link `link N of IN`, of the pipes
  memory 1   memory ran out
After a fault every message that was answered is in the log. A message that got no reply is sent again as its repeat
(1101, 1121, 1421): what was decided is answered as it was, and nothing is charged twice.
";
