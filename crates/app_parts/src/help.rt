/// What `switch part --help` prints.
pub const PART_HELP: &str =
    "Puts a batch in parts that share no row, each with a book of its own, to be decided anywhere

Usage: switch part <BOOK> <BATCH> <N> <FOLDER>

Arguments:
  <BOOK>    The book, which stays as it is
  <BATCH>   The batch, which stays as it is
  <N>       How many parts there are at most, 1 to 64
  <FOLDER>  The folder for the parts' files, which is there already

Messages that may need the same row are of one part, so there may be less than N. It puts into FOLDER of each part K,
from 0 on, K.book and K.batch; rest.book, the rows that no message may need; and plan, which message is of which part,
with the digests (SHA-256) of these books and batches. It prints a line for each part. Then `switch decide FOLDER K`
decides part K, anywhere and in any order, and `switch join` puts the parts together: to the bytes that
`switch serial` gives on BOOK and BATCH.

Exit status: 0 done, 1 fault, 2 usage error, or BOOK or BATCH is one of the files of FOLDER.

A fault is printed on standard error as what it is of and its number there:
  file N     1 BOOK or BATCH can't be opened or read, 2 a file of FOLDER can't be made or written, 3 another run writes it
  book N     BOOK is no book, as `switch --help` lists
  batch N    BATCH is no batch, as `switch --help` lists
  output 1   standard output doesn't take what is printed; the files are in place
  memory 1   memory ran out
After any other fault all files are as they were, and none is new.
";

/// What `switch decide --help` prints.
pub const DECIDE_HELP: &str = "Decides one part of a batch that `switch part` put in parts

Usage: switch decide <FOLDER> <K>

Arguments:
  <FOLDER>  The folder of the parts: of it plan, K.book and K.batch are read
  <K>       The number of the part, from 0 on

It decides the messages of K.batch one after another on K.book, and puts K.replies, K.newbook and K.decided into
FOLDER, all three or none. K.decided has the digests (SHA-256) of the plan, the replies and the new book. Any number of
parts may be decided at once, on any machines that see these files; one that is decided again is the same.

Exit status: 0 done, 1 fault, 2 usage error.

A fault is printed on standard error as what it is of and its number there:
  plan N     1 FOLDER/plan is no plan, 2 it has no part K
  part K: N  1 K.book or K.batch can't be opened or read, 2 K.book isn't that of the plan, 3 K.batch isn't
  file N     1 FOLDER/plan can't be opened or read, 2 a file can't be made or written, 3 another run writes it
  book N     K.book is no book, as `switch --help` lists
  batch N    K.batch is no batch, as `switch --help` lists
  output 1   standard output doesn't take what is printed; the files are in place
  memory 1   memory ran out
After any other fault all files are as they were, and none is new.
";

/// What `switch join --help` prints.
pub const JOIN_HELP: &str = "Puts the parts of a batch together that `switch decide` decided

Usage: switch join <FOLDER> <REPLIES> <NEWBOOK>

Arguments:
  <FOLDER>   The folder of the parts: of it plan, rest.book, and of each part K K.decided, K.replies and K.newbook are read
  <REPLIES>  The replies to the batch, in the order of arrival
  <NEWBOOK>  The book behind it

REPLIES and NEWBOOK are what `switch serial` gives on the book and the batch that were put in parts, byte for byte.

Exit status: 0 done, 1 fault, 2 usage error, or two of REPLIES, NEWBOOK and the files of FOLDER are one file.

A fault is printed on standard error as what it is of and its number there:
  plan N     1 FOLDER/plan is no plan, 3 rest.book isn't that of the plan, 4 the parts haven't as many replies as messages
  part K: N  1 a file of part K can't be opened or read, as where it isn't decided yet, 4 it was decided by another plan,
             5 K.replies or K.newbook isn't what K.decided names
  file N     1 plan or rest.book can't be opened or read, 2 REPLIES or NEWBOOK can't be made or written, 3 another run
             writes it
  book N     rest.book or a part's new book is no book, as `switch --help` lists
  batch N    a part's replies are none, as `switch --help` lists
  output 1   standard output doesn't take what is printed; the files are in place
  memory 1   memory ran out
After any other fault all files are as they were, and none is new.
";

// What is said of words that are no command.
pub(crate) const PART_USAGE: &str =
    "usage: switch part <BOOK> <BATCH> <N> <FOLDER>, N from 1 to 64; `switch part --help` says more\n";

pub(crate) const DECIDE_USAGE: &str =
    "usage: switch decide <FOLDER> <K>; `switch decide --help` says more\n";

pub(crate) const JOIN_USAGE: &str =
    "usage: switch join <FOLDER> <REPLIES> <NEWBOOK>; `switch join --help` says more\n";
