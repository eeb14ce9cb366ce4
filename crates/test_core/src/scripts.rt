//! Calls of a core of three requests on card A, a line a call with its answer.
//!
//! - `task` claims a task. `finish 1.1 1` decides message 1 on what the core has for version 1.1, and hands it in: `yes` where the
//!   version is handed out to be validated. `decide` only decides it. `unread` hands in what was decided on the opening book itself.
//! - `begin 1 1.0` begins a validation of version 1.0 at seat 1; `one 1` goes one read on, `yes` at the end; `end 1` closes it, `yes` if
//!   it is passed. `pass 1 1.0` is a whole validation of five reads, which is passed.
//! - `block 2.0 1` aborts a version that met an ESTIMATE of message 1. `read` and `logged` are of the card's row.
//! - `marks` are the epoch, the floors of three messages and one more, and the stamps; `stand` is where the messages stand.

use stm_core_laws::Limits;

/// A schedule.
#[derive(Clone, Copy)]
pub(crate) struct CoreScript {
    /// The three requests as those of a batch; with what they are answered at the end and the book then, if that is stated.
    pub(crate) batch: &'static str,
    /// Those of the core, where it has any.
    pub(crate) limits: Option<Limits>,
    /// The calls with their answers.
    pub(crate) calls: [&'static str; 3],
}

/// Three requests of 100.
pub(crate) const OF_100: &str = "\
body 1100 000001 A 100
body 1100 000002 A 100
body 1100 000003 A 100
";

// Of three requests the second one is decided first, on the opening book. The first one is decided and validated. The validation of the
// second one, at seat 1, has failed at its second read, which is that of the card.
const SECOND_FAILS: &str = "\
task = execute 0.0
task = execute 1.0
finish 1.0 1 = no
marks = epoch 2 floors 0 0 2 0 stamps - - -
finish 0.0 0 = no
marks = epoch 3 floors 0 3 2 0 stamps - - -
task = validate 0.0
pass 2 0.0 = yes
marks = epoch 3 floors 0 3 2 0 stamps 3 - -
task = validate 1.0
begin 1 1.0 = no
one 1 = no
one 1 = yes
one 1 = not running
";

// The second message is aborted and claimed again, and the third one, which meets its ESTIMATE, waits for it.
const THIRD_WAITS: &str = "\
end 1 = no
marks = epoch 4 floors 0 3 4 0 stamps 3 - -
task = execute 1.1
task = execute 2.0
decide 2.0 2 = blocked by 1
block 2.0 1 = yes
stand = executed 0 running 1 waits-for-1 1
";

// The second message finishes at the rows that it wrote before, is validated at once, and passes. The third message was woken: it
// finishes and passes.
const BOTH_PASS: &str = "\
finish 1.1 1 = yes
pass 0 1.1 = yes
marks = epoch 4 floors 0 3 4 0 stamps 3 4 -
task = execute 2.1
finish 2.1 2 = no
task = validate 2.1
pass 2 2.1 = yes
marks = epoch 5 floors 0 3 4 5 stamps 3 4 5
commit = yes
commit = yes
commit = yes
commit = no
task = done
";

// At the last epoch.
const IS_EXHAUSTED: &str = "\
end 1 = exhausted
marks = epoch 3 floors 0 3 2 0 stamps 3 - -
stand = executed 0 executed 0 ready 0
commit = yes
commit = no
";

// The three versions read before any of them was validated: the second one all from the opening book, the third one what the first one
// wrote.
const ALL_FINISH: &str = "\
task = execute 0.0
task = execute 1.0
task = execute 2.0
decide 1.0 1 = yes
finish 0.0 0 = no
finish 2.0 2 = no
marks = epoch 3 floors 0 2 0 3 stamps - - -
finish 1.0 1 = no
marks = epoch 4 floors 0 2 4 3 stamps - - -
";

// Each seat begins the validation of its message. That of the third one fails and is left open, the second one is aborted.
const ALL_ARE_VALIDATED: &str = "\
task = validate 0.0
task = validate 1.0
task = validate 2.0
begin 2 2.0 = no
one 2 = no
one 2 = yes
one 2 = not running
pass 0 0.0 = yes
begin 1 1.0 = no
one 1 = no
one 1 = yes
one 1 = not running
end 1 = no
marks = epoch 5 floors 0 2 5 3 stamps 4 - -
";

// The second message is declined now and writes no card: both messages pass. A stale validation of a committed message changes nothing.
const ONE_IS_STALE: &str = "\
task = execute 1.1
finish 1.1 1 = yes
pass 0 1.1 = yes
task = validate 2.0
pass 1 2.0 = yes
marks = epoch 5 floors 0 2 5 3 stamps 4 5 5
commit = yes
commit = yes
commit = yes
end 2 = outdated
marks = epoch 5 floors 0 2 5 3 stamps 4 5 5
";

// A version that isn't running can neither read nor wait nor finish, and logged nothing; none that isn't executed is validated.
const NOT_RUNNING: &str = "\
read 0.0 = not running
block 0.0 0 = not running
unread 0.0 0 = not running
logged 0.0 = no
begin 0 0.0 = outdated
read 1.0 = not running
block 1.0 0 = not running
unread 1.0 0 = not running
logged 1.0 = no
begin 0 1.0 = outdated
read 0.1 = not running
block 0.1 0 = not running
unread 0.1 0 = not running
logged 0.1 = no
begin 0 0.1 = outdated
read 7.0 = not running
block 7.0 0 = not running
unread 7.0 0 = not running
logged 7.0 = no
begin 0 7.0 = outdated
one 0 = not running
end 0 = not running
one 63 = not running
end 63 = not running
commit = no
stand = ready 0 ready 0 ready 0
";

// An execution that was not made on the core's rows is refused; what was read of it is taken once.
const ONE_IS_TAKEN: &str = "\
task = execute 0.0
unread 0.0 0 = other reads
finish 0.0 0 = no
logged 0.0 = yes
unread 0.0 0 = not running
committed = 0
";

// The second message's decision, made on the core's rows for the first one's version, is another message's.
const ANOTHER_IS_REFUSED: &str = "\
task = execute 0.0
finish 0.0 1 = other reads
";

const SCRIPTS: &[CoreScript] = &[
    CoreScript {
        batch: "\
# a message that read an old row is given up, another one waits for it, and all come out as one after another
body 1100 000001 A 100 = 000/000001
body 1100 000002 A 100 = 000/000002
body 1100 000003 A 100 = 000/000003
has account A 9700 978
rows 8",
        limits: None,
        calls: [SECOND_FAILS, THIRD_WAITS, BOTH_PASS],
    },
    // At the last epoch a failed validation aborts nothing, and the messages before it are committed.
    CoreScript {
        batch: OF_100,
        limits: Some(Limits {
            incarnation: 4,
            epoch: 3,
        }),
        calls: ["limits = 4 3", SECOND_FAILS, IS_EXHAUSTED],
    },
    CoreScript {
        batch: "\
# a validation that stays open until its message is committed
body 1100 000001 A 10000 = 000/000001
body 1100 000002 A 100 = 116
body 1100 000003 A 1 = 116
has account A 0 978
rows 8",
        limits: None,
        calls: [ALL_FINISH, ALL_ARE_VALIDATED, ONE_IS_STALE],
    },
    // Each on a core of its own.
    CoreScript {
        batch: OF_100,
        limits: None,
        calls: [NOT_RUNNING, "", ""],
    },
    CoreScript {
        batch: OF_100,
        limits: None,
        calls: [ONE_IS_TAKEN, "", ""],
    },
    CoreScript {
        batch: OF_100,
        limits: None,
        calls: [ANOTHER_IS_REFUSED, "", ""],
    },
];

/// The schedules.
pub(crate) fn scripts() -> &'static [CoreScript] {
    SCRIPTS
}
