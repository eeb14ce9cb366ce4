ghost use Rattle.std.specs.Prelude.{◌≡◌, IfOk, codes};
ghost use Rattle.clap.specs.Simple.{app_of, with_subcommand};
ghost use Rattle.app_words.specs.CommandLine.{IsLine, IsWord, audit_blocks_line, audit_line, blocks_line, command_line, files_line, flag, one_line, operand, operands, pack_line, program_line, run_line, serial_line, setting, setting_or, show_line, with_engine};

use clap::{Arg, ArgAction, Command};
use std::alloc::{AllocError, Global};

// What the program's help says behind its subcommands.
const AFTER_HELP: &str = "Commands with help of their own, as `switch serve --help`:
  serve      Answers messages as they come, on a book in memory, with a log that loses none
  replay     Makes the replies and the next book of such a log
  audit-log  Says whether replies and a book are those of such a log
  why        Tells why a message of a batch was answered so
  report     Says how a day went: totals of a batch and its replies, as lines or as a page
  make       Prints the body of a message as a line that `pack` reads, from its elements by name
  unpack     Prints the bodies of a batch, or of one block, as the text that `pack` reads
  archive    Takes the originals and days before a date out of a book
  part       Cuts a batch and its book into parts that share no row, to be decided anywhere
  decide     Decides one of these parts
  join       Puts their replies and books together, as if the batch had been decided in one
  show --json  Prints an object of JSON for each message or reply

`switch help formats`, `rules`, `faults` (of a body that is no message) and `example` tell more.

Exit status: 0 done, 1 fault, 2 usage error, 3 an audit found a difference.

A fault is printed on standard error as what it is of and its number there:
  file 1     a file can't be opened or read
  file 2     a file can't be made or written
  file 3     another run writes a file
  book N     BOOK or NEWBOOK is no book: 1 no JSON, 2 another shape, 3 a value out of range, 4 not sound; 5 out of memory
  batch N    BATCH, FILE or REPLIES is none: 1 other letters, 2 another version, 3 more than 65,536 bodies, 4 a body of
             0 or over 512 bytes, 5 it ends within a field, 6 a byte after its end, 9 a body is no reply, 10 more than
             1,000 blocks; 7 a device failed, 8 out of memory
  journal N  the journal is none: 1 a line is no entry, 2 a decision asks for a row that was not logged; 3 out of memory
  text N     line N of TEXT is no body
  unreadable N  with --strict: N bodies are no message
  memory 1   memory ran out
  output 1   standard output can't be written; the files are in place
After any other fault all files are as they were. If `blocks` fails, `kept M` means that the first M blocks were decided:
REPLIES and NEWBOOK are those after them.
Files are put in place together when all are written. Two names of one file are a usage error where one of them is
written; NEWBOOK alone may be BOOK. `-` as a file's name is standard input where the file is read, and standard output
where it is written; what is printed goes to standard error then. --progress tells there how far files are read.";

/// The words that the program has.
pub(crate) fn command_line<'a>(alloc: Global) -> Result<Command<'a>, AllocError>
    ensures { IfOk result (λ command. app_of command ≡ command_line) }
{
    let one = with_line(Ok(program_line(alloc)), one_line(alloc));
    let run = with_line(one, run_line(alloc));
    let serial = with_line(run, serial_line(alloc));
    let blocks = with_line(serial, blocks_line(alloc));
    let audit = with_line(blocks, audit_line(alloc));
    let audit_blocks = with_line(audit, audit_blocks_line(alloc));
    let show = with_line(audit_blocks, show_line(alloc));
    with_line(show, pack_line(alloc))
}

// The program's own line, without its subcommands.
fn program_line<'a>(alloc: Global) -> Command<'a>
    ensures { IsLine program_line result }
{
    Command::new(alloc, "switch")
        .about("Decides ISO 8583:1993 card messages for an issuer")
        .version("0.1.0")
        .after_help(AFTER_HELP)
        .subcommand_required(true)
        .arg_required_else_help(true)
}

// The line with one more subcommand, where memory didn't run out while either was made.
fn with_line<'a>(
    line: Result<Command<'a>, AllocError>,
    subcommand: Result<Command<'a>, AllocError>,
) -> Result<Command<'a>, AllocError>
    ensures { (app sub_app : _) → IfOk line.entry (IsLine app) → IfOk subcommand.entry (IsLine sub_app) → IfOk result (IsLine (with_subcommand app sub_app.top)) }
{
    line?.subcommand(subcommand?)
}

// `one FRAME`.
fn one_line<'a>(alloc: Global) -> Result<Command<'a>, AllocError>
    ensures { IfOk result (IsLine one_line) }
{
    let frame = operand(
        alloc,
        "FRAME",
        "The body of a message: 1 to 512 pairs of hexadecimal digits",
    );
    Command::new(alloc, "one")
        .about("Decides one message on the sample book, and prints its reply in hexadecimal")
        .arg(frame)
}

// `run BOOK BATCH REPLIES NEWBOOK [--workers N] [--engine ENGINE] [--journal FILE] [--strict]`.
fn run_line<'a>(alloc: Global) -> Result<Command<'a>, AllocError>
    ensures { IfOk result (IsLine run_line) }
{
    let files = batch_line(
        alloc,
        "run",
        "Decides a batch on threads; the answers are those of deciding one message after another",
    )?;
    let shared = with_engine(
        alloc,
        files,
        "How many threads the engine has that is named: 1 to 64",
        "How threads share what is to be decided: split, each row, message and commit under a lock of its own, and of a long batch only what takes long to decide; parts, no lock at all, where a batch falls into parts that share no row, each with a worker of its own; locked, all of it under one lock, slower, with a journal. Without it what is fastest for the tables: one thread decides while others read and write, as serial does; with --journal locked",
    )?;
    let logged = shared.arg(journal_setting(
        alloc,
        "Puts the run's journal into this file: a line for each thing that a worker asked of the core; the locked engine alone keeps one",
    ))?;
    logged.arg(strict_flag(alloc))
}

// `serial BOOK BATCH REPLIES NEWBOOK [--strict]`.
fn serial_line<'a>(alloc: Global) -> Result<Command<'a>, AllocError>
    ensures { IfOk result (IsLine serial_line) }
{
    let files = batch_line(alloc, "serial", "Decides a batch one message after another")?;
    files.arg(strict_flag(alloc))
}

// `blocks BOOK FILE REPLIES NEWBOOK [--workers N] [--engine ENGINE] [--strict]`.
fn blocks_line<'a>(alloc: Global) -> Result<Command<'a>, AllocError>
    ensures { IfOk result (IsLine blocks_line) }
{
    let files = block_file_line(
        alloc,
        "blocks",
        "Decides blocks, each on the book after those before it, and answers each before the next is read; a fault keeps the blocks that were answered",
    )?;
    let shared = with_engine(
        alloc,
        files,
        "How many threads the engine has that is named: 1 to 64",
        "How threads share what is to be decided of a block of more than 1,024 messages: split, parts or locked, as of run. Of a shorter one, and of all without it, one thread decides, on the book itself",
    )?;
    shared.arg(strict_flag(alloc))
}

// `audit BOOK BATCH REPLIES NEWBOOK [--journal FILE]`.
fn audit_line<'a>(alloc: Global) -> Result<Command<'a>, AllocError>
    ensures { IfOk result (IsLine audit_line) }
{
    let files = batch_line(
        alloc,
        "audit",
        "Decides a batch one message after another, and says what differs first: same, count differs, reply I differs, row KEY differs",
    )?;
    files.arg(journal_setting(
        alloc,
        "Plays the journal of a run in this file, and compares with what it comes to",
    ))
}

// `audit-blocks BOOK FILE REPLIES NEWBOOK`.
fn audit_blocks_line<'a>(alloc: Global) -> Result<Command<'a>, AllocError>
    ensures { IfOk result (IsLine audit_blocks_line) }
{
    block_file_line(
        alloc,
        "audit-blocks",
        "Decides blocks one message after another, and says what differs first: same, count differs, block B reply I differs, row KEY differs",
    )
}

// `show FILE`.
fn show_line<'a>(alloc: Global) -> Result<Command<'a>, AllocError>
    ensures { IfOk result (IsLine show_line) }
{
    let line = Command::new(alloc, "show").about(
        "Prints a line for each message: its place, type, amount and trace number; or for each reply: its place, type, action, approval code and trace number; of blocks also a line with the number of each",
    );
    line.arg(operand(alloc, "FILE", "A batch, blocks, or their replies"))
}

// `pack TEXT.. BATCH [--blocks]`.
fn pack_line<'a>(alloc: Global) -> Result<Command<'a>, AllocError>
    ensures { IfOk result (IsLine pack_line) }
{
    let line = Command::new(alloc, "pack")
        .about("Makes a batch of bodies that are written in hexadecimal")
        .override_usage("switch pack [--blocks] <TEXT>... <BATCH>");
    let text = line.arg(operand(
        alloc,
        "TEXT",
        "One body a line, in hexadecimal digits; empty lines and lines that begin with # are passed over",
    ))?;
    let batch = text.arg(operands(
        alloc,
        "BATCH",
        "Further texts, whose bodies stand behind those before; and last the file for the batch",
    ))?;
    batch.arg(blocks_flag(alloc))
}

// A subcommand with the operands of a batch.
fn batch_line<'a>(alloc: Global, name: &'a str, about: &'a str) -> Result<Command<'a>, AllocError>
    ensures { IfOk result (IsLine (files_line name.now (codes "BATCH"))) }
{
    files_line(
        alloc,
        name,
        about,
        "BATCH",
        "The batch: I83B, version 1, the number of bodies, and each behind its length",
        "Its replies: I83R, version 1, their number, and each behind its length",
    )
}

// A subcommand with the operands of blocks.
fn block_file_line<'a>(
    alloc: Global,
    name: &'a str,
    about: &'a str,
) -> Result<Command<'a>, AllocError>
    ensures { IfOk result (IsLine (files_line name.now (codes "FILE"))) }
{
    files_line(
        alloc,
        name,
        about,
        "FILE",
        "The blocks: I83M, version 1, their number, and of each the number of its bodies, and each behind its length",
        "Their replies: I83T, version 1, the number of blocks, and of each the number of its replies, and each behind its length",
    )
}

// A subcommand with the book that is decided on, what is decided, its replies, and the book after it.
fn files_line<'a>(
    alloc: Global,
    name: &'a str,
    about: &'a str,
    input: &'a str,
    input_help: &'a str,
    replies_help: &'a str,
) -> Result<Command<'a>, AllocError>
    ensures { IfOk result (IsLine (files_line name.now input.now)) }
{
    let line = Command::new(alloc, name).about(about);
    let book = line.arg(operand(alloc, "BOOK", "The book before: JSON of version 1, 2 or 3"))?;
    let batch = book.arg(operand(alloc, input, input_help))?;
    let replies = batch.arg(operand(alloc, "REPLIES", replies_help))?;
    replies.arg(operand(alloc, "NEWBOOK", "The book after it: JSON of version 3"))
}

// A subcommand that decides, with `[--workers N] [--engine ENGINE]`, and what is said of them.
fn with_engine<'a>(
    alloc: Global,
    line: Command<'a>,
    workers_help: &'a str,
    engine_help: &'a str,
) -> Result<Command<'a>, AllocError>
    ensures { (app : _) → IsLine app line.entry → IfOk result (IsLine (with_engine app)) }
{
    let workers = setting(alloc, "workers", "N", workers_help);
    let counted = line.arg(workers.default_value("4"))?;
    counted.arg(setting(alloc, "engine", "ENGINE", engine_help))
}

// `--strict`.
fn strict_flag<'a>(alloc: Global) -> Arg<'a>
    ensures { IsWord (flag (codes "strict")) result }
{
    Arg::new(alloc, "strict")
        .long("strict")
        .action(ArgAction::SetTrue)
        .help("Refuses what has a body that is no message: status 1, and no file is written")
}

// `--blocks`.
fn blocks_flag<'a>(alloc: Global) -> Arg<'a>
    ensures { IsWord (flag (codes "blocks")) result }
{
    Arg::new(alloc, "blocks")
        .long("blocks")
        .action(ArgAction::SetTrue)
        .help("Makes a file for `switch blocks`: a block of each TEXT, at most 1,000")
}

// `--journal FILE`.
fn journal_setting<'a>(alloc: Global, help: &'a str) -> Arg<'a>
    ensures { IsWord (setting (codes "journal")) result }
{
    setting(alloc, "journal", "FILE", help)
}

// `--NAME VALUE`.
fn setting<'a>(alloc: Global, name: &'a str, value: &'a str, help: &'a str) -> Arg<'a>
    ensures { IsWord (setting name.now) result }
{
    Arg::new(alloc, name)
        .long(name)
        .value_name(value)
        .help(help)
}

// An operand, which has to be there.
fn operand<'a>(alloc: Global, id: &'a str, help: &'a str) -> Arg<'a>
    ensures { IsWord (operand id.now) result }
{
    Arg::new(alloc, id).required(true).help(help)
}

// Operands of one name, at least one.
fn operands<'a>(alloc: Global, id: &'a str, help: &'a str) -> Arg<'a>
    ensures { IsWord (operands id.now) result }
{
    operand(alloc, id, help).action(ArgAction::Append)
}
