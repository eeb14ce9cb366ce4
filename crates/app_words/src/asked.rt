ghost use Rattle.std.specs.Prelude.{◌≡◌, ◌∷◌, IfOk, codes, map, option_map, option_and_then, string_bytes};
ghost use Rattle.clap.specs.Matches.{found_of};
ghost use Rattle.clap.specs.Simple.{subcommand_rows_of};
ghost use Rattle.clap.specs.Values.{kind_of};
ghost use Rattle.clap.specs.Walk.{all_of, first_of, rows_of};
ghost use Rattle.app_words.specs.Asked.{asked, asked_of, audit_blocks_in, audit_in, blocks_in, engine_in, names_in, names_of, names_of_arguments, one_in, pack_as, pack_by, pack_in, run_by, run_in, serial_in, show_in, strictness_in, workers_in};
ghost use Rattle.app_words.specs.Arguments.{IsRead, IsReadAs, IsReadOfKind};

use crate::command::Command;
use crate::command_line::command_line;
use crate::engine_choice::EngineChoice;
use crate::line_fault::LineFault;
use clap::error::ErrorKind;
use clap::{ArgMatches, Error};
use engine_workers::{Engine, Workers};
use file_batch::Strictness;
use file_devices::BatchNames;
use file_listing::body_of_digits;
use std::alloc::{AllocError, Global};

/// Reads the program's words, of which the first is its name. Words that are no command are a usage error.
pub fn read_arguments(alloc: Global, words: &[String]) -> Result<Command, LineFault>
    ensures { IsRead (map string_bytes words.now) result }
{
    match command_line(alloc)?.try_get_matches_from(words) {
        Ok(matches) => command_or_fault(alloc, &matches),
        Err(error) => request_of(alloc, &error),
    }
}

// The command that the words ask for, or that they ask for nothing.
fn command_or_fault(alloc: Global, matches: &ArgMatches<'_>) -> Result<Command, LineFault>
    ensures { IsReadAs (option_and_then asked (subcommand_rows_of matches.now)) result }
{
    match command_of(alloc, matches)? {
        Some(command) => Ok(command),
        None => Err(LineFault::Usage(String::from_str(alloc, wrong_word(matches))?)),
    }
}

// The command that the words ask for.
fn command_of(alloc: Global, matches: &ArgMatches<'_>) -> Result<Option<Command>, AllocError>
    ensures { IfOk result (λ command. option_map asked_of command ≡ option_and_then asked (subcommand_rows_of matches.now)) }
{
    match matches.subcommand() {
        Some((name, words)) => command_named(alloc, name, words),
        None => Ok(None),
    }
}

// The command that a subcommand of this name asks for.
fn command_named(
    alloc: Global,
    name: &str,
    words: &ArgMatches<'_>,
) -> Result<Option<Command>, AllocError>
    ensures { IfOk result (λ command. option_map asked_of command ≡ asked (name.now, rows_of (found_of words.now))) }
{
    match name {
        "one" => one_of(alloc, words),
        "run" => run_of(alloc, words),
        "serial" => serial_of(alloc, words),
        "blocks" => blocks_of(alloc, words),
        "audit" => audit_of(alloc, words),
        "audit-blocks" => audit_blocks_of(alloc, words),
        "show" => show_of(alloc, words),
        "pack" => pack_of(alloc, words),
        _ => Ok(None),
    }
}

// What is wrong with words that have their form but ask for nothing.
fn wrong_word(matches: &ArgMatches<'_>) -> &'static str {
    match matches.subcommand() {
        Some(("one", _)) => "FRAME is 1 to 512 pairs of hexadecimal digits",
        Some((_, deciding)) => wrong_setting(deciding),
        None => "see --help",
    }
}

// What is wrong with the settings of a subcommand that decides.
fn wrong_setting(deciding: &ArgMatches<'_>) -> &'static str {
    if engine_of(deciding).is_none() {
        return "--engine is locked, split or parts";
    }
    if workers_of(deciding).is_none() {
        return "--workers is a number from 1 to 64";
    }
    "--journal asks for --engine locked: the others keep no journal"
}

// The word of this name.
fn word<'a>(matches: &ArgMatches<'a>, id: &str) -> Option<&'a str>
    ensures { option_map (λ s. s.now) result ≡ first_of id.now (rows_of (found_of matches.now)) }
{
    matches.get_str(id)
}

// The words of this name.
fn words<'m, 'a>(matches: &'m ArgMatches<'a>, id: &str) -> Option<&'m [&'a str]>
    ensures { option_map (λ words. map (λ word. word.now) words.now) result ≡ all_of id.now (rows_of (found_of matches.now)) }
{
    matches.get_raw(id)
}

// The body behind `one`.
fn one_of(alloc: Global, matches: &ArgMatches<'_>) -> Result<Option<Command>, AllocError>
    ensures { IfOk result (λ command. option_map asked_of command ≡ one_in (rows_of (found_of matches.now))) }
{
    let Some(frame) = word(matches, "FRAME") else {
        return Ok(None);
    };
    match body_of_digits(alloc, frame.as_bytes())? {
        Some(body) => Ok(Some(Command::One(body))),
        None => Ok(None),
    }
}

// The files behind `serial`, and whether `--strict` is there.
fn serial_of(alloc: Global, matches: &ArgMatches<'_>) -> Result<Option<Command>, AllocError>
    ensures { IfOk result (λ command. option_map asked_of command ≡ serial_in (rows_of (found_of matches.now))) }
{
    match names_of(alloc, matches, "BATCH")? {
        Some(names) => Ok(Some(Command::Serial {
            names,
            strictness: strictness_of(matches),
        })),
        None => Ok(None),
    }
}

// The files, the workers and the engine behind `run`, whether `--strict` is there, and the journal.
fn run_of(alloc: Global, matches: &ArgMatches<'_>) -> Result<Option<Command>, AllocError>
    ensures { IfOk result (λ command. option_map asked_of command ≡ run_in (rows_of (found_of matches.now))) }
{
    let Some(names) = names_of(alloc, matches, "BATCH")? else {
        return Ok(None);
    };
    let Some(workers) = workers_of(matches) else {
        return Ok(None);
    };
    let journal = journal_of(alloc, matches)?;
    let Some(engine) = engine_of(matches) else {
        return Ok(None);
    };
    Ok(run_by(names, workers, engine, strictness_of(matches), journal))
}

// A run by this engine. The locked engine alone keeps a journal, and decides where none is named.
fn run_by(
    names: BatchNames,
    workers: Workers,
    engine: EngineChoice,
    strictness: Strictness,
    journal: Option<String>,
) -> Option<Command>
    ensures { option_map asked_of result ≡ run_by (names_of names) workers engine strictness (option_map string_bytes journal) }
{
    match journal {
        None => Some(Command::Run {
            names,
            workers,
            engine,
            strictness,
        }),
        Some(journal) => match engine {
            EngineChoice::NotNamed | EngineChoice::Named(Engine::Locked) => Some(
                Command::RunWithJournal {
                    names,
                    workers,
                    journal,
                    strictness,
                },
            ),
            EngineChoice::Named(Engine::Split | Engine::Parts) => None,
        },
    }
}

// The files, the workers and the engine behind `blocks`, and whether `--strict` is there.
fn blocks_of(alloc: Global, matches: &ArgMatches<'_>) -> Result<Option<Command>, AllocError>
    ensures { IfOk result (λ command. option_map asked_of command ≡ blocks_in (rows_of (found_of matches.now))) }
{
    let Some(names) = names_of(alloc, matches, "FILE")? else {
        return Ok(None);
    };
    let Some(workers) = workers_of(matches) else {
        return Ok(None);
    };
    match engine_of(matches) {
        Some(engine) => Ok(Some(Command::Blocks {
            names,
            workers,
            engine,
            strictness: strictness_of(matches),
        })),
        None => Ok(None),
    }
}

// The files behind `audit`, and the journal.
fn audit_of(alloc: Global, matches: &ArgMatches<'_>) -> Result<Option<Command>, AllocError>
    ensures { IfOk result (λ command. option_map asked_of command ≡ audit_in (rows_of (found_of matches.now))) }
{
    let Some(names) = names_of(alloc, matches, "BATCH")? else {
        return Ok(None);
    };
    Ok(Some(Command::Audit {
        names,
        journal: journal_of(alloc, matches)?,
    }))
}

// The files behind `audit-blocks`.
fn audit_blocks_of(alloc: Global, matches: &ArgMatches<'_>) -> Result<Option<Command>, AllocError>
    ensures { IfOk result (λ command. option_map asked_of command ≡ audit_blocks_in (rows_of (found_of matches.now))) }
{
    match names_of(alloc, matches, "FILE")? {
        Some(names) => Ok(Some(Command::AuditBlocks(names))),
        None => Ok(None),
    }
}

// The file behind `show`.
fn show_of(alloc: Global, matches: &ArgMatches<'_>) -> Result<Option<Command>, AllocError>
    ensures { IfOk result (λ command. option_map asked_of command ≡ show_in (rows_of (found_of matches.now))) }
{
    match word(matches, "FILE") {
        Some(file) => Ok(Some(Command::Show(String::from_str(alloc, file)?))),
        None => Ok(None),
    }
}

// The texts and the file behind `pack`, and whether `--blocks` is there.
fn pack_of(alloc: Global, matches: &ArgMatches<'_>) -> Result<Option<Command>, AllocError>
    ensures { IfOk result (λ command. option_map asked_of command ≡ pack_in (rows_of (found_of matches.now))) }
{
    let Some(text) = word(matches, "TEXT") else {
        return Ok(None);
    };
    let Some(behind) = words(matches, "BATCH") else {
        return Ok(None);
    };
    pack_by(alloc, word(matches, "blocks"), text, behind)
}

// The same of this text and the words behind it, of which the last is the file that is made.
fn pack_by(
    alloc: Global,
    flag: Option<&str>,
    text: &str,
    behind: &[&str],
) -> Result<Option<Command>, AllocError>
    ensures { IfOk result (λ command. option_map asked_of command
        ≡ pack_by (option_map (λ flag. flag.now) flag.entry) text.now (map (λ word. word.now) behind.now)) }
{
    let Some((file, words)) = behind.split_last() else {
        return Ok(None);
    };
    let texts = texts_of(alloc, text, words)?;
    let file = String::from_str(alloc, file)?;
    Ok(Some(pack_as(flag, texts, file)))
}

// A word and those behind it.
fn texts_of(alloc: Global, text: &str, words: &[&str]) -> Result<Vec<String>, AllocError>
    ensures { IfOk result (λ texts. map string_bytes texts.items ≡ text.now ∷ map (λ word. word.now) words.now) }
{
    let mut texts = Vec::new(alloc);
    texts.push(String::from_str(alloc, text)?)?;
    for word in words {
        texts.push(String::from_str(alloc, word)?)?;
    }
    Ok(texts)
}

// A batch of these texts or, by the flag, blocks.
fn pack_as(flag: Option<&str>, texts: Vec<String>, file: String) -> Command
    ensures { asked_of result ≡ pack_as (option_map (λ flag. flag.now) flag.entry) (map string_bytes texts.items) (string_bytes file) }
{
    match flag {
        Some("true") => Command::PackBlocks {
            texts,
            blocks: file,
        },
        _ => Command::Pack { texts, batch: file },
    }
}

// The engine behind `--engine`, if it is there.
fn engine_of(matches: &ArgMatches<'_>) -> Option<EngineChoice>
    ensures { result ≡ engine_in (rows_of (found_of matches.now)) }
{
    match word(matches, "engine") {
        None => Some(EngineChoice::NotNamed),
        Some("locked") => Some(EngineChoice::Named(Engine::Locked)),
        Some("split") => Some(EngineChoice::Named(Engine::Split)),
        Some("parts") => Some(EngineChoice::Named(Engine::Parts)),
        Some(_) => None,
    }
}

// What is to come of bodies that are no message: whether `--strict` is there.
fn strictness_of(matches: &ArgMatches<'_>) -> Strictness
    ensures { result ≡ strictness_in (rows_of (found_of matches.now)) }
{
    match word(matches, "strict") {
        Some("true") => Strictness::Strict,
        _ => Strictness::Lenient,
    }
}

// The number behind `--workers`.
fn workers_of(matches: &ArgMatches<'_>) -> Option<Workers>
    ensures { result ≡ workers_in (rows_of (found_of matches.now)) }
{
    let text = word(matches, "workers")?;
    let count = text.parse::<u8>().unwrap_or(0);
    Workers::new(u32::from(count))
}

// The name behind `--journal`.
fn journal_of(alloc: Global, matches: &ArgMatches<'_>) -> Result<Option<String>, AllocError>
    ensures { IfOk result (λ name. option_map string_bytes name ≡ first_of (codes "journal") (rows_of (found_of matches.now))) }
{
    match word(matches, "journal") {
        Some(name) => Ok(Some(String::from_str(alloc, name)?)),
        None => Ok(None),
    }
}

// The names behind a subcommand that decides or audits what the word of this name holds.
fn names_of(
    alloc: Global,
    matches: &ArgMatches<'_>,
    input: &str,
) -> Result<Option<BatchNames>, AllocError>
    ensures { IfOk result (λ names. option_map names_of names ≡ names_in input.now (rows_of (found_of matches.now))) }
{
    let Some(words) = batch_arguments(matches, input) else {
        return Ok(None);
    };
    Ok(Some(BatchNames {
        book: String::from_str(alloc, words.book)?,
        batch: String::from_str(alloc, words.batch)?,
        replies: String::from_str(alloc, words.replies)?,
        new_book: String::from_str(alloc, words.new_book)?,
    }))
}

// The words BOOK, BATCH or FILE, REPLIES and NEWBOOK.
#[derive(Drop)]
struct BatchArguments<'a> {
    book: &'a str,
    batch: &'a str,
    replies: &'a str,
    new_book: &'a str,
}

fn batch_arguments<'a>(matches: &ArgMatches<'a>, input: &str) -> Option<BatchArguments<'a>>
    ensures { option_map names_of_arguments result ≡ names_in input.now (rows_of (found_of matches.now)) }
{
    Some(BatchArguments {
        book: word(matches, "BOOK")?,
        batch: word(matches, input)?,
        replies: word(matches, "REPLIES")?,
        new_book: word(matches, "NEWBOOK")?,
    })
}

// Help or the version that was asked for is a command; all else that the words' reader says is a fault, in its words.
fn request_of(alloc: Global, error: &Error) -> Result<Command, LineFault>
    ensures { IsReadOfKind (kind_of error.now) result }
{
    match error.kind() {
        ErrorKind::DisplayHelp => Ok(Command::Help(text_of(alloc, error)?)),
        ErrorKind::DisplayVersion => Ok(Command::Version),
        ErrorKind::OutOfMemory => Err(LineFault::OutOfMemory),
        _ => Err(LineFault::Usage(text_of(alloc, error)?)),
    }
}

// What the words' reader says, without the end of its last line.
fn text_of(alloc: Global, error: &Error) -> Result<String, AllocError> {
    String::from_str(alloc, error.to_string(alloc)?.trim_end())
}
