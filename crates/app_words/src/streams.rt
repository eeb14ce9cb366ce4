ghost use Rattle.std.specs.Prelude.{◌≡◌, ◌≢◌, ◌+◌, ◌^◌, ◌<◌, ◌++◌, ◌≤◌, ◌∷◌, ℕ, [], Some, IfOk, IsTrue, OnOk, codes, length, map, slice_get, string_bytes};
ghost use Rattle.app_words.specs.Streams.{chooses_engine, has_value, is_option, names, names_file, names_more, named, stream, streamed, streamed_command, valued, with_streams, writes};

use crate::words::place_of;
use std::alloc::{AllocError, Global};

/// The program's words, of which the first is its name, with `/dev/stdin` or `/dev/stdout` for each `-` in place of a file's name: a file
/// that is read is standard input then, one that is written standard output. Memory can run out.
pub fn with_streams(alloc: Global, words: &[String]) -> Result<Vec<String>, AllocError>
    ensures { IfOk result (λ streamed. map string_bytes streamed.items ≡ with_streams (map string_bytes words.now)) }
{
    let mut streamed = Vec::new(alloc);
    match words.split_first() {
        None => Ok(streamed),
        Some((program, behind)) => {
            add(alloc, program.as_str(), &mut streamed)?;
            add_behind_program(alloc, behind, &mut streamed)?;
            Ok(streamed)
        }
    }
}

// Adds the words behind the program's name, of which the first is the command.
fn add_behind_program(
    alloc: Global,
    words: &[String],
    to: &mut Vec<String>,
) -> Result<(), AllocError>
    ensures { OnOk result (map string_bytes to.new.items ≡ map string_bytes to.old.items ++ streamed_command (map string_bytes words.now)) }
{
    match words.split_first() {
        None => Ok(()),
        Some((command, rest)) => {
            let command = Named {
                command: command.as_str(),
                count: count_names(false, rest),
            };
            add(alloc, command.command, to)?;
            command.add_streamed(alloc, 0, "", rest, to)
        }
    }
}

/// Whether a word names standard output as a file.
pub fn names_standard_output(words: &[String]) -> bool
    ensures yes { IsTrue result → (place : ℕ) × (slice_get (map string_bytes words.now) place ≡ Some (codes "/dev/stdout")) }
    ensures no { ¬ IsTrue result → (place : ℕ) → slice_get (map string_bytes words.now) place ≢ Some (codes "/dev/stdout") }
{
    place_of(words, words.len(), "/dev/stdout").is_some()
}

// Whether this is an option.
fn is_option(word: &str) -> bool
    ensures { result ≡ is_option word.now }
{
    word.as_bytes().starts_with(b"--")
}

// Whether this option says how a batch is decided, by the word behind it.
fn chooses_engine(word: &str) -> bool
    ensures { result ≡ chooses_engine word.now }
{
    word == "--workers" || word == "--engine" || word == "--max-batch"
}

// Whether this option says what else is written or looked for, by the word behind it.
fn names_more(word: &str) -> bool
    ensures { result ≡ names_more word.now }
{
    word == "--journal"
        || word == "--html"
        || word == "--trace"
        || word == "--card"
        || word == "--stats"
}

// Whether the word behind this option belongs to it.
fn has_value(word: &str) -> bool
    ensures { result ≡ has_value word.now }
{
    chooses_engine(word) || names_more(word)
}

// How many names are among these words.
fn count_names(is_value: bool, words: &[String]) -> usize
    ensures count { result ≡ names is_value (map string_bytes words.now) }
    ensures few { result ≤ length words.now }
{
    match words.split_first() {
        None => 0,
        Some((word, rest)) => {
            let word = word.as_str();
            if is_value {
                count_names(false, rest)
            } else if is_option(word) {
                count_names(has_value(word), rest)
            } else {
                1 + count_names(false, rest)
            }
        }
    }
}

// Adds a copy of the word.
fn add(alloc: Global, word: &str, words: &mut Vec<String>) -> Result<(), AllocError>
    ensures { OnOk result (map string_bytes words.new.items ≡ map string_bytes words.old.items ++ word.now ∷ []) }
{
    let word = String::from_str(alloc, word)?;
    words.reserve(1)?;
    words.push_reserved(word);
    Ok(())
}

// A command with so many names behind it.
#[derive(Drop)]
struct Named<'a> {
    command: &'a str,
    count: usize,
}

impl Named<'_> {
    // Whether it writes the file of the name at this place.
    fn writes(&self, place: usize) -> bool
        requires room { place + 1 < 2 ^ 64 }
        ensures { result ≡ writes self.now.command.now self.now.count place }
    {
        if self.command == "pack" {
            return place + 1 == self.count;
        }
        if self.command == "join" {
            return place >= 1;
        }
        if self.command == "serve" {
            return place % 2 == 1;
        }
        place >= 2
            && (self.command == "serial"
                || self.command == "run"
                || self.command == "blocks"
                || self.command == "replay"
                || self.command == "archive")
    }

    // Adds the words behind the command, before which so many of its names stand, and directly before them this option.
    fn add_streamed(
        &self,
        alloc: Global,
        place: usize,
        option: &str,
        words: &[String],
        to: &mut Vec<String>,
    ) -> Result<(), AllocError>
        requires room { place + length words.now < 2 ^ 64 }
        ensures { OnOk result (map string_bytes to.new.items
            ≡ map string_bytes to.old.items ++ streamed self.now.command.now self.now.count place option.now (map string_bytes words.now)) }
    {
        match words.split_first() {
            None => Ok(()),
            Some((word, rest)) => {
                let word = word.as_str();
                if has_value(option) {
                    add(alloc, self.value(option, word), to)?;
                    self.add_streamed(alloc, place, "", rest, to)
                } else if is_option(word) {
                    add(alloc, word, to)?;
                    self.add_streamed(alloc, place, word, rest, to)
                } else {
                    add(alloc, self.name(place, word), to)?;
                    self.add_streamed(alloc, place + 1, "", rest, to)
                }
            }
        }
    }

    // The name at this place: for `-` that of a stream.
    fn name<'a>(&self, place: usize, word: &'a str) -> &'a str
        requires room { place + 1 < 2 ^ 64 }
        ensures { result.now ≡ named self.now.command.now self.now.count place word.now }
    {
        if word == "-" {
            stream(self.writes(place))
        } else {
            word
        }
    }

    // The value of this option: for a file's name that is `-` that of a stream.
    fn value<'a>(&self, option: &str, word: &'a str) -> &'a str
        ensures { result.now ≡ valued self.now.command.now option.now word.now }
    {
        if word == "-" && names_file(option) {
            stream(self.command != "audit")
        } else {
            word
        }
    }
}

// Whether the value of this option is a file's name.
fn names_file(option: &str) -> bool
    ensures { result ≡ names_file option.now }
{
    option == "--journal" || option == "--html"
}

// The name of standard output, or of standard input.
fn stream(is_written: bool) -> &'static str
    ensures { result.now ≡ stream is_written }
{
    if is_written {
        "/dev/stdout"
    } else {
        "/dev/stdin"
    }
}
