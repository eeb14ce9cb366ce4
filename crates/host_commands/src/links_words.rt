//! The words that ask for a host that several links share.

ghost use Rattle.std.specs.Prelude.{◌≡◌, ◌≢◌, ◌^◌, ◌-◌, ◌++◌, ◌∷◌, [], Bool, true, false, Ok, IfOk, IfSome, IfNone, IsFalse, IsTrue, None, Some, codes, drop, length, map, slice_get, string_bytes};
ghost use Rattle.app_words.specs.Words.{IsCommand};
ghost use Rattle.host_commands.specs.Links.{AddsLink, AskLinks, LinkOptions, NoneAsks, SayMore, options_of, is_named, names_of};
ghost use Rattle.host_commands.specs.Settings.{IsNumberTo};
ghost use Rattle.app_words.specs.Numbers.{number_said};

use crate::asked_links::AskedLinks;
use crate::choices::Choices;
use crate::link_names::LinkNames;
use crate::settings::Settings;
use crate::settings_words::{max_batch_in, stats_in};
use app_words::is_command;
use host_serving::MaxBatch;
use std::alloc::{AllocError, Global};

// So many links can a host have.
const MOST_LINKS: usize = 64;

// Whether a name is one of these links'.
fn is_named(name: &str, links: &[LinkNames<'_>]) -> bool
    ensures { result ≡ is_named name.now (names_of links.now) }
{
    match links.split_first() {
        None => false,
        Some((link, rest)) => link.input == name || link.output == name || is_named(name, rest),
    }
}

// How many frames are served in one turn, as this word says. Returns whether it does, and it wasn't said before.
fn read_max_batch(word: &str, said: &mut Choices<'_>) -> bool
    ensures yes { IsTrue result → IsNumberTo 65536 word.now × (said.old.max_batch ≡ None)
        × (options_of said.new ≡ record { max_batch = Some (number_said word.now); stats = said.old.stats; links = names_of said.old.links.items }) }
    ensures no { ¬ IsTrue result → ¬ (IsNumberTo 65536 word.now × (said.old.max_batch ≡ None)) }
{
    if said.max_batch.is_some() {
        return false;
    }
    said.max_batch = max_batch_in(word);
    said.max_batch.is_some()
}

// The same of how it goes.
fn read_stats(word: &str, said: &mut Choices<'_>) -> bool
    ensures yes { IsTrue result → IsNumberTo (2 ^ 64 - 1) word.now × (said.old.stats ≡ None)
        × (options_of said.new ≡ record { max_batch = said.old.max_batch; stats = Some (number_said word.now); links = names_of said.old.links.items }) }
    ensures no { ¬ IsTrue result → ¬ (IsNumberTo (2 ^ 64 - 1) word.now × (said.old.stats ≡ None)) }
{
    if said.stats.is_some() {
        return false;
    }
    said.stats = stats_in(word);
    said.stats.is_some()
}

// Adds a link with these names. Returns whether they may be a link's.
fn read_link<'a>(
    input: &'a str,
    output: &'a str,
    said: &mut Choices<'a>,
) -> Result<bool, AllocError>
    ensures yes { result ≡ Ok true → AddsLink (names_of said.old.links.items) input.now output.now
        × (options_of said.new ≡ record { max_batch = said.old.max_batch; stats = said.old.stats; links = names_of said.old.links.items ++ (input.now, output.now) ∷ [] }) }
    ensures no { result ≡ Ok false → ¬ AddsLink (names_of said.old.links.items) input.now output.now }
{
    if said.links.len() >= MOST_LINKS
        || input == output
        || is_named(input, &said.links)
        || is_named(output, &said.links)
    {
        return Ok(false);
    }
    said.links.push(LinkNames { input, output })?;
    Ok(true)
}

// What these words, which are options, say more. Returns whether they are options.
fn read_options<'a>(words: &'a [String], said: &mut Choices<'a>) -> Result<bool, AllocError>
    ensures yes { result ≡ Ok true → SayMore (options_of said.old) (map string_bytes words.now) (options_of said.new) }
    ensures no { result ≡ Ok false → (after : LinkOptions) → ¬ SayMore (options_of said.old) (map string_bytes words.now) after }
{
    let Some((option, behind)) = words.split_first() else {
        return Ok(true);
    };
    let Some((first, rest)) = behind.split_first() else {
        return Ok(false);
    };
    let option = option.as_str();
    let first = first.as_str();
    if option == "--max-batch" {
        return if read_max_batch(first, said) {
            read_options(rest, said)
        } else {
            Ok(false)
        };
    }
    if option == "--stats" {
        return if read_stats(first, said) {
            read_options(rest, said)
        } else {
            Ok(false)
        };
    }
    if option != "--link" {
        return Ok(false);
    }
    let Some((second, rest)) = rest.split_first() else {
        return Ok(false);
    };
    if !read_link(first, second.as_str(), said)? {
        return Ok(false);
    }
    read_options(rest, said)
}

/// The links that the program's words, of which the first is its name, ask to be served, and how: none where no option names one. `None`
/// where they ask for no host. Memory can run out.
pub fn links_asked<'a>(
    alloc: Global,
    words: &'a [String],
) -> Result<Option<AskedLinks<'a>>, AllocError>
    ensures some { IfOk result (λ asked. IfSome asked (λ asked. AskLinks (map string_bytes words.now) asked.book.now asked.log.now asked.settings (names_of asked.links.items))) }
    ensures none { IfOk result (λ asked. IfNone asked (NoneAsks (map string_bytes words.now))) }
{
    if !is_command(words, "serve") || words.len() < 4 {
        return Ok(None);
    }
    let (names, behind) = words.split_at(4);
    let mut said = Choices::none(alloc);
    if !read_options(behind, &mut said)? {
        return Ok(None);
    }
    Ok(Some(AskedLinks {
        book: names[2].as_str(),
        log: names[3].as_str(),
        settings: Settings {
            max_batch: said.max_batch.unwrap_or(MaxBatch::whole_entry()),
            stats: said.stats,
        },
        links: said.links,
    }))
}
