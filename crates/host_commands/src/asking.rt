ghost use Rattle.std.specs.Prelude.{IfSome, IfNone, OnSome, codes, map, string_bytes};
ghost use Rattle.app_words.specs.Words.{IsCommand};
ghost use Rattle.host_commands.specs.HostAsked.{IsAskedBy};

use crate::settings::Settings;
use crate::settings_words::settings_in;
use app_words::{asks_help, is_command};

/// What words ask of a live host.
#[derive(Clone, Copy)]
pub enum HostAsked<'a> {
    /// To serve, on the book of the first file, with the log in the second, by these settings.
    Serve(&'a str, &'a str, Settings),
    /// What `serve` takes.
    Help,
    /// Nothing: they begin with `serve` and don't go on so.
    Wrong,
}

/// What the program's words, of which the first is its name, ask of a live host. `None` where they don't ask it.
pub fn host_asked(words: &[String]) -> Option<HostAsked<'_>>
    ensures serve { OnSome result (IsCommand (codes "serve") (map string_bytes words.now)) }
    ensures asked { IfSome result (IsAskedBy (map string_bytes words.now)) }
    ensures none { IfNone result (¬ IsCommand (codes "serve") (map string_bytes words.now)) }
{
    if is_command(words, "serve") {
        Some(asked_behind(words))
    } else {
        None
    }
}

// What is asked by words of which the second is `serve`.
fn asked_behind(words: &[String]) -> HostAsked<'_>
    ensures { IsAskedBy (map string_bytes words.now) result }
{
    if let Some(settings) = settings_in(words) {
        return HostAsked::Serve(words[2].as_str(), words[3].as_str(), settings);
    }
    if asks_help(words) {
        return HostAsked::Help;
    }
    HostAsked::Wrong
}
