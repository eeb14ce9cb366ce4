//! The words that say how a host is to serve.

ghost use Rattle.std.specs.Prelude.{◌≡◌, ◌+◌, ◌<◌, ◌≤◌, ◌-◌, ◌^◌, ℕ, IfSome, IfNone, OnSome, length, map, string_bytes};
ghost use Rattle.std.specs.Option.{SomeIff};
ghost use Rattle.app_words.specs.Numbers.{number_said};
ghost use Rattle.host_commands.specs.Settings.{IsNumberTo, SaySettings, SaysMaxBatch, SaysStats};
ghost use Rattle.host_commands.specs.declared.settings.Settings.{Settings as Said};

use crate::settings::Settings;
use app_words::is_word;
use host_serving::{MaxBatch, StatsInterval};

// How many frames a word says.
pub(crate) fn max_batch_in(word: &str) -> Option<MaxBatch>
    ensures { SomeIff result (IsNumberTo 65536 word.now) (number_said word.now) }
{
    match word.parse::<u32>() {
        Ok(count) => MaxBatch::new(count),
        Err(_) => None,
    }
}

// How many bodies a word says.
pub(crate) fn stats_in(word: &str) -> Option<StatsInterval>
    ensures { SomeIff result (IsNumberTo (2 ^ 64 - 1) word.now) (number_said word.now) }
{
    match word.parse::<u64>() {
        Ok(bodies) => StatsInterval::new(bodies),
        Err(_) => None,
    }
}

// How many frames are served in one turn, at most, if the two words from this place on say it.
fn max_batch_at(words: &[String], place: usize) -> Option<MaxBatch>
    requires { place + 1 < length words.now }
    ensures some { IfSome result (SaysMaxBatch (map string_bytes words.now) place) }
    ensures none { IfNone result ((most : ℕ) → ¬ SaysMaxBatch (map string_bytes words.now) place most) }
{
    if !is_word(words, place, "--max-batch") {
        return None;
    }
    max_batch_in(words[place + 1].as_str())
}

// After how many bodies it is told how it goes, if the two words from this place on say it.
fn stats_at(words: &[String], place: usize) -> Option<StatsInterval>
    requires { place + 1 < length words.now }
    ensures some { IfSome result (SaysStats (map string_bytes words.now) place) }
    ensures none { IfNone result ((every : ℕ) → ¬ SaysStats (map string_bytes words.now) place every) }
{
    if !is_word(words, place, "--stats") {
        return None;
    }
    stats_in(words[place + 1].as_str())
}

// The settings that two words behind the names of the files say.
#[tactic(auto, using(crate::proofs::SettingWords::none_of_six))]
fn one_setting(words: &[String]) -> Option<Settings>
    requires { length words.now ≡ 6 }
    ensures some { IfSome result (SaySettings (map string_bytes words.now)) }
    ensures none { IfNone result ((settings : Said) → ¬ SaySettings (map string_bytes words.now) settings) }
{
    let plain = Settings::plain();
    if let Some(max_batch) = max_batch_at(words, 4) {
        return Some(Settings { max_batch, ..plain });
    }
    let every = stats_at(words, 4)?;
    Some(Settings {
        stats: Some(every),
        ..plain
    })
}

// The settings that four words behind the names of the files say.
#[tactic(auto, using(crate::proofs::SettingWords::none_of_eight, crate::proofs::SettingWords::not_both))]
fn two_settings(words: &[String]) -> Option<Settings>
    requires { length words.now ≡ 8 }
    ensures some { IfSome result (SaySettings (map string_bytes words.now)) }
    ensures none { IfNone result ((settings : Said) → ¬ SaySettings (map string_bytes words.now) settings) }
{
    if let Some(max_batch) = max_batch_at(words, 4) {
        let stats = Some(stats_at(words, 6)?);
        return Some(Settings { max_batch, stats });
    }
    let stats = Some(stats_at(words, 4)?);
    let max_batch = max_batch_at(words, 6)?;
    Some(Settings { max_batch, stats })
}

/// The settings that the words behind the names of the files say, if they do.
#[tactic(auto, using(crate::proofs::SettingWords::none_of_others))]
pub(crate) fn settings_in(words: &[String]) -> Option<Settings>
    ensures some { IfSome result (SaySettings (map string_bytes words.now)) }
    ensures room { OnSome result (4 ≤ length words.now) }
    ensures none { IfNone result ((settings : Said) → ¬ SaySettings (map string_bytes words.now) settings) }
{
    match words.len() {
        4 => Some(Settings::plain()),
        6 => one_setting(words),
        8 => two_settings(words),
        _ => None,
    }
}
