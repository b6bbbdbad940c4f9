// Options, one by one.
ghost use Rattle.std.specs.Prelude.{ℕ, List, ◌↔◌, IsTrue, MatchOption};
ghost use Rattle.alma_driver_words.specs.Words as plain;
ghost use Rattle.alma_driver_words.specs.Inner.Settings.{setting_in};

use crate::number::named_steps;
use alma_scan::Scanner;
use alma_tree::Kind;

/// An option behind the names of a request.
#[derive(Clone, Copy)]
pub enum Setting<'w> {
    /// `--steps=N`
    Steps(u64),
    /// `--stats`
    Stats,
    /// `--watch=NAME`
    Watch(&'w str),
}

/// Whether a text is one name of the language, and no reserved word.
pub fn is_name(word: &[u8]) -> bool
    ensures { IsTrue result ↔ plain.IsName word.now }
{
    let mut scanner = Scanner::new(word);
    match scanner.next() {
        Ok(Some(token)) => matches!(token.kind, Kind::Name) && token.text.len() == word.len(),
        Ok(None) => false,
        Err(_) => false,
    }
}

/// The number of steps that an option gives.
pub fn steps_option(word: &str) -> Option<u64>
    ensures { MatchOption result ((steps : ℕ) → plain.IsSetting word.now (plain.Steps steps) → ⊥)
        (λ steps. plain.IsSetting word.now (plain.Steps steps)) }
{
    named_steps(word.strip_prefix("--steps=")?)
}

// The name that an option watches.
fn watch_option(word: &str) -> Option<&str>
    ensures { MatchOption result ((name : List ℕ) → plain.IsSetting word.now (plain.Watch name) → ⊥)
        (λ name. plain.IsSetting word.now (plain.Watch name.now)) }
{
    let name = word.strip_prefix("--watch=")?;
    if is_name(name.as_bytes()) {
        Some(name)
    } else {
        None
    }
}

/// The option that a word is.
pub fn setting_of(word: &str) -> Option<Setting<'_>>
    ensures { MatchOption result
        ((setting : plain.Setting) → plain.IsSetting word.now setting → ⊥)
        (λ setting. plain.IsSetting word.now (setting_in setting)) }
{
    if let Some(steps) = steps_option(word) {
        return Some(Setting::Steps(steps));
    }
    if let Some(name) = watch_option(word) {
        return Some(Setting::Watch(name));
    }
    if word == "--stats" {
        Some(Setting::Stats)
    } else {
        None
    }
}
