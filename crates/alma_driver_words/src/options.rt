// The options behind the names of a request.
ghost use Rattle.std.specs.Prelude.{◌≡◌, ◌∷◌, [], ◌++◌, List, ◌↔◌, IsTrue, OnOk, MatchOption};
ghost use Rattle.alma_driver_words.specs.Words as plain;
ghost use Rattle.alma_driver_words.specs.Inner.Settings.{setting_in, list_of, IsFree, Takes, Gathers, ReadsOptions};

use crate::setting::{Setting, setting_of};
use crate::words::WordsError;
use alma_base::NoMemory;
use std::alloc::Global;

/// The number of steps of a run where the words name none.
pub const DEFAULT_STEPS: u64 = 1_000_000_000;

/// What options a command takes, beside one for steps.
#[derive(Clone, Copy)]
pub struct Allowance {
    /// Whether it takes one for statistics.
    pub stats: bool,
    /// How many names it watches at most.
    pub watches: usize,
}

/// What options come to.
#[derive(Drop)]
pub struct Options<'w> {
    pub steps: Option<u64>,
    pub stats: bool,
    pub watch: Vec<&'w str>,
}

impl<'w> Options<'w> {
    fn new(alloc: Global) -> Options<'w>
        ensures { Gathers result [] }
    {
        Options {
            steps: None,
            stats: false,
            watch: Vec::new(alloc),
        }
    }

    // Whether there is room for an option more.
    fn takes(&self, allowance: Allowance, setting: Setting<'w>) -> bool
        ensures { IsTrue result ↔ Takes allowance self.now (setting_in setting.entry) }
    {
        match setting {
            Setting::Steps(_) => self.steps.is_none(),
            Setting::Stats => allowance.stats && !self.stats,
            Setting::Watch(_) => self.watch.len() < allowance.watches,
        }
    }

    // The option that a word is, where there is room for it.
    fn next_setting(&self, allowance: Allowance, word: &'w str) -> Option<Setting<'w>>
        ensures { MatchOption result
            ((setting : plain.Setting) → plain.IsSetting word.now setting
            → Takes allowance self.now setting → ⊥)
            (λ setting. plain.IsSetting word.now (setting_in setting) × Takes allowance self.now
            (setting_in setting)) }
    {
        let setting = setting_of(word)?;
        if self.takes(allowance, setting) {
            Some(setting)
        } else {
            None
        }
    }

    // Puts in one option more.
    fn put(&mut self, setting: Setting<'w>) -> Result<(), NoMemory>
        requires { IsFree self.old (setting_in setting) }
        ensures { OnOk result ((settings : List plain.Setting) → Gathers self.old settings
            → Gathers self.new (settings ++ setting_in setting.entry ∷ [])) }
    {
        match setting {
            Setting::Steps(steps) => self.steps = Some(steps),
            Setting::Stats => self.stats = true,
            Setting::Watch(name) => self.watch.push(name)?,
        }
        Ok(())
    }

    /// The number of steps that they name, or 1,000,000,000 where they name none.
    pub fn step_limit(&self) -> u64
        ensures { result ≡ plain.steps_of (list_of self.now.steps) }
    {
        self.steps.unwrap_or(DEFAULT_STEPS)
    }
}

/// The options that words are: the third word of a request and those behind it.
pub fn read_options<'w>(
    alloc: Global,
    allowance: Allowance,
    words: &'w [String],
) -> Result<Options<'w>, WordsError>
    ensures { ReadsOptions allowance (plain.texts words.now) result }
{
    let mut options = Options::new(alloc);
    for (index, word) in words.iter().enumerate() {
        let Some(setting) = options.next_setting(allowance, word.as_str()) else {
            return Err(WordsError::Bad(index + 3));
        };
        options.put(setting)?;
    }
    Ok(options)
}
