// Files in memory.
ghost use Rattle.std.specs.Prelude.{◌≡◌, ◌≢◌, ◌<◌, ◌^◌, ◌↔◌, List, ℕ, None, Some, IfOk, OnOk, OnErr, IsErrOf, MatchOption};
ghost use Rattle.std.specs.FinMap as map;
ghost use Rattle.alma_io.specs.Files.{MayPass, IsFetched, IsStored};
ghost use Rattle.alma_io.specs.Memory.{told_by, FailsNext, after_fetch, after_store};
ghost use Rattle.alma_io.specs.Named.{named_bytes};
ghost use Rattle.alma_io.specs.Sides.{for_all_names};

use crate::memory::schedule::Schedule;
use crate::{Fetch, Files, StoreFault};
use alma_base::NoMemory;
use std::alloc::Global;
use std::collections::BTreeMap;
use std::marker::Model;

/// Sets a file.
#[tactic(auto, using(std::proofs::lemmas::Map::Text::text_keys))]
fn set_file(
    alloc: Global,
    files: &mut BTreeMap<String, Vec<u8>>,
    name: &str,
    bytes: &[u8],
) -> Result<(), NoMemory>
    ensures ok { OnOk result (named_bytes files.new ≡ map.insert
        (named_bytes files.old) name.now bytes.now) }
    ensures err { OnErr result (named_bytes files.new ≡ named_bytes files.old) }
{
    let key = String::from_str(alloc, name)?;
    let value = Vec::from_slice(alloc, bytes)?;
    files.insert(key, value)?;
    Ok(())
}

/// Finds a file.
fn find_file<'f>(files: &'f BTreeMap<String, Vec<u8>>, name: &str) -> Option<&'f [u8]>
    ensures { MatchOption result (map.get (named_bytes files.now) name.now ≡ None)
        (λ bytes. map.get (named_bytes files.now) name.now ≡ Some bytes.now) }
{
    match files.get(name) {
        Some(bytes) => Some(bytes),
        None => None,
    }
}

/// Files in memory, whose calls fail as a list says.
#[derive(Drop)]
pub struct MemFiles {
    files: BTreeMap<String, Vec<u8>>,
    schedule: Schedule,
    fetch_faults: u64,
    store_faults: u64,
}

impl Model for MemFiles {
    ghost use Rattle.alma_io.specs.Memory.{FilesState, files_code};
    ghost use Rattle.alma_io.specs.Named.{named_bytes};
    ghost use Rattle.alma_io.specs.Sides.{for_all_names};

    ghost Value = { FilesState };

    ghost coded = { files_code };

    ghost view = { λ f. record { files = named_bytes f.files; schedule = f.schedule; fetch_faults = f.fetch_faults; store_faults = f.store_faults } };
}

impl MemFiles {
    /// No files. `fails` lists the calls, from 1, that fail.
    pub fn new(alloc: Global, fails: &[u64]) -> Result<MemFiles, NoMemory>
        ensures { IfOk result (λ files. files ≡ record {
          files = map.empty;
          schedule = record { fails = fails.now; calls = 0 };
          fetch_faults = 0;
          store_faults = 0;
        }) }
    {
        Ok(MemFiles {
            files: BTreeMap::new(alloc),
            schedule: Schedule::new(alloc, fails)?,
            fetch_faults: 0,
            store_faults: 0,
        })
    }

    /// Sets a file, and counts no call.
    pub fn put(&mut self, alloc: Global, name: &str, bytes: &[u8]) -> Result<(), NoMemory>
        ensures ok { OnOk result (self.new ≡ record self.old
            { files = map.insert self.old.files name.now bytes.now }) }
        ensures err { OnErr result (self.new ≡ self.old) }
    {
        set_file(alloc, &mut self.files, name, bytes)
    }

    /// The bytes of a file, and None where no file has the name.
    pub fn get(&self, name: &str) -> Option<&[u8]>
        ensures { MatchOption result (map.get self.now.files name.now ≡ None)
            (λ bytes. map.get self.now.files name.now ≡ Some bytes.now) }
    {
        find_file(&self.files, name)
    }
}

impl Files for MemFiles {
    ghost side = { λ f. record {
      told = λ name. told_by (map.get f.files name);
      fetch_faults = for_all_names f.fetch_faults;
      store_faults = f.store_faults;
    } };

    fn fetch(&mut self, alloc: Global, name: &str, limit: usize) -> Result<Vec<u8>, Fetch>
        requires { limit < 2 ^ 62 }
        ensures same { (other : List ℕ) → told_by (map.get self.new.files other) ≡ told_by
            (map.get self.old.files other) }
        ensures answer { IsFetched (told_by (map.get self.old.files name.now)) name.now limit
            (for_all_names self.old.fetch_faults) (for_all_names self.new.fetch_faults) result }
        ensures store_count { self.new.store_faults ≡ self.old.store_faults }

        // Which calls fail, and what stays.
        ensures fails { IsErrOf result Fetch.Failed ↔ FailsNext self.old.schedule }
        ensures absent { IsErrOf result Fetch.Absent ↔ (¬ FailsNext self.old.schedule
            × (map.get self.old.files name.now ≡ None)) }
        ensures too_long { IsErrOf result Fetch.TooLong ↔ (¬ FailsNext self.old.schedule
            × MayPass (told_by (map.get self.old.files name.now)) limit) }
        ensures after { self.new ≡ after_fetch self.old result }
    {
        if self.schedule.fails_next() {
            self.fetch_faults = self.fetch_faults.saturating_add(1);
            return Err(Fetch::Failed);
        }
        let Some(bytes) = find_file(&self.files, name) else {
            return Err(Fetch::Absent);
        };
        if bytes.len() > limit {
            return Err(Fetch::TooLong);
        }
        match Vec::from_slice(alloc, bytes) {
            Ok(copy) => Ok(copy),
            Err(_) => Err(Fetch::Memory),
        }
    }

    fn store(&mut self, alloc: Global, name: &str, bytes: &[u8]) -> Result<(), StoreFault>
        ensures others { (other : List ℕ) → other ≢ name.now →
            told_by (map.get self.new.files other) ≡ told_by (map.get self.old.files other) }
        ensures fetch_count { for_all_names self.new.fetch_faults
            ≡ for_all_names self.old.fetch_faults }
        ensures answer { IsStored (told_by (map.get self.old.files name.now))
            (told_by (map.get self.new.files name.now))
            bytes.now self.old.store_faults self.new.store_faults result }

        // Which calls fail, and what the files are then. A store that fails changes no file.
        ensures fails { IsErrOf result StoreFault.Failed ↔ FailsNext self.old.schedule }
        ensures after { self.new ≡ after_store self.old name.now bytes.now result }
    {
        if self.schedule.fails_next() {
            self.store_faults = self.store_faults.saturating_add(1);
            return Err(StoreFault::Failed);
        }
        match set_file(alloc, &mut self.files, name, bytes) {
            Ok(()) => Ok(()),
            Err(NoMemory) => Err(StoreFault::Memory),
        }
    }
}
