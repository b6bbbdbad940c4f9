// The ranges and the texts of a code, each with its number.
ghost use Rattle.std.specs.Prelude.{◌≡◌, ◌<◌, [], map, slice_get, Some, IfOk, OnOk};
ghost use Rattle.alma_lower_templates.specs.Tables.{range_number, text_number, same_range, same_text};
ghost use Rattle.alma_lower_tables.specs.Numbers.{text_of, tables_of, Extends, with_entry};

use alma_base::{NoMemory, RECORD_LIMIT, Range};
use indexmap::IndexSet;
use std::alloc::Global;

/// The ranges and the texts of a code, each once. A number is the place of its range or text; of
/// one that has none it is their count.
#[derive(Drop)]
pub struct Numbers {
    pub ranges: IndexSet<(i64, i64)>,
    pub texts: IndexSet<Vec<u8>>,
}

impl Numbers {
    /// No ranges and no texts.
    pub fn new(alloc: Global) -> Numbers
        ensures ranges { (tables_of result).ranges ≡ [] }
        ensures texts { (tables_of result).texts ≡ [] }
    {
        Numbers {
            ranges: IndexSet::new(alloc),
            texts: IndexSet::new(alloc),
        }
    }

    /// The number of a range. Past the limit of records this is NoMemory.
    pub fn range_number(&self, range: Range) -> Result<u32, NoMemory>
        ensures number { IfOk result (λ n. n ≡ range_number (tables_of self.now) range) }
    {
        let ends = (range.low, range.high);
        match self.ranges.get_index_of(&ends) {
            Some(place) => number_of(place),
            None => number_of(self.ranges.len()),
        }
    }

    /// The number of a text. Past the limit of records this is NoMemory.
    pub fn text_number(&self, text: &[u8]) -> Result<u32, NoMemory>
        ensures number { IfOk result (λ n. n ≡ text_number (tables_of self.now) text.now) }
    {
        match self.texts.get_index_of(text) {
            Some(place) => number_of(place),
            None => number_of(self.texts.len()),
        }
    }

    /// Gives a range a number, where it has none.
    pub fn add_range(&mut self, range: Range) -> Result<(), NoMemory>
        ensures held { OnOk result (slice_get (tables_of self.new).ranges
            (range_number (tables_of self.new) range) ≡ Some range) }
        ensures extends { OnOk result (Extends (tables_of self.old) (tables_of self.new)) }
        ensures ranges { OnOk result ((tables_of self.new).ranges ≡ with_entry same_range
            (tables_of self.old).ranges range) }
        ensures texts { OnOk result ((tables_of self.new).texts ≡ (tables_of self.old).texts) }
    {
        self.ranges.insert((range.low, range.high))?;
        Ok(())
    }

    /// Gives a text a number, where it has none.
    pub fn add_text(&mut self, alloc: Global, text: &[u8]) -> Result<(), NoMemory>
        ensures held { OnOk result (slice_get (tables_of self.new).texts
            (text_number (tables_of self.new) text.now) ≡ Some text.now) }
        ensures extends { OnOk result (Extends (tables_of self.old) (tables_of self.new)) }
        ensures ranges { OnOk result ((tables_of self.new).ranges ≡ (tables_of self.old).ranges) }
        ensures texts { OnOk result ((tables_of self.new).texts ≡ with_entry same_text
            (tables_of self.old).texts text.now) }
    {
        self.texts.insert(text.to_vec(alloc)?)?;
        Ok(())
    }

    /// The ranges in order.
    pub fn all_ranges(&self, alloc: Global) -> Result<Vec<Range>, NoMemory>
        ensures { IfOk result (λ ranges. ranges.items ≡ (tables_of self.now).ranges) }
    {
        let mut ranges = Vec::new(alloc);
        for ends in &self.ranges {
            ranges.push(Range {
                low: ends.0,
                high: ends.1,
            })?;
        }
        Ok(ranges)
    }

    /// The texts in order.
    pub fn all_texts(&self, alloc: Global) -> Result<Vec<Vec<u8>>, NoMemory>
        ensures { IfOk result (λ texts. map text_of texts.items ≡ (tables_of self.now).texts) }
    {
        let mut texts = Vec::new(alloc);
        for text in &self.texts {
            texts.push(text.to_vec(alloc)?)?;
        }
        Ok(texts)
    }
}

// A place as a number of a code.
fn number_of(place: usize) -> Result<u32, NoMemory>
    ensures { IfOk result (λ n. n ≡ place) }
{
    if place > RECORD_LIMIT as usize {
        return Err(NoMemory);
    }
    Ok(place as u32)
}
