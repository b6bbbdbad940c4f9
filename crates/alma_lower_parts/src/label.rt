// The labels of an arm of CASE.
ghost use Rattle.std.specs.Prelude.{◌≡◌, ◌+◌, ◌<◌, ◌≤◌, length, IfOk};
ghost use Rattle.alma_lower_templates.specs.Pieces as pieces;
ghost use Rattle.alma_lower_work.specs.Front.{front};
ghost use Rattle.alma_lower_work.specs.Puts.{all_labels, behind_all};
ghost use Rattle.alma_lower_parts.specs.Labels.{PutsLabels};

use crate::case::{Labels, Miss, put_label, put_label_test};
use alma_base::{NoMemory, Range};
use alma_lower_work::Work;

/// The labels of an arm: the code goes on where the number lies in one of them, and else by the
/// jumps of the last. Where there is none this is NoMemory; no arm without a label comes here.
pub fn put_labels(
    work: &mut Work,
    line: u32,
    labels: Labels,
    ranges: &[Range],
) -> Result<Miss, NoMemory>
    ensures some { IfOk result (λ miss. 0 < length ranges.now) }
    ensures holes { labels.test ≡ labels.bound + 1 → IfOk result (λ miss.
        PutsLabels (front work.old) (front work.new) line miss.low miss.high
        (λ none at. all_labels labels.value labels.bound at (behind_all at ranges.now) none
        ranges.now)) }
{
    if ranges.is_empty() {
        return Err(NoMemory);
    }
    let last = ranges.len() - 1;
    let at = work.here()?;
    let hit = behind_labels(at, ranges)?;
    for i in 0..last {
        put_label(work, line, labels, hit, ranges[i])?;
    }
    put_label_test(work, line, labels, ranges[last])
}

// The address behind labels that stand at an address, of which there is one: each but the last ends
// with a jump.
fn behind_labels(at: u32, ranges: &[Range]) -> Result<u32, NoMemory>
    ensures { 0 < length ranges.now → IfOk result (λ hit. hit ≡ behind_all at ranges.now) }
{
    if ranges.is_empty() {
        return Err(NoMemory);
    }
    let last = ranges.len() - 1;
    let mut next = at;
    for i in 0..last {
        next = behind(next, test_size(ranges[i]) + 1)?;
    }
    behind(next, test_size(ranges[last]))
}

// The address so far behind another.
fn behind(at: u32, count: u32) -> Result<u32, NoMemory>
    ensures { IfOk result (λ next. next ≡ at + count) }
{
    at.checked_add(count).ok_or(NoMemory)
}

// How many instructions test a label.
fn test_size(label: Range) -> u32
    ensures size { result ≡ pieces.test_size label }
    ensures small { result ≤ 6 }
{
    if label.low == label.high { 3 } else { 6 }
}
