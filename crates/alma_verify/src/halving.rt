// The run over a slot.
ghost use Rattle.std.specs.Prelude.{◌≡◌, ◌<◌, ◌+◌, ◌-◌, ℕ, MatchOption, None, length, slice_get};
ghost use Rattle.alma_code.specs.Layout.{kinds_of};
ghost use Rattle.alma_code.specs.Rules.{last_end};
ghost use Rattle.alma_verify.specs.Runs.{Covers, HasRisingRuns, Passes};

use alma_code::{Head, Run, SlotKind};

// Where the last run ends.
fn end_of_runs<H: Head>(head: &H) -> u32
    ensures { result ≡ last_end 0 (H.head head.now).runs }
{
    let count = head.run_count();
    if count == 0 {
        return 0;
    }
    head.run(count - 1).end
}

// How many runs end before a slot at the least, since each run behind has a slot.
fn earliest(count: u32, slot: u64, end: u64) -> u32
    requires { slot < end }
    ensures { result ≡ (slot + count) - end }
{
    let behind = end - slot;
    if behind < u64::from(count) {
        count - behind as u32
    } else {
        0
    }
}

// How many runs end before a slot at the most, since each of them has a slot.
fn latest(count: u32, slot: u64) -> u32
    ensures { result ≡ count - (count - slot) }
{
    if slot < u64::from(count) {
        slot as u32
    } else {
        count
    }
}

/// How many runs end at or before a slot, by halving those that the counts of runs and of slots
/// leave.
pub fn passed_runs<H: Head>(head: &H, slot: u64) -> u32
    requires rise { HasRisingRuns (H.head head.now) }
    ensures { Passes (H.head head.now).runs slot result }
{
    let count = head.run_count();
    let end = u64::from(end_of_runs(head));
    if slot >= end {
        return count;
    }
    let mut low = earliest(count, slot, end);
    let mut high = latest(count, slot);
    'halve: while low < high {
        let middle = low + (high - low) / 2;
        if slot < u64::from(head.run(middle).end) {
            high = middle;
        } else {
            low = middle + 1;
        }
    }
    low
}

// The run behind those that end at or before a slot.
fn covering<H: Head>(head: &H, passed: u32) -> Run
    requires rise { HasRisingRuns (H.head head.now) }
    requires some { passed < length (H.head head.now).runs }
    ensures { (slot : ℕ) → Passes (H.head head.now).runs slot passed
        → Covers (kinds_of 0 (H.head head.now).runs) slot result }
{
    head.run(passed)
}

/// The run over a slot.
pub fn run_at<H: Head>(head: &H, slot: u64) -> Option<Run>
    requires rise { HasRisingRuns (H.head head.now) }
    ensures { MatchOption result (slice_get (kinds_of 0 (H.head head.now).runs) slot ≡ None)
        (λ run. Covers (kinds_of 0 (H.head head.now).runs) slot run) }
{
    let count = head.run_count();
    let passed = passed_runs(head, slot);
    if passed >= count {
        return None;
    }
    Some(covering(head, passed))
}

/// The kind of the slot before which so many runs end.
pub fn kind_behind<H: Head>(head: &H, passed: u32) -> Option<SlotKind>
    requires rise { HasRisingRuns (H.head head.now) }
    ensures { (slot : ℕ) → Passes (H.head head.now).runs slot passed
        → result ≡ slice_get (kinds_of 0 (H.head head.now).runs) slot }
{
    let count = head.run_count();
    if passed >= count {
        return None;
    }
    Some(head.run(passed).kind)
}

/// How many runs end at or before the slot first + k + 1, of which so many do at or before the slot
/// first + k.
pub fn next_passed<H: Head>(head: &H, first: u32, k: u32, passed: u32) -> u32
    requires rise { HasRisingRuns (H.head head.now) }
    requires passes { Passes (H.head head.now).runs (first + k) passed }
    ensures { Passes (H.head head.now).runs (first + (k + 1)) result }
{
    let count = head.run_count();
    if passed >= count {
        return passed;
    }
    let next = u64::from(first) + u64::from(k) + 1;
    let end = u64::from(head.run(passed).end);
    if next < end {
        return passed;
    }
    passed + 1
}
