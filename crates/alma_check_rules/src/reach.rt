// How far spans reach, by where they begin.
ghost use Rattle.std.specs.Prelude.{OnOk, false, Some, None};
ghost use Rattle.alma_check_rules.specs.Reach.{Rises, RisesBut, Covers, Keeps, IsEndUpTo, IsReached, IsNextWithin, IsTopped};

use std::alloc::AllocError;
use std::collections::BTreeMap;
use std::ops::Bound;

// The furthest end of those that begin at `low` or before.
fn end_up_to(ends: &BTreeMap<(u32, i64), i64>, base: u32, low: i64) -> Option<i64>
    requires { Rises ends.now }
    ensures { IsEndUpTo ends.now base low result }
{
    match ends.range(..=(base, low)).next_back() {
        None => None,
        Some((start, end)) => { if start.0 == base { Some(*end) } else { None } }
    }
}

/// Whether one of this base begins at `low` or before, and reaches to `high` or further.
pub fn is_reached(ends: &BTreeMap<(u32, i64), i64>, base: u32, low: i64, high: i64) -> bool
    requires { Rises ends.now }
    ensures { IsReached ends.now base low high result }
{
    match end_up_to(ends, base, low) {
        None => false,
        Some(end) => high <= end,
    }
}

// The next that begins behind `low`, where it reaches no further than `high`.
fn next_within(ends: &BTreeMap<(u32, i64), i64>, base: u32, low: i64, high: i64) -> Option<i64>
    requires { RisesBut ends.now base low }
    ensures { IsNextWithin ends.now base low high result }
{
    let behind = (Bound::Excluded((base, low)), Bound::Unbounded);
    match ends.range(behind).next() {
        None => None,
        Some((start, end)) => {
            if start.0 != base {
                return None;
            }
            if *end > high {
                return None;
            }
            Some(start.1)
        }
    }
}

// Drops those that begin behind `low` and reach no further than `high`.
fn drop_within(ends: &mut BTreeMap<(u32, i64), i64>, base: u32, low: i64, high: i64)
    requires { IsTopped ends.old base low high }
    ensures topped { IsTopped ends.new base low high }
    ensures rises { Rises ends.new }
    ensures keeps { Keeps ends.old ends.new }
{
    while let Some(start) = next_within(ends, base, low, high) {
        ends.remove(&(base, start));
    }
}

/// Notes one that begins at `low` and reaches to `high`.
pub fn note_end(
    ends: &mut BTreeMap<(u32, i64), i64>,
    base: u32,
    low: i64,
    high: i64,
) -> Result<(), AllocError>
    requires { Rises ends.old }
    ensures rises { Rises ends.new }
    ensures keeps { Keeps ends.old ends.new }
    ensures covers { OnOk result (Covers ends.new base low high) }
{
    if is_reached(ends, base, low, high) {
        return Ok(());
    }
    ends.insert((base, low), high)?;
    drop_within(ends, base, low, high);
    Ok(())
}
