// Whether the arguments of two calls are of the same kinds, compared by runs.
ghost use Rattle.std.specs.Prelude.{◌^◌, ◌≡◌, ◌+◌, ◌<◌, length, true};
ghost use Rattle.alma_code.specs.Rules.{IsTable};
ghost use Rattle.alma_verify.specs.Seen.{AreAlike};

use crate::reader::CodeReader;
use crate::seen::SeenCall;

// How many turns a comparison has, of which each passes at least one run of one of the callers.
const TURNS: u32 = 8;

// How many slots more have one kind in both calls, behind so many; 0 where the next two differ, or
// one is not there.
fn alike_behind<R: CodeReader>(reader: &R, one: SeenCall, other: SeenCall, passed: u64) -> u64
    requires one { one.caller < length (R.code reader.now).routines }
    requires other { other.caller < length (R.code reader.now).routines }
    requires table { IsTable (R.code reader.now) }
    requires passed { passed < 2 ^ 32 }
    ensures few { result < 2 ^ 32 }
    ensures alike { AreAlike (R.code reader.now) one.caller (one.first + passed) other.caller
        (other.first + passed) result }
{
    let slot = u64::from(one.first) + passed;
    let other_slot = u64::from(other.first) + passed;
    let Some(run) = reader.run_over(one.caller, slot) else {
        return 0;
    };
    let Some(other_run) = reader.run_over(other.caller, other_slot) else {
        return 0;
    };
    if run.kind != other_run.kind {
        return 0;
    }
    let left = u64::from(run.end) - slot;
    let other_left = u64::from(other_run.end) - other_slot;
    left.min(other_left)
}

/// Whether the first so many arguments of two calls are of the same kinds. It says no, too, where
/// the turns do not suffice.
#[tactic(auto, using(crate::proofs::SameKinds::joins))]
pub fn are_alike<R: CodeReader>(reader: &R, one: SeenCall, other: SeenCall, count: u32) -> bool
    requires one { one.caller < length (R.code reader.now).routines }
    requires other { other.caller < length (R.code reader.now).routines }
    requires table { IsTable (R.code reader.now) }
    ensures { result ≡ true → AreAlike (R.code reader.now) one.caller one.first other.caller
        other.first count }
{
    let mut passed = 0;
    'turn: for _ in 0..TURNS {
        if passed >= u64::from(count) {
            return true;
        }
        let more = alike_behind(reader, one, other, passed);
        if more == 0 {
            return false;
        }
        passed += more;
    }
    passed >= u64::from(count)
}
