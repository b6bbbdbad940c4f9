// The first broken rule.
ghost use Rattle.std.specs.Prelude.{◌≡◌, ◌≤◌, ◌<◌, ◌-◌, MatchResult, true, false, length, get_or};
ghost use Rattle.alma_base.specs.Limits.{record_limit};
ghost use Rattle.alma_code.specs.Plain.{head_at, start_at, end_at};
ghost use Rattle.alma_code.specs.Records.{KeepsCounts};
ghost use Rattle.alma_code.specs.declared.instr.Instr.TheVariants as I;
ghost use Rattle.alma_verify.specs.Seen.{AreFit};
ghost use Rattle.alma_code.specs.Rules.{IsTable, instr_fault as instr_fault_spec, instrs_fault as instrs_fault_spec, routine_fault as routine_fault_spec, code_fault as code_fault_spec};
ghost use Rattle.alma_base.specs.FirstFault.{TellsFault};
ghost use Rattle.alma_verify.specs.Routines.{HasRoutine};

use crate::heads::{rule_1, rule_2, rule_3};
use crate::reader::CodeReader;
use crate::rules::{rule_4, rule_5, rule_6, rule_7, rule_8, rule_9, rule_10, rule_11, rule_12};
use crate::seen::SeenCalls;
use crate::slots::start_of;
use alma_code::VerifyFault;

// What a rule that holds or not says of a routine or an address.
fn keeps(holds: bool, rule: u8, at: u32) -> Result<(), VerifyFault>
    ensures { MatchResult result (λ _. holds ≡ true)
        (λ fault. (holds ≡ false) × (fault ≡ (record { rule = rule; at = at }))) }
{
    if holds {
        Ok(())
    } else {
        Err(VerifyFault { rule, at })
    }
}

// The least broken rule of the instruction at an address of a routine.
#[tactic(auto, unfolding(alma_code::specs::Rules::instr_fault))]
fn instr_fault<R: CodeReader>(
    reader: &R,
    routine: u32,
    at: u32,
    seen: &mut SeenCalls,
) -> Result<(), VerifyFault>
    requires routine { HasRoutine (R.code reader.now) routine }
    requires at { at < length (R.code reader.now).instrs }
    requires seen { AreFit (R.code reader.now) seen.old }
    ensures seen { AreFit (R.code reader.now) seen.new }
    ensures fault { TellsFault (instr_fault_spec (R.code reader.now) routine at
        (get_or (R.code reader.now).instrs at I.Fail)) result }
{
    let instr = reader.instr(at);
    keeps(rule_4(reader, routine, instr), 4, at)?;
    keeps(rule_5(reader, routine, instr), 5, at)?;
    keeps(rule_6(reader, routine, instr), 6, at)?;
    keeps(rule_7(reader, routine, instr), 7, at)?;
    keeps(rule_8(reader, instr), 8, at)?;
    keeps(rule_9(reader, routine, instr), 9, at)?;
    keeps(rule_10(reader, routine, at, instr, seen), 10, at)?;
    keeps(rule_11(reader, routine, at, instr), 11, at)?;
    keeps(rule_12(reader, routine, instr), 12, at)
}

// The least broken rule, with its address, of the first instruction that breaks one. Only those
// from `start` on are looked at, up to `end` and without it.
#[tactic(auto, using(crate::proofs::Starts::fault_steps))]
fn instrs_fault<R: CodeReader>(
    reader: &R,
    routine: u32,
    start: u32,
    end: u32,
    seen: &mut SeenCalls,
) -> Result<(), VerifyFault>
    requires routine { HasRoutine (R.code reader.now) routine }
    requires order { start ≤ end }
    requires end { end ≤ length (R.code reader.now).instrs }
    requires seen { AreFit (R.code reader.now) seen.old }
    ensures seen { AreFit (R.code reader.now) seen.new }
    ensures fault { TellsFault (instrs_fault_spec (R.code reader.now) routine start (end - start))
        result }
{
    for at in start..end {
        instr_fault(reader, routine, at, seen)?;
    }
    Ok(())
}

// The first fault of a routine: rules 1 to 3 of its head, reported with its number, and then its
// instructions in order, reported with the address.
#[tactic(auto, unfolding(alma_code::specs::Rules::routine_fault))]
fn routine_fault<R: CodeReader>(
    reader: &R,
    routine: u32,
    seen: &mut SeenCalls,
) -> Result<(), VerifyFault>
    requires routine { HasRoutine (R.code reader.now) routine }
    requires few { length (head_at (R.code reader.now) routine).params ≤ record_limit }
    requires order { start_at (R.code reader.now) routine ≤ end_at (R.code reader.now) routine }
    requires end { end_at (R.code reader.now) routine ≤ length (R.code reader.now).instrs }
    requires seen { AreFit (R.code reader.now) seen.old }
    ensures seen { AreFit (R.code reader.now) seen.new }
    ensures fault { TellsFault (routine_fault_spec (R.code reader.now) routine) result }
{
    keeps(rule_1(reader, routine), 1, routine)?;
    keeps(rule_2(reader, routine), 2, routine)?;
    keeps(rule_3(reader, routine), 3, routine)?;
    instrs_fault(
        reader,
        routine,
        start_of(reader, routine),
        reader.code_end(routine),
        seen,
    )
}

/// The first broken rule of the code.
#[tactic(auto, using(crate::proofs::Starts::fault_steps, alma_code::proofs::Tables::tables))]
pub fn code_fault<R: CodeReader>(reader: &R) -> Result<(), VerifyFault>
    requires table { IsTable (R.code reader.now) }
    requires counts { KeepsCounts (R.code reader.now) }
    ensures { TellsFault (code_fault_spec (R.code reader.now)) result }
{
    let mut seen = SeenCalls::none();
    for routine in 0..reader.routine_count() {
        routine_fault(reader, routine, &mut seen)?;
    }
    Ok(())
}
