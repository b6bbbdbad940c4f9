// Steps that are made at once, one after another: those of instructions that come often, with
// nothing to tell. The first step that is another is left to the whole machine.
ghost use Rattle.std.specs.Prelude.{◌≡◌, ◌+◌, ◌^◌, ◌<◌, ◌≤◌, []};
ghost use Rattle.alma_code.specs.Machine.{Going, step, after, prints};
ghost use Rattle.alma_machine.specs.Quick.{StepsQuickly};
ghost use Rattle.alma_machine.specs.Stands.{Stands};
ghost use Rattle.alma_machine.specs.View.{run_state};

use crate::quick_cells::pop_quickly;
use crate::quick_record::act_quickly;
use alma_machine_acts::{CodeView, Mode, Registers};
use alma_memory::Memory;

// The next instruction, if it is one that is made at once.
#[inline(always)]
#[tactic(auto, using(crate::proofs::Stepping::taken))]
fn take_quickly<V: CodeView>(registers: &mut Registers<Memory>, view: &V, input: &[u8]) -> bool
    requires keeps { Stands (V.code view.now) (run_state registers.old) }
    requires going { (run_state registers.old).mode ≡ Going }
    requires few { registers.old.steps + 1 < 2 ^ 63 }
    ensures { StepsQuickly result (run_state registers.old) (run_state registers.new)
        (step (V.code view.now) input.now (run_state registers.old)) }
{
    // The count bounds `at + 1`: it is a u32, and `at` is below it.
    let _count = view.code_count();
    let (at, last) = (registers.at, registers.last);
    let record = view.record(at);
    registers.last = at;
    registers.at = at + 1;
    registers.steps += 1;
    let is_done = act_quickly(registers, view, record, input);
    if !is_done {
        registers.at = at;
        registers.last = last;
        registers.steps -= 1;
    }
    is_done
}

// One step, if it is one that is made at once.
#[inline(always)]
#[tactic(auto, using(crate::proofs::Stepping::steps))]
fn step_quickly<V: CodeView>(registers: &mut Registers<Memory>, view: &V, input: &[u8]) -> bool
    requires keeps { Stands (V.code view.now) (run_state registers.old) }
    requires few { registers.old.steps + 1 < 2 ^ 63 }
    ensures { StepsQuickly result (run_state registers.old) (run_state registers.new)
        (step (V.code view.now) input.now (run_state registers.old)) }
{
    match registers.mode {
        Mode::Going => take_quickly(registers, view, input),
        Mode::Failing => {
            let is_done = pop_quickly(registers);
            if is_done {
                registers.steps += 1;
            }
            is_done
        }
        Mode::Ended(_) => false,
    }
}

/// As many steps as can be made at once, and no more than so many. It answers how many.
pub(crate) fn dash<V: CodeView + Copy>(
    registers: &mut Registers<Memory>,
    view: V,
    input: &[u8],
    most: u64,
) -> u64
    requires keeps { Stands (V.code view) (run_state registers.old) }
    requires few { registers.old.steps + most < 2 ^ 63 }
    ensures few { result ≤ most }
    ensures state { run_state registers.new
        ≡ after (V.code view) input.now result (run_state registers.old) }
    ensures silent { prints (V.code view) input.now result (run_state registers.old) ≡ [] }
    ensures counted { registers.new.steps ≡ registers.old.steps + result }
    ensures stands { Stands (V.code view) (run_state registers.new) }
{
    let mut made = 0;
    while made < most {
        if !step_quickly(registers, &view, input) {
            return made;
        }
        made += 1;
    }
    made
}
