// The rules of a routine's head.
ghost use Rattle.std.specs.Prelude.{◌≡◌, ◌≤◌, ◌<◌, ◌+◌, ◌^◌, length};
ghost use Rattle.std.specs.List.{list_all};
ghost use Rattle.alma_base.specs.Limits.{record_limit};
ghost use Rattle.alma_code.specs.Layout.{holds_param as holds_param_spec, hold_params};
ghost use Rattle.alma_code.specs.Plain.{head_at, kinds_at};
ghost use Rattle.alma_code.specs.Rules.{IsTable, is_global, is_main as is_main_spec, rule_1 as rule_1_spec, last_end, names_routine as names_routine_spec, rule_2 as rule_2_spec, has_position as has_position_spec, rule_3 as rule_3_spec};
ghost use Rattle.alma_verify.specs.Routines.{HasRoutine};

use crate::kinds::{is_link_of, is_number, is_place_of};
use crate::reader::CodeReader;
use crate::slots::{are_cells, are_numbers, kind_of, start_of};
use alma_base::{CELL_LIMIT, SLOT_LIMIT};
use alma_code::{CodeParam, ParamKind, SlotKind};

// The part of rule 1 on globals: the cells of each are number slots of routine 0, from slot 1 on.
// A global of no cells may stand anywhere.
#[tactic(auto, using(std::proofs::lemmas::List::Folds::list_all_more, std::proofs::lemmas::List::Folds::list_all_at))]
fn are_globals<R: CodeReader>(reader: &R) -> bool
    requires table { IsTable (R.code reader.now) }
    ensures { result ≡ list_all (is_global (R.code reader.now)) (R.code reader.now).globals }
{
    for k in 0..reader.global_count() {
        if !are_cells(reader, 0, reader.global_slot(k), reader.global_cells(k)) {
            return false;
        }
    }
    true
}

// The part of rule 1 on routine 0: no parameters, no result, and its globals are number slots.
// Each other routine passes.
#[tactic(auto, using(crate::proofs::Starts::mains))]
fn is_main<R: CodeReader>(reader: &R, routine: u32) -> bool
    requires { HasRoutine (R.code reader.now) routine }
    ensures { result ≡ is_main_spec (R.code reader.now) routine }
{
    if routine > 0 {
        return true;
    }
    reader.param_count(0) == 0 && !reader.has_result(0) && are_globals(reader)
}

/// Rule 1: the routine has an instruction, and routine 0 is as a module body must be.
pub fn rule_1<R: CodeReader>(reader: &R, routine: u32) -> bool
    requires { HasRoutine (R.code reader.now) routine }
    ensures { result ≡ rule_1_spec (R.code reader.now) routine }
{
    start_of(reader, routine) < reader.code_end(routine) && is_main(reader, routine)
}

// Where the last run of a routine ends, or 0 without a run. Rule 2 asks that this is the number of
// slots.
#[tactic(auto, using(crate::proofs::Starts::lasts))]
fn end_of_runs<R: CodeReader>(reader: &R, routine: u32) -> u32
    requires routine { routine < length (R.code reader.now).routines }
    ensures { result ≡ last_end 0 (head_at (R.code reader.now) routine).runs }
{
    let count = reader.run_count(routine);
    if count == 0 {
        0
    } else {
        reader.run(routine, count - 1).end
    }
}

// Whether a run of links names a routine from 1 on.
fn names_routine<R: CodeReader>(reader: &R, kind: SlotKind) -> bool
    ensures { result ≡ names_routine_spec (R.code reader.now) kind }
{
    match kind {
        SlotKind::Link(routine) => routine > 0 && routine < reader.routine_count(),
        SlotKind::Number | SlotKind::Place(_) | SlotKind::Mark => true,
    }
}

// The part of rule 2 on links: each run of links names a routine from 1 to the last.
fn name_routines<R: CodeReader>(reader: &R, routine: u32) -> bool
    requires routine { routine < length (R.code reader.now).routines }
    ensures { result ≡ list_all (λ run. names_routine_spec (R.code reader.now) run.kind)
        (head_at (R.code reader.now) routine).runs }
{
    for k in 0..reader.run_count(routine) {
        let run = reader.run(routine, k);
        if !names_routine(reader, run.kind) {
            return false;
        }
    }
    true
}

/// Rule 2: the runs end at the number of slots, at most 8,388,608; links name routines from 1 on;
/// and the declared cells are at most as many as the slots, and at most 1,048,576.
pub fn rule_2<R: CodeReader>(reader: &R, routine: u32) -> bool
    requires routine { routine < length (R.code reader.now).routines }
    ensures { result ≡ rule_2_spec (R.code reader.now) routine }
{
    let slots = reader.slots(routine);
    let declared = reader.declared(routine);
    end_of_runs(reader, routine) == slots
        && slots <= SLOT_LIMIT
        && name_routines(reader, routine)
        && declared <= slots
        && declared <= CELL_LIMIT
}

// Whether the slots from `slot` on are those of the parameter: a place and a number slot for Mix,
// a number slot for each cell of Cells, and one slot for the other kinds.
#[tactic(auto, using(crate::proofs::Starts::nexts))]
fn holds_param<R: CodeReader>(reader: &R, routine: u32, param: CodeParam, slot: u64) -> bool
    requires routine { HasRoutine (R.code reader.now) routine }
    requires slot { slot < 2 ^ 62 }
    ensures { result ≡ holds_param_spec (kinds_at (R.code reader.now) routine) param.kind
        param.cells slot }
{
    match param.kind {
        ParamKind::Value => is_number(kind_of(reader, routine, slot)),
        ParamKind::Place => is_place_of(param.cells, kind_of(reader, routine, slot)),
        ParamKind::Mix => {
            is_place_of(1, kind_of(reader, routine, slot))
                && is_number(kind_of(reader, routine, slot + 1))
        }
        ParamKind::Cells => are_numbers(reader, routine, slot, param.cells),
        ParamKind::Link => is_link_of(param.cells, kind_of(reader, routine, slot)),
    }
}

// The part of rule 3 on parameters: the first slots of the routine are theirs, in order.
#[tactic(auto, using(crate::proofs::Starts::param_steps))]
fn are_params<R: CodeReader>(reader: &R, routine: u32) -> bool
    requires routine { HasRoutine (R.code reader.now) routine }
    requires few { length (head_at (R.code reader.now) routine).params ≤ record_limit }
    ensures { result ≡ hold_params (kinds_at (R.code reader.now) routine)
        (head_at (R.code reader.now) routine).params 0 }
{
    let mut slot: u64 = 0;
    for k in 0..reader.param_count(routine) {
        let param = reader.param(routine, k);
        if !holds_param(reader, routine, param, slot) {
            return false;
        }
        slot += u64::from(param.slots());
    }
    true
}

// The part of rule 3 on the input position: slot 0 of routine 0 is a number slot. Each other
// routine passes.
#[tactic(auto, using(crate::proofs::Starts::mains))]
fn has_position<R: CodeReader>(reader: &R, routine: u32) -> bool
    requires { HasRoutine (R.code reader.now) routine }
    ensures { result ≡ has_position_spec (R.code reader.now) routine }
{
    routine > 0 || is_number(kind_of(reader, 0, 0))
}

/// Rule 3: the first slots are those of the parameters, and slot 0 of routine 0 is a number slot.
pub fn rule_3<R: CodeReader>(reader: &R, routine: u32) -> bool
    requires routine { HasRoutine (R.code reader.now) routine }
    requires few { length (head_at (R.code reader.now) routine).params ≤ record_limit }
    ensures { result ≡ rule_3_spec (R.code reader.now) routine }
{
    are_params(reader, routine) && has_position(reader, routine)
}
