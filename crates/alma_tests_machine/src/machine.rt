// The machine, run on the verified objects of small codes.
ghost use Rattle.std.specs.Prelude.{◌≡◌, ◌≤◌, ◌<◌, ◌+◌, ◌^◌, ◌∷◌, [], length, map, codes, IfOk, IsTrue};
ghost use Rattle.alma_code.specs.Plain.{code_of, routine_of};
ghost use Rattle.alma_tests_machine.specs.Small.{small_routine, small_code};

use alma_base::{NoMemory, Range, RunFault};
use alma_code::{Code, Instr, RoutineHead, Run, SlotKind};
use alma_io::MemSink;
use alma_machine::{Machine, RunEnd, Step};
use alma_object::{ObjectView, encode};
use alma_verify::{Verified, verify};
use std::alloc::Global;
use std::test::Fail;

// Counts to 3 and prints each number and then a truth, in 31 steps.
const COUNT: [Instr; 13] = [
    Instr::Const { to: 1, value: 0 },
    Instr::Const { to: 2, value: 3 },
    Instr::Local { to: 5, first: 1 },
    Instr::Less {
        to: 3,
        left: 1,
        right: 2,
    },
    Instr::JumpZero { value: 3, to: 11 },
    Instr::Const { to: 4, value: 1 },
    Instr::Load { to: 3, from: 5 },
    Instr::Add {
        to: 3,
        left: 3,
        right: 4,
    },
    Instr::Store { to: 5, from: 3 },
    Instr::WriteInt { value: 1 },
    Instr::Jump { to: 3 },
    Instr::WriteBool { value: 3 },
    Instr::Return,
];

// Copies a pair onto one that overlaps it, prints two characters, a text and a line, and then
// counts to 2, in 24 steps.
const PARTS: [Instr; 21] = [
    Instr::Local { to: 10, first: 6 },
    Instr::Const { to: 1, value: 2 },
    Instr::Index {
        to: 11,
        from: 10,
        index: 1,
        range: 0,
    },
    Instr::Local { to: 12, first: 7 },
    Instr::Const { to: 7, value: 321 },
    Instr::Const { to: 8, value: 66 },
    Instr::CopyCells { to: 11, from: 12 },
    Instr::Field {
        to: 5,
        from: 11,
        offset: 1,
    },
    Instr::Load { to: 2, from: 5 },
    Instr::WriteChar { value: 2 },
    Instr::WriteChar { value: 8 },
    Instr::WriteText { text: 0 },
    Instr::WriteLine,
    Instr::Const { to: 1, value: 1 },
    Instr::Const { to: 3, value: 1 },
    Instr::Const { to: 4, value: 2 },
    Instr::InRange { value: 1, range: 0 },
    Instr::WriteInt { value: 1 },
    Instr::Step {
        counter: 1,
        limit: 4,
        by: 3,
        out: 20,
    },
    Instr::Jump { to: 16 },
    Instr::Fault { number: 5 },
];

// A code, how its run ends, and in how many steps.
struct Row {
    instrs: &'static [Instr],
    end: RunEnd,
    steps: u64,
}

// Codes that end in faults, in a failure, and well.
const ROWS: [Row; 8] = [
    Row {
        instrs: &[
            Instr::Const {
                to: 1,
                value: i64::MAX,
            },
            Instr::Const { to: 2, value: 1 },
            Instr::Add {
                to: 3,
                left: 1,
                right: 2,
            },
            Instr::Return,
        ],
        end: RunEnd::Fault(RunFault::Overflow),
        steps: 3,
    },
    Row {
        instrs: &[
            Instr::Const { to: 1, value: 7 },
            Instr::Const { to: 2, value: 0 },
            Instr::Div {
                to: 3,
                left: 1,
                right: 2,
            },
            Instr::Return,
        ],
        end: RunEnd::Fault(RunFault::ZeroDivide),
        steps: 3,
    },
    Row {
        instrs: &[
            Instr::Local { to: 5, first: 1 },
            Instr::Load { to: 2, from: 5 },
            Instr::Return,
        ],
        end: RunEnd::Fault(RunFault::Unknown),
        steps: 2,
    },
    // A check of 0.
    Row {
        instrs: &[
            Instr::Const { to: 1, value: 0 },
            Instr::Check { value: 1 },
            Instr::Return,
        ],
        end: RunEnd::Failed,
        steps: 3,
    },
    Row {
        instrs: &[Instr::Fail],
        end: RunEnd::Failed,
        steps: 2,
    },
    Row {
        instrs: &[
            Instr::Const { to: 1, value: 3 },
            Instr::InRange { value: 1, range: 0 },
            Instr::Return,
        ],
        end: RunEnd::Fault(RunFault::Range),
        steps: 2,
    },
    // An index below the range of an array.
    Row {
        instrs: &[
            Instr::Local { to: 10, first: 6 },
            Instr::Const { to: 1, value: 0 },
            Instr::Index {
                to: 11,
                from: 10,
                index: 1,
                range: 0,
            },
            Instr::Return,
        ],
        end: RunEnd::Fault(RunFault::Index),
        steps: 3,
    },
    // A step down from the least number to itself.
    Row {
        instrs: &[
            Instr::Const {
                to: 1,
                value: i64::MIN,
            },
            Instr::Const {
                to: 2,
                value: i64::MIN,
            },
            Instr::Const { to: 3, value: -1 },
            Instr::Step {
                counter: 1,
                limit: 2,
                by: 3,
                out: 5,
            },
            Instr::Fail,
            Instr::Return,
        ],
        end: RunEnd::Succeeded,
        steps: 5,
    },
];

// The runs of the slots of the module body.
const RUNS: [Run; 5] = [
    Run {
        kind: SlotKind::Number,
        end: 5,
    },
    Run {
        kind: SlotKind::Place(1),
        end: 6,
    },
    Run {
        kind: SlotKind::Number,
        end: 10,
    },
    Run {
        kind: SlotKind::Place(4),
        end: 11,
    },
    Run {
        kind: SlotKind::Place(2),
        end: 13,
    },
];

// A module body with nine number slots, and place slots for one, four and two cells.
fn small_routines(alloc: Global, code_end: u32) -> Result<Vec<RoutineHead>, NoMemory>
    ensures { IfOk result
        (λ routines. map routine_of routines.items ≡ small_routine code_end ∷ []) }
{
    let kinds = Vec::from_slice(alloc, &RUNS)?;
    let name = Vec::from_slice(alloc, b"A")?;
    let mut routines = Vec::new(alloc);
    routines.push(RoutineHead {
        name,
        slots: 13,
        declared: 2,
        kinds,
        params: Vec::new(alloc),
        result: false,
        code_end,
    })?;
    Ok(routines)
}

// The text `ok`.
fn small_texts(alloc: Global) -> Result<Vec<Vec<u8>>, NoMemory>
    ensures { IfOk result (λ texts. map (λ text. text.items) texts.items ≡ codes "ok" ∷ []) }
{
    let mut texts = Vec::new(alloc);
    texts.push(Vec::from_slice(alloc, b"ok")?)?;
    Ok(texts)
}

// The code of such a module body, with a range and a text.
fn small(alloc: Global, instrs: &[Instr]) -> Result<Code, NoMemory>
    requires { length instrs.now < 2 ^ 32 }
    ensures { IfOk result (λ code. code_of code ≡ small_code instrs.now) }
{
    let ranges = Vec::from_slice(alloc, &[Range { low: 1, high: 2 }])?;
    let code = Vec::from_slice(alloc, instrs)?;
    let texts = small_texts(alloc)?;
    Ok(Code {
        version: 1,
        routines: small_routines(alloc, instrs.len() as u32)?,
        globals: Vec::new(alloc),
        ranges,
        texts,
        code,
        lines: Vec::new(alloc),
    })
}

/// The bytes of an object with one routine, a module body of these instructions with 13 slots in
/// the runs `RUNS`; with the range from 1 to 2 and the text `ok`, without globals and lines.
pub fn object(alloc: Global, instrs: &[Instr]) -> Result<Vec<u8>, NoMemory>
    requires { length instrs.now ≤ 99 }
{
    let code = small(alloc, instrs)?;
    encode(alloc, &code)
}

/// The verified view of the bytes of an object; none where they are no object, or its code is not
/// sound.
pub fn opened(bytes: &[u8]) -> Option<Verified<'_>> {
    let view = ObjectView::new(bytes).ok()?;
    verify(view).ok()
}

// A run of so many steps at most, of which no more is known than how it ends.
fn run_on(machine: &mut Machine<'_, '_>, budget: u64, out: &mut MemSink) -> RunEnd
    requires running { IsTrue machine.old.running }
    requires few { machine.old.state.steps + budget < 2 ^ 63 }
{
    machine.run(budget, out)
}

// How a run ends, the machine's steps, choices and fails, whether it printed what was awaited, and
// whether it runs on.
type Shown = (RunEnd, [u64; 3], bool, bool);

// What a run of 99 steps at most shows.
fn show(machine: &mut Machine<'_, '_>, out: &mut MemSink, print: &[u8]) -> Shown
    requires running { IsTrue machine.old.running }
    requires few { machine.old.state.steps + 99 < 2 ^ 63 }
{
    let end = run_on(machine, 99, out);
    let counts = [machine.steps(), machine.choices(), machine.fails()];
    (end, counts, out.bytes() == print, machine.is_running())
}

// What a run of the code shows whose writes, of three bytes each, fail at these numbers.
fn run_of(
    alloc: Global,
    code: Verified<'_>,
    faults: &[u64],
    print: &[u8],
) -> Result<Shown, NoMemory> {
    let mut out = MemSink::new(alloc, 99, 3, faults)?;
    let mut machine = Machine::new(alloc, code, b"")?;
    Ok(show(&mut machine, &mut out, print))
}

// The same of the code of these instructions.
fn outcome(alloc: Global, instrs: &[Instr], faults: &[u64], print: &[u8]) -> Result<Shown, Fail>
    requires { length instrs.now ≤ 99 }
{
    let object = object(alloc, instrs)?;
    let code = opened(&object).ok_or("sound")?;
    Ok(run_of(alloc, code, faults, print)?)
}

#[test]
fn a_run_ends_as_its_code_says(rt: HostRuntime) -> Result<(), Fail> {
    for row in &ROWS {
        assert!(rt; row.instrs.len() <= 99);
        let (end, [steps, _, _], _, _) = outcome(rt.alloc(), row.instrs, &[], b"")?;
        assert_eq!(rt; (end, steps), (row.end, row.steps));
    }
    Ok(())
}

#[test]
fn parts_are_copied_and_a_loop_counts(rt: HostRuntime) -> Result<(), Fail> {
    let (end, [steps, _, _], is_printed, _) = outcome(rt.alloc(), &PARTS, &[], b"BAok\n12")?;
    assert_eq!(rt;
        (end, steps, is_printed),
        (RunEnd::Fault(RunFault::NoCase), 24, true)
    );
    Ok(())
}

// Runs so many steps, and answers how a run of the rest of 31 ends; none where the first did not
// run out of steps there.
fn run_rest(machine: &mut Machine<'_, '_>, out: &mut MemSink, budget: u64) -> Option<RunEnd>
    requires running { IsTrue machine.old.running }
    requires few { machine.old.state.steps + budget < 2 ^ 63 }
    requires below { budget ≤ 31 }
{
    let end = run_on(machine, budget, out);
    if end != RunEnd::StepsOut || !machine.is_running() || machine.steps() != budget {
        return None;
    }
    Some(run_on(machine, 31 - budget, out))
}

// How the second of such runs ends, whether all is printed then, and whether the machine runs on.
type Rest = (Option<RunEnd>, bool, bool);

// What such runs show.
fn show_rest(machine: &mut Machine<'_, '_>, out: &mut MemSink, budget: u64) -> Rest
    requires running { IsTrue machine.old.running }
    requires few { machine.old.state.steps + budget < 2 ^ 63 }
    requires below { budget ≤ 31 }
{
    let end = run_rest(machine, out, budget);
    let is_printed = out.bytes() == b"123FALSE".as_slice();
    (end, is_printed, machine.is_running())
}

// What such runs of the code show.
fn two_runs(alloc: Global, code: Verified<'_>, budget: u64) -> Result<Rest, NoMemory>
    requires { budget ≤ 31 }
{
    let mut out = MemSink::new(alloc, 99, 99, &[])?;
    let mut machine = Machine::new(alloc, code, b"")?;
    Ok(show_rest(&mut machine, &mut out, budget))
}

#[test]
fn steps_run_out_at_each_budget_below_the_whole(rt: HostRuntime) -> Result<(), Fail> {
    let object = object(rt.alloc(), &COUNT)?;
    let code = opened(&object).ok_or("sound")?;
    let end = Some(RunEnd::Succeeded);
    for budget in 0..31 {
        let found = two_runs(rt.alloc(), code, budget)?;
        assert_eq!(rt; found, (end, true, false), "after {budget}");
    }
    Ok(())
}

// What is printed before the write of this number, from 1, fails: all prints go out together, in
// three writes.
const WRITE_FAULTS: [(u64, &[u8]); 3] = [(1, b""), (2, b"123"), (3, b"123FAL")];

#[test]
fn a_write_fault_stops_the_machine(rt: HostRuntime) -> Result<(), Fail> {
    for (number, print) in &WRITE_FAULTS {
        let (end, _, is_printed, is_running) = outcome(rt.alloc(), &COUNT, &[*number], print)?;
        assert_eq!(rt;
            (end, is_printed, is_running),
            (RunEnd::WriteFault, true, false),
            "write {number}"
        );
    }
    Ok(())
}

// Prints a number, and then goes on for ever.
const PRINT_AND_LOOP: [Instr; 3] = [
    Instr::Const { to: 1, value: 7 },
    Instr::WriteInt { value: 1 },
    Instr::Jump { to: 2 },
];

// Prints 19 digits again and again: the 216th time they find no room in the buffer.
const PRINT_LONG: [Instr; 3] = [
    Instr::Const {
        to: 1,
        value: i64::MAX,
    },
    Instr::WriteInt { value: 1 },
    Instr::Jump { to: 1 },
];

// A code, how many steps it is given, and in how many it ends where each write fails.
const FAILING_ROWS: [(&[Instr], u64, u64); 4] = [
    (&PRINT_AND_LOOP, 99, 99),
    (&PRINT_AND_LOOP, 4_096, 4_096),
    (&PRINT_AND_LOOP, 9_999, 4_096),
    (&PRINT_LONG, 9_999, 432),
];

// How a run of so many steps at most ends whose sink has no room, and its steps.
fn run_to_fault(alloc: Global, code: Verified<'_>, budget: u64) -> Result<(RunEnd, u64), NoMemory>
    requires { budget ≤ 9999 }
{
    let mut out = MemSink::new(alloc, 0, 9, &[])?;
    let mut machine = Machine::new(alloc, code, b"")?;
    let end = run_on(&mut machine, budget, &mut out);
    Ok((end, machine.steps()))
}

// The same of the code of these instructions.
fn fault_of(alloc: Global, instrs: &[Instr], budget: u64) -> Result<(RunEnd, u64), Fail>
    requires few { budget ≤ 9999 }
    requires short { length instrs.now ≤ 99 }
{
    let object = object(alloc, instrs)?;
    let code = opened(&object).ok_or("sound")?;
    Ok(run_to_fault(alloc, code, budget)?)
}

#[test]
fn prints_go_out_where_they_find_no_room_and_behind_4096_steps(
    rt: HostRuntime,
) -> Result<(), Fail> {
    for (instrs, budget, steps) in &FAILING_ROWS {
        assert!(rt; instrs.len() <= 99 && *budget <= 9_999);
        let found = fault_of(rt.alloc(), instrs, *budget)?;
        assert_eq!(rt; found, (RunEnd::WriteFault, *steps), "within {budget}");
    }
    Ok(())
}

// What the step of this number prints.
fn print_of(step: u64) -> &'static [u8] {
    match step {
        10 => b"1",
        18 => b"2",
        26 => b"3",
        30 => b"FALSE",
        _ => b"",
    }
}

/// Makes the next step of a machine and answers it; none where the machine does not run, or has
/// made 99 steps or more.
pub fn next_step(machine: &mut Machine<'_, '_>) -> Result<Option<Step>, NoMemory> {
    if !machine.is_running() || machine.steps() >= 99 {
        return Ok(None);
    }
    Ok(Some(machine.step()?))
}

// Makes one step, and answers whether it prints this, or does not print where this is empty.
fn prints(machine: &mut Machine<'_, '_>, print: &[u8]) -> bool {
    match next_step(machine) {
        Ok(Some(step)) => {
            (step == Step::Printed) != print.is_empty() && machine.printed() == print
        }
        _ => false,
    }
}

// The first of 31 steps that prints other than it should.
fn other_print(machine: &mut Machine<'_, '_>) -> Option<u64> {
    for step in 1..32 {
        if !prints(machine, print_of(step)) {
            return Some(step);
        }
    }
    None
}

// The first of 31 steps that prints other than it should, whether the machine runs on, its choices
// and fails.
type Steps = (Option<u64>, bool, u64, u64);

// What 31 steps show.
fn show_steps(machine: &mut Machine<'_, '_>) -> Steps {
    let other = other_print(machine);
    let is_running = machine.is_running();
    (other, is_running, machine.choices(), machine.fails())
}

// What 31 steps of the code show.
fn steps_of(alloc: Global, code: Verified<'_>) -> Result<Steps, NoMemory> {
    let mut machine = Machine::new(alloc, code, b"")?;
    Ok(show_steps(&mut machine))
}

#[test]
fn the_print_of_the_last_step_is_there(rt: HostRuntime) -> Result<(), Fail> {
    let object = object(rt.alloc(), &COUNT)?;
    let code = opened(&object).ok_or("sound")?;
    let found = steps_of(rt.alloc(), code)?;
    assert_eq!(rt; found, (None, false, 0, 0));
    Ok(())
}

// Binds the cell of slot 1 to 1, prints it and fails; and then binds it to 2, prints it and ends,
// in 14 steps.
const TWO_WAYS: [Instr; 13] = [
    Instr::Local { to: 5, first: 1 },
    Instr::Choose { resume: 7 },
    Instr::Const { to: 2, value: 1 },
    Instr::Bind {
        place: 5,
        value: 2,
        range: 0,
    },
    Instr::Load { to: 3, from: 5 },
    Instr::WriteInt { value: 3 },
    Instr::Fail,
    Instr::Const { to: 2, value: 2 },
    Instr::Bind {
        place: 5,
        value: 2,
        range: 0,
    },
    Instr::Load { to: 3, from: 5 },
    Instr::WriteInt { value: 3 },
    Instr::WriteLine,
    Instr::Return,
];

#[test]
fn a_failed_alternative_leaves_no_trace(rt: HostRuntime) -> Result<(), Fail> {
    let (end, counts, is_printed, _) = outcome(rt.alloc(), &TWO_WAYS, &[], b"12\n")?;
    assert_eq!(rt;
        (end, counts, is_printed),
        (RunEnd::Succeeded, [14, 1, 1], true)
    );
    Ok(())
}
