// The head of a routine.
use alma_base::NoMemory;
use alma_code::{CodeParam, Head, ParamKind, RoutineHead, Run, SlotKind};
use std::alloc::Global;

// The slots of the last run, by the words of a Head alone.
fn last_run<H: Head>(head: &H) -> Option<Run> {
    match head.run_count() {
        0 => None,
        count => Some(head.run(count - 1)),
    }
}

// How the last parameter takes its argument.
fn last_param<H: Head>(head: &H) -> Option<ParamKind> {
    match head.param_count() {
        0 => None,
        count => Some(head.param(count - 1).kind),
    }
}

// The slots, the declared cells, the parameters and the runs of a head; its last run and parameter;
// whether it has a result.
pub(crate) type Shown = ([u32; 4], Option<Run>, Option<ParamKind>, bool);

// What a head shows.
pub(crate) fn show<H: Head>(head: &H) -> Shown {
    let (run, param) = (last_run(head), last_param(head));
    let counts = [
        head.slots(),
        head.declared(),
        head.param_count(),
        head.run_count(),
    ];
    (counts, run, param, head.has_result())
}

// A routine of a place and two numbers, whose parameter is a MIX of one cell.
fn mix_routine(alloc: Global) -> Result<RoutineHead, NoMemory> {
    let place = Run {
        kind: SlotKind::Place(1),
        end: 1,
    };
    let numbers = Run {
        kind: SlotKind::Number,
        end: 3,
    };
    let mix = CodeParam {
        kind: ParamKind::Mix,
        cells: 1,
    };
    let kinds = Vec::from_slice(alloc, &[place, numbers])?;
    let params = Vec::from_slice(alloc, &[mix])?;
    Ok(RoutineHead {
        name: Vec::new(alloc),
        slots: 3,
        declared: 1,
        kinds,
        params,
        result: true,
        code_end: 7,
    })
}

// What its head shows, where memory is ample.
fn show_mix(alloc: Global) -> Option<Shown> {
    match mix_routine(alloc) {
        Ok(routine) => Some(show(&routine)),
        Err(_error) => None,
    }
}

const MIX: Shown = (
    [3, 1, 1, 2],
    Some(Run {
        kind: SlotKind::Number,
        end: 3,
    }),
    Some(ParamKind::Mix),
    true,
);

#[test]
fn a_routine_is_a_head(rt: HostRuntime) {
    assert_eq!(rt; show_mix(rt.alloc()), Some(MIX));
}
