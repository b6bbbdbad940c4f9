// The machine over a memory that is handed to it.
ghost use Rattle.std.specs.Prelude.{◌≡◌, [], ◌∷◌, IfOk};
ghost use Rattle.alma_code.specs.Layout.{start_frame};
ghost use Rattle.alma_code.specs.Plain.{head_at};
ghost use Rattle.alma_object.specs.View.{head_of_view};
ghost use Rattle.alma_verify.specs.Verified.{code_of_verified};

use crate::machine::{next_step, object, opened};
use alma_base::NoMemory;
use alma_code::{End, Instr};
use alma_machine::{CodeView, Machine, Step};
use alma_memory::Memory;
use alma_object::RoutineView;
use alma_verify::Verified;
use std::alloc::Global;
use std::test::Fail;

// Only returns.
const RETURNS: [Instr; 1] = [Instr::Return];

// The head of the module body.
fn body_head<'b>(code: &Verified<'b>) -> RoutineView<'b>
    ensures { head_of_view result ≡ head_at (code_of_verified code.now) 0 }
{
    code.keeps_sound();
    match code.routine(0) {
        Some(head) => head,
        None => unreachable!(),
    }
}

// A memory with the frame of the module body alone.
fn body_memory<'b>(
    alloc: Global,
    code: &Verified<'b>,
    head: &RoutineView<'b>,
) -> Result<Memory, NoMemory>
    requires { head_of_view head.now ≡ head_at (code_of_verified code.now) 0 }
    ensures now { IfOk result (λ memory.
        memory.now ≡ start_frame (head_at (code_of_verified code.now) 0) ∷ []) }
    ensures held { IfOk result (λ memory. memory.held ≡ []) }
{
    code.keeps_sound();
    Memory::new(alloc, head)
}

// Whether a machine runs, the address of its last instruction, its steps, and the height of its
// memory.
type Standing = (bool, u32, u64, usize);

// How a machine stands.
fn standing(machine: &Machine<'_, '_>) -> Standing {
    (
        machine.is_running(),
        machine.at(),
        machine.steps(),
        machine.memory().height(),
    )
}

// The next step of a machine, and how it stands then.
fn step_once(machine: &mut Machine<'_, '_>) -> Result<(Option<Step>, Standing), NoMemory> {
    let step = next_step(machine)?;
    Ok((step, standing(machine)))
}

// The first step of the code over a memory that is handed to the machine.
fn first_step(alloc: Global, code: Verified<'_>) -> Result<(Option<Step>, Standing), NoMemory> {
    let head = body_head(&code);
    let memory = body_memory(alloc, &code, &head)?;
    let mut machine = Machine::over(alloc, code, b"", memory);
    step_once(&mut machine)
}

#[test]
fn a_module_that_only_returns_succeeds_at_once(rt: HostRuntime) -> Result<(), Fail> {
    let object = object(rt.alloc(), &RETURNS)?;
    let code = opened(&object).ok_or("sound")?;
    let found = first_step(rt.alloc(), code)?;
    let step = Step::Done(End::Succeeded);
    assert_eq!(rt; found, (Some(step), (false, 0, 1, 0)));
    Ok(())
}
