// Rows on calls alone.
ghost use Rattle.std.specs.Prelude.{ℕ, ◌≡◌, ◌≢◌, ◌<◌, ◌≤◌, ◌∷◌, ◌++◌, [], length, slice_index_or, IfOk, OnOk};
ghost use Rattle.alma_base.specs.Limits.{cell_limit};
ghost use Rattle.alma_code.specs.Layout.{start_frame};
ghost use Rattle.alma_code.specs.Picture.{no_frame, frames_with_cell, last_frame, top_of};
ghost use Rattle.alma_code.specs.Picture.{stack_after_pop};
ghost use Rattle.alma_memory.specs.Slots.{KeepsSlots};
ghost use Rattle.alma_tests_machine.specs.Rows.{numbers, entry, frames_of_two, in_body, body_kept};
ghost use Rattle.alma_tests_machine.specs.Rows.{nothing_kept, striped};
ghost use Rattle.alma_code.specs.declared.cell.Cell.TheVariants as cell;
ghost use Rattle.alma_code.specs.declared.cell.ChoiceKind.TheVariants as choice;

use alma_memory::{
    Cell, CellPlace, ChoiceKind, CodeParam, Head, Memory, NoMemory, ParamKind, Resumed, Run,
    SlotKind,
};
use std::alloc::Global;
use std::test::Fail;

// A head of so many number slots; or one of a parameter alone, the place of a number.
#[derive(Drop)]
struct Sketch {
    has_place: bool,
    numbers: u32,
}

impl Head for Sketch {
    ghost use Rattle.std.specs.Prelude.{if◌then◌else◌};
    ghost use Rattle.alma_tests_machine.specs.Rows.{numbers, one_place};

    ghost head = { λ h. if h.has_place
        then one_place
        else numbers h.numbers };

    fn slots(&self) -> u32 {
        if self.has_place { 1 } else { self.numbers }
    }

    fn declared(&self) -> u32 {
        if self.has_place { 0 } else { self.numbers }
    }

    fn param_count(&self) -> u32 {
        if self.has_place { 1 } else { 0 }
    }

    fn param(&self, _i: u32) -> CodeParam {
        if self.has_place {
            CodeParam {
                kind: ParamKind::Place,
                cells: 1,
            }
        } else {
            unreachable!()
        }
    }

    fn run_count(&self) -> u32 {
        1
    }

    fn run(&self, _i: u32) -> Run {
        if self.has_place {
            Run {
                kind: SlotKind::Place(1),
                end: 1,
            }
        } else {
            Run {
                kind: SlotKind::Number,
                end: self.numbers,
            }
        }
    }

    fn has_result(&self) -> bool {
        false
    }
}

// The head of one parameter, the place of a number.
const ONE_PLACE: Sketch = Sketch {
    has_place: true,
    numbers: 0,
};

// A memory of so many number slots.
fn start(alloc: Global, slots: u32) -> Result<Memory, NoMemory>
    requires some { 1 ≤ slots }
    requires few { slots ≤ cell_limit }
    ensures slots { IfOk result (λ memory. KeepsSlots slots memory) }
    ensures now { IfOk result (λ memory. memory.now ≡ start_frame (numbers slots) ∷ []) }
    ensures held { IfOk result (λ memory. memory.held ≡ []) }
{
    let head = Sketch {
        has_place: false,
        numbers: slots,
    };
    Memory::new(alloc, &head)
}

// Pushes a branch, and writes a number into a slot of the global frame behind it.
fn branch_and_write(
    memory: &mut Memory,
    resume: u32,
    slot: u32,
    number: i64,
) -> Result<(), NoMemory>
    requires live { 0 < length memory.old.now }
    requires slot_of { slot < length (slice_index_or memory.old.now 0 no_frame).cells }
    ensures now { OnOk result (memory.new.now
        ≡ frames_with_cell memory.old.now 0 slot (cell.Int number)) }
    ensures held { OnOk result (memory.new.held
        ≡ memory.old.held ++ entry choice.Branch resume memory.old.now ∷ []) }
{
    memory.choose(ChoiceKind::Branch, resume)?;
    memory.write(0, slot, Cell::Int(number))
}

// Goes back to the top entry, and answers what it is.
fn go_back(memory: &mut Memory) -> Option<Resumed>
    requires { memory.old.held ≢ [] }
    ensures now { memory.new.now ≡ (top_of memory.old.held).frames }
    ensures held { memory.new.held ≡ stack_after_pop memory.old.held }
{
    memory.fail()
}

// What a pop of the branch of a row gives.
const BRANCH: Resumed = Resumed {
    kind: ChoiceKind::Branch,
    resume: 7,
};

// Fails after a branch wrote into the second slot. Answers what is resumed, the slot, and what a
// second failure resumes.
fn fail_twice(memory: &mut Memory) -> Result<(Option<Resumed>, Cell, Option<Resumed>), NoMemory>
    requires now { memory.old.now ≡ start_frame (numbers 2) ∷ [] }
    requires held { memory.old.held ≡ [] }
{
    memory.reserve(4, 4)?;
    branch_and_write(memory, 7, 1, 5)?;
    let resumed = go_back(memory);
    Ok((resumed, memory.read(0, 1), memory.fail()))
}

// The same in a memory of two slots.
fn two_fails(alloc: Global) -> Result<(Option<Resumed>, Cell, Option<Resumed>), NoMemory> {
    let mut memory = start(alloc, 2)?;
    fail_twice(&mut memory)
}

#[test]
fn a_pop_leaves_unknown_what_was_unknown(rt: HostRuntime) -> Result<(), Fail> {
    let found = two_fails(rt.alloc())?;
    assert_eq!(rt; found, (Some(BRANCH), Cell::Unknown, None));
    Ok(())
}

// Writes the second slot, and answers whether that took no room.
fn writes_in_place(memory: &mut Memory, number: i64) -> Result<bool, NoMemory>
    requires live { 0 < length memory.old.now }
    requires slot_of { 1 < length (slice_index_or memory.old.now 0 no_frame).cells }
    ensures { memory.new.held ≡ memory.old.held }
{
    let room = memory.trail_room();
    memory.write(0, 1, Cell::Int(number))?;
    Ok(memory.trail_room() == room)
}

// Writes the second slot twice behind a branch, with room for one note, and fails. Answers whether
// the second write took no room, what is resumed, and the slot.
fn write_twice(memory: &mut Memory) -> Result<(bool, Option<Resumed>, Cell), NoMemory>
    requires now { memory.old.now ≡ start_frame (numbers 2) ∷ [] }
    requires held { memory.old.held ≡ [] }
{
    memory.reserve(1, 1)?;
    branch_and_write(memory, 7, 1, 5)?;
    let is_in_place = writes_in_place(memory, 6)?;
    let resumed = go_back(memory);
    Ok((is_in_place, resumed, memory.read(0, 1)))
}

// The same in a memory of two slots.
fn two_writes(alloc: Global) -> Result<(bool, Option<Resumed>, Cell), NoMemory> {
    let mut memory = start(alloc, 2)?;
    write_twice(&mut memory)
}

#[test]
fn a_noted_slot_is_written_with_no_room(rt: HostRuntime) -> Result<(), Fail> {
    let found = two_writes(rt.alloc())?;
    assert_eq!(rt; found, (true, Some(BRANCH), Cell::Unknown));
    Ok(())
}

// The one slot of the global frame.
const PLACE: CellPlace = CellPlace {
    frame: 0,
    slot: 0,
    len: 1,
};

// Enters a frame of routine 1 with that place, over a global frame of one number slot.
fn enter_second(memory: &mut Memory) -> Result<(), Fail>
    requires { memory.old.now ≡ start_frame (numbers 1) ∷ [] }
    ensures now { OnOk result (memory.new.now ≡ frames_of_two) }
    ensures held { memory.new.held ≡ memory.old.held }
{
    memory.reserve(2, 4)?;
    memory.enter(&ONE_PLACE, 1, 9, &[Cell::Place(PLACE)])?;
    Ok(())
}

// Where a frame goes back to when it is left, and how many frames there are.
type Left = (u32, u32);

// Leaves the second frame behind a branch that wrote into the first.
fn leave_frame(memory: &mut Memory) -> Result<Left, NoMemory>
    requires now { memory.old.now ≡ frames_of_two }
    requires held { memory.old.held ≡ [] }
    ensures { OnOk result (memory.new.held ≡ entry choice.Branch 9 frames_of_two ∷ []) }
{
    branch_and_write(memory, 9, 0, 4)?;
    let back = memory.leave()?;
    Ok((back, memory.frames()))
}

// The frames, the routine of the last, and the cells that are live.
fn shape(memory: &Memory) -> (u32, u32, u32) {
    (memory.frames(), memory.routine(), memory.live_cells())
}

// Whether there was an entry to go back to, what is live then, and the first slot of each frame.
type Revived = (bool, (u32, u32, u32), [Cell; 2]);

// Goes back to where the second frame lives.
fn revive(memory: &mut Memory) -> Revived
    requires { memory.old.held ≡ entry choice.Branch 9 frames_of_two ∷ [] }
{
    let has_resumed = go_back(memory).is_some();
    let cells = [memory.read(0, 0), memory.read(1, 0)];
    (has_resumed, shape(memory), cells)
}

// Enters a second frame, leaves it, and goes back to it.
fn leave_and_revive(memory: &mut Memory) -> Result<(Left, Revived), Fail>
    requires now { memory.old.now ≡ start_frame (numbers 1) ∷ [] }
    requires held { memory.old.held ≡ [] }
{
    enter_second(memory)?;
    let left = leave_frame(memory)?;
    Ok((left, revive(memory)))
}

// The same in a memory of one slot.
fn left_and_revived(alloc: Global) -> Result<(Left, Revived), Fail> {
    let mut memory = start(alloc, 1)?;
    leave_and_revive(&mut memory)
}

#[test]
fn a_frame_that_was_left_lives_again(rt: HostRuntime) -> Result<(), Fail> {
    let found = left_and_revived(rt.alloc())?;
    let cells = [Cell::Int(0), Cell::Place(PLACE)];
    assert_eq!(rt; found, ((9, 1), (true, (2, 1, 1), cells)));
    Ok(())
}

// Pushes a forall, a branch of its range and its body.
fn enter_body(memory: &mut Memory) -> Result<(), NoMemory>
    requires { memory.old.held ≡ [] }
    ensures now { memory.new.now ≡ memory.old.now }
    ensures held { OnOk result (memory.new.held ≡ in_body memory.old.now) }
{
    memory.choose(ChoiceKind::Forall, 3)?;
    memory.choose(ChoiceKind::Branch, 5)?;
    memory.choose(ChoiceKind::Body, 4)
}

// Writes a 9 in the body, and keeps it.
fn keep_nine(memory: &mut Memory) -> Result<(), NoMemory>
    requires now { memory.old.now ≡ start_frame (numbers 2) ∷ [] }
    requires held { memory.old.held ≡ in_body memory.old.now }
    ensures { OnOk result (memory.new.held ≡ body_kept) }
{
    memory.write(0, 1, Cell::Int(9))?;
    memory.keep(1)
}

// Goes back to the branch of the range. Answers the height before, whether there was an entry, and
// the second slot.
fn leave_body(memory: &mut Memory) -> (usize, bool, Cell)
    requires { memory.old.held ≡ body_kept }
    ensures now { memory.new.now ≡ start_frame (numbers 2) ∷ [] }
    ensures held { memory.new.held ≡ stack_after_pop body_kept }
{
    let height = memory.height();
    let has_branch = go_back(memory).is_some();
    (height, has_branch, memory.read(0, 1))
}

// Lays what the forall carries, and goes back to its end. Answers the second slot between, what is
// resumed, the kind of the entry, and the slot then.
fn leave_range(
    memory: &mut Memory,
) -> Result<(Cell, Option<Resumed>, Option<ChoiceKind>, Cell), NoMemory>
    requires now { memory.old.now ≡ start_frame (numbers 2) ∷ [] }
    requires held { memory.old.held ≡ stack_after_pop body_kept }
    ensures now { OnOk result (memory.new.now ≡ start_frame (numbers 2) ∷ []) }
    ensures held { OnOk result (memory.new.held ≡ stack_after_pop (stack_after_pop body_kept)) }
{
    memory.overlay(1)?;
    let carried = memory.read(0, 1);
    let resumed = go_back(memory);
    Ok((carried, resumed, memory.kind_at(1), memory.read(0, 1)))
}

// Ends the forall, and answers the second slot and the height.
fn finish_forall(memory: &mut Memory) -> Result<(Cell, usize), NoMemory>
    requires now { memory.old.now ≡ start_frame (numbers 2) ∷ [] }
    requires held { memory.old.held ≡ stack_after_pop (stack_after_pop body_kept) }
{
    memory.finish()?;
    Ok((memory.read(0, 1), memory.height()))
}

// What a forall shows whose body writes a 9: in its range, at its end and behind it.
type Carried = (
    (usize, bool, Cell),
    (Cell, Option<Resumed>, Option<ChoiceKind>, Cell),
    (Cell, usize),
);

// Carries a 9 in the second slot through a forall.
fn carry_nine(memory: &mut Memory) -> Result<Carried, NoMemory>
    requires now { memory.old.now ≡ start_frame (numbers 2) ∷ [] }
    requires held { memory.old.held ≡ [] }
{
    enter_body(memory)?;
    keep_nine(memory)?;
    let in_range = leave_body(memory);
    let at_end = leave_range(memory)?;
    Ok((in_range, at_end, finish_forall(memory)?))
}

// The same in a memory of two slots.
fn forall_of_nine(alloc: Global) -> Result<Carried, NoMemory> {
    let mut memory = start(alloc, 2)?;
    carry_nine(&mut memory)
}

// What a pop of the forall of a row gives.
const FORALL: Resumed = Resumed {
    kind: ChoiceKind::Forall,
    resume: 3,
};

#[test]
fn a_forall_carries_what_its_bodies_changed(rt: HostRuntime) -> Result<(), Fail> {
    let found = forall_of_nine(rt.alloc())?;
    let (nine, done) = (Cell::Int(9), Some(ChoiceKind::Done));
    let in_range = (2, true, Cell::Unknown);
    let at_end = (nine, Some(FORALL), done, Cell::Unknown);
    assert_eq!(rt; found, (in_range, at_end, (nine, 0)));
    Ok(())
}

// Keeps the body of a forall, which changed nothing.
fn keep_nothing(memory: &mut Memory) -> Result<(), NoMemory>
    requires now { memory.old.now ≡ start_frame (numbers 2) ∷ [] }
    requires held { memory.old.held ≡ [] }
    ensures { OnOk result (memory.new.held ≡ nothing_kept) }
{
    enter_body(memory)?;
    memory.keep(1)
}

// Whether there was a branch, the second slot behind it, whether there was a forall, and the slot
// and the height in the end.
type Laid = (bool, Cell, bool, Cell, usize);

// Goes through the rest of a forall that carries nothing.
fn lay_nothing(memory: &mut Memory) -> Result<Laid, NoMemory>
    requires { memory.old.held ≡ nothing_kept }
{
    let has_branch = go_back(memory).is_some();
    memory.overlay(1)?;
    let laid = memory.read(0, 1);
    let has_forall = go_back(memory).is_some();
    memory.finish()?;
    Ok((
        has_branch,
        laid,
        has_forall,
        memory.read(0, 1),
        memory.height(),
    ))
}

// Carries nothing through a forall.
fn carry_nothing(memory: &mut Memory) -> Result<Laid, NoMemory>
    requires now { memory.old.now ≡ start_frame (numbers 2) ∷ [] }
    requires held { memory.old.held ≡ [] }
{
    keep_nothing(memory)?;
    lay_nothing(memory)
}

// The same in a memory of two slots.
fn forall_of_nothing(alloc: Global) -> Result<Laid, NoMemory> {
    let mut memory = start(alloc, 2)?;
    carry_nothing(&mut memory)
}

#[test]
fn a_forall_of_which_nothing_was_kept_lays_nothing(rt: HostRuntime) -> Result<(), Fail> {
    let found = forall_of_nothing(rt.alloc())?;
    assert_eq!(rt; found, (true, Cell::Unknown, true, Cell::Unknown, 0));
    Ok(())
}

// Eight slots, whose kinds change from run to run; the first is a parameter.
const STRIPES: [Run; 7] = [
    Run {
        kind: SlotKind::Number,
        end: 1,
    },
    Run {
        kind: SlotKind::Place(1),
        end: 2,
    },
    Run {
        kind: SlotKind::Number,
        end: 3,
    },
    Run {
        kind: SlotKind::Mark,
        end: 4,
    },
    Run {
        kind: SlotKind::Number,
        end: 5,
    },
    Run {
        kind: SlotKind::Place(2),
        end: 6,
    },
    Run {
        kind: SlotKind::Number,
        end: 8,
    },
];

// A head of short runs.
#[derive(Drop)]
struct Striped {}

impl Head for Striped {
    ghost use Rattle.alma_tests_machine.specs.Rows.{striped};

    ghost head = { λ h. striped };

    fn slots(&self) -> u32 {
        8
    }

    fn declared(&self) -> u32 {
        5
    }

    fn param_count(&self) -> u32 {
        1
    }

    fn param(&self, _i: u32) -> CodeParam {
        CodeParam {
            kind: ParamKind::Value,
            cells: 1,
        }
    }

    fn run_count(&self) -> u32 {
        7
    }

    fn run(&self, i: u32) -> Run {
        STRIPES[i as usize]
    }

    fn has_result(&self) -> bool {
        false
    }
}

// A memory with a frame of short runs.
fn start_striped(alloc: Global) -> Result<Memory, NoMemory>
    ensures { IfOk result (λ memory. memory.now ≡ start_frame striped ∷ []) }
{
    Memory::new(alloc, &Striped {})
}

// What eight slots of the top frame hold.
fn cells_on_top(memory: &Memory) -> [Cell; 8]
    requires { 8 ≤ length (last_frame memory.now.now).cells }
{
    [
        memory.top(0),
        memory.top(1),
        memory.top(2),
        memory.top(3),
        memory.top(4),
        memory.top(5),
        memory.top(6),
        memory.top(7),
    ]
}

// The kinds of four slots of the top frame.
fn kinds_on_top(memory: &Memory) -> [SlotKind; 4]
    requires { 8 ≤ length (last_frame memory.now.now).kinds }
{
    [
        memory.top_kind(0),
        memory.top_kind(3),
        memory.top_kind(5),
        memory.top_kind(7),
    ]
}

// What the eight slots hold, where the first holds this.
fn stripes_with(first: Cell) -> [Cell; 8] {
    [
        first,
        Cell::Unset,
        Cell::Unknown,
        Cell::Unset,
        Cell::Unknown,
        Cell::Unset,
        Cell::Unknown,
        Cell::Unknown,
    ]
}

// The kinds of four of these slots: the first, fourth, sixth and eighth.
const KINDS: [SlotKind; 4] = [
    SlotKind::Number,
    SlotKind::Mark,
    SlotKind::Place(2),
    SlotKind::Number,
];

// What the slots of a frame hold, what those of a frame over it hold, and the kinds of four.
type Stripes = ([Cell; 8], [Cell; 8], [SlotKind; 4]);

// Enters a frame of short runs.
fn enter_stripes(memory: &mut Memory) -> Result<Stripes, Fail>
    requires { memory.old.now ≡ start_frame striped ∷ [] }
{
    let first = cells_on_top(memory);
    memory.enter(&Striped {}, 1, 9, &[Cell::Int(5)])?;
    Ok((first, cells_on_top(memory), kinds_on_top(memory)))
}

// The same in a memory with such a frame.
fn two_stripes(alloc: Global) -> Result<Stripes, Fail> {
    let mut memory = start_striped(alloc)?;
    enter_stripes(&mut memory)
}

#[test]
fn a_frame_of_short_runs_is_laid_slot_by_slot(rt: HostRuntime) -> Result<(), Fail> {
    let found = two_stripes(rt.alloc())?;
    let (first, second) = (stripes_with(Cell::Int(0)), stripes_with(Cell::Int(5)));
    assert_eq!(rt; found, (first, second, KINDS));
    Ok(())
}

// Enters a frame of short runs, writes into it, and leaves it. Answers what it held at first.
fn visit_stripes(memory: &mut Memory, number: i64) -> Result<[Cell; 8], Fail>
    requires { memory.old.now ≡ start_frame striped ∷ [] }
    ensures { OnOk result (memory.new.now ≡ memory.old.now) }
{
    memory.enter(&Striped {}, 1, 9, &[Cell::Int(number)])?;
    let cells = cells_on_top(memory);
    memory.put(4, Cell::Int(1))?;
    let _back = memory.leave()?;
    Ok(cells)
}

// Visits such a frame twice, with a number each.
fn visit_twice(memory: &mut Memory) -> Result<([Cell; 8], [Cell; 8]), Fail>
    requires { memory.old.now ≡ start_frame striped ∷ [] }
{
    let first = visit_stripes(memory, 5)?;
    Ok((first, visit_stripes(memory, 6)?))
}

// The same in a memory with such a frame.
fn two_visits(alloc: Global) -> Result<([Cell; 8], [Cell; 8]), Fail> {
    let mut memory = start_striped(alloc)?;
    visit_twice(&mut memory)
}

#[test]
fn a_routine_that_is_called_again_finds_its_slots_blank(rt: HostRuntime) -> Result<(), Fail> {
    let found = two_visits(rt.alloc())?;
    assert_eq!(rt;
        found,
        (stripes_with(Cell::Int(5)), stripes_with(Cell::Int(6)))
    );
    Ok(())
}

// So many slots has the memory in which many choices are made.
const SLOTS: u32 = 100_000;

// So many choices are made in it.
const CHOICES: u32 = 200_000;

// Makes room for so many entries and pushes them, and after each writes one of the slots from 1 on,
// in turn.
fn choose_and_write(memory: &mut Memory, slots: u32, choices: u32) -> Result<(), NoMemory>
    requires some { 2 ≤ slots }
    requires slots { KeepsSlots slots memory.old }
    ensures { OnOk result (KeepsSlots slots memory.new) }
{
    memory.reserve(choices as usize, choices as usize)?;
    for i in 0..choices {
        memory.choose(ChoiceKind::Branch, 1)?;
        memory.write(0, i % (slots - 1) + 1, Cell::Int(i64::from(i)))?;
    }
    Ok(())
}

// Goes back so often, and answers how often there was an entry.
fn fail_often(memory: &mut Memory, times: u32) -> u32
    ensures { (slots : ℕ) → KeepsSlots slots memory.old → KeepsSlots slots memory.new }
{
    let mut popped: u32 = 0;
    for _ in 0..times {
        if memory.fail().is_some() {
            popped = popped.wrapping_add(1);
        }
    }
    popped
}

// How many of the slots from 1 on hold a number.
fn count_known(memory: &Memory, slots: u32) -> u32
    requires { KeepsSlots slots memory.now }
{
    let mut known: u32 = 0;
    for slot in 1..slots {
        if memory.read(0, slot) != Cell::Unknown {
            known = known.wrapping_add(1);
        }
    }
    known
}

// How many entries there are, and how many of the slots from 1 on hold a number.
fn counts(memory: &Memory, slots: u32) -> (usize, u32)
    requires { KeepsSlots slots memory.now }
{
    (memory.height(), count_known(memory, slots))
}

// The entries and the slots that hold a number when so many choices are made, how many are taken
// back, and the same again.
type Choices = ((usize, u32), u32, (usize, u32));

// Makes so many choices, and takes them back.
fn choose_and_fail(memory: &mut Memory, slots: u32, choices: u32) -> Result<Choices, NoMemory>
    requires some { 2 ≤ slots }
    requires slots { KeepsSlots slots memory.old }
{
    choose_and_write(memory, slots, choices)?;
    let chosen = counts(memory, slots);
    let popped = fail_often(memory, choices);
    Ok((chosen, popped, counts(memory, slots)))
}

// The same in a memory of so many slots.
fn many_choices(alloc: Global) -> Result<Choices, NoMemory> {
    let mut memory = start(alloc, SLOTS)?;
    choose_and_fail(&mut memory, SLOTS, CHOICES)
}

#[test]
fn many_choices_are_taken_back(rt: HostRuntime) -> Result<(), Fail> {
    let found = many_choices(rt.alloc())?;
    assert_eq!(rt; found, ((CHOICES as usize, SLOTS - 1), CHOICES, (0, 0)));
    Ok(())
}
