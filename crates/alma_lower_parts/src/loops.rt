// The bounds of loops.
ghost use Rattle.std.specs.Prelude.{◌≡◌, ◌+◌, ◌∷◌, [], length, IfOk, IsOk, OnOk};
ghost use Rattle.alma_code.specs.declared.instr.Instr.TheVariants as instr;
ghost use Rattle.alma_code.specs.declared.cell.SlotKind.TheVariants as slot;
ghost use Rattle.alma_ir.specs.View.{desig_of};
ghost use Rattle.alma_lower_templates.specs.Slots.{bare_desig, unless_bare};
ghost use Rattle.alma_lower_templates.specs.Templates.{count_at, count_code, own_slot};
ghost use Rattle.alma_choice.specs.Emitted.{aim_jump};
ghost use Rattle.alma_lower_templates.specs.LineInstr.{own};
ghost use Rattle.alma_lower_templates.specs.Pieces as pieces;
ghost use Rattle.alma_lower_work.specs.Front.{around, front, Adds, Codes, Holes};
ghost use Rattle.alma_lower_parts.specs.Steps.{BeginsSome, EndsFor, PutsSlot};

use alma_base::{NoMemory, Range};
use alma_code::{Instr, SlotKind};
use alma_ir::{Desig, Loop};
use alma_lower_work::{Scene, Work, own_stand, put_fit};

/// The slots of a loop: of its count, its limit and its step, and that of its first count, with the
/// number of a constant.
#[derive(Clone, Copy)]
pub struct Bounds {
    pub counter: u32,
    pub limit: u32,
    pub step: u32,
    pub first: u32,
    pub constant: Option<i64>,
}

// What puts the first count into the slot of the count.
fn count_instr(constant: Option<i64>, counter: u32, first: u32) -> Instr
    ensures { result ≡ pieces.count_from constant counter first }
{
    match constant {
        Some(value) => Instr::Const { to: counter, value },
        None => Instr::Move {
            to: counter,
            from: first,
        },
    }
}

// What makes a slot 0 where the first count is beyond the limit.
fn entry_instr(by: i64, to: u32, counter: u32, limit: u32) -> Instr
    ensures { result ≡ pieces.entry_code by to counter limit }
{
    if by < 0 {
        Instr::LessEq {
            to,
            left: limit,
            right: counter,
        }
    } else {
        Instr::LessEq {
            to,
            left: counter,
            right: limit,
        }
    }
}

// Behind the limit: the first count is set, and its own slot becomes 0 where there is no turn.
fn put_bounds(work: &mut Work, line: u32, by: i64, bounds: Bounds) -> Result<(), NoMemory>
    ensures { OnOk result (Codes (front work.old) (front work.new) (own line
        (pieces.count_from bounds.constant bounds.counter bounds.first
        ∷ pieces.entry_code by bounds.first bounds.counter bounds.limit ∷ []))) }
{
    let Bounds {
        counter,
        limit,
        first,
        constant,
        ..
    } = bounds;
    work.add(line, count_instr(constant, counter, first))?;
    work.add(line, entry_instr(by, first, counter, limit))
}

/// The count of a turn, checked against the range of the variable; its slot. A variable that is set
/// in its own slot has it in that of the counter, any other in a slot of the turn's own, since the
/// code that locates it stands between.
pub fn put_count(
    work: &mut Work,
    scene: &Scene<'_>,
    line: u32,
    desig: &Desig,
    range: Range,
    counter: u32,
) -> Result<u32, NoMemory>
    ensures count { IfOk result (λ count. count ≡ count_at (around scene.now).program
        (around scene.now).tables (around scene.now).routine (bare_desig (desig_of desig.now))
        counter (front work.old).next) }
    ensures puts { OnOk result (Adds (front work.old) (front work.new)
        (λ at lo ls. own line (count_code (around scene.now).program (around scene.now).tables
        (around scene.now).routine (bare_desig (desig_of desig.now)) range counter lo))
        (λ ls. unless_bare (bare_desig (desig_of desig.now)) (slot.Number ∷ [])) (λ ls. ls)) }
{
    if own_stand(scene, desig)?.is_some() {
        put_fit(work, scene, line, range, counter)?;
        return Ok(counter);
    }
    let count = work.slot(SlotKind::Number)?;
    work.put(
        line,
        Instr::Move {
            to: count,
            from: counter,
        },
    )?;
    put_fit(work, scene, line, range, count)?;
    Ok(count)
}

// The end of a turn of FOR: the step, which leaves the loop after the last, and the jump to the
// next turn.
fn put_step(work: &mut Work, line: u32, bounds: Bounds, out: u32, top: u32) -> Result<(), NoMemory>
    ensures { OnOk result (Codes (front work.old) (front work.new) (own line
        (instr.Step bounds.counter bounds.limit bounds.step out ∷ instr.Jump top ∷ []))) }
{
    work.put(
        line,
        Instr::Step {
            counter: bounds.counter,
            limit: bounds.limit,
            by: bounds.step,
            out,
        },
    )?;
    work.add(line, Instr::Jump { to: top })
}

// A loop without turns fails, and the first turn is reached over the count of the next.
fn put_entry(work: &mut Work, line: u32, first: u32) -> Result<(), NoMemory>
    ensures { OnOk result (Codes (front work.old) (front work.new) (own line
        (instr.Check first ∷ instr.Jump (length (front work.old).code + 3) ∷ []))) }
{
    let over = work.behind(3)?;
    work.add(line, Instr::Check { value: first })?;
    work.add(line, Instr::Jump { to: over })
}

// Whether there are more turns behind this; in the last, the choice that follows is left out.
fn put_more(
    work: &mut Work,
    line: u32,
    more: u32,
    bounds: Bounds,
    turn: u32,
) -> Result<(), NoMemory>
    ensures { OnOk result (Codes (front work.old) (front work.new) (own line
        (instr.Less more bounds.counter bounds.limit ∷ instr.JumpZero more turn ∷ []))) }
{
    work.put(
        line,
        Instr::Less {
            to: more,
            left: bounds.counter,
            right: bounds.limit,
        },
    )?;
    work.add(
        line,
        Instr::JumpZero {
            value: more,
            to: turn,
        },
    )
}

// The count of the next turn, at which the choice of a turn goes on, and that choice.
fn put_next(work: &mut Work, line: u32, more: u32, bounds: Bounds) -> Result<(), NoMemory>
    ensures { OnOk result (Codes (front work.old) (front work.new) (own line
        (instr.Add bounds.counter bounds.counter bounds.step
        ∷ instr.Less more bounds.counter bounds.limit
        ∷ instr.JumpZero more (length (front work.old).code + 4)
        ∷ instr.Choose (length (front work.old).code) ∷ []))) }
{
    let retry = work.here()?;
    let turn = work.behind(4)?;
    work.put(
        line,
        Instr::Add {
            to: bounds.counter,
            left: bounds.counter,
            right: bounds.step,
        },
    )?;
    put_more(work, line, more, bounds, turn)?;
    work.add(line, Instr::Choose { resume: retry })
}

/// The slots of the count, of the limit and of the step of a loop.
#[derive(Clone, Copy)]
pub struct Counts {
    pub counter: u32,
    pub limit: u32,
    pub step: u32,
}

/// The step of a loop, in a slot of its own.
pub fn put_counts(
    work: &mut Work,
    scene: &Scene<'_>,
    line: u32,
    each: &Loop,
    by: i64,
) -> Result<Counts, NoMemory>
    ensures counter { IfOk result (λ counts. counts.counter ≡ own_slot (around scene.now).program
        (around scene.now).tables (around scene.now).routine each.now.counter) }
    ensures limit { IfOk result (λ counts. counts.limit ≡ own_slot (around scene.now).program
        (around scene.now).tables (around scene.now).routine each.now.limit) }
    ensures step { IfOk result (λ counts. counts.step ≡ (front work.old).next) }
    ensures puts { IfOk result (λ counts. PutsSlot (front work.old) (front work.new) slot.Number
        (own line (instr.Const counts.step by ∷ []))) }
{
    let counter = scene.own_slot(each.counter)?;
    let limit = scene.own_slot(each.limit)?;
    let step = work.slot(SlotKind::Number)?;
    work.put(
        line,
        Instr::Const {
            to: step,
            value: by,
        },
    )?;
    Ok(Counts {
        counter,
        limit,
        step,
    })
}

/// Behind the limit of FOR; the jump where there is no turn, which is to be aimed, and the address
/// of the first turn.
pub fn begin_for(
    work: &mut Work,
    line: u32,
    by: i64,
    bounds: Bounds,
) -> Result<(u32, u32), NoMemory>
    ensures holes { IfOk result (λ r. Holes (front work.old) (front work.new)
        (λ to xs. aim_jump xs r.0 to)
        (λ empty at lo ls. own line (pieces.bounds_code by bounds.constant bounds.counter
        bounds.limit bounds.first empty)) (λ ls. []) (λ ls. ls)) }
    ensures top { IfOk result (λ r. r.1 ≡ length (front work.new).code) }
{
    put_bounds(work, line, by, bounds)?;
    let jump = work.put(
        line,
        Instr::JumpZero {
            value: bounds.first,
            to: 0,
        },
    )?;
    let top = work.here()?;
    Ok((jump, top))
}

/// Behind a turn of FOR: the step, behind which the jump over all turns is aimed.
pub fn end_for(
    work: &mut Work,
    done: Result<(), NoMemory>,
    line: u32,
    bounds: Bounds,
    jump: u32,
    top: u32,
) -> Result<(), NoMemory>
    ensures done { OnOk result (IsOk done) }
    ensures ends { OnOk result (EndsFor line bounds.counter bounds.limit bounds.step jump top
        (front work.old) (front work.new)) }
{
    done?;
    let out = work.behind(2)?;
    put_step(work, line, bounds, out, top)?;
    work.aim_behind(jump, 0)
}

/// Behind the limit of SOME: what stands before its turns.
pub fn begin_some(work: &mut Work, line: u32, bounds: Bounds) -> Result<(), NoMemory>
    ensures { OnOk result (BeginsSome line bounds.constant bounds.counter bounds.limit bounds.step
        bounds.first (front work.old) (front work.new)) }
{
    let more = work.slot(SlotKind::Number)?;
    put_bounds(work, line, 1, bounds)?;
    put_entry(work, line, bounds.first)?;
    put_next(work, line, more, bounds)
}
