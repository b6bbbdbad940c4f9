// The pieces of choices.
ghost use Rattle.std.specs.Prelude.{◌≡◌, ◌∷◌, [], IfOk, IsOk, OnOk};
ghost use Rattle.alma_code.specs.declared.cell.SlotKind.TheVariants as slot;
ghost use Rattle.alma_code.specs.declared.instr.Instr.TheVariants as instr;
ghost use Rattle.alma_lower_templates.specs.LineInstr.{own};
ghost use Rattle.alma_lower_templates.specs.Pieces as pieces;
ghost use Rattle.alma_lower_work.specs.Front.{front, EndsEach, EndsForall};
ghost use Rattle.alma_lower_parts.specs.Steps.{BeginsChoice, EndsBoth, PutsAimed, PutsSlot};

use alma_base::NoMemory;
use alma_code::{Instr, SlotKind};
use alma_lower_work::Work;

/// The front of a phrase of which the first alternative is taken: its mark, and the choice that is
/// to be aimed.
#[tactic(auto, unfolding(alma_lower_work::specs::Front::front))]
pub fn begin_first(work: &mut Work, line: u32) -> Result<(u32, u32), NoMemory>
    ensures mark { IfOk result (λ r. r.0 ≡ (front work.old).next) }
    ensures holes { IfOk result (λ r. BeginsChoice (front work.old) (front work.new) r.1
        (λ lo none. pieces.begin_first line lo none)) }
{
    work.emit.begin_first(line)
}

/// The front of FORALL: its mark, and its address, which is to be aimed.
#[tactic(auto, unfolding(alma_lower_work::specs::Front::front))]
pub fn begin_forall(work: &mut Work, line: u32) -> Result<(u32, u32), NoMemory>
    ensures mark { IfOk result (λ r. r.0 ≡ (front work.old).next) }
    ensures holes { IfOk result (λ r. BeginsChoice (front work.old) (front work.new) r.1
        (λ lo none. pieces.begin_forall line lo none)) }
{
    work.emit.begin_forall(line)
}

// What goes between the parts of FORALL: the mark of the body, and the overlay that is to be
// aimed.
#[tactic(auto, unfolding(alma_lower_work::specs::Front::front))]
fn begin_each(work: &mut Work, line: u32, mark: u32) -> Result<(u32, u32), NoMemory>
    ensures mark { IfOk result (λ r. r.0 ≡ (front work.old).next) }
    ensures holes { IfOk result (λ r. BeginsChoice (front work.old) (front work.new) r.1
        (λ lo none. pieces.begin_each line mark lo none)) }
{
    work.emit.begin_each(line, mark)
}

// Behind the body of FORALL, where the overlay is aimed.
#[tactic(auto, unfolding(alma_lower_work::specs::Front::front))]
fn end_each(work: &mut Work, line: u32, mark: u32, inner: u32, overlay: u32) -> Result<(), NoMemory>
    ensures { OnOk result (EndsEach (front work.old) (front work.new) line mark inner overlay) }
{
    work.emit.end_each(line, mark, inner, overlay)
}

// Behind FORALL, where it is aimed itself.
#[tactic(auto, unfolding(alma_lower_work::specs::Front::front))]
fn end_forall(work: &mut Work, line: u32, forall: u32) -> Result<(), NoMemory>
    ensures { OnOk result (EndsForall (front work.old) (front work.new) line forall) }
{
    work.emit.end_forall(line, forall)
}

/// Goes on behind the first part of FORALL, as `begin_each` does.
pub fn then_begin_each(
    work: &mut Work,
    done: Result<(), NoMemory>,
    line: u32,
    mark: u32,
) -> Result<(u32, u32), NoMemory>
    ensures done { OnOk result (IsOk done) }
    ensures mark { IfOk result (λ r. r.0 ≡ (front work.old).next) }
    ensures holes { IfOk result (λ r. BeginsChoice (front work.old) (front work.new) r.1
        (λ lo none. pieces.begin_each line mark lo none)) }
{
    done?;
    begin_each(work, line, mark)
}

/// Behind the body of FORALL, and behind the whole.
pub fn end_both(
    work: &mut Work,
    done: Result<(), NoMemory>,
    line: u32,
    mark: u32,
    each: (u32, u32),
    forall: u32,
) -> Result<(), NoMemory>
    ensures done { OnOk result (IsOk done) }
    ensures ends { OnOk result (EndsBoth line mark each.0 each.1 forall (front work.old)
        (front work.new)) }
{
    done?;
    end_each(work, line, mark, each.0, each.1)?;
    end_forall(work, line, forall)
}

/// The mark of COMMIT.
pub fn begin_commit(work: &mut Work, line: u32) -> Result<u32, NoMemory>
    ensures slot { IfOk result (λ mark. mark ≡ (front work.old).next) }
    ensures puts { IfOk result (λ mark. PutsSlot (front work.old) (front work.new) slot.Mark
        (own line (instr.Mark mark ∷ []))) }
{
    let mark = work.slot(SlotKind::Mark)?;
    work.put(line, Instr::Mark { to: mark })?;
    Ok(mark)
}

/// Behind an operand of OR that is not the last: no alternative of it is left, and the choice is
/// aimed.
pub fn end_first(
    work: &mut Work,
    done: Result<(), NoMemory>,
    line: u32,
    mark: u32,
    choice: u32,
) -> Result<(), NoMemory>
    ensures done { OnOk result (IsOk done) }
    ensures ends { OnOk result (PutsAimed (front work.old) (front work.new)
        (own line (instr.Cut mark ∷ [])) choice 1) }
{
    done?;
    work.put(line, Instr::Cut { mark })?;
    work.aim_behind(choice, 1)
}

/// Behind the operand of NOT: no alternative of it is left, and it fails; the choice is aimed.
pub fn end_not(
    work: &mut Work,
    done: Result<(), NoMemory>,
    line: u32,
    mark: u32,
    choice: u32,
) -> Result<(), NoMemory>
    ensures done { OnOk result (IsOk done) }
    ensures ends { OnOk result (PutsAimed (front work.old) (front work.new)
        (own line (instr.Cut mark ∷ instr.Fail ∷ [])) choice 0) }
{
    done?;
    work.put(line, Instr::Cut { mark })?;
    work.put(line, Instr::Fail)?;
    work.aim_behind(choice, 0)
}
