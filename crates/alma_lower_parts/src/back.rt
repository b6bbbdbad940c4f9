// The constant of a comparison that stands behind the body of WHILE: it is put once, before the
// loop.
ghost use Rattle.std.specs.Prelude.{◌∷◌, [], IfOk, OnOk};
ghost use Rattle.alma_code.specs.declared.cell.SlotKind.TheVariants as slot;
ghost use Rattle.alma_code.specs.declared.instr.Instr.TheVariants as instr;
ghost use Rattle.alma_ir.specs.View.{expr_of};
ghost use Rattle.alma_lower_templates.specs.LineInstr.{own};
ghost use Rattle.alma_lower_templates.specs.Pieces as pieces;
ghost use Rattle.alma_lower_templates.specs.Slots as slots;
ghost use Rattle.alma_lower_work.specs.Front.{front};
ghost use Rattle.alma_lower_parts.specs.Steps.{HoldsConstant, PutsSlot};

use alma_base::NoMemory;
use alma_code::{Instr, SlotKind};
use alma_ir::{Cmp, Expr};
use alma_lower_work::{FirstOperand, Work, constant, put_back};

/// A second operand that is a constant goes into a slot of its own; that slot.
pub fn put_held(work: &mut Work, line: u32, expr: &Expr) -> Result<Option<u32>, NoMemory>
    ensures { IfOk result (λ held. HoldsConstant line (front work.old) (front work.new)
        (slots.constant (expr_of expr.now)) held) }
{
    match constant(expr) {
        Some(value) => {
            let held = work.slot(SlotKind::Number)?;
            work.put(line, Instr::Const { to: held, value })?;
            Ok(Some(held))
        }
        None => Ok(None),
    }
}

/// The end of a comparison with a constant that is held: the slot of the operand itself is taken,
/// and stays unused.
pub fn put_held_back(
    work: &mut Work,
    line: u32,
    how: Cmp,
    first: FirstOperand,
    held: u32,
    top: u32,
) -> Result<(), NoMemory>
    ensures { OnOk result (PutsSlot (front work.old) (front work.new) slot.Number (own line
        (pieces.opposite_code how first.to first.from held ∷ instr.JumpZero first.to top ∷ []))) }
{
    work.slot(SlotKind::Number)?;
    put_back(work, line, how, first, held, top)
}
