// What is handed over at a call.
ghost use Rattle.std.specs.Prelude.{◌≡◌, [], IfOk, OnOk};
ghost use Rattle.alma_ir.specs.Checked.{sel_cells};
ghost use Rattle.alma_ir.specs.View.{arg_of, args_list, desig_of, sel_of};
ghost use Rattle.alma_lower_templates.specs.LineInstr.{own};
ghost use Rattle.alma_lower_templates.specs.Slots.{arg_kind, call_links, desig_cells, handed_slots, shift_of};
ghost use Rattle.alma_lower_templates.specs.Templates.{call_link_code};
ghost use Rattle.alma_lower_work.specs.Front.{around, front, Adds};
ghost use Rattle.alma_lower_work.specs.Puts.{first_of_call, first_slot, link_slot};
ghost use Rattle.alma_lower_parts.specs.Steps.{BeginsCall, TakesResult};

use alma_base::NoMemory;
use alma_code::SlotKind;
use alma_ir::{Arg, Desig, Sel};
use alma_lower_work::{Scene, Work, put_links};

// The link that is handed over, where the called routine has one, and its slot.
fn put_call_link(
    work: &mut Work,
    scene: &Scene<'_>,
    line: u32,
    called: u32,
    up: u32,
) -> Result<Option<u32>, NoMemory>
    ensures link { IfOk result (λ link. link
        ≡ link_slot (shift_of (around scene.now).program called)
        up (front work.old).next) }
    ensures puts { OnOk result (Adds (front work.old) (front work.new)
        (λ at lo ls. own line (call_link_code (around scene.now).program (around scene.now).tables
        (around scene.now).routine called up lo))
        (λ ls. call_links (around scene.now).program (around scene.now).routine called up)
        (λ ls. ls)) }
{
    if scene.shift(called) == 0 {
        return Ok(None);
    }
    Ok(Some(put_links(work, scene, line, up)?))
}

// The cells of the place that a designator names.
#[tactic(auto, using(crate::proofs::Calling::cells_one))]
fn cells_of(desig: &Desig) -> u32
    ensures { result ≡ desig_cells (desig_of desig.now) }
{
    let mut cells = desig.cells;
    for sel in &desig.sels {
        cells = part_cells(sel);
    }
    cells
}

// The cells of the part that a selector takes.
#[tactic(auto, using(alma_ir::proofs::Views::viewed))]
fn part_cells(sel: &Sel) -> u32
    ensures { result ≡ sel_cells (sel_of sel.now) }
{
    match sel {
        Sel::Field(_, cells) => *cells,
        Sel::Index(_, _, cells) => *cells,
    }
}

// The kind of the slot in which an argument is handed over.
#[tactic(auto, using(alma_ir::proofs::Views::viewed))]
fn kind_of(arg: &Arg) -> SlotKind
    ensures { result ≡ arg_kind (arg_of arg.now) }
{
    match arg {
        Arg::Value(_, _) => SlotKind::Number,
        Arg::MixValue(_, _) => SlotKind::Number,
        Arg::Cells(desig) => SlotKind::Place(cells_of(desig)),
        Arg::Place(desig) => SlotKind::Place(cells_of(desig)),
        Arg::MixPlace(desig) => SlotKind::Place(cells_of(desig)),
    }
}

// The slots in which the arguments are handed over; the first.
fn take_handed(work: &mut Work, args: &[Arg]) -> Result<u32, NoMemory>
    ensures first { IfOk result (λ first. first ≡ (front work.old).next) }
    ensures puts { OnOk result (Adds (front work.old) (front work.new) (λ at lo ls. [])
        (λ ls. handed_slots (args_list args.now)) (λ ls. ls)) }
{
    let first = work.next();
    for arg in args {
        work.slot(kind_of(arg))?;
    }
    Ok(first)
}

// The slot of the first of what is handed over: the link, or the first argument, or 0 where
// nothing is.
fn first_handed(link: Option<u32>, args: &[Arg], to: u32) -> u32
    ensures { result ≡ first_of_call link (args_list args.now) to }
{
    match link {
        Some(slot) => slot,
        None => { if args.is_empty() { 0 } else { to } }
    }
}

/// The slot of the first of what is handed over, or 0 where nothing is, and that of the first
/// argument.
#[derive(Clone, Copy)]
pub struct Handover {
    pub first: u32,
    pub to: u32,
}

/// The link of a call, and the slots of its arguments.
pub fn begin_call(
    work: &mut Work,
    scene: &Scene<'_>,
    line: u32,
    called: u32,
    up: u32,
    args: &[Arg],
) -> Result<Handover, NoMemory>
    ensures first { IfOk result (λ handed. handed.first ≡ first_slot (around scene.now) called up
        (front work.old).next (args_list args.now)) }
    ensures begins { IfOk result (λ handed. BeginsCall (around scene.now) line called up
        (front work.old) (front work.new) (args_list args.now) handed.to) }
{
    let link = put_call_link(work, scene, line, called, up)?;
    let to = take_handed(work, args)?;
    let first = first_handed(link, args, to);
    Ok(Handover { first, to })
}

/// The slot of the result of a function, and that of the mark of its call.
pub fn take_result(work: &mut Work) -> Result<(u32, u32), NoMemory>
    ensures { IfOk result (λ r. TakesResult (front work.old) (front work.new) r.0 r.1) }
{
    let to = work.slot(SlotKind::Number)?;
    let mark = work.slot(SlotKind::Mark)?;
    Ok((to, mark))
}
