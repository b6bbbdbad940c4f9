// Roots of designators, and links to the frames round the one in hand.
ghost use Rattle.std.specs.Prelude.{◌≡◌, ◌+◌, IfOk, OnOk};
ghost use Rattle.alma_lower_templates.specs.LineInstr.{own};
ghost use Rattle.alma_lower_templates.specs.Pieces.{link_code};
ghost use Rattle.alma_lower_templates.specs.Slots.{chain_slots, root_slots};
ghost use Rattle.alma_lower_templates.specs.Templates.{root_code};
ghost use Rattle.alma_lower_work.specs.Front.{around, front, Adds};

use crate::scene::Scene;
use crate::work::Work;
use alma_base::NoMemory;
use alma_code::{Instr, SlotKind};
use alma_ir::Root;

/// Links to the frames on the way so many links up; the slot of the last.
pub fn put_links(work: &mut Work, scene: &Scene<'_>, line: u32, links: u32) -> Result<u32, NoMemory>
    ensures slot { IfOk result (λ slot. slot ≡ (front work.old).next + links) }
    ensures puts { OnOk result (Adds (front work.old) (front work.new)
        (λ at lo ls. own line (link_code lo links))
        (λ ls. chain_slots (around scene.now).program (around scene.now).routine links)
        (λ ls. ls)) }
{
    let mut routine = scene.routine;
    let mut link = work.slot(SlotKind::Link(routine))?;
    work.put(line, Instr::Own { to: link })?;
    for _ in 0..links {
        routine = scene.outer(routine);
        let next = work.slot(SlotKind::Link(routine))?;
        work.put(
            line,
            Instr::Chain {
                to: next,
                link,
                slot: 0,
            },
        )?;
        link = next;
    }
    Ok(link)
}

/// The place of a root, in the slot before the next.
pub fn put_root(
    work: &mut Work,
    scene: &Scene<'_>,
    line: u32,
    to: u32,
    root: Root,
) -> Result<(), NoMemory>
    ensures { (front work.old).next ≡ to + 1 → OnOk result (Adds (front work.old) (front work.new)
        (λ at lo ls. own line (root_code (around scene.now).program (around scene.now).tables
        (around scene.now).routine to root))
        (λ ls. root_slots (around scene.now).program (around scene.now).routine root) (λ ls. ls)) }
{
    match root {
        Root::Local(from) => {
            let first = scene.own_slot(from)?;
            work.add(line, Instr::Local { to, first })
        }
        Root::Global(first) => work.add(line, Instr::Global { to, first }),
        Root::Param(from) => {
            let from = scene.own_slot(from)?;
            work.add(line, Instr::Same { to, from })
        }
        Root::Outer(links, from) => {
            let first = scene.slot_in(scene.outermost(links), from)?;
            let link = put_links(work, scene, line, links)?;
            work.add(line, Instr::Outer { to, link, first })
        }
        Root::OuterParam(links, from) => {
            let slot = scene.slot_in(scene.outermost(links), from)?;
            let link = put_links(work, scene, line, links)?;
            work.add(line, Instr::OuterSame { to, link, slot })
        }
    }
}
