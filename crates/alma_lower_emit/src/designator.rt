// The code of designators.
ghost use Rattle.std.specs.Prelude.{◌≡◌, IfOk, OnOk};
ghost use Rattle.alma_ir.specs.View.{desig_of, sel_of, sels_list};
ghost use Rattle.alma_ir.specs.Lines.{desig_with, sels_with, sel_with};
ghost use Rattle.alma_lower_templates.specs.Templates.{held_at, place_at, part_at, part_slot};
ghost use Rattle.alma_lower_work.specs.Front.{around, front};
ghost use Rattle.alma_lower_work.specs.Puts.{PutsDesig, PutsHeld, PutsPlace, PutsTarget, PutsSels, PutsSel};
ghost use Rattle.alma_lower_work.specs.Puts.{stand_of};
ghost use Rattle.alma_lower_emit.specs.Inside.{EmitsStmts};

use crate::expression::emit_value;
use crate::plain::{element_of, hand_own, place_of};
use alma_base::NoMemory;
use alma_ir::{Desig, Sel, Stmt};
use alma_lower_parts::{
    Scene, Stand, Work, begin_place, emit_field, hold_at, own_place, own_stand, stand_at,
};

/// The place of a designator.
#[cycle(emit)]
pub fn emit_desig<S>(
    work: &mut Work,
    scene: &Scene<'_>,
    line: u32,
    desig: &Desig,
    inside: &S,
) -> Result<u32, NoMemory>
where
    S: for<'a, 'b, 'c, 'd> Fn(&'a mut Work, &'b Scene<'c>, &'d [Stmt]) -> Result<(), NoMemory>,
    requires emits { EmitsStmts (S.IsAlwaysCallable inside.now) (S.post inside.now) }
    ensures place { IfOk result (λ place. place ≡ place_at (around scene.now).program
        (around scene.now).tables (around scene.now).routine (front work.old).next (desig_with
        (desig_of desig.now) (front work.old).lines)) }
    ensures puts { OnOk result (PutsDesig (around scene.now) line
        (front work.old) (front work.new) (desig_of desig.now)) }
{
    let to = begin_place(work, scene, line, desig)?;
    emit_sels(work, scene, line, to, &desig.sels, inside)
}

/// The place of a designator that is used: that of a parameter stands in its own slot.
#[cycle(emit)]
pub fn emit_held<S>(
    work: &mut Work,
    scene: &Scene<'_>,
    line: u32,
    desig: &Desig,
    inside: &S,
) -> Result<u32, NoMemory>
where
    S: for<'a, 'b, 'c, 'd> Fn(&'a mut Work, &'b Scene<'c>, &'d [Stmt]) -> Result<(), NoMemory>,
    requires emits { EmitsStmts (S.IsAlwaysCallable inside.now) (S.post inside.now) }
    ensures place { IfOk result (λ place. place ≡ held_at (around scene.now).program
        (around scene.now).tables (around scene.now).routine (front work.old).next (desig_with
        (desig_of desig.now) (front work.old).lines)) }
    ensures puts { OnOk result (PutsHeld (around scene.now) line
        (front work.old) (front work.new) (desig_of desig.now)) }
{
    match own_place(scene, desig)? {
        Some(from) => hold_at(work, desig.cells, from),
        None => emit_desig(work, scene, line, desig, inside),
    }
}

/// The place of a designator that is handed over, into the slot of an argument.
#[cycle(emit)]
pub fn emit_place<S>(
    work: &mut Work,
    scene: &Scene<'_>,
    line: u32,
    to: u32,
    desig: &Desig,
    inside: &S,
) -> Result<(), NoMemory>
where
    S: for<'a, 'b, 'c, 'd> Fn(&'a mut Work, &'b Scene<'c>, &'d [Stmt]) -> Result<(), NoMemory>,
    requires emits { EmitsStmts (S.IsAlwaysCallable inside.now) (S.post inside.now) }
    ensures puts { OnOk result (PutsPlace (around scene.now) line to
        (front work.old) (front work.new) (desig_of desig.now)) }
{
    match own_place(scene, desig)? {
        Some(from) => hand_own(work, line, desig.cells, to, from),
        None => {
            let made = emit_desig(work, scene, line, desig, inside);
            place_of(work, to, made)
        }
    }
}

/// Where a variable stands that is written.
pub fn emit_target<S>(
    work: &mut Work,
    scene: &Scene<'_>,
    line: u32,
    desig: &Desig,
    inside: &S,
) -> Result<Stand, NoMemory>
where
    S: for<'a, 'b, 'c, 'd> Fn(&'a mut Work, &'b Scene<'c>, &'d [Stmt]) -> Result<(), NoMemory>,
    requires emits { EmitsStmts (S.IsAlwaysCallable inside.now) (S.post inside.now) }
    ensures stand { IfOk result (λ stand. stand ≡ stand_of (around scene.now)
        (front work.old).next (desig_with (desig_of desig.now) (front work.old).lines)) }
    ensures puts { OnOk result (PutsTarget (around scene.now) line
        (front work.old) (front work.new) (desig_of desig.now)) }
{
    match own_stand(scene, desig)? {
        Some(slot) => Ok(Stand::Own(slot)),
        None => stand_at(emit_held(work, scene, line, desig, inside)),
    }
}

// Selectors, from a place on; the place of the last part.
#[cycle(emit)]
fn emit_sels<S>(
    work: &mut Work,
    scene: &Scene<'_>,
    line: u32,
    from: u32,
    sels: &[Sel],
    inside: &S,
) -> Result<u32, NoMemory>
where
    S: for<'a, 'b, 'c, 'd> Fn(&'a mut Work, &'b Scene<'c>, &'d [Stmt]) -> Result<(), NoMemory>,
    requires emits { EmitsStmts (S.IsAlwaysCallable inside.now) (S.post inside.now) }
    ensures place { IfOk result (λ place. place ≡ part_at (around scene.now).program
        (around scene.now).tables (around scene.now).routine from (front work.old).next (sels_with
        (sels_list sels.now) (front work.old).lines)) }
    ensures puts { OnOk result (PutsSels (around scene.now) line from
        (front work.old) (front work.new) (sels_list sels.now)) }
{
    let mut place = from;
    for sel in sels {
        place = emit_sel(work, scene, line, place, sel, inside)?;
    }
    Ok(place)
}

// A selector; the place of its part.
#[cycle(emit)]
fn emit_sel<S>(
    work: &mut Work,
    scene: &Scene<'_>,
    line: u32,
    from: u32,
    sel: &Sel,
    inside: &S,
) -> Result<u32, NoMemory>
where
    S: for<'a, 'b, 'c, 'd> Fn(&'a mut Work, &'b Scene<'c>, &'d [Stmt]) -> Result<(), NoMemory>,
    requires emits { EmitsStmts (S.IsAlwaysCallable inside.now) (S.post inside.now) }
    ensures part { IfOk result (λ part. part ≡ part_slot (around scene.now).program
        (around scene.now).tables (around scene.now).routine (front work.old).next (sel_with
        (sel_of sel.now) (front work.old).lines)) }
    ensures puts { OnOk result (PutsSel (around scene.now) line from
        (front work.old) (front work.new) (sel_of sel.now)) }
{
    match sel {
        Sel::Field(offset, cells) => emit_field(work, scene, line, from, *offset, *cells),
        Sel::Index(index, range, cells) => {
            let number = emit_value(work, scene, line, index, inside);
            element_of(work, scene, line, from, number, *range, *cells)
        }
    }
}
