// Names resolved to watches.
ghost use Rattle.std.specs.Prelude.{◌≡◌, ◌<◌, ◌++◌, length, map, All, IfOk, OnOk};
ghost use Rattle.alma_code.specs.Plain.{kinds_at};
ghost use Rattle.alma_code.specs.Rules.{IsSound};
ghost use Rattle.alma_code.specs.TraceText.{same_name, value_of_name};
ghost use Rattle.alma_object.specs.View.{code_of_view};
ghost use Rattle.alma_trace.specs.Places.{main_slots};
ghost use Rattle.alma_trace.specs.Resolved.{IsResolved, place_of_name};

use crate::watch::{Watch, push_value};
use alma_base::NoMemory;
use alma_memory::MachineMemory;
use alma_object::ObjectView;
use std::alloc::Global;

// Two names are alike.
#[tactic(auto, using(crate::proofs::Resolving::same_is))]
fn is_same(first: &[u8], second: &[u8]) -> bool
    ensures { result ≡ same_name first.now second.now }
{
    first == second
}

// The slot and the cells of the first global with a name.
fn place_of(view: &ObjectView<'_>, name: &[u8]) -> Option<(u32, u32)>
    ensures { result ≡ place_of_name (code_of_view view.now).globals name.now }
{
    for i in 0..view.global_count() {
        let Some(global) = view.global(i) else {
            return None;
        };
        if is_same(global.name, name) {
            return Some((global.slot, global.cells));
        }
    }
    None
}

/// The watches of names, in their order: each has the place of the first global of the object with
/// its name. It goes over the globals once for each name.
pub fn watches<'w>(
    alloc: Global,
    view: &ObjectView<'_>,
    names: &[&'w [u8]],
) -> Result<Vec<Watch<'w>>, NoMemory>
    ensures names { IfOk result (λ watches. map (λ watch. watch.name.now) watches.items
        ≡ map (λ name. name.now) names.now) }
    ensures resolved { IfOk result (λ watches.
        All (IsResolved (code_of_view view.now)) watches.items) }
{
    let mut watches = Vec::new(alloc);
    for name in names {
        watches.push(Watch {
            name,
            at: place_of(view, name),
        })?;
    }
    Ok(watches)
}

/// Appends the value of the first global of the object with a name, as it is watched, and - where
/// there is none.
pub fn push_named<M: MachineMemory>(
    line: &mut Vec<u8>,
    memory: &M,
    view: &ObjectView<'_>,
    name: &[u8],
) -> Result<(), NoMemory>
    requires sound { IsSound (code_of_view view.now) }
    requires live { 0 < length (M.picture memory.now).now }
    requires slots { main_slots (M.picture memory.now).now
        ≡ length (kinds_at (code_of_view view.now) 0) }
    ensures { OnOk result (line.new.items ≡ line.old.items
        ++ value_of_name (M.picture memory.now).now (code_of_view view.now).globals name.now) }
{
    push_value(line, memory, place_of(view, name))
}
