// Copies of cells.
ghost use Rattle.std.specs.Prelude.{◌≡◌, ◌≤◌, All, length, IfOk};
ghost use Rattle.alma_code.specs.Fits.{IsContent};
ghost use Rattle.alma_code.specs.Machine.{place, copies_cells};
ghost use Rattle.alma_machine_acts.specs.Acts.{Acts, Makes};
ghost use Rattle.alma_machine_acts.specs.Copies.{cells_from, lay};
ghost use Rattle.alma_machine_acts.specs.Rows.{state_of, HasCells, width, AreNumbers};

use crate::places::Spot;
use crate::registers::Registers;
use alma_base::NoMemory;
use alma_code::{Cell, End, Step};
use alma_memory::MachineMemory;

// So many cells of a frame, from one on.
fn cells<M: MachineMemory>(
    registers: &Registers<M>,
    from: Spot,
    count: u32,
) -> Result<Vec<Cell>, NoMemory>
    requires { AreNumbers (M.picture registers.now.memory).now from.frame from.slot count }
    ensures { IfOk result (λ cells. cells.items
        ≡ cells_from (M.picture registers.now.memory).now from.frame from.slot count) }
{
    let mut cells = Vec::new(registers.alloc);
    for k in 0..count {
        cells.push(registers.memory.read(from.frame, from.slot + k))?;
    }
    Ok(cells)
}

// The cells of a frame from one on get these, where there is room to note that.
fn lay<M: MachineMemory>(registers: &mut Registers<M>, to: Spot, cells: &[Cell]) -> Step
    requires to { AreNumbers (M.picture registers.old.memory).now to.frame to.slot
        (length cells.now) }
    requires contents { All IsContent cells.now }
    requires room { length cells.now ≤ (M.picture registers.old.memory).trail_room }
    ensures { Makes M.picture registers.old registers.new result
        (lay cells.now (state_of M.picture registers.old) to.frame to.slot) }
{
    for k in 0..cells.len() {
        let written = registers
            .memory
            .write(to.frame, to.slot + k as u32, cells[k]);
        match written {
            Ok(()) => (),
            Err(_) => unreachable!(),
        }
    }
    Step::Went
}

// So many cells are copied, all at once.
#[tactic(auto, using(crate::proofs::Copying::copies))]
fn copy<M: MachineMemory>(
    registers: &mut Registers<M>,
    to: Spot,
    from: Spot,
    count: u32,
) -> Result<Step, NoMemory>
    requires to { AreNumbers (M.picture registers.old.memory).now to.frame to.slot count }
    requires from { AreNumbers (M.picture registers.old.memory).now from.frame from.slot count }
    ensures { let s = state_of M.picture registers.old in
        Acts M.picture registers.old registers.new result
        (copies_cells count s.now s to.frame to.slot from.frame from.slot) }
{
    let cells = cells(registers, from, count)?;
    registers.memory.reserve(0, count as usize)?;
    Ok(lay(registers, to, cells.as_slice()))
}

/// Copies the cells at the place in a slot to those at the place in another, all at once.
#[tactic(auto, using(crate::proofs::Meetings::numbers_of))]
pub fn copy_cells<M: MachineMemory>(
    registers: &mut Registers<M>,
    to: u32,
    from: u32,
) -> Result<Step, NoMemory>
    requires to { HasCells (M.picture registers.old.memory).now to }
    requires from { HasCells (M.picture registers.old.memory).now from }
    requires alike { width (M.picture registers.old.memory).now to
        ≡ width (M.picture registers.old.memory).now from }
    ensures { let s = state_of M.picture registers.old in
        Acts M.picture registers.old registers.new result
        (place s to (λ p. place s from
        (λ q. copies_cells p.len s.now s p.frame p.slot q.frame q.slot))) }
{
    let to = match registers.place(to) {
        Ok(place) => place,
        Err(fault) => return Ok(registers.end(End::Fault(fault))),
    };
    let from = match registers.place(from) {
        Ok(place) => place,
        Err(fault) => return Ok(registers.end(End::Fault(fault))),
    };
    let first = Spot {
        frame: to.frame,
        slot: to.slot,
    };
    let second = Spot {
        frame: from.frame,
        slot: from.slot,
    };
    copy(registers, first, second, to.len)
}
