// Links to frames, and what they lead to.
ghost use Rattle.std.specs.Prelude.{◌≡◌, ◌<◌, ℕ};
ghost use Rattle.alma_code.specs.Machine.{State, link, slot_in, as_place, put_link, put_place};
ghost use Rattle.alma_machine_acts.specs.Acts.{Acts};
ghost use Rattle.alma_machine_acts.specs.Rows.{state_of, HasPlaceIn, HasLink, HasLinkTo, LeadsTo, GivesHeld, GivesLink, point_or_fault, link_or_fault};

use crate::places::Spot;
use crate::registers::Registers;
use alma_base::{NoMemory, RunFault};
use alma_code::{Cell, CellPlace, End, Step};
use alma_memory::MachineMemory;

impl<M: MachineMemory> Registers<M> {
    // The place or the link in a slot of a frame.
    #[tactic(auto, using(crate::proofs::Held::helds))]
    fn held(&self, frame: u32, slot: u32) -> Result<CellPlace, RunFault>
        requires { HasPlaceIn (M.picture self.now.memory).now frame slot }
        ensures { GivesHeld (M.picture self.now.memory).now frame slot result }
    {
        match self.memory.read(frame, slot) {
            Cell::Place(place) => Ok(place),
            Cell::Unset => Err(RunFault::Unknown),
            Cell::Unknown | Cell::Int(_) | Cell::Mark(_) => unreachable!(),
        }
    }

    /// The frame that the link in a slot names.
    #[tactic(auto, using(crate::proofs::Held::links))]
    pub(crate) fn link(&self, slot: u32) -> Result<u32, RunFault>
        requires { HasLink (M.picture self.now.memory).now slot }
        ensures { GivesLink (M.picture self.now.memory).now slot result }
    {
        match self.memory.top(slot) {
            Cell::Place(place) => Ok(place.frame),
            Cell::Unset => Err(RunFault::Unknown),
            Cell::Unknown | Cell::Int(_) | Cell::Mark(_) => unreachable!(),
        }
    }

    /// Puts a link to a frame into a slot, or ends the run in its fault.
    #[tactic(auto, using(crate::proofs::Held::put_links))]
    pub fn put_link(&mut self, to: u32, frame: Result<u32, RunFault>) -> Result<Step, NoMemory>
        requires { HasLinkTo (M.picture self.old.memory).now to }
        ensures { Acts M.picture self.old self.new result
            (link_or_fault (state_of M.picture self.old) to frame) }
    {
        match frame {
            Ok(frame) => {
                let link = CellPlace {
                    frame,
                    slot: 0,
                    len: 0,
                };
                self.write(to, Cell::Place(link))
            }
            Err(fault) => Ok(self.end(End::Fault(fault))),
        }
    }

    /// The frame that the link in a slot of a frame names to which a link leads.
    pub fn chained(&self, of: u32, slot: u32) -> Result<u32, RunFault>
        requires of { HasLink (M.picture self.now.memory).now of }
        requires leads { LeadsTo (M.picture self.now.memory).now of slot }
        ensures { (to : ℕ) (s : State) → s.now ≡ (M.picture self.now.memory).now
            → link s of (λ f. as_place (slot_in s f slot) s (λ p. put_link s to p.frame))
            ≡ link_or_fault s to result }
    {
        let frame = self.link(of)?;
        let place = self.held(frame, slot)?;
        Ok(place.frame)
    }

    /// Where the cells of the frame begin to which a link leads.
    pub fn outer(&self, of: u32, first: u32) -> Result<Spot, RunFault>
        requires of { HasLink (M.picture self.now.memory).now of }
        ensures { (to : ℕ) (s : State) → s.now ≡ (M.picture self.now.memory).now
            → link s of (λ f. put_place s to f (λ _. first)) ≡ point_or_fault s to result }
    {
        let frame = self.link(of)?;
        Ok(Spot { frame, slot: first })
    }

    /// Where the place in a slot of a frame begins to which a link leads.
    pub fn outer_whole(&self, of: u32, slot: u32) -> Result<Spot, RunFault>
        requires of { HasLink (M.picture self.now.memory).now of }
        requires leads { LeadsTo (M.picture self.now.memory).now of slot }
        ensures { (to : ℕ) (s : State) → s.now ≡ (M.picture self.now.memory).now
            → link s of (λ f. as_place (slot_in s f slot) s (λ p. put_place s to p.frame
            (λ _. p.slot))) ≡ point_or_fault s to result }
    {
        let frame = self.link(of)?;
        let place = self.held(frame, slot)?;
        Ok(Spot {
            frame: place.frame,
            slot: place.slot,
        })
    }
}
