// A code in the making, with the lines that are still to be handed out.
ghost use Rattle.std.specs.Prelude.{◌≡◌, ◌+◌, ◌≤◌, ◌∷◌, [], length, get_or, drop, IfOk, IsOk, OnOk};
ghost use Rattle.alma_code.specs.declared.cell.SlotKind.TheVariants as slot;
ghost use Rattle.alma_base.specs.Limits.{instr_limit};
ghost use Rattle.alma_choice.specs.Emitted.{aim_jump};
ghost use Rattle.alma_lower_templates.specs.LineInstr.{own};
ghost use Rattle.alma_lower_templates.specs.Pieces.{place_code, straight};
ghost use Rattle.alma_lower_work.specs.Front.{front, Codes, Takes, Changes, Turns};

use alma_base::NoMemory;
use alma_choice::Emit;
use alma_code::{Instr, SlotKind};

/// What is emitted so far, and the lines of the statements of the routine in hand, of which so many
/// are handed out.
#[derive(Drop)]
pub struct Work {
    pub emit: Emit,
    pub lines: Vec<u32>,
    pub handed: usize,
}

impl Work {
    /// One more instruction, and its address.
    #[tactic(auto, unfolding(crate::specs::Front::front))]
    pub fn put(&mut self, line: u32, instr: Instr) -> Result<u32, NoMemory>
        ensures address { IfOk result (λ at. at ≡ length (front self.old).code) }
        ensures codes { OnOk result
            (Codes (front self.old) (front self.new) (own line (instr ∷ []))) }
    {
        self.emit.put(line, instr)
    }

    /// One more instruction.
    pub fn add(&mut self, line: u32, instr: Instr) -> Result<(), NoMemory>
        ensures { OnOk result (Codes (front self.old) (front self.new) (own line (instr ∷ []))) }
    {
        self.put(line, instr)?;
        Ok(())
    }

    /// One more instruction behind what was done before, and its address.
    pub fn then_put(
        &mut self,
        done: Result<(), NoMemory>,
        line: u32,
        instr: Instr,
    ) -> Result<u32, NoMemory>
        ensures done { OnOk result (IsOk done) }
        ensures address { IfOk result (λ at. at ≡ length (front self.old).code) }
        ensures codes { OnOk result
            (Codes (front self.old) (front self.new) (own line (instr ∷ []))) }
    {
        done?;
        self.put(line, instr)
    }

    /// One more instruction behind what was done before.
    pub fn then_add(
        &mut self,
        done: Result<(), NoMemory>,
        line: u32,
        instr: Instr,
    ) -> Result<(), NoMemory>
        ensures done { OnOk result (IsOk done) }
        ensures codes { OnOk result
            (Codes (front self.old) (front self.new) (own line (instr ∷ []))) }
    {
        done?;
        self.add(line, instr)
    }

    /// One more slot, and its number.
    #[tactic(auto, unfolding(crate::specs::Front::front))]
    pub fn slot(&mut self, kind: SlotKind) -> Result<u32, NoMemory>
        ensures slot { IfOk result (λ slot. slot ≡ (front self.old).next) }
        ensures takes { OnOk result (Takes (front self.old) (front self.new) kind) }
    {
        self.emit.slot(kind)
    }

    /// The number of the next slot.
    #[tactic(auto, unfolding(crate::specs::Front::front))]
    pub fn next(&self) -> u32
        ensures { result ≡ (front self.now).next }
    {
        self.emit.next
    }

    /// The address of the next instruction.
    #[tactic(auto, unfolding(crate::specs::Front::front))]
    pub fn here(&self) -> Result<u32, NoMemory>
        ensures address { IfOk result (λ at. at ≡ length (front self.now).code) }
        ensures small { IfOk result (λ at. at ≤ instr_limit) }
    {
        self.emit.here()
    }

    /// Aims the jump at an address at a target.
    #[tactic(auto, unfolding(crate::specs::Front::front))]
    pub fn aim(&mut self, at: u32, target: u32)
        ensures { Changes (front self.old) (front self.new) (λ xs. aim_jump xs at target) }
    {
        self.emit.aim(at, target);
    }

    /// Sends the number of the last instruction into another slot.
    #[tactic(auto, unfolding(crate::specs::Front::front))]
    pub fn redirect(&mut self, to: u32)
        ensures { Changes (front self.old) (front self.new) (λ xs. straight to xs) }
    {
        self.emit.redirect(to);
    }

    /// Sends the place of the last instruction into another slot.
    #[tactic(auto, unfolding(crate::specs::Front::front))]
    pub fn redirect_place(&mut self, to: u32)
        ensures { Changes (front self.old) (front self.new) (λ xs. place_code to xs) }
    {
        self.emit.redirect_place(to);
    }

    /// The line of the next statement, or 0 where none is left.
    #[tactic(auto, unfolding(crate::specs::Front::front))]
    pub fn next_line(&mut self) -> u32
        ensures line { result ≡ get_or (front self.old).lines 0 0 }
        ensures code { (front self.new).code ≡ (front self.old).code }
        ensures next { (front self.new).next ≡ (front self.old).next }
        ensures kinds { (front self.new).kinds ≡ (front self.old).kinds }
        ensures lines { (front self.new).lines ≡ drop 1 (front self.old).lines }
        ensures whole { (front self.new).all_lines ≡ (front self.old).all_lines }
    {
        if self.handed >= self.lines.len() {
            return 0;
        }
        let line = self.lines[self.handed];
        self.handed += 1;
        line
    }

    /// How many lines are handed out.
    #[tactic(auto, unfolding(crate::specs::Front::front))]
    pub fn position(&self) -> usize
        ensures { (front self.now).lines ≡ drop result (front self.now).all_lines }
    {
        self.handed
    }

    /// Goes on with the lines behind so many.
    #[tactic(auto, unfolding(crate::specs::Front::front))]
    pub fn go_to(&mut self, handed: usize)
        ensures code { (front self.new).code ≡ (front self.old).code }
        ensures next { (front self.new).next ≡ (front self.old).next }
        ensures kinds { (front self.new).kinds ≡ (front self.old).kinds }
        ensures lines { (front self.new).lines ≡ drop handed (front self.old).all_lines }
        ensures whole { (front self.new).all_lines ≡ (front self.old).all_lines }
    {
        self.handed = handed;
    }

    /// The address so far behind the next instruction.
    pub fn behind(&self, skip: u32) -> Result<u32, NoMemory>
        ensures { IfOk result (λ at. at ≡ length (front self.now).code + skip) }
    {
        self.here()?.checked_add(skip).ok_or(NoMemory)
    }

    /// Aims the jump at an address so far behind the next instruction.
    pub fn aim_behind(&mut self, at: u32, skip: u32) -> Result<(), NoMemory>
        ensures { OnOk result (Changes (front self.old) (front self.new)
            (λ xs. aim_jump xs at (length (front self.old).code + skip))) }
    {
        let target = self.behind(skip)?;
        self.aim(at, target);
        Ok(())
    }

    /// Aims the jump at an address so far behind what was done before.
    pub fn then_aim(
        &mut self,
        done: Result<(), NoMemory>,
        at: u32,
        skip: u32,
    ) -> Result<(), NoMemory>
        ensures done { OnOk result (IsOk done) }
        ensures aims { OnOk result (Changes (front self.old) (front self.new)
            (λ xs. aim_jump xs at (length (front self.old).code + skip))) }
    {
        done?;
        self.aim_behind(at, skip)
    }

    /// Passes so many lines.
    #[tactic(auto, unfolding(crate::specs::Front::front))]
    pub fn pass(&mut self, count: usize) -> Result<(), NoMemory>
        ensures { OnOk result (Turns (front self.old) (front self.new)
            (drop count (front self.old).lines)) }
    {
        self.handed = self.handed.checked_add(count).ok_or(NoMemory)?;
        Ok(())
    }
}

/// A slot, where all is done of which it has the number.
pub fn slot_of(done: Result<(), NoMemory>, slot: u32) -> Result<u32, NoMemory>
    ensures slot { IfOk result (λ given. given ≡ slot) }
    ensures done { OnOk result (IsOk done) }
{
    done?;
    Ok(slot)
}
