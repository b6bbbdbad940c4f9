// Instructions with their lines, slots, and jumps that are aimed late.
ghost use Rattle.std.specs.Prelude.{◌≡◌, ◌+◌, [], ◌∷◌, ◌≤◌, length, IfOk, OnOk, OnErr};
ghost use Rattle.alma_code.specs.declared.instr.Instr.TheVariants as instr;
ghost use Rattle.alma_code.specs.declared.cell.SlotKind.TheVariants as slot;
ghost use Rattle.alma_lower_templates.specs.LineInstr.{own};
ghost use Rattle.alma_lower_templates.specs.Pieces as pieces;
ghost use Rattle.alma_base.specs.Limits.{instr_limit};
ghost use Rattle.alma_choice.specs.Emitted.{made, with_target, Appends, Aims, ChangesLast, EndsEach, EndsForall, HasSlotRoom, IsAsBefore};

use alma_base::{INSTR_LIMIT, NoMemory, SLOT_LIMIT};
use alma_code::{Instr, SlotKind};
use std::alloc::Global;

/// The instructions of one code, each with its line, the number of the next slot of the routine in
/// hand, and the kinds of the slots that were taken, over all routines in order.
#[derive(Drop)]
pub struct Emit {
    pub code: Vec<(Instr, u32)>,
    pub next: u32,
    pub kinds: Vec<SlotKind>,
}

impl Emit {
    /// No code and no slots yet.
    pub fn new(alloc: Global) -> Emit
        ensures code { result.code.items ≡ [] }
        ensures kinds { result.kinds.items ≡ [] }
        ensures next { result.next ≡ 0 }
    {
        Emit {
            code: Vec::new(alloc),
            next: 0,
            kinds: Vec::new(alloc),
        }
    }

    /// Begins a routine that has so many slots before those that it takes here.
    pub fn start(&mut self, slots: u32)
        ensures code { self.new.code.items ≡ self.old.code.items }
        ensures kinds { self.new.kinds.items ≡ self.old.kinds.items }
        ensures next { self.new.next ≡ slots }
    {
        self.next = slots;
    }

    // All of these instructions or none, and the address of the first.
    fn put_all(&mut self, line: u32, instrs: &[Instr]) -> Result<u32, NoMemory>
        ensures address { IfOk result (λ at. at ≡ length (made self.old)) }
        ensures small { IfOk result (λ at. at + length instrs.now ≤ instr_limit) }
        ensures puts { OnOk result (Appends self.old self.new (own line instrs.now) []) }
        ensures kinds { self.new.kinds ≡ self.old.kinds }
        ensures next { self.new.next ≡ self.old.next }
        ensures refused { OnErr result (IsAsBefore self.old self.new) }
    {
        let at = self.code.len();
        if at + instrs.len() > INSTR_LIMIT as usize {
            return Err(NoMemory);
        }
        self.code.reserve(instrs.len())?;
        for i in 0..instrs.len() {
            match self.code.push((instrs[i], line)) {
                Ok(()) => (),
                Err(_) => unreachable!(),
            }
        }
        Ok(at as u32)
    }

    // Room for one more slot.
    fn reserve_slot(&mut self) -> Result<(), NoMemory>
        ensures same { IsAsBefore self.old self.new }
        ensures room { OnOk result (HasSlotRoom self.new) }
    {
        if self.next >= SLOT_LIMIT {
            return Err(NoMemory);
        }
        self.kinds.reserve(1)?;
        Ok(())
    }

    // One more slot, for which there is room, and its number.
    fn take_slot(&mut self, kind: SlotKind) -> u32
        requires { HasSlotRoom self.old }
        ensures slot { result ≡ self.old.next }
        ensures takes { Appends self.old self.new [] (kind ∷ []) }
    {
        let slot = self.next;
        match self.kinds.push(kind) {
            Ok(()) => (),
            Err(_) => unreachable!(),
        }
        self.next += 1;
        slot
    }

    // A mark slot, which is the next slot, and all of these instructions, or neither; and the
    // address of the first.
    fn put_marked(&mut self, line: u32, instrs: &[Instr]) -> Result<u32, NoMemory>
        ensures address { IfOk result (λ at. at ≡ length (made self.old)) }
        ensures small { IfOk result (λ at. at + length instrs.now ≤ instr_limit) }
        ensures puts { OnOk result
            (Appends self.old self.new (own line instrs.now) (slot.Mark ∷ [])) }
        ensures refused { OnErr result (IsAsBefore self.old self.new) }
    {
        self.reserve_slot()?;
        let at = self.put_all(line, instrs)?;
        self.take_slot(SlotKind::Mark);
        Ok(at)
    }

    /// One more instruction, and its address. At the limit of instructions this is NoMemory.
    pub fn put(&mut self, line: u32, instr: Instr) -> Result<u32, NoMemory>
        ensures address { IfOk result (λ at. at ≡ length (made self.old)) }
        ensures puts { OnOk result (Appends self.old self.new (own line (instr ∷ [])) []) }
        ensures refused { OnErr result (IsAsBefore self.old self.new) }
    {
        self.put_all(line, &[instr])
    }

    /// One more slot, and its number. At the limit of slots this is NoMemory.
    pub fn slot(&mut self, kind: SlotKind) -> Result<u32, NoMemory>
        ensures slot { IfOk result (λ slot. slot ≡ self.old.next) }
        ensures puts { OnOk result (Appends self.old self.new [] (kind ∷ [])) }
        ensures refused { OnErr result (IsAsBefore self.old self.new) }
    {
        self.reserve_slot()?;
        Ok(self.take_slot(kind))
    }

    /// The address of the next instruction.
    pub fn here(&self) -> Result<u32, NoMemory>
        ensures address { IfOk result (λ at. at ≡ length (made self.now)) }
        ensures small { IfOk result (λ at. at ≤ instr_limit) }
    {
        if self.code.len() > INSTR_LIMIT as usize {
            return Err(NoMemory);
        }
        Ok(self.code.len() as u32)
    }

    /// Sets the target of the jump at an address.
    pub fn aim(&mut self, at: u32, target: u32)
        ensures aims { Aims self.old self.new at target }
    {
        if at as usize >= self.code.len() {
            return;
        }
        let (jump, line) = self.code[at as usize];
        self.code[at as usize] = (aimed_at(jump, target), line);
    }

    /// Sends the number of the last instruction into another slot.
    pub fn redirect(&mut self, to: u32)
        ensures redirects { ChangesLast self.old self.new (pieces.aim to) }
    {
        let count = self.code.len();
        if count == 0 {
            return;
        }
        let (instr, line) = self.code[count - 1];
        self.code[count - 1] = (sent_to(instr, to), line);
    }

    /// Sends the place of the last instruction into another slot.
    pub fn redirect_place(&mut self, to: u32)
        ensures redirects { ChangesLast self.old self.new (pieces.aim_place to) }
    {
        let count = self.code.len();
        if count == 0 {
            return;
        }
        let (instr, line) = self.code[count - 1];
        self.code[count - 1] = (placed_to(instr, to), line);
    }

    /// The front of a phrase of which the first alternative is taken: its mark, and the address of
    /// the choice, which is still to be aimed where the code goes on without an alternative. `Cut`
    /// of the mark goes behind the phrase.
    pub fn begin_first(&mut self, line: u32) -> Result<(u32, u32), NoMemory>
        ensures mark { IfOk result (λ r. r.0 ≡ self.old.next) }
        ensures choice { IfOk result (λ r. r.1 ≡ length (made self.old) + 1) }
        ensures puts { OnOk result (Appends self.old self.new
            (pieces.begin_first line self.old.next 0) (slot.Mark ∷ [])) }
        ensures refused { OnErr result (IsAsBefore self.old self.new) }
    {
        let mark = self.next;
        let at = self.put_marked(
            line,
            &[Instr::Mark { to: mark }, Instr::Choose { resume: 0 }],
        )?;
        Ok((mark, at + 1))
    }

    /// The front of FORALL: its mark, and its address, which is still to be aimed.
    pub fn begin_forall(&mut self, line: u32) -> Result<(u32, u32), NoMemory>
        ensures mark { IfOk result (λ r. r.0 ≡ self.old.next) }
        ensures forall { IfOk result (λ r. r.1 ≡ length (made self.old)) }
        ensures puts { OnOk result (Appends self.old self.new
            (pieces.begin_forall line self.old.next 0) (slot.Mark ∷ [])) }
        ensures refused { OnErr result (IsAsBefore self.old self.new) }
    {
        let mark = self.next;
        let forall = self.put_marked(line, &[Instr::Forall { mark, resume: 0 }])?;
        Ok((mark, forall))
    }

    /// Behind the alternative of the first part of FORALL: the mark of the body, and the address of
    /// the overlay, which is still to be aimed.
    pub fn begin_each(&mut self, line: u32, mark: u32) -> Result<(u32, u32), NoMemory>
        ensures inner { IfOk result (λ r. r.0 ≡ self.old.next) }
        ensures overlay { IfOk result (λ r. r.1 ≡ length (made self.old)) }
        ensures puts { OnOk result (Appends self.old self.new
            (pieces.begin_each line mark self.old.next 0) (slot.Mark ∷ [])) }
        ensures refused { OnErr result (IsAsBefore self.old self.new) }
    {
        let inner = self.next;
        let overlay = self.put_marked(
            line,
            &[
                Instr::Overlay { mark, resume: 0 },
                Instr::Mark { to: inner },
            ],
        )?;
        Ok((inner, overlay))
    }

    /// Behind the body of FORALL.
    pub fn end_each(
        &mut self,
        line: u32,
        mark: u32,
        inner: u32,
        overlay: u32,
    ) -> Result<(), NoMemory>
        ensures ends { OnOk result (EndsEach self.old self.new line mark inner overlay) }
        ensures refused { OnErr result (IsAsBefore self.old self.new) }
    {
        let at = self.put_all(
            line,
            &[
                Instr::Cut { mark: inner },
                Instr::Keep { mark },
                Instr::Fail,
            ],
        )?;
        self.aim(overlay, at + 2);
        Ok(())
    }

    /// Behind both parts of FORALL.
    pub fn end_forall(&mut self, line: u32, forall: u32) -> Result<(), NoMemory>
        ensures ends { OnOk result (EndsForall self.old self.new line forall) }
        ensures refused { OnErr result (IsAsBefore self.old self.new) }
    {
        let at = self.put_all(line, &[Instr::Finish])?;
        self.aim(forall, at);
        Ok(())
    }

    /// The instructions with their lines, and the kinds of the slots.
    pub fn finish(self) -> (Vec<(Instr, u32)>, Vec<SlotKind>)
        ensures code { result.0 ≡ self.code }
        ensures kinds { result.1 ≡ self.kinds }
    {
        (self.code, self.kinds)
    }
}

// The same jump to another address.
fn aimed_at(jump: Instr, to: u32) -> Instr
    ensures { result ≡ with_target jump to }
{
    match jump {
        Instr::Jump { .. } => Instr::Jump { to },
        Instr::JumpZero { value, .. } => Instr::JumpZero { value, to },
        Instr::Choose { .. } => Instr::Choose { resume: to },
        Instr::Forall { mark, .. } => Instr::Forall { mark, resume: to },
        Instr::Overlay { mark, .. } => Instr::Overlay { mark, resume: to },
        Instr::Step {
            counter,
            limit,
            by,
            ..
        } => Instr::Step {
            counter,
            limit,
            by,
            out: to,
        },
        other => other,
    }
}

// The same instruction with its number for another slot.
fn sent_to(instr: Instr, to: u32) -> Instr
    ensures { result ≡ pieces.aim to instr }
{
    match instr {
        Instr::Const { value, .. } => Instr::Const { to, value },
        Instr::Load { from, .. } => Instr::Load { to, from },
        Instr::Add { left, right, .. } => Instr::Add { to, left, right },
        Instr::Sub { left, right, .. } => Instr::Sub { to, left, right },
        Instr::Mul { left, right, .. } => Instr::Mul { to, left, right },
        Instr::Div { left, right, .. } => Instr::Div { to, left, right },
        Instr::Mod { left, right, .. } => Instr::Mod { to, left, right },
        other => other,
    }
}

// The same instruction with its place for another slot.
fn placed_to(instr: Instr, to: u32) -> Instr
    ensures { result ≡ pieces.aim_place to instr }
{
    match instr {
        Instr::Local { first, .. } => Instr::Local { to, first },
        Instr::Global { first, .. } => Instr::Global { to, first },
        Instr::Same { from, .. } => Instr::Same { to, from },
        Instr::Outer { link, first, .. } => Instr::Outer { to, link, first },
        Instr::OuterSame { link, slot, .. } => Instr::OuterSame { to, link, slot },
        Instr::Field { from, offset, .. } => Instr::Field { to, from, offset },
        Instr::Index {
            from,
            index,
            range,
            ..
        } => Instr::Index {
            to,
            from,
            index,
            range,
        },
        other => other,
    }
}
