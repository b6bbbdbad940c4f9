// The instructions, in the order of their opcodes from 1 on.
ghost use Rattle.std.specs.Prelude.{◌≡◌};
ghost use Rattle.alma_code.specs.Rules.{ends_routine};

/// An instruction; what each does is `act` of specs/Machine. Slots are those of the top frame;
/// ranges, texts and routines are numbers in the tables of the code.
#[derive(Clone, Copy)]
pub enum Instr {
    Const {
        to: u32,
        value: i64,
    },
    Move {
        to: u32,
        from: u32,
    },
    Add {
        to: u32,
        left: u32,
        right: u32,
    },
    Sub {
        to: u32,
        left: u32,
        right: u32,
    },
    Mul {
        to: u32,
        left: u32,
        right: u32,
    },
    Div {
        to: u32,
        left: u32,
        right: u32,
    },
    Mod {
        to: u32,
        left: u32,
        right: u32,
    },
    Neg {
        to: u32,
        from: u32,
    },
    Equal {
        to: u32,
        left: u32,
        right: u32,
    },
    Less {
        to: u32,
        left: u32,
        right: u32,
    },
    LessEq {
        to: u32,
        left: u32,
        right: u32,
    },
    Flip {
        to: u32,
        from: u32,
    },
    InRange {
        value: u32,
        range: u32,
    },
    Local {
        to: u32,
        first: u32,
    },
    Global {
        to: u32,
        first: u32,
    },
    Same {
        to: u32,
        from: u32,
    },
    Field {
        to: u32,
        from: u32,
        offset: u32,
    },
    Index {
        to: u32,
        from: u32,
        index: u32,
        range: u32,
    },
    Load {
        to: u32,
        from: u32,
    },
    Store {
        to: u32,
        from: u32,
    },
    Known {
        to: u32,
        of: u32,
    },
    Bind {
        place: u32,
        value: u32,
        range: u32,
    },
    Unify {
        left: u32,
        left_range: u32,
        right: u32,
        right_range: u32,
    },
    CopyCells {
        to: u32,
        from: u32,
    },
    SameCells {
        left: u32,
        right: u32,
    },
    Jump {
        to: u32,
    },
    JumpZero {
        value: u32,
        to: u32,
    },
    Check {
        value: u32,
    },
    Fail,
    Mark {
        to: u32,
    },
    Cut {
        mark: u32,
    },
    Choose {
        resume: u32,
    },
    Forall {
        mark: u32,
        resume: u32,
    },
    Overlay {
        mark: u32,
        resume: u32,
    },
    Keep {
        mark: u32,
    },
    Finish,
    Call {
        routine: u32,
        first: u32,
        to: u32,
    },
    Return,
    ReturnValue {
        value: u32,
    },
    ReadInt {
        place: u32,
        range: u32,
    },
    ReadChar {
        place: u32,
        range: u32,
    },
    WriteInt {
        value: u32,
    },
    WriteChar {
        value: u32,
    },
    WriteBool {
        value: u32,
    },
    WriteText {
        text: u32,
    },
    WriteLine,
    Fault {
        number: u32,
    },
    Step {
        counter: u32,
        limit: u32,
        by: u32,
        out: u32,
    },
    Own {
        to: u32,
    },
    Chain {
        to: u32,
        link: u32,
        slot: u32,
    },
    Outer {
        to: u32,
        link: u32,
        first: u32,
    },
    OuterSame {
        to: u32,
        link: u32,
        slot: u32,
    },
}

impl Instr {
    /// Whether the machine does not simply go on to the next address behind it: one of the five
    /// forms that may stand last in a routine.
    pub fn ends_routine(self) -> bool
        ensures { result ≡ ends_routine self }
    {
        matches!(
            self,
            Instr::Jump { .. }
                | Instr::Fail
                | Instr::Return
                | Instr::ReturnValue { .. }
                | Instr::Fault { .. }
        )
    }
}

/// One word of an instruction, by what it names.
#[derive(Clone, Copy)]
pub enum Word {
    /// A number slot.
    Number(u32),
    /// A place slot.
    Place(u32),
    /// A mark slot.
    Mark(u32),
    /// A link slot.
    Link(u32),
    /// A slot of any kind.
    Slot(u32),
    /// A range of the code.
    Range(u32),
    /// A text of the code.
    Text(u32),
    /// The address of an instruction.
    Address(u32),
    /// No word, one that names none of these, or one with a rule of its own, as those of a Call.
    Free,
}
