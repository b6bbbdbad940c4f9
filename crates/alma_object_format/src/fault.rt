// Why bytes are no object.
ghost use Rattle.std.specs.Prelude.{◌≡◌};
ghost use Rattle.alma_object_format.specs.Fault.{object_fault_name, object_fault_number};

/// The first fault of bytes that are no object. Numbers are offsets, but for Version and Cut.
#[derive(Clone, Copy, Debug, PartialEq, Eq)]
pub enum ObjectFault {
    /// The bytes do not begin with the magic.
    Magic,
    /// No version of the format has this number.
    Version(u16),
    /// A part is not whole; how many bytes there are.
    Cut(usize),
    /// Bytes stand after the last section.
    Trailing(usize),
    /// A field that breaks a rule of its record, or a count past its greatest value.
    BadCount(usize),
    /// A record of the code that is no instruction.
    BadOpcode(usize),
    /// An end of a name that does not fit, or a byte that cannot stand in its name.
    BadName(usize),
}

impl ObjectFault {
    /// The name of the fault.
    pub fn name(self) -> &'static [u8]
        ensures { result.now ≡ object_fault_name self }
    {
        match self {
            ObjectFault::Magic => b"Magic",
            ObjectFault::Version(_) => b"Version",
            ObjectFault::Cut(_) => b"Cut",
            ObjectFault::Trailing(_) => b"Trailing",
            ObjectFault::BadCount(_) => b"BadCount",
            ObjectFault::BadOpcode(_) => b"BadOpcode",
            ObjectFault::BadName(_) => b"BadName",
        }
    }

    /// Its number, which Magic has not.
    pub fn number(self) -> Option<usize>
        ensures { result ≡ object_fault_number self }
    {
        match self {
            ObjectFault::Magic => None,
            ObjectFault::Version(version) => Some(usize::from(version)),
            ObjectFault::Cut(number)
            | ObjectFault::Trailing(number)
            | ObjectFault::BadCount(number)
            | ObjectFault::BadOpcode(number)
            | ObjectFault::BadName(number) => Some(number),
        }
    }
}
