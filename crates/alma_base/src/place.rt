// Places in a source, and the status of a run of the program.

/// A place in a source: its line and its column in bytes, both counted from 1.
#[derive(Clone, Copy, Debug, PartialEq, Eq)]
pub struct Place {
    pub line: u32,
    pub column: u32,
}

/// The exit status of the program.
#[derive(Clone, Copy)]
pub struct Status(pub u8);
