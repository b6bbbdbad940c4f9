// What a run shows.

/// What a run shows.
#[derive(Clone, Copy)]
pub enum Showing<'n> {
    /// Its prints, and its counts where they are asked for.
    Prints(bool),
    /// The text that traces it, with the values of watched names.
    Traces(&'n [&'n str]),
}
