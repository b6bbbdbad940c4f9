// What becomes of a slot.

/// The new number of a slot, and where it is live: behind the address `low`, up to `high`. A slot
/// whose `high` is `KEPT` has its new number for itself, wherever the machine is.
#[derive(Clone, Copy)]
pub struct Stretch {
    pub slot: u32,
    pub low: u32,
    pub high: u32,
}

/// The end of a stretch that has none.
pub const KEPT: u32 = u32::MAX;

/// The stretch of a slot that is live nowhere, before anything of it was seen.
pub const NOWHERE: Stretch = Stretch {
    slot: 0,
    low: u32::MAX,
    high: 0,
};
