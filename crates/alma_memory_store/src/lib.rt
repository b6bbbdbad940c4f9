//! The live frames as regions of one list of slots, with whole copies that cost nothing, and the
//! carry of a FORALL.
#![tactic(auto)]

mod carry;
mod image;
mod layout;
mod live_frames;
mod past;
mod store;

pub use carry::{Carry, SlotPlace};
pub use image::Images;
pub use layout::{put_call, put_start};
pub use live_frames::LiveFrames;
pub use past::changed_to;
pub use store::{Region, Slot, Store};
