//! A list that goes back: whole copies of it, kept as one list and a trail of notes.
#![tactic(auto)]

mod rewind;

pub use rewind::Rewind;
