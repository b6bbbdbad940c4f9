//! Worked codes, and tests of names, programs, code and objects.
#![tactic(auto)]

#[cfg(test)]
mod code;
#[cfg(test)]
mod ir;
#[cfg(test)]
mod names;
#[cfg(test)]
mod object;
#[cfg(test)]
mod verify;
pub mod worked;
