//! Tests of memory and machine.
#![tactic(auto)]

#[cfg(test)]
mod machine;
#[cfg(test)]
mod memory;
#[cfg(test)]
mod over;
