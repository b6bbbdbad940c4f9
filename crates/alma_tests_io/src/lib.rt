//! What public calls answer, and what is printed. Tests alone, of values and of the outside.
#![tactic(auto)]

#[cfg(test)]
mod base;
#[cfg(test)]
mod io;
